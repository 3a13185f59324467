//! The form of an input with a job.

use job_text::Grammar;

/// How an input with a job is read.
#[derive(Clone, Copy)]
pub struct Form {
    /// The grammar of its job.
    pub grammar: Grammar,
    /// More may stand behind the job.
    pub more: bool,
}
