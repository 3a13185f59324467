//! Which bytes spell a job, reading one, and the items of a schedule behind it.
#![tactic(auto)]

mod binding;
mod card;
mod cards;
mod drafts;
mod grammar;
mod job_names;
mod jobs;
mod limit;
mod lines;
mod parts;
mod pieces;
mod reader;
mod refused;
mod schedule;
mod steps;
mod taken;
mod task;
mod words;

pub use grammar::Grammar;
pub use jobs::{JobFault, ReadJob, read_job};
pub use limit::Limit;
pub use lines::{FirstLine, first_line};
pub use pieces::Fed;
pub use reader::JobReader;
pub use schedule::{Item, item_of};
