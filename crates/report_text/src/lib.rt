//! The texts of a job that was run: its report, its counts, and the summary of a generated one; and that of its places.
#![tactic(auto)]

mod counts;
mod places;
mod sessions;
mod storage;
mod tasks;
mod trial;
mod whole;
mod words;
mod writing;

pub use counts::{count_line, count_text};
pub use places::{is_monitored, table};
pub use sessions::{module_name, session_part};
pub use storage::storage_part;
pub use trial::trial_text;
pub use whole::{report, results_part, tasks_text, words_line};
pub use words::{add_bytes, add_name, task_words};
pub use writing::put;
