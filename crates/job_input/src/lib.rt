//! What the words of a command line ask for, by which the form of its input is known.
//! From a source to a job: the source is read to its end, and the job of its first lines meanwhile. What stands behind the
//! job is kept where more than a job may come, and else is a fault.
//! From the job's listings to its tables: a table for each module with a listing, and all places of the job with their
//! instructions; or the first fault of the listings, module by module.
//! Faults are values, of the source, the job or a listing; what they are told by, text and status, is made above.
#![tactic(auto)]

mod faults;
mod form;
mod incoming;
mod reading;
mod table_faults;
mod tables;
mod words;

pub use faults::InputFault;
pub use form::Form;
pub use reading::{Input, job_of_source, read_input};
pub use table_faults::TablesFault;
pub use tables::tables_of;
pub use words::{Command, command_of};
