//! Evidence that a session's facts were shown: written from one run of each task, and checked by another.
#![tactic(auto)]

mod claims;
mod counting;
mod fields;
mod firsts;
mod proving;
mod runs;
mod verifying;
mod writing;

pub use firsts::First;
pub use proving::{ProveFault, prove};
pub use verifying::{VerifyFault, verify};
