//! What the commands write of one job fits together: marks and evidence are verified, and marks are shown as a part of the
//! report.
#![tactic(auto)]

mod laws;

pub use laws::texts_fit_by_law;
