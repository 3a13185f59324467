//! Lines of a report: annotated listing lines, and the texts and numbers of the others.
#![tactic(auto)]

mod annotation;
pub mod text;

pub use annotation::annotate;
