//! A task's addresses: private storage from 0 on, and the modules.
#![tactic(auto)]

mod bytes;
mod images;
mod space;

pub use space::TaskSpace;
