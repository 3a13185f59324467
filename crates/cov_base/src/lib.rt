//! Names, numbers, addresses, limits, facts, marks and want of memory, on which every other crate stands.
#![tactic(auto)]

mod address;
mod constants;
mod facts;
mod limits;
mod marks;
mod names;
mod numbers;
mod shortage;

pub use address::Addr;
pub use constants::{BREAKPOINT, INPUT_LIMIT, RETURN_ADDRESS};
pub use facts::{Bits, Fact, Kind};
pub use limits::{
    BUDGET_LIMIT, LINE_LIMIT, MODULE_LIMIT, PHASE_LIMIT, PLACE_LIMIT, PRIVATE_LIMIT, ROOM_LIMIT,
    SESSION_LIMIT, SIZE_LIMIT, TASK_LIMIT,
};
pub use marks::{Mark, mark_of};
pub use names::Name;
pub use numbers::{PlaceNo, SessNo, TaskNo};
pub use shortage::NoMemory;
