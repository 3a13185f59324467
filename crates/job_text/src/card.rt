//! The cards of a job.
ghost use Rattle.std.specs.Prelude.{◌≤◌};

use cov_base::{Addr, Name};
use module_area::DataCard;
use session_book::Service;

/// What a REG card says: the number of a general register, 0 to 15, and its word as the task begins.
#[derive(Clone, Copy)]
pub(crate) struct RegCard {
    pub number: u8,
    pub value: u32,
    ghost in_range: { number ≤ 15 },
}

/// What a card says. A module's size and a task's private storage and room are in bytes, its budget in
/// instructions. The rules of one card alone hold: a module stands on a doubleword from X'100000' on, has an even
/// size of at least 2 and ends by X'FFF000'; a budget is at least 1; TEXT, DATA and INPUT have 1 to 64 bytes; a register
/// is one of 16; a service's number is 0 or 6 to 254. No limit is tested.
#[derive(Drop)]
pub(crate) enum Card {
    /// `COVERJOB 1`
    Cover,
    /// `MODULE name base size`
    Module {
        name: Name,
        base: Addr,
        size: u32,
    },
    /// `TEXT bytes`
    Text(Vec<u8>),
    /// `LISTING n`
    Listing(u32),
    /// `SERVICE number entry`
    Service(Service),
    /// `PHASE name`
    Phase(Name),
    /// `SESSION name module ..` or `SESSION name BY task module ..`
    Session {
        name: Name,
        by: Option<Name>,
        modules: Vec<Name>,
    },
    /// `TASK name entry private budget room`
    Task {
        name: Name,
        entry: Addr,
        private: u32,
        budget: u32,
        room: u32,
    },
    /// `REG n value`
    Reg(RegCard),
    /// `DATA offset bytes`
    Data(DataCard),
    /// `INPUT bytes`
    Input(Vec<u8>),
    /// `ENDJOB`
    End,
}
