//! How a task ends, and how it goes on after an instruction.
ghost use Rattle.std.specs.Prelude.{◌≡◌, ◌/◌, ◌%◌};
ghost use Rattle.s370_state.specs.Meaning.{next_after};

use cov_base::Addr;

/// How a task ends.
#[derive(Clone, Copy)]
pub enum Ending {
    /// Before an instruction the instruction address was X'FFFFFE', `RETURN_ADDRESS`.
    Returned,
    /// By the task call SVC 3.
    Exit,
    /// By a program interruption with this code, X'1' to X'B'.
    Abend(u8),
    /// By an SVC of this number, which is no task call and which nothing else answers.
    BadSvc(u8),
    /// It read a touch byte, the first at this address.
    Touched(Addr),
    /// By an SVC 1 whose bytes passed the output's room.
    OutFull,
    /// It did as many instructions as its budget.
    Spent,
}

/// How a task goes on after an instruction.
#[derive(Clone, Copy)]
pub enum Next {
    /// At its instruction address.
    On,
    /// Not at all: it has ended so.
    Ended(Ending),
}

/// How a task goes on after an overflow's code, 8 or X'A', or after 0: code 8 ends it under the mask's first
/// bit, code X'A' under its second (Principles of Operation, "Program Mask").
#[tactic(auto, unfolding(crate::specs::Meaning::next_after, crate::specs::Meaning::is_enabled))]
pub fn next_after(mask: u8, code: u8) -> Next
    ensures { result ≡ next_after mask code }
{
    if code == 0 {
        Next::On
    } else if code == 8 {
        if mask >= 8 {
            Next::Ended(Ending::Abend(code))
        } else {
            Next::On
        }
    } else if mask / 4 % 2 == 1 {
        Next::Ended(Ending::Abend(code))
    } else {
        Next::On
    }
}
