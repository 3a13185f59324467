//! Pieces of lines.
ghost use Rattle.std.specs.Prelude.{◌≡◌, ◌+◌, ◌*◌, ◌≤◌, ◌<◌, ◌++◌, length};
ghost use Rattle.arrayvec.specs.ArrayVec.{array_vec_len};
ghost use Rattle.cov_base.specs.Meaning.{unpadded};
ghost use Rattle.report_text.specs.Meaning.{ending_words, register_line, task_words, hex_bytes};

use annotator::text::{add_hex, add_number, add_text};
use arrayvec::ArrayVec;
use cov_base::Name;
use s370_state::Ending;

/// Adds a name without padding.
pub fn add_name(line: &mut ArrayVec<u8, 160>, name: &Name)
    requires { array_vec_len line.old ≤ 152 }
    ensures items { line.new.items ≡ line.old.items ++ unpadded name.now }
    ensures short { array_vec_len line.new ≤ array_vec_len line.old + 8 }
{
    add_text(line, name.bytes());
}

/// Adds each byte in two hexadecimal digits, for which the line has room.
pub fn add_bytes(line: &mut ArrayVec<u8, 160>, bytes: &[u8])
    requires { array_vec_len line.old + 2 * length bytes.now ≤ 160 }
    ensures items { line.new.items ≡ line.old.items ++ hex_bytes bytes.now }
    ensures len { array_vec_len line.new ≡ array_vec_len line.old + 2 * length bytes.now }
{
    for byte in bytes {
        add_hex(line, u32::from(*byte), 2);
    }
}

/// Adds how a task ended.
#[tactic(auto, unfolding(crate::specs::Meaning::ending_words))]
fn add_ended(line: &mut ArrayVec<u8, 160>, ending: Ending)
    requires { array_vec_len line.old ≤ 120 }
    ensures items { line.new.items ≡ line.old.items ++ ending_words (Some ending) }
    ensures short { array_vec_len line.new ≤ array_vec_len line.old + 17 }
{
    match ending {
        Ending::Returned => add_text(line, b"RETURNED"),
        Ending::Exit => add_text(line, b"EXIT"),
        Ending::Abend(code) => {
            add_text(line, b"ABEND ");
            add_hex(line, u32::from(code % 16), 1);
        }
        Ending::BadSvc(number) => {
            add_text(line, b"BADSVC ");
            add_number(line, u64::from(number));
        }
        Ending::Touched(at) => {
            add_text(line, b"TOUCHED ");
            add_hex(line, at.get(), 6);
        }
        Ending::OutFull => add_text(line, b"OUTFULL"),
        Ending::Spent => add_text(line, b"SPENT"),
    }
}

/// Adds how a task ended, or that it is running.
#[tactic(auto, unfolding(crate::specs::Meaning::ending_words))]
pub fn add_ending(line: &mut ArrayVec<u8, 160>, ending: Option<Ending>)
    requires { array_vec_len line.old ≤ 120 }
    ensures items { line.new.items ≡ line.old.items ++ ending_words ending }
    ensures short { array_vec_len line.new ≤ array_vec_len line.old + 17 }
{
    match ending {
        Some(ending) => add_ended(line, ending),
        None => add_text(line, b"RUNNING"),
    }
}

/// The beginning of a task's line: its name, how it ended or that it is running, and the instructions that it has done.
#[tactic(auto, unfolding(crate::specs::Meaning::task_words))]
pub fn task_words(name: &Name, ending: Option<Ending>, done: u32) -> ArrayVec<u8, 160>
    ensures words { result.items ≡ task_words name.now ending done }
    ensures short { array_vec_len result ≤ 48 }
{
    let mut line = ArrayVec::new();
    add_text(&mut line, b"TASK ");
    add_name(&mut line, name);
    add_text(&mut line, b" ");
    add_ending(&mut line, ending);
    add_text(&mut line, b" COUNT ");
    add_number(&mut line, u64::from(done));
    line
}

#[tactic(auto, unfolding(crate::specs::Meaning::register_line))]
/// Adds registers, each in eight hexadecimal digits after a blank.
pub fn add_registers(line: &mut ArrayVec<u8, 160>, regs: &[u32])
    requires { array_vec_len line.old + 9 * length regs.now ≤ 160 }
    ensures items { line.new.items ≡ register_line line.old.items regs.now }
    ensures len { array_vec_len line.new ≡ array_vec_len line.old + 9 * length regs.now }
{
    for register in regs {
        add_text(line, b" ");
        add_hex(line, *register, 8);
    }
}
