//! What a report says of a task.
ghost use Rattle.std.specs.Prelude.{◌≡◌, ◌+◌, ◌*◌, ◌<◌, ◌≤◌, ◌++◌, ◌∷◌, [], length, codes, decimal, drop};
ghost use Rattle.report_text.specs.Conditions.{HasResultOf};
ghost use Rattle.report_text.specs.Meaning.{task_part, task_words, register_line, output_rows, output_lines, state_lines, hex_bytes, hexadecimal_row};
ghost use Rattle.report_text.specs.Writes.{Prints};

use crate::storage::storage_part;
use crate::words::{add_bytes, add_registers, task_words};
use crate::writing::put;
use annotator::text::{add_number, add_text};
use arrayvec::ArrayVec;
use cov_base::{Name, TaskNo};
use cov_outside::{Failed, Sink};
use s370_state::{Cpu, Ending};
use session_book::{Job, Results};

/// The name, the ending, the number of instructions done and the condition code of a task.
fn task_line(name: &Name, ending: Option<Ending>, done: u32, condition: u8) -> ArrayVec<u8, 160>
    ensures { result.items ≡ (task_words name.now ending done ++ codes " CC " ++ decimal condition) ++ 10 ∷ [] }
{
    let mut line = task_words(name, ending, done);
    add_text(&mut line, b" CC ");
    add_number(&mut line, u64::from(condition));
    line.push(b'\n');
    line
}

/// A label and eight registers.
#[tactic(auto, unfolding(crate::specs::Meaning::register_line))]
fn register_line(label: &[u8], regs: &[u32]) -> ArrayVec<u8, 160>
    requires label { length label.now ≤ 4 }
    requires regs { length regs.now ≤ 8 }
    ensures { result.items ≡ register_line label.now regs.now ++ 10 ∷ [] }
{
    let mut line = ArrayVec::new();
    add_text(&mut line, label);
    add_registers(&mut line, regs);
    line.push(b'\n');
    line
}

/// The number of bytes of output.
fn output_line(count: usize) -> ArrayVec<u8, 160>
    ensures { result.items ≡ (codes "OUT " ++ decimal count) ++ 10 ∷ [] }
{
    let mut line = ArrayVec::new();
    add_text(&mut line, b"OUT ");
    add_number(&mut line, count as u64);
    line.push(b'\n');
    line
}

/// Bytes alone.
fn bytes_line(bytes: &[u8]) -> ArrayVec<u8, 160>
    requires { length bytes.now ≤ 32 }
    ensures { result.items ≡ hex_bytes bytes.now ++ 10 ∷ [] }
{
    let mut line = ArrayVec::new();
    add_bytes(&mut line, bytes);
    line.push(b'\n');
    line
}

/// What has become of a task, and its processor.
fn state_part<K: Sink>(
    sink: &mut K,
    name: &Name,
    ending: Option<Ending>,
    done: u32,
    cpu: &Cpu,
) -> Result<(), Failed>
    ensures { Prints K.Sink sink.old sink.new result (state_lines name.now ending done cpu.now) }
{
    put(sink, task_line(name, ending, done, cpu.condition()))?;
    put(sink, register_line(b"R0", &cpu.regs()[..8]))?;
    put(sink, register_line(b"R8", &cpu.regs()[8..]))
}

/// Row n of the output.
fn output_row(output: &[u8], n: usize) -> &[u8]
    requires { 32 * n < length output.now }
    ensures value { result.now ≡ hexadecimal_row 32 output.now n }
    ensures fits { length result.now ≤ 32 }
{
    let from = 32 * n;
    let to = (from + 32).min(output.len());
    &output[from..to]
}

/// The output, 32 bytes to a line.
fn output_rows<K: Sink>(sink: &mut K, output: &[u8]) -> Result<(), Failed>
    ensures { Prints K.Sink sink.old sink.new result (output_rows output.now) }
{
    for n in 0..(output.len() + 31) / 32 {
        put(sink, bytes_line(output_row(output, n)))?;
    }
    Ok(())
}

/// The output and its length.
fn output_part<K: Sink>(sink: &mut K, output: &[u8]) -> Result<(), Failed>
    ensures { Prints K.Sink sink.old sink.new result (output_lines output.now) }
{
    put(sink, output_line(output.len()))?;
    output_rows(sink, output)
}

/// What has become of a task of the job: its ending, the instructions done, its condition code and registers, its
/// output, and the rows of its private storage that have changed. Needs the result of this task alone. Failed only where
/// the sink's count of faults rose; the sink has then taken a first part of it. Takes no memory.
pub fn task_text<K: Sink, R: Results>(
    sink: &mut K,
    job: &Job,
    results: &R,
    t: TaskNo,
) -> Result<(), Failed>
    requires task { t.0 < length job.now.tasks }
    requires result { HasResultOf job.now (R.tasks results.now) (R.result_of results.now) t.0 }
    ensures { Prints K.Sink sink.old sink.new result (task_part job.now (R.result_of results.now) t.0) }
{
    let task = job.card(t.0 as usize);
    state_part(
        sink,
        &task.name,
        results.ending(t),
        results.done(t),
        results.cpu(t),
    )?;
    output_part(sink, results.output(t))?;
    storage_part(sink, task, results, t)
}
