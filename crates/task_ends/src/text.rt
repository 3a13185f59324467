//! The text of the ends of a job's tasks.
ghost use Rattle.std.specs.Prelude.{◌≡◌, ℕ, ◌+◌, ◌<◌, ◌≤◌, ◌++◌, ◌∷◌, [], Some, true, length, nat_lt, if◌then◌else◌, codes, decimal};
ghost use Rattle.arrayvec.specs.ArrayVec.{array_vec_len};
ghost use Rattle.brk_table.specs.Meaning.{in_image};
ghost use Rattle.cov_base.specs.Meaning.{unpadded};
ghost use Rattle.report_text.specs.Writes.{Prints};
ghost use Rattle.session_book.specs.Meaning.{task_of};
ghost use Rattle.task_ends.specs.Ends.{IfEnds, PrintsEnds};
ghost use Rattle.task_ends.specs.Meaning.{module_words, place_words, end_line, end_lines, unlisted_lines, end_parts, unlisted_parts};

use crate::running::Ends;
use crate::unlisted::is_in;
use annotator::text::{add_hex, add_number, add_text};
use arrayvec::ArrayVec;
use cov_base::{Addr, Name};
use cov_outside::{Failed, Sink};
use module_area::{Image, Images};
use report_text::{add_name, is_monitored, module_name, put, task_words, words_line};
use session_book::Job;
use task_run::TaskEnd;

/// Adds the module that has the address, and the location in it.
fn add_module(line: &mut ArrayVec<u8, 160>, image: &Image, at: Addr)
    requires inside { in_image image.now at ≡ true }
    requires room { array_vec_len line.old ≤ 60 }
    ensures items { line.new.items ≡ line.old.items ++ module_words image.now at }
    ensures short { array_vec_len line.new ≤ array_vec_len line.old + 16 }
{
    add_text(line, b" ");
    add_name(line, &image.name);
    add_text(line, b" ");
    add_hex(line, at.get() - image.base.get(), 6);
}

/// Adds that the address is in private storage of so many bytes, where it is.
fn add_private(line: &mut ArrayVec<u8, 160>, private: u32, at: Addr)
    requires { array_vec_len line.old ≤ 60 }
    ensures items { line.new.items ≡ line.old.items ++ (if nat_lt at private then codes " PRIVATE" else []) }
    ensures short { array_vec_len line.new ≤ array_vec_len line.old + 16 }
{
    if at.get() < private {
        add_text(line, b" PRIVATE");
    }
}

/// Adds what is at the address of a task with so many bytes of private storage.
fn add_place(line: &mut ArrayVec<u8, 160>, images: &Images, private: u32, at: Addr)
    requires { array_vec_len line.old ≤ 60 }
    ensures items { line.new.items ≡ line.old.items ++ place_words private at images.now }
    ensures short { array_vec_len line.new ≤ array_vec_len line.old + 16 }
{
    for image in &images.0 {
        if is_in(image, at) {
            add_module(line, image, at);
            return;
        }
    }
    add_private(line, private, at);
}

/// Where a task of this name and with so many bytes of private storage has ended.
#[tactic(auto, unfolding(crate::specs::Meaning::end_line))]
fn end_line(name: &Name, end: &TaskEnd, images: &Images, private: u32) -> ArrayVec<u8, 160>
    ensures { result.items ≡ end_line name.now end.now (place_words private end.now.at images.now) ++ 10 ∷ [] }
{
    let mut line = task_words(name, Some(end.ending), end.done);
    add_text(&mut line, b" AT ");
    add_hex(&mut line, end.at.get(), 6);
    add_place(&mut line, images, private, end.at);
    line.push(b'\n');
    line
}

/// How many visits were begun in a module where no place begins.
fn unlisted_line(name: &Name, count: u64) -> ArrayVec<u8, 160>
    ensures { result.items ≡ (codes "UNLISTED " ++ unpadded name.now ++ codes " " ++ decimal count) ++ 10 ∷ [] }
{
    let mut line = ArrayVec::new();
    add_text(&mut line, b"UNLISTED ");
    add_name(&mut line, name);
    add_text(&mut line, b" ");
    add_number(&mut line, count);
    line.push(b'\n');
    line
}

/// The line of a task.
fn task_text<K: Sink>(sink: &mut K, job: &Job, t: usize, end: &TaskEnd) -> Result<(), Failed>
    requires { t < length job.now.tasks }
    ensures { Prints K.Sink sink.old sink.new result (end_lines job.now t end.now) }
{
    let card = job.card(t);
    put(sink, end_line(&card.name, end, &job.images, card.private))
}

/// The lines of the tasks.
fn tasks_text<K: Sink>(sink: &mut K, job: &Job, ends: &Ends) -> Result<(), Failed>
    requires { length ends.now.tasks.items ≡ length job.now.tasks }
    ensures { IfEnds job.now ends.now (λ each _. Prints K.Sink sink.old sink.new result (end_parts job.now each)) }
{
    for t in 0..job.task_count() {
        task_text(sink, job, t, &ends.tasks[t])?;
    }
    Ok(())
}

/// The line of a module, where it has a listing.
fn module_text<K: Sink>(sink: &mut K, job: &Job, m: u32, count: u64) -> Result<(), Failed>
    requires { m < length job.now.images }
    ensures { Prints K.Sink sink.old sink.new result (unlisted_lines job.now m count) }
{
    if is_monitored(job, m) {
        put(sink, unlisted_line(module_name(job, m), count))
    } else {
        Ok(())
    }
}

/// The lines of the modules.
fn modules_text<K: Sink>(sink: &mut K, job: &Job, ends: &Ends) -> Result<(), Failed>
    requires { length ends.now.unlisted.items ≡ length job.now.images }
    ensures { IfEnds job.now ends.now (λ _ counts. Prints K.Sink sink.old sink.new result (unlisted_parts job.now counts)) }
{
    for m in 0..job.module_count() {
        module_text(sink, job, m, ends.unlisted[m as usize])?;
    }
    Ok(())
}

/// Writes a line for each task of the job, with its ending, the instructions done, the address and what is there, and one
/// for each module that has a listing, with how many visits were begun in it where no place begins. Failed only where the
/// sink's count of faults rose; the sink has then taken a first part of the text. Takes no memory.
pub fn write_ends<K: Sink>(sink: &mut K, job: &Job, ends: &Ends) -> Result<(), Failed>
    requires tasks { length ends.now.tasks.items ≡ length job.now.tasks }
    requires modules { length ends.now.unlisted.items ≡ length job.now.images }
    ensures { PrintsEnds K.Sink job.now ends.now sink.old sink.new result }
{
    put(sink, words_line(b"COVERAGE ENDS"))?;
    tasks_text(sink, job, ends)?;
    modules_text(sink, job, ends)?;
    put(sink, words_line(b"END"))
}
