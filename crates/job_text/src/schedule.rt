//! The items of a schedule.
ghost use Rattle.std.specs.Prelude.{◌≡◌};
ghost use Rattle.job_text.specs.Meaning as spell;

use crate::lines::first_of;
use crate::words::is;
use cov_base::{Name, TaskNo};
use session_book::Job;

/// What a line of a schedule asks for, of the task whose number in the job it holds.
#[derive(Clone, Copy)]
pub enum Item {
    /// `FETCH task`
    Fetch(TaskNo),
    /// `MARK task`
    Mark(TaskNo),
    /// `LIFT task`
    Lift(TaskNo),
    /// `DO task`
    Do(TaskNo),
    /// `GO task`
    Go(TaskNo),
    /// `PLANT task`
    Plant(TaskNo),
    /// `CLOSE task`
    Close(TaskNo),
    /// `ENDSCHED`
    End,
}

fn item_for(key: &[u8], task: TaskNo) -> Option<Item>
    ensures { result ≡ spell.item_for key.now task }
{
    if is(key, b"FETCH") {
        return Some(Item::Fetch(task));
    }
    if is(key, b"MARK") {
        return Some(Item::Mark(task));
    }
    if is(key, b"LIFT") {
        return Some(Item::Lift(task));
    }
    if is(key, b"DO") {
        return Some(Item::Do(task));
    }
    if is(key, b"GO") {
        return Some(Item::Go(task));
    }
    if is(key, b"PLANT") {
        return Some(Item::Plant(task));
    }
    if is(key, b"CLOSE") {
        return Some(Item::Close(task));
    }
    None
}

fn task_item(job: &Job, key: &[u8], name: &[u8]) -> Option<Item>
    ensures { result ≡ spell.task_item job.now key.now name.now }
{
    let name = Name::read(name)?;
    let task = job.task_named(&name)?;
    item_for(key, task)
}

/// The item that the line is; none exactly where it is no item, or the name in it is that of no task of the job; ENDSCHED
/// has no name. The line is given without its LF. Takes no memory.
pub fn item_of(job: &Job, line: &[u8]) -> Option<Item>
    ensures { result ≡ spell.item_at job.now line.now }
{
    match first_of(b' ', line) {
        None => {
            if is(line, b"ENDSCHED") {
                Some(Item::End)
            } else {
                None
            }
        }
        Some(at) => {
            let (key, rest) = line.split_at(at);
            task_item(job, key, &rest[1..])
        }
    }
}
