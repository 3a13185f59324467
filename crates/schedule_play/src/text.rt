//! The text of a schedule that was played.
ghost use Rattle.std.specs.Prelude.{◌≡◌, ◌+◌, ◌-◌, ◌<◌, ◌≤◌, ◌^◌, ◌++◌, ◌∷◌, [], length, All};
ghost use Rattle.arrayvec.specs.ArrayVec.{array_vec_len};
ghost use Rattle.brk_table.specs.Meaning.{all_places};
ghost use Rattle.brk_table.specs.Places.{IsIn};
ghost use Rattle.cov_base.specs.Meaning.{unpadded};
ghost use Rattle.interleave_core.specs.Results.{Fits};
ghost use Rattle.interleave_core.specs.World.{world_of};
ghost use Rattle.report_text.specs.Conditions.{HasFewLines};
ghost use Rattle.report_text.specs.Writes.{Prints};
ghost use Rattle.session_book.specs.Meaning.{task_of};
ghost use Rattle.schedule_play.specs.Meaning.{letters, or_dash, shown_words, item_words, at_words, event_words, event_line, event_lines, replay_lines};

use crate::playing::Played;
use annotator::text::{add_hex, add_number, add_text};
use arrayvec::ArrayVec;
use brk_table::Tables;
use cov_base::{Bits, Fact, PlaceNo, SessNo, TaskNo};
use cov_outside::{Failed, Sink};
use interleave_core::{Core, Event, Shown};
use job_text::Item;
use report_text::{put, results_part, words_line};
use session_book::Job;

/// Adds the letter of each fact of the set: R ran, W branched, S fell through; or a dash for none.
fn add_letters(line: &mut ArrayVec<u8, 160>, facts: Bits)
    requires { array_vec_len line.old ≤ 150 }
    ensures items { line.new.items ≡ line.old.items ++ or_dash (letters facts) }
    ensures short { array_vec_len line.new ≤ array_vec_len line.old + 4 }
{
    let (ran, went, stayed) = (
        facts.has(Fact::Ran),
        facts.has(Fact::Went),
        facts.has(Fact::Stayed),
    );
    if !ran && !went && !stayed {
        add_text(line, b"-");
    }
    if ran {
        add_text(line, b"R");
    }
    if went {
        add_text(line, b"W");
    }
    if stayed {
        add_text(line, b"S");
    }
}

/// Adds what an item has shown.
fn add_shown(line: &mut ArrayVec<u8, 160>, shown: Shown)
    requires { array_vec_len line.old ≤ 100 }
    ensures items { line.new.items ≡ line.old.items ++ shown_words shown }
    ensures short { array_vec_len line.new ≤ array_vec_len line.old + 40 }
{
    match shown {
        Shown::Fetched(cell) => {
            add_text(line, b" TAG ");
            add_number(line, u64::from(cell.tag));
            add_text(line, b" HALF ");
            add_hex(line, u32::from(cell.half), 4);
        }
        Shown::Marked(found) => {
            add_text(line, b" OLD ");
            add_letters(line, found);
        }
        Shown::Lifted(true) => add_text(line, b" TAKEN"),
        Shown::Lifted(false) => add_text(line, b" NOT TAKEN"),
        Shown::Done => {}
        Shown::Planted | Shown::Closed => {}
    }
}

/// Adds a word, which ends with its blank, and the name of a task.
fn add_task(line: &mut ArrayVec<u8, 160>, word: &[u8], job: &Job, t: TaskNo)
    requires word { length word.now ≤ 8 }
    requires room { array_vec_len line.old ≤ 80 }
    ensures items { line.new.items ≡ line.old.items ++ word.now ++ unpadded (task_of job.now t.0).name }
    ensures short { array_vec_len line.new ≤ array_vec_len line.old + 16 }
{
    add_text(line, word);
    if (t.0 as usize) < job.tasks.len() {
        add_text(line, job.tasks[t.0 as usize].name.bytes());
    }
}

/// Adds the name of a session and the address of a place.
fn add_at(line: &mut ArrayVec<u8, 160>, job: &Job, tables: &Tables, s: SessNo, p: PlaceNo)
    requires { array_vec_len line.old ≤ 80 }
    ensures items { line.new.items ≡ line.old.items ++ at_words job.now tables.now.places s.0 p.0 }
    ensures short { array_vec_len line.new ≤ array_vec_len line.old + 16 }
{
    add_text(line, b" ");
    let n = s.0.saturating_sub(1) as usize;
    if n < job.sessions.len() {
        add_text(line, job.sessions[n].name.bytes());
    }
    add_text(line, b" ");
    let address = if p.0 < tables.len() {
        tables.place(p).at.get()
    } else {
        0
    };
    add_hex(line, address, 6);
}

/// Adds the session that was planted or closed and the place, where the event says them.
fn add_place(line: &mut ArrayVec<u8, 160>, job: &Job, tables: &Tables, event: Option<Event>)
    requires { array_vec_len line.old ≤ 80 }
    ensures items { line.new.items ≡ line.old.items ++ event_words job.now tables.now.places event }
    ensures short { array_vec_len line.new ≤ array_vec_len line.old + 16 }
{
    match event {
        Some(Event::Plant(s, p)) => add_at(line, job, tables, s, p),
        Some(Event::Close(s, p)) => add_at(line, job, tables, s, p),
        _ => {}
    }
}

/// Adds an item as it stands in a schedule.
fn add_item(line: &mut ArrayVec<u8, 160>, job: &Job, item: Item)
    requires { array_vec_len line.old ≤ 80 }
    ensures items { line.new.items ≡ line.old.items ++ item_words job.now item }
    ensures short { array_vec_len line.new ≤ array_vec_len line.old + 16 }
{
    match item {
        Item::Fetch(t) => add_task(line, b"FETCH ", job, t),
        Item::Mark(t) => add_task(line, b"MARK ", job, t),
        Item::Lift(t) => add_task(line, b"LIFT ", job, t),
        Item::Do(t) => add_task(line, b"DO ", job, t),
        Item::Go(t) => add_task(line, b"GO ", job, t),
        Item::Plant(t) => add_task(line, b"PLANT ", job, t),
        Item::Close(t) => add_task(line, b"CLOSE ", job, t),
        Item::End => add_text(line, b"ENDSCHED"),
    }
}

/// The line of item n.
fn event_line(job: &Job, tables: &Tables, n: u32, played: Played) -> ArrayVec<u8, 160>
    ensures { result.items ≡ event_line job.now tables.now.places n played ++ 10 ∷ [] }
{
    let mut line = ArrayVec::new();
    add_text(&mut line, b"EVENT ");
    add_number(&mut line, u64::from(n));
    add_text(&mut line, b" ");
    add_item(&mut line, job, played.item);
    add_place(&mut line, job, tables, played.event);
    add_shown(&mut line, played.shown);
    add_text(&mut line, b"\n");
    line
}

/// The lines of all items.
fn events_text<K: Sink>(
    sink: &mut K,
    job: &Job,
    tables: &Tables,
    played: &[Played],
) -> Result<(), Failed>
    requires { length played.now < 2 ^ 32 }
    ensures { Prints K.Sink sink.old sink.new result (event_lines job.now tables.now.places played.now) }
{
    for i in 0..played.len() {
        put(sink, event_line(job, tables, i as u32 + 1, played[i]))?;
    }
    Ok(())
}

/// The events of a schedule that was played, and the report of what its tasks have come to. Failed only where the
/// sink's count of faults rose; the sink has then taken a first part of the text. Takes no memory.
pub fn replay_text<K: Sink>(
    sink: &mut K,
    job: &Job,
    tables: &Tables,
    core: &Core,
    played: &[Played],
) -> Result<(), Failed>
    requires few { HasFewLines job.now }
    requires places { All (IsIn job.now.images) tables.now.places }
    requires numbered { tables.now.places ≡ all_places tables.now.tables }
    requires core { core.now.world ≡ world_of job.now tables.now }
    requires fits { Fits core.now.world core.now.parts }
    requires items { length played.now < 2 ^ 32 }
    ensures { Prints K.Sink sink.old sink.new result (replay_lines job.now tables.now core.now.parts played.now) }
{
    put(sink, words_line(b"COVERAGE REPLAY"))?;
    events_text(sink, job, tables, played)?;
    results_part(sink, job, tables, core)
}
