//! Private storage, by blocks and in them row by row.
ghost use Rattle.std.specs.Prelude.{◌≡◌, ◌+◌, ◌*◌, ◌<◌, ◌≤◌, ◌++◌, ◌∷◌, [], length, take, replicate, not, bytes_eq, codes, All};
ghost use Rattle.annotator.specs.Meaning.{hex_digits};
ghost use Rattle.module_area.specs.Meaning.{first_bytes};
ghost use Rattle.report_text.specs.FirstRows.{IsPartOf, FitsIn, HasStorage, StoresCard, rows_from};
ghost use Rattle.report_text.specs.Meaning.{row_lines, stored_lines, hex_bytes, row_count};
ghost use Rattle.report_text.specs.Writes.{Prints};

use crate::words::add_bytes;
use crate::writing::put;
use annotator::text::{add_hex, add_text};
use arrayvec::ArrayVec;
use cov_base::TaskNo;
use cov_outside::{Failed, Sink};
use module_area::DataCard;
use session_book::{Results, TaskCard};

/// The rows and bytes that are compared at a time. No memory is taken for the first contents, so the cards are gone
/// through once for each block. The largest storage, 1,048,576 bytes, has 16 blocks: the 1,600,000 cards that an input
/// has room for then take a tenth of a second. Blocks of 4,096 bytes would take 256 passes over them.
const BLOCK_ROWS: u32 = 4096;

const BLOCK: usize = 65536;

/// A row of private storage and its address.
fn storage_line(at: u32, row: &[u8]) -> ArrayVec<u8, 160>
    requires at { at < 16777216 }
    requires row { length row.now ≤ 16 }
    ensures { result.items ≡ (codes "STOR " ++ hex_digits 6 at ++ codes " " ++ hex_bytes row.now) ++ 10 ∷ [] }
{
    let mut line = ArrayVec::new();
    add_text(&mut line, b"STOR ");
    add_hex(&mut line, at, 6);
    add_text(&mut line, b" ");
    add_bytes(&mut line, row);
    line.push(b'\n');
    line
}

/// Stores what a card has of the bytes from an address on.
fn put_card(block: &mut [u8], from: usize, card: &DataCard)
    requires { from + length block.old ≤ 16777216 }
    ensures { StoresCard card.now from block.old block.new }
{
    let offset = card.offset as usize;
    let start = offset.max(from);
    let end = (offset + card.bytes.len()).min(from + block.len());
    if start < end {
        block[start - from..end - from].copy_from_slice(&card.bytes[start - offset..end - offset]);
    }
}

/// Stores what the task's cards have of the bytes from an address on.
fn put_cards(block: &mut [u8], from: usize, task: &TaskCard)
    requires block { from + length block.old ≤ 16777216 }
    requires zeros { IsPartOf block.old (replicate task.now.private 0) from }
    requires cards { All (FitsIn task.now.private) task.now.cards }
    ensures { IsPartOf block.new (first_bytes task.now.private task.now.cards) from }
{
    for i in 0..task.cards.len() {
        put_card(block, from, &task.cards[i]);
    }
}

/// Row n where it isn't what it was as the task began.
fn storage_row<K: Sink>(sink: &mut K, first: &[u8], now: &[u8], n: u32) -> Result<(), Failed>
    requires at { 16 * n < 16777216 }
    requires row { length now.now ≤ 16 }
    requires first { length now.now ≤ length first.now }
    ensures { Prints K.Sink sink.old sink.new result (row_lines (16 * n) (take (length now.now) first.now) now.now) }
{
    if &first[..now.len()] != now {
        put(sink, storage_line(16 * n, now))
    } else {
        Ok(())
    }
}

/// The rows of a block of private storage that have changed: those from number `from` to the one before `past`.
fn block_part<K: Sink, R: Results>(
    sink: &mut K,
    task: &TaskCard,
    results: &R,
    t: TaskNo,
    from: u32,
    past: u32,
) -> Result<(), Failed>
    requires storage { HasStorage task.now (R.tasks results.now) (R.result_of results.now) t.0 }
    requires from { from ≤ past }
    requires past { past ≤ row_count 16 (R.result_of results.now t.0).bytes }
    requires block { past ≤ from + 4096 }
    ensures { Prints K.Sink sink.old sink.new result (rows_from task.now (R.result_of results.now t.0).bytes from past) }
{
    let mut first = [0u8; BLOCK];
    put_cards(&mut first, 16 * from as usize, task);
    for n in from..past {
        let at = 16 * (n - from) as usize;
        storage_row(sink, &first[at..at + 16], results.row(t, n), n)?;
    }
    Ok(())
}

/// The rows of a task's private storage that have changed, each of at most 16 bytes, by rising offset. Failed only where the
/// sink's count of faults rose; the sink has then taken a first part of them. Takes no memory.
pub fn storage_part<K: Sink, R: Results>(
    sink: &mut K,
    task: &TaskCard,
    results: &R,
    t: TaskNo,
) -> Result<(), Failed>
    requires { HasStorage task.now (R.tasks results.now) (R.result_of results.now) t.0 }
    ensures { Prints K.Sink sink.old sink.new result (stored_lines task.now (R.result_of results.now t.0)) }
{
    let count = (task.private + 15) / 16;
    for b in 0..(count + BLOCK_ROWS - 1) / BLOCK_ROWS {
        let from = BLOCK_ROWS * b;
        block_part(sink, task, results, t, from, (from + BLOCK_ROWS).min(count))?;
    }
    Ok(())
}
