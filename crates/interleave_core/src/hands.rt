//! What is due of a cell in hand, and what takes a cell's place.
ghost use Rattle.std.specs.Prelude.{◌≡◌, ◌<◌, ◌≤◌, length, set, if◌then◌else◌};
ghost use Rattle.cov_base.specs.Meaning.{is_full};
ghost use Rattle.cov_base.specs.declared.limits.TheConstants.{SESSION_LIMIT};
ghost use Rattle.module_area.specs.Meaning.{word_at};
ghost use Rattle.interleave_core.specs.declared.events.Shown.TheVariants.{Planted, Closed};
ghost use Rattle.interleave_core.specs.declared.stage.Due.TheVariants.{Lifting, Nothing};
ghost use Rattle.interleave_core.specs.Meaning.{World, due_after_fetch, same_cell, breakpoint_of};

use crate::events::Shown;
use crate::stage::{Due, Hand};
use brk_table::Tables;
use cov_base::{BREAKPOINT, Bits, Kind, PlaceNo, SessNo};
use module_area::Cell;
use s370_exec::is_execute;

/// What is due of a cell that was fetched: a breakpoint is to be marked, but that of a subject that is itself EX isn't.
pub(crate) fn due_after_fetch(tables: &Tables, subject: bool, place: PlaceNo, cell: Cell) -> Due
    requires { place.0 < length tables.now.places }
    ensures { (w : World) → w.places ≡ tables.now.places → result ≡ due_after_fetch w subject place.0 cell }
{
    if cell.half != BREAKPOINT {
        return Due::Nothing;
    }
    if subject && is_execute(tables.place(place).original) {
        Due::Nothing
    } else {
        Due::Marking
    }
}

/// Whether both are the same cell.
fn same_cell(a: Cell, b: Cell) -> bool
    ensures { result ≡ same_cell a b }
{
    a.tag == b.tag && a.half == b.half
}

/// The session's breakpoint.
pub(crate) fn breakpoint_of(s: SessNo) -> Cell
    requires some { 0 < s.0 }
    requires few { s.0 ≤ SESSION_LIMIT }
    ensures { result ≡ breakpoint_of s.0 }
{
    Cell {
        tag: 2 * s.0 - 1,
        half: BREAKPOINT,
    }
}

/// Exchanges the cell for another, where it still stands; whether it did.
pub(crate) fn exchange(cells: &mut Vec<Cell>, p: usize, cell: Cell, other: Cell) -> bool
    requires { p < length cells.old.items }
    ensures taken { result ≡ same_cell (word_at cells.old.items p) cell }
    ensures cells { cells.new.items ≡ (if result then set cells.old.items p other else cells.old.items) }
{
    if same_cell(cells[p], cell) {
        cells[p] = other;
        true
    } else {
        false
    }
}

pub(crate) fn due_after_mark(kind: Kind, facts: Bits) -> Due
    ensures { result ≡ (if is_full kind facts then Lifting else Nothing) }
{
    if facts.is_full(kind) {
        Due::Lifting
    } else {
        Due::Nothing
    }
}

pub(crate) fn with_due(hand: Hand, due: Due) -> Hand
    ensures { result ≡ record hand { due = due } }
{
    Hand {
        subject: hand.subject,
        place: hand.place,
        cell: hand.cell,
        due,
    }
}

pub(crate) fn shown_of(closes: bool) -> Shown
    ensures { result ≡ (if closes then Closed else Planted) }
{
    if closes {
        Shown::Closed
    } else {
        Shown::Planted
    }
}
