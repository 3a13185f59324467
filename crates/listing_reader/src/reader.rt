//! Reads a whole listing.
ghost use Rattle.std.specs.Prelude.{◌≡◌, ◌+◌, ◌≤◌, ◌<◌, length, Option, IfOk, IfErr, OnOk, replicate, drop, IfSome, true};
ghost use Rattle.std.specs.declared.option.Option.TheVariants.{Some, None};
ghost use Rattle.std.specs.List.{AllPass};
ghost use Rattle.listing_reader.specs.Columns.{AreColumns};
ghost use Rattle.listing_reader.specs.Meaning.{column_location, is_instruction, line_of, lines_behind, bad_from, listing_of, fault_of};
ghost use Rattle.listing_reader.specs.Listing.{is_sound, IsTold};

use crate::buffer::ListingLines;
use crate::columns::{Columns, columns_of};
use crate::fields::{are_blank, is_blank_at, number_in};
use crate::heading::heading_of;
use crate::lines::{Line, ListFault};
use crate::listing::Listing;
use crate::object::object_of;
use crate::operation::has_mnemonic;
use cov_base::INPUT_LIMIT;
use std::alloc::Global;

fn location_of(line: &[u8], shift: u8, columns: Columns) -> Option<u32>
    requires { AreColumns columns }
    ensures { result ≡ column_location columns line.now shift }
{
    number_in(
        line,
        shift,
        columns.location as usize,
        columns.digits as usize,
    )
}

#[tactic(auto, unfolding(crate::specs::Meaning::is_instruction))]
fn is_instruction(line: &[u8], shift: u8, columns: Columns) -> bool
    requires { AreColumns columns }
    ensures { result ≡ is_instruction columns line.now shift }
{
    location_of(line, shift, columns).is_some()
        && is_blank_at(
            line,
            shift,
            columns.location as usize + columns.digits as usize,
        )
        && has_mnemonic(line, shift, columns)
        && !are_blank(line, shift, columns.object as usize, columns.room as usize)
}

/// A line behind the heading; none where it is an instruction's and its object code is no code.
#[tactic(auto, unfolding(crate::specs::Meaning::line_of))]
fn read_line(line: &[u8], shift: u8, columns: Columns) -> Option<Line>
    requires { AreColumns columns }
    ensures value { result ≡ line_of columns shift line.now }
    ensures sound { IfSome result (λ l. is_sound l ≡ true) }
{
    if !is_instruction(line, shift, columns) {
        return Some(Line::Text);
    }
    let loc = location_of(line, shift, columns).unwrap_or(0);
    let bytes = object_of(line, shift, columns)?;
    Some(Line::Code { loc, bytes })
}

/// Adds what the lines from one behind the heading on say.
fn read_later(
    lines: &ListingLines,
    from: usize,
    shift: u8,
    columns: Columns,
    read: &mut Listing,
) -> Result<(), ListFault>
    requires columns { AreColumns columns }
    requires count { length lines.now ≤ INPUT_LIMIT }
    requires within { from ≤ length lines.now }
    ensures lines { OnOk result (lines_behind read.old columns shift (drop from lines.now) ≡ Some read.new) }
    ensures count { OnOk result (length read.new + from ≡ length read.old + length lines.now) }
    ensures sound { AllPass is_sound read.old → AllPass is_sound read.new }
    ensures fault { IfErr result (IsTold ListFault.NoMemory (bad_from columns shift (from + 1) (drop from lines.now))) }
{
    for i in from..lines.len() {
        match read_line(lines.line(i), shift, columns) {
            None => return Err(ListFault::BadObject { line: i as u32 + 1 }),
            Some(says) => read.push(says)?,
        }
    }
    Ok(())
}

/// So many text lines, and room for so many in all.
fn texts(alloc: Global, count: usize, room: usize) -> Result<Listing, ListFault>
    ensures lines { IfOk result (λ l. l ≡ replicate count Line.Text) }
    ensures sound { IfOk result (λ l. AllPass is_sound l) }
    ensures fault { IfErr result (λ e. e ≡ ListFault.NoMemory) }
{
    let mut read = Listing::new(alloc, room)?;
    for _k in 0..count {
        read.push(Line::Text)?;
    }
    Ok(read)
}

/// Reads a listing of at most 16,777,216 lines: what each line says, in time linear in their bytes. The first
/// heading line and all lines before it are text. NoHeading exactly where no line is a heading; BadObject exactly at
/// the first line behind the heading that is an instruction's and whose object code is not one to three groups of
/// four hexadecimal digits, or not as long as its first byte gives (High Level Assembler, the source and object
/// section of the listing).
pub fn read_listing(alloc: Global, lines: &ListingLines) -> Result<Listing, ListFault>
    requires { length lines.now ≤ INPUT_LIMIT }
    ensures listing { IfOk result (λ v. listing_of lines.now ≡ Some v) }
    ensures count { IfOk result (λ v. length v ≡ length lines.now) }
    ensures sound { IfOk result (λ v. AllPass is_sound v) }
    ensures fault { IfErr result (IsTold ListFault.NoMemory (fault_of lines.now)) }
{
    match heading_of(lines) {
        None => Err(ListFault::NoHeading),
        Some((at, shift, width)) => {
            let mut read = texts(alloc, at + 1, lines.len())?;
            read_later(lines, at + 1, shift, columns_of(width), &mut read)?;
            Ok(read)
        }
    }
}
