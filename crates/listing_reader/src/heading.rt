//! The heading of a listing's source and object section.
ghost use Rattle.std.specs.Prelude.{◌≡◌, ◌≤◌, ◌<◌, IfSome, length, position};
ghost use Rattle.listing_reader.specs.Meaning.{is_text_after, has_heading, is_heading, shift_in, width_in, heading_of};

use crate::buffer::ListingLines;
use crate::columns::Width;

/// The text of the heading, whose letters are read in either case.
const NARROW: &[u8] = b"Loc  Object Code    Addr1 Addr2  Stmt   Source Statement";

const WIDE: &[u8] = b"Loc    Object Code      Address1 Address2  Stmt   Source Statement";

/// Whether the text stands behind so many columns.
#[tactic(auto, unfolding(crate::specs::Meaning::is_text_after))]
fn is_text_after(text: &[u8], line: &[u8], before: usize) -> bool
    requires { before ≤ 3 }
    ensures { result ≡ is_text_after text.now line.now before }
{
    let count = line.len();
    if count < before || count - before < text.len() {
        return false;
    }
    line[before..before + text.len()].eq_ignore_ascii_case(text)
}

fn has_heading(text: &[u8], line: &[u8]) -> bool
    ensures { result ≡ has_heading text.now line.now }
{
    is_text_after(text, line, 2) || is_text_after(text, line, 3)
}

fn is_heading(line: &[u8]) -> bool
    ensures { result ≡ is_heading line.now }
{
    has_heading(NARROW, line) || has_heading(WIDE, line)
}

fn shift_in(line: &[u8]) -> u8
    ensures { result ≡ shift_in line.now }
{
    if is_text_after(NARROW, line, 2) || is_text_after(WIDE, line, 2) {
        0
    } else {
        1
    }
}

fn width_in(line: &[u8]) -> Width
    ensures { result ≡ width_in line.now }
{
    if has_heading(NARROW, line) {
        Width::Narrow
    } else {
        Width::Wide
    }
}

fn first_heading(lines: &ListingLines) -> Option<usize>
    ensures { result ≡ position is_heading lines.now }
{
    for i in 0..lines.len() {
        if is_heading(lines.line(i)) {
            return Some(i);
        }
    }
    None
}

/// The index of the first heading line; by how many columns it and all later lines are shifted, 0 where the heading
/// begins at column 3 and 1 where it begins at column 4; and the width that its text tells. None exactly where no
/// line is a heading.
pub fn heading_of(lines: &ListingLines) -> Option<(usize, u8, Width)>
    ensures value { result ≡ heading_of lines.now }
    ensures within { IfSome result (λ h. h.0 < length lines.now) }
    ensures shift { IfSome result (λ h. h.1 ≤ 1) }
{
    let at = first_heading(lines)?;
    let line = lines.line(at);
    Some((at, shift_in(line), width_in(line)))
}
