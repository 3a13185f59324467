//! The operation of a source statement.
ghost use Rattle.std.specs.Prelude.{◌≡◌, ◌≤◌, ◌<◌, map, position, not};
ghost use Rattle.std.specs.Char.{to_ascii_uppercase};
ghost use Rattle.s370_decode.specs.Meaning.{is_mnemonic};
ghost use Rattle.listing_reader.specs.Meaning.{is_blank, skip_blanks, word_run, after_run, source_of, operation_of, has_mnemonic};

use crate::columns::{Columns, column};
use crate::fields::is_blank_at;

fn first_blank(bytes: &[u8]) -> Option<usize>
    ensures { result ≡ position is_blank bytes.now }
{
    bytes.iter().position(|b| *b == b' ')
}

fn first_other(bytes: &[u8]) -> Option<usize>
    ensures { result ≡ position (λ b. not (is_blank b)) bytes.now }
{
    bytes.iter().position(|b| *b != b' ')
}

fn skip_blanks(bytes: &[u8]) -> &[u8]
    ensures { result.now ≡ skip_blanks bytes.now }
{
    match first_other(bytes) {
        Some(at) => &bytes[at..],
        None => &[],
    }
}

fn run_of(bytes: &[u8]) -> &[u8]
    ensures { result.now ≡ word_run bytes.now }
{
    match first_blank(bytes) {
        Some(at) => &bytes[..at],
        None => bytes,
    }
}

fn after_run(bytes: &[u8]) -> &[u8]
    ensures { result.now ≡ after_run bytes.now }
{
    match first_blank(bytes) {
        Some(at) => &bytes[at..],
        None => &[],
    }
}

fn source_of(line: &[u8], shift: u8, columns: Columns) -> &[u8]
    requires { 1 ≤ columns.source }
    ensures { result.now ≡ source_of columns line.now shift }
{
    let before = usize::from(shift) + (columns.source as usize - 1);
    if before < line.len() {
        &line[before..]
    } else {
        &[]
    }
}

fn operation_of(line: &[u8], shift: u8, columns: Columns) -> &[u8]
    requires { 1 ≤ columns.source }
    ensures { result.now ≡ operation_of columns line.now shift }
{
    let source = source_of(line, shift, columns);
    if is_blank_at(line, shift, columns.source as usize) {
        run_of(skip_blanks(source))
    } else {
        run_of(skip_blanks(after_run(source)))
    }
}

/// Whether the word is a mnemonic, its letters in either case. No mnemonic has more than five.
fn is_mnemonic(word: &[u8]) -> bool
    ensures { result ≡ is_mnemonic (map to_ascii_uppercase word.now) }
{
    let n = word.len();
    if n > 5 {
        return false;
    }
    let mut upper = [0u8; 5];
    upper[..n].copy_from_slice(word);
    let letters = &mut upper[..n];
    letters.make_ascii_uppercase();
    s370_decode::is_mnemonic(letters)
}

#[tactic(auto, unfolding(crate::specs::Meaning::has_mnemonic))]
/// Whether the line's statement has an operation that is a mnemonic.
pub fn has_mnemonic(line: &[u8], shift: u8, columns: Columns) -> bool
    requires { 1 ≤ columns.source }
    ensures { result ≡ has_mnemonic columns line.now shift }
{
    column(line, shift, columns.source as usize) != b'*'
        && is_mnemonic(operation_of(line, shift, columns))
}
