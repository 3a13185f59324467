//! What all lines of a listing say.
ghost use Rattle.std.specs.Prelude.{◌≡◌, ◌+◌, ◌-◌, ◌/◌, ◌<◌, ◌≤◌, [], ◌∷◌, ◌++◌, length, get_or, slice_index_or, IfOk, OnErr, OnOk};
ghost use Rattle.listing_reader.specs.Packed.{IsPacked, lines_in};

use crate::lines::Line;
use cov_base::NoMemory;
use std::alloc::Global;
use std::marker::Model;

/// So many lines have one first code, from which on a byte tells the code of each.
const BLOCK: usize = 255;

/// What each line of a listing says. Contracts see the list of the lines. A text line takes one byte.
#[derive(Drop)]
pub struct Listing {
    // the instruction lines
    codes: Vec<Line>,
    // how many codes stand before each block of lines
    firsts: Vec<usize>,
    // for each line the number of its code in its block, from 1 on; 0 for text
    ordinals: Vec<u8>,
}

impl Model for Listing {
    ghost use Rattle.std.specs.Prelude.{List};
    ghost use Rattle.listing_reader.specs.declared.lines.Line.{Line as Says};
    ghost use Rattle.listing_reader.specs.Packed.{IsPacked, lines_in};

    ghost Value = { List Says };

    ghost view = { λ l. lines_in l.codes.items l.firsts.items l.ordinals.items };

    ghost invariant = { λ l. IsPacked l.codes.items l.firsts.items l.ordinals.items };
}

/// The number of codes before the block of the next line, which is entered where the line is the first of its block.
fn first_of_next(
    codes: &[Line],
    firsts: &mut Vec<usize>,
    ordinals: &[u8],
) -> Result<usize, NoMemory>
    requires { IsPacked codes.now firsts.old.items ordinals.now }
    ensures packed { IsPacked codes.now firsts.new.items ordinals.now }
    ensures same { lines_in codes.now firsts.new.items ordinals.now ≡ lines_in codes.now firsts.old.items ordinals.now }
    ensures there { IfOk result (λ _. length ordinals.now / 255 < length firsts.new.items) }
    ensures first { IfOk result (λ n. n ≡ get_or firsts.new.items (length ordinals.now / 255) 0) }
{
    let block = ordinals.len() / BLOCK;
    if firsts.len() <= block {
        firsts.push(codes.len())?;
    }
    Ok(firsts[block])
}

/// Adds a code and its number.
fn add_code(
    codes: &mut Vec<Line>,
    ordinals: &mut Vec<u8>,
    code: Line,
    ordinal: u8,
) -> Result<(), NoMemory>
    ensures codes { OnOk result (codes.new.items ≡ codes.old.items ++ code ∷ []) }
    ensures ordinals { OnOk result (ordinals.new.items ≡ ordinals.old.items ++ ordinal ∷ []) }
    ensures codes_kept { OnErr result (codes.new.items ≡ codes.old.items) }
    ensures ordinals_kept { OnErr result (ordinals.new.items ≡ ordinals.old.items) }
{
    let count = codes.len();
    codes.push(code)?;
    if ordinals.push(ordinal).is_err() {
        codes.truncate(count);
        return Err(NoMemory);
    }
    Ok(())
}

impl Listing {
    /// No lines yet, and room for so many text lines.
    pub fn new(alloc: Global, room: usize) -> Result<Listing, NoMemory>
        ensures { IfOk result (λ l. l ≡ []) }
    {
        let ordinals = Vec::with_capacity(alloc, room)?;
        Ok(Listing {
            codes: Vec::new(alloc),
            firsts: Vec::new(alloc),
            ordinals,
        })
    }

    /// The number of lines.
    pub fn len(&self) -> usize
        ensures { result ≡ length self.now }
    {
        self.ordinals.len()
    }

    /// What line i says, counted from 0.
    pub fn line(&self, i: usize) -> Line
        requires { i < length self.now }
        ensures { result ≡ slice_index_or self.now i Line.Text }
    {
        let ordinal = usize::from(self.ordinals[i]);
        if ordinal == 0 {
            return Line::Text;
        }
        self.codes[self.firsts[i / BLOCK] + ordinal - 1]
    }

    /// Adds a line; the lines stay as they are where memory is wanting.
    pub fn push(&mut self, line: Line) -> Result<(), NoMemory>
        ensures added { OnOk result (self.new ≡ self.old ++ line ∷ []) }
        ensures kept { OnErr result (self.new ≡ self.old) }
    {
        let first = first_of_next(&self.codes, &mut self.firsts, &self.ordinals)?;
        match line {
            Line::Text => {
                self.ordinals.push(0)?;
                Ok(())
            }
            code => {
                let ordinal = (self.codes.len() - first + 1) as u8;
                add_code(&mut self.codes, &mut self.ordinals, code, ordinal)
            }
        }
    }
}
