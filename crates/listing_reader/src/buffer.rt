//! The lines of a listing.
ghost use Rattle.std.specs.Prelude.{◌≡◌, ◌+◌, ◌-◌, ◌/◌, ◌<◌, ◌≤◌, [], ◌∷◌, ◌++◌, length, get_or, slice_index_or, IfErr, IfOk, OnErr, OnOk};
ghost use Rattle.cov_base.specs.declared.limits.TheConstants.{LINE_LIMIT};
ghost use Rattle.listing_reader.specs.Buffer.{begin_of, IsBuffer, KeepsLines};

use cov_base::NoMemory;
use std::alloc::Global;
use std::marker::Model;

/// So many lines have one start, from which on 16 bits tell where each of them begins.
const BLOCK: usize = 256;

/// The lines of one listing, without their line ends, each of at most 150 bytes. Contracts see the list of their bytes. Beside
/// the bytes a line takes two bytes, and every 256 lines eight.
#[derive(Drop)]
pub struct ListingLines {
    // the bytes of all lines, one behind the other
    bytes: Vec<u8>,
    // where each block of lines begins
    starts: Vec<usize>,
    // where each line begins, from the start of its block on
    begins: Vec<u16>,
}

impl Model for ListingLines {
    ghost use Rattle.std.specs.Prelude.{List, ℕ};
    ghost use Rattle.listing_reader.specs.Buffer.{IsBuffer, buffered_lines};

    ghost Value = { List (List ℕ) };

    ghost view = { λ l. buffered_lines l.bytes.items l.starts.items l.begins.items };

    ghost invariant = { λ l. IsBuffer l.bytes.items l.starts.items l.begins.items };
}

/// Where line i begins; the line past the last would begin at the end of the bytes.
fn begin_of(bytes: &[u8], starts: &[usize], begins: &[u16], i: usize) -> usize
    requires { IsBuffer bytes.now starts.now begins.now }
    ensures { result ≡ begin_of bytes.now starts.now begins.now i }
{
    if i < begins.len() {
        starts[i / BLOCK] + usize::from(begins[i])
    } else {
        bytes.len()
    }
}

/// The start of the block of the next line, which is entered where the line is the first of its block.
fn start_of_next(bytes: &[u8], starts: &mut Vec<usize>, begins: &[u16]) -> Result<usize, NoMemory>
    requires { IsBuffer bytes.now starts.old.items begins.now }
    ensures buffer { IsBuffer bytes.now starts.new.items begins.now }
    ensures same { KeepsLines bytes.now begins.now starts.old.items starts.new.items }
    ensures there { IfOk result (λ _. length begins.now / 256 < length starts.new.items) }
    ensures start { IfOk result (λ s. s ≡ get_or starts.new.items (length begins.now / 256) 0) }
{
    let block = begins.len() / BLOCK;
    if starts.len() <= block {
        starts.push(bytes.len())?;
    }
    Ok(starts[block])
}

/// Adds the line's bytes, and where it begins.
fn add(bytes: &mut Vec<u8>, begins: &mut Vec<u16>, begin: u16, line: &[u8]) -> Result<(), NoMemory>
    ensures bytes { OnOk result (bytes.new.items ≡ bytes.old.items ++ line.now) }
    ensures begins { OnOk result (begins.new.items ≡ begins.old.items ++ begin ∷ []) }
    ensures bytes_kept { OnErr result (bytes.new.items ≡ bytes.old.items) }
    ensures begins_kept { OnErr result (begins.new.items ≡ begins.old.items) }
{
    let end = bytes.len();
    bytes.extend_from_slice(line)?;
    if begins.push(begin).is_err() {
        bytes.truncate(end);
        return Err(NoMemory);
    }
    Ok(())
}

impl ListingLines {
    /// No lines yet.
    pub fn new(alloc: Global) -> ListingLines
        ensures { result ≡ [] }
    {
        ListingLines {
            bytes: Vec::new(alloc),
            starts: Vec::new(alloc),
            begins: Vec::new(alloc),
        }
    }

    /// The number of lines.
    pub fn len(&self) -> usize
        ensures { result ≡ length self.now }
    {
        self.begins.len()
    }

    /// The bytes of line i, counted from 0.
    pub fn line(&self, i: usize) -> &[u8]
        requires { i < length self.now }
        ensures { result.now ≡ slice_index_or self.now i [] }
    {
        let from = begin_of(&self.bytes, &self.starts, &self.begins, i);
        let to = begin_of(&self.bytes, &self.starts, &self.begins, i + 1);
        &self.bytes[from..to]
    }

    /// Adds a line of at most 150 bytes; the lines stay as they are where memory is wanting.
    pub fn push(&mut self, line: &[u8]) -> Result<(), NoMemory>
        requires { length line.now ≤ LINE_LIMIT }
        ensures added { OnOk result (self.new ≡ self.old ++ line.now ∷ []) }
        ensures kept { OnErr result (self.new ≡ self.old) }
    {
        let start = start_of_next(&self.bytes, &mut self.starts, &self.begins)?;
        let begin = (self.bytes.len() - start) as u16;
        add(&mut self.bytes, &mut self.begins, begin, line)
    }
}
