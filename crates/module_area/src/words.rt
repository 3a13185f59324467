//! The words in which an area keeps its cells.
ghost use Rattle.std.specs.Prelude.{◌≡◌, ◌/◌, ◌^◌, ◌<◌, ◌≤◌, length, map, IfOk, OnOk};
ghost use Rattle.module_area.specs.Words.{cell_of, original_of, starting, AllFit};

use crate::cells::Cell;
use crate::plan::Plan;
use cov_base::PlaceNo;
use std::alloc::{AllocError, Global};

/// The cell of a word below 2^48: the halfword is its last 16 bits, and the tag what stands above them.
pub fn cell(word: u64) -> Cell
    requires { word / 65536 < 2 ^ 32 }
    ensures { result ≡ cell_of word }
{
    Cell {
        tag: (word / 65536) as u32,
        half: (word % 65536) as u16,
    }
}

/// The words of the cells, which are the originals, with room for so many words.
fn cell_words(alloc: Global, plan: &Plan, count: usize) -> Result<Vec<u64>, AllocError>
    ensures value { IfOk result (λ v. v.items ≡ map original_of plan.now.places) }
    ensures fits { OnOk result (AllFit plan.now (length plan.now.places)) }
{
    let mut words = Vec::with_capacity(alloc, count)?;
    for i in 0..plan.places_len() {
        words.push(plan.original(PlaceNo(i)) as u64)?;
    }
    Ok(words)
}

/// So many words as an area begins with them: each cell has tag 0 and its original, and behind the cells each word is 0.
pub fn first_words(alloc: Global, plan: &Plan, count: usize) -> Result<Vec<u64>, AllocError>
    requires { length plan.now.places ≤ count }
    ensures value { IfOk result (λ v. v.items ≡ starting plan.now count) }
    ensures fits { OnOk result (AllFit plan.now (length plan.now.places)) }
{
    let mut words = cell_words(alloc, plan, count)?;
    words.resize(count, 0)?;
    Ok(words)
}
