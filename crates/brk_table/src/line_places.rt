//! The places of a listing's lines.
ghost use Rattle.std.specs.Prelude.{◌≡◌, ◌+◌, ◌<◌, ◌^◌, None, Some, IfOk, length, replicate, slice_index_or, slice_set};

use cov_base::NoMemory;
use std::alloc::Global;
use std::marker::Model;

/// For each line of a listing the index of its place among its module's, none for a text line. Contracts see the list of
/// these.
#[derive(Drop)]
pub struct LinePlaces {
    // the index and 1, or 0
    numbers: Vec<u32>,
}

impl Model for LinePlaces {
    ghost use Rattle.std.specs.Prelude.{List, ℕ, Option, map};
    ghost use Rattle.brk_table.specs.Places.{place_numbered};

    ghost Value = { List (Option ℕ) };

    ghost view = { λ l. map place_numbered l.numbers.items };
}

impl LinePlaces {
    /// So many lines without places.
    pub fn none(alloc: Global, count: usize) -> Result<LinePlaces, NoMemory>
        ensures { IfOk result (λ l. l ≡ replicate count None) }
    {
        let numbers = vec![in alloc; 0u32; count]?;
        Ok(LinePlaces { numbers })
    }

    /// The number of lines.
    pub fn len(&self) -> usize
        ensures { result ≡ length self.now }
    {
        self.numbers.len()
    }

    /// The place of line i, counted from 0.
    pub fn get(&self, i: usize) -> Option<u32>
        requires { i < length self.now }
        ensures { result ≡ slice_index_or self.now i None }
    {
        let number = self.numbers[i];
        if number == 0 { None } else { Some(number - 1) }
    }

    /// Gives line i, counted from 0, the place of this index, which is below 2^32 - 1.
    pub fn set(&mut self, i: usize, place: u32)
        requires line { i < length self.old }
        requires fits { place + 1 < 2 ^ 32 }
        ensures { self.new ≡ slice_set self.old i (Some place) }
    {
        self.numbers[i] = place + 1;
    }
}
