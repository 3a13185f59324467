//! Distinct names in order.
ghost use Rattle.std.specs.Prelude.{◌≡◌, ◌<◌, [], Some, IfSome, IfOk, IfErr, length, slice_get};
ghost use Rattle.cov_base.specs.Lists.{Differ};
ghost use Rattle.names.specs.Lists.{index_of, has, added};

use cov_base::{Name, NoMemory};
use indexmap::IndexSet;
use std::alloc::Global;
use std::marker::Model;

/// Distinct names in the order in which they were added. Contracts see the list; what finds a name is a map.
#[derive(Drop)]
pub struct NameList {
    // In an array, behind which a proof about a struct that holds lists doesn't look.
    names: [IndexSet<Name>; 1],
}

impl Model for NameList {
    ghost use Rattle.std.specs.Prelude.{ℕ, List};
    ghost use Rattle.names.specs.Inside.{keys_of};

    ghost Value = { List (List ℕ) };

    ghost view = { keys_of };
}

impl NameList {
    /// No name. Takes no memory.
    pub fn new(alloc: Global) -> NameList
        ensures { result ≡ [] }
    {
        NameList {
            names: [IndexSet::new(alloc)],
        }
    }

    fn set(&self) -> &IndexSet<Name>
        ensures { result.now.keys ≡ self.now }
    {
        &self.names[0]
    }

    /// How many names there are.
    pub fn len(&self) -> usize
        ensures { result ≡ length self.now }
    {
        self.set().len()
    }

    /// The name at an index.
    pub fn get(&self, at: usize) -> &Name
        requires { at < length self.now }
        ensures { slice_get self.now at ≡ Some result.now }
    {
        &self.set().as_slice()[at]
    }

    /// The index of the name, the only one that it has; none exactly where it isn't there.
    pub fn index_of(&self, name: &Name) -> Option<usize>
        ensures index { result ≡ index_of self.now name.now }
        ensures within { IfSome result (λ at. at < length self.now) }
        ensures only { Differ self.now }
    {
        let _count = self.set().len();
        self.set().get_index_of(name)
    }

    /// Whether the name is there.
    pub fn has(&self, name: &Name) -> bool
        ensures { result ≡ has self.now name.now }
    {
        self.set().contains(name)
    }

    /// Adds the name behind the others where it isn't there; else tells its index. Where memory is wanting nothing changes.
    pub fn add(&mut self, name: Name) -> Result<Option<usize>, NoMemory>
        ensures index { IfOk result (λ at. at ≡ index_of self.old name) }
        ensures names { IfOk result (λ _. self.new ≡ added self.old name) }
        ensures kept { IfErr result (λ _. self.new ≡ self.old) }
    {
        let (at, is_new) = self.names[0].insert_full(name)?;
        if is_new {
            return Ok(None);
        }
        Ok(Some(at))
    }
}
