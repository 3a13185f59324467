//! The modules that were read, found by their names.
ghost use Rattle.std.specs.Prelude.{◌≡◌, ◌&&◌, ◌++◌, ◌∷◌, [], length, true, false, take, nat_le, IfOk, IfSome, IsNone};
ghost use Rattle.std.specs.List.{list_any};
ghost use Rattle.std.specs.Str.{bytes_eq};
ghost use Rattle.marks_file.specs.Meaning.{is_new_name};

use crate::marks::MarkedModule;
use cov_base::{Name, NoMemory};
use names::NameList;
use std::alloc::Global;
use std::marker::Model;

/// The modules that were read, with their names, which tell whether another is new.
#[derive(Drop)]
pub(crate) struct NamedModules {
    pub modules: Vec<MarkedModule>,
    names: NameList,
}

impl Model for NamedModules {
    ghost use Rattle.std.specs.Prelude.{List};
    ghost use Rattle.marks_file.specs.Meaning.{MarkedView};

    ghost Value = { List MarkedView };

    ghost use Rattle.marks_file.specs.Named.{items_of, HasNames};

    ghost view = { items_of };

    ghost invariant = { HasNames };
}

impl NamedModules {
    /// No module. Takes no memory.
    pub(crate) fn new(alloc: Global) -> NamedModules
        ensures { result ≡ [] }
    {
        NamedModules {
            modules: Vec::new(alloc),
            names: NameList::new(alloc),
        }
    }

    fn has(&self, name: &Name) -> bool
        ensures { result ≡ list_any (λ m. bytes_eq m.name name.now) self.now }
    {
        self.names.has(name)
    }

    /// With a module more, whose name is new.
    #[tactic(auto, unfolding(crate::specs::Meaning::is_new_name))]
    pub(crate) fn with(self, marked: MarkedModule) -> Result<NamedModules, NoMemory>
        requires { is_new_name self marked.name ≡ true }
        ensures { IfOk result (λ more. more ≡ self ++ marked ∷ []) }
    {
        let NamedModules {
            mut modules,
            mut names,
        } = self;
        names.add(marked.name)?;
        modules.push(marked)?;
        Ok(NamedModules { modules, names })
    }
}

#[tactic(auto, unfolding(crate::specs::Meaning::is_new_name))]
/// The name that the first 8 bytes are; none exactly where they are cut short, no name filled with blanks, or an
/// earlier module's.
pub(crate) fn new_name(earlier: &NamedModules, bytes: &[u8]) -> Option<Name>
    ensures name { IfSome result (λ n. n ≡ take 8 bytes.now) }
    ensures good { IfSome result (λ _. (nat_le 8 (length bytes.now) && is_new_name earlier.now (take 8 bytes.now)) ≡ true) }
    ensures bad { IsNone result → (nat_le 8 (length bytes.now) && is_new_name earlier.now (take 8 bytes.now)) ≡ false }
{
    if bytes.len() < 8 {
        return None;
    }
    match Name::read_filled(&bytes[..8]) {
        Some(name) if !earlier.has(&name) => Some(name),
        _ => None,
    }
}
