//! What an execution of an instruction shows, and sets of it.
ghost use Rattle.std.specs.Prelude.{◌≡◌};
ghost use Rattle.cov_base.specs.Meaning.{no_facts, with_fact, has_fact, union, is_full, fact_of};

use std::marker::Model;

/// What one execution of an instruction shows.
#[derive(Clone, Copy)]
pub enum Fact {
    /// It was begun; for an instruction that is no conditional branch.
    Ran,
    /// It branched.
    Went,
    /// It fell through.
    Stayed,
}

/// Whether the original instruction at a place may both branch and fall through.
#[derive(Clone, Copy)]
pub enum Kind {
    /// Every instruction that is no conditional branch, unconditional branches among them.
    Straight,
    /// BC and BCR with a mask from 1 to 14, BCT, BCTR, BXH and BXLE; BCR and BCTR only where R2 isn't 0.
    Conditional,
}

impl Kind {
    /// What an execution shows that branched, or did not.
    pub fn fact(self, went: bool) -> Fact
        ensures { result ≡ fact_of self went }
    {
        match self {
            Kind::Straight => Fact::Ran,
            Kind::Conditional => if went { Fact::Went } else { Fact::Stayed },
        }
    }
}

/// A set of facts.
#[derive(Clone, Copy)]
pub struct Bits(u8);

impl Model for Bits {
    ghost use Rattle.std.specs.Prelude.{◌<◌};
    ghost use Rattle.cov_base.specs.Meaning.{FactSet, facts_of_number, number_of_facts};

    ghost Value = { FactSet };

    ghost use Rattle.cov_base.specs.FactInside.{inside_of-facts};

    ghost view = { λ b. facts_of_number b.0 };

    ghost invariant = { λ b. b.0 < 8 };

    ghost inverse = { λ s. record { 0 = number_of_facts s } };

    ghost inverse_ok = { inside_of-facts };
}

impl Bits {
    /// The set without facts.
    pub fn empty() -> Bits
        ensures { result ≡ no_facts }
    {
        Bits(0)
    }

    /// The set and this fact.
    pub fn with(self, f: Fact) -> Bits
        ensures { result ≡ with_fact self f }
    {
        match f {
            Fact::Ran => Bits(self.0 | 1),
            Fact::Went => Bits(self.0 | 2),
            Fact::Stayed => Bits(self.0 | 4),
        }
    }

    /// Whether the fact is in the set.
    pub fn has(self, f: Fact) -> bool
        ensures { result ≡ has_fact self f }
    {
        match f {
            Fact::Ran => self.0 % 2 == 1,
            Fact::Went => self.0 / 2 % 2 == 1,
            Fact::Stayed => self.0 / 4 == 1,
        }
    }

    /// The facts of either set.
    pub fn union(self, o: Bits) -> Bits
        ensures { result ≡ union self o }
    {
        Bits(self.0 | o.0)
    }

    /// Whether these are all facts of the kind, and no other.
    pub fn is_full(self, k: Kind) -> bool
        ensures { result ≡ is_full k self }
    {
        match k {
            Kind::Straight => self.0 == 1,
            Kind::Conditional => self.0 == 6,
        }
    }
}
