//! Kinds and sets of facts as numbers.
ghost use Rattle.std.specs.Prelude.{◌≡◌, ◌≤◌, if◌then◌else◌};
ghost use Rattle.cov_base.specs.Meaning.{facts_of_number, number_of_facts, with_fact};
ghost use Rattle.marks_file.specs.Meaning.{kind_number, kind_of_number};

use cov_base::{Bits, Fact, Kind};

/// 0 for Straight, 1 for Conditional.
pub fn kind_number(kind: Kind) -> u8
    ensures value { result ≡ kind_number kind }
    ensures most { result ≤ 1 }
{
    match kind {
        Kind::Straight => 0,
        Kind::Conditional => 1,
    }
}

/// The kind of the number 0; the other for any other number.
pub fn kind_of_number(number: u8) -> Kind
    ensures { result ≡ kind_of_number number }
{
    if number == 0 {
        Kind::Straight
    } else {
        Kind::Conditional
    }
}

fn bit(has: bool, value: u8) -> u8
    ensures value { result ≡ (if has then value else 0) }
    ensures most { result ≤ value }
{
    if has { value } else { 0 }
}

/// Ran is 1, Went 2, Stayed 4.
pub fn number_of_set(set: Bits) -> u8
    ensures { result ≡ number_of_facts set }
{
    bit(set.has(Fact::Ran), 1) + bit(set.has(Fact::Went), 2) + bit(set.has(Fact::Stayed), 4)
}

fn with_fact(set: Bits, has: bool, fact: Fact) -> Bits
    ensures { result ≡ (if has then with_fact set fact else set) }
{
    if has { set.with(fact) } else { set }
}

/// The set of this number.
pub fn set_of_number(number: u8) -> Bits
    ensures { result ≡ facts_of_number number }
{
    let ran = with_fact(Bits::empty(), number % 2 == 1, Fact::Ran);
    let went = with_fact(ran, number / 2 % 2 == 1, Fact::Went);
    with_fact(went, number / 4 == 1, Fact::Stayed)
}
