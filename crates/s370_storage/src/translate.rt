//! Translation and search by a table of function bytes.
#![tactic(auto, using(s370_state::proofs::Laws::passes, s370_state::proofs::Laws::refuses))]

ghost use Rattle.std.specs.Prelude.{◌≡◌, ◌+◌, ◌*◌, ◌/◌, ◌<◌, ◌≤◌, ◌∷◌, Some, None, true, false, IfOk, IfErr, IfSome, if◌then◌else◌, ◌==◌};
ghost use Rattle.cov_base.specs.Meaning.{can_reach, can_store, wrap, first_touch};
ghost use Rattle.s370_state.specs.Meaning.{touch_ending};
ghost use Rattle.s370_state.specs.Row.{Performs};
ghost use Rattle.s370_state.specs.Parts.{Follows, Tested};
ghost use Rattle.s370_storage.specs.Meaning.{function_at, translation_uses, search_uses, translated, selected, looked_up, selects, storage_row};
ghost use Rattle.s370_storage.specs.Lookups.{AreReached, LooksUp, Searches};

use cov_base::Addr;
use s370_decode::{Decoded, Op};
use s370_state::{Cpu, Ending, Next, Space, byte_of, ending_of, put_into};

/// The address of the function byte of argument i of n.
fn function_at<P: Space>(space: &P, a: Addr, t: Addr, i: u32, n: u32) -> Addr
    requires reach { can_reach (P.memory space.now) a n ≡ true }
    requires below { i < n }
    ensures { result ≡ function_at (P.memory space.now) (P.bytes space.now) a t i }
{
    t.plus(u32::from(byte_of(space, a, i, n)))
}

/// How a touch byte ends the task.
fn touch<P: Space>(space: &P, at: Addr) -> Option<Ending>
    requires { can_reach (P.memory space.now) at 1 ≡ true }
    ensures { result ≡ touch_ending (first_touch (P.memory space.now) at 1) }
{
    match space.can_read(at, 1) {
        Ok(()) => None,
        Err(r) => Some(ending_of(r)),
    }
}

/// How the function bytes of n arguments end the task by touch, where all are accessible, else code 5.
#[tactic(auto, using(crate::proofs::Tables::functions_reached_none, crate::proofs::Tables::functions_reached_more, crate::proofs::Tables::functions_refused, crate::proofs::Tables::functions_touched_none, crate::proofs::Tables::functions_touched_more))]
fn test_functions<P: Space>(space: &P, a: Addr, t: Addr, n: u32) -> Result<Option<Ending>, Ending>
    requires { can_reach (P.memory space.now) a n ≡ true }
    ensures { LooksUp (P.memory space.now) (P.bytes space.now) a t n result }
{
    let mut met = None;
    for i in 0..n {
        let at = function_at(space, a, t, i, n);
        if space.can_reach(at, 1).is_err() {
            return Err(Ending::Abend(5));
        }
        met = met.or(touch(space, at));
    }
    Ok(met)
}

/// Tests the first operand, which is stored, and the function bytes of its arguments.
#[tactic(auto, unfolding(s370_state::specs::Meaning::use_tests, s370_state::specs::Meaning::all_reached, s370_state::specs::Meaning::all_stored, s370_state::specs::Meaning::touched), using(crate::proofs::Tables::functions_stored))]
fn test_translation<P: Space>(space: &P, a: Addr, t: Addr, n: u32) -> Result<(), Ending>
    ensures tested { Tested (P.memory space.now) (translation_uses (P.memory space.now) (P.bytes space.now) a t n) result }
    ensures reach { IfOk result (λ _. can_reach (P.memory space.now) a n ≡ true) }
    ensures store { IfOk result (λ _. can_store (P.memory space.now) a n ≡ true) }
    ensures functions { IfOk result (λ _. AreReached (P.memory space.now) (P.bytes space.now) a t n) }
{
    if let Err(r) = space.can_reach(a, n) {
        return Err(ending_of(r));
    }
    match test_functions(space, a, t, n) {
        Ok(met) => match space.can_store(a, n) {
            Ok(()) => unless(met),
            Err(r) => Err(ending_of(r)),
        },
        Err(e) => Err(e),
    }
}

/// Goes on where nothing ends the task.
fn unless(end: Option<Ending>) -> Result<(), Ending>
    ensures ended { IfErr result (λ e. end ≡ Some e) }
    ensures goes { IfOk result (λ _. end ≡ None) }
{
    match end {
        Some(e) => Err(e),
        None => Ok(()),
    }
}

/// Translates n arguments, one at a time, left to right.
#[tactic(auto, using(crate::proofs::Tables::translated_none, crate::proofs::Tables::translated_more, crate::proofs::Tables::translated_keeps, crate::proofs::Tables::function_accessible))]
fn translate_bytes<P: Space>(space: &mut P, a: Addr, t: Addr, n: u32)
    requires size { n ≤ 256 }
    requires store { can_store (P.memory space.old) a n ≡ true }
    requires reach { can_reach (P.memory space.old) a n ≡ true }
    requires functions { AreReached (P.memory space.old) (P.bytes space.old) a t n }
    ensures memory { P.memory space.new ≡ P.memory space.old }
    ensures bytes { P.bytes space.new ≡ translated (P.memory space.old) (P.bytes space.old) a t n }
{
    for i in 0..n {
        let value = space.byte(function_at(space, a, t, i, n));
        put_into(space, a, i, n, value);
    }
}

/// TR: replaces each byte of the first operand by its function byte.
pub fn translate<P: Space>(cpu: &mut Cpu, space: &mut P, it: &Decoded) -> Next
    ensures { Performs P.memory P.bytes (storage_row Op.TR it.now.code) cpu.old space.old cpu.new space.new result }
{
    let a = cpu.first_based(it);
    let t = cpu.second_based(it);
    let n = u32::from(it.code.i2()) + 1;
    if let Err(e) = test_translation(space, a, t, n) {
        return Next::Ended(e);
    }
    translate_bytes(space, a, t, n);
    Next::On
}

/// What a search found: the argument that is selected, if any, and how the function bytes looked up end the task by
/// touch.
#[derive(Drop)]
pub struct Found {
    pub selected: Option<u32>,
    pub met: Option<Ending>,
}

/// Looks up n arguments, left to right, until a function byte is not zero; code 5 where one that is looked up is
/// inaccessible.
#[tactic(auto, using(crate::proofs::Tables::functions_reached_none, crate::proofs::Tables::functions_reached_more, crate::proofs::Tables::search_refused, crate::proofs::Tables::functions_touched_none, crate::proofs::Tables::functions_touched_more, crate::proofs::Tables::selected_none, crate::proofs::Tables::selected_more, crate::proofs::Tables::selected_here, crate::proofs::Tables::one_accessible))]
fn search<P: Space>(space: &P, a: Addr, t: Addr, n: u32) -> Result<Found, Ending>
    requires { can_reach (P.memory space.now) a n ≡ true }
    ensures { Searches (P.memory space.now) (P.bytes space.now) a t n result }
{
    let mut met = None;
    for i in 0..n {
        let function = function_at(space, a, t, i, n);
        if space.can_reach(function, 1).is_err() {
            return Err(Ending::Abend(5));
        }
        met = met.or(touch(space, function));
        if space.byte(function) != 0 {
            return Ok(Found {
                selected: Some(i),
                met,
            });
        }
    }
    Ok(Found {
        selected: None,
        met,
    })
}

/// Tests the first operand and the function bytes that are looked up, both only read, and gives the argument that is
/// selected.
#[tactic(auto, unfolding(s370_state::specs::Meaning::use_tests, s370_state::specs::Meaning::all_reached, s370_state::specs::Meaning::all_stored, s370_state::specs::Meaning::touched), using(crate::proofs::Tables::functions_stored))]
fn test_search<P: Space>(space: &P, a: Addr, t: Addr, n: u32) -> Result<Option<u32>, Ending>
    ensures tested { Tested (P.memory space.now) (search_uses (P.memory space.now) (P.bytes space.now) a t n) result }
    ensures selected { IfOk result (λ f. f ≡ selected (P.memory space.now) (P.bytes space.now) a t n) }
    ensures below { IfOk result (λ f. IfSome f (λ i. i < n)) }
    ensures reach { IfOk result (λ f. can_reach (P.memory space.now) a n ≡ true) }
    ensures functions { IfOk result (λ f. AreReached (P.memory space.now) (P.bytes space.now) a t (looked_up n f)) }
{
    if let Err(r) = space.can_reach(a, n) {
        return Err(ending_of(r));
    }
    match search(space, a, t, n) {
        Ok(found) => match space.can_read(a, n) {
            Ok(()) => match found.met {
                Some(e) => Err(e),
                None => Ok(found.selected),
            },
            Err(r) => Err(ending_of(r)),
        },
        Err(e) => Err(e),
    }
}

/// Argument i of n is selected: its address goes to register 1 and its function byte to register 2.
#[tactic(auto, using(crate::proofs::Tables::function_accessible))]
fn select<P: Space>(cpu: &mut Cpu, space: &P, a: Addr, t: Addr, n: u32, i: u32)
    requires reach { can_reach (P.memory space.now) a n ≡ true }
    requires below { i < n }
    requires functions { AreReached (P.memory space.now) (P.bytes space.now) a t (i + 1) }
    ensures { Follows P.memory P.bytes (λ m s. selects m s a t n (Some i)) cpu.old space.now cpu.new space.now Next.On }
{
    let value = space.byte(function_at(space, a, t, i, n));
    cpu.set_address(1, a.plus(i));
    cpu.set_reg(2, cpu.reg(2) / 256 * 256 + u32::from(value));
    cpu.set_cc(if i + 1 == n { 2 } else { 1 });
}

/// What a search of n arguments sets.
fn set_found<P: Space>(cpu: &mut Cpu, space: &P, a: Addr, t: Addr, n: u32, selected: Option<u32>)
    requires reach { can_reach (P.memory space.now) a n ≡ true }
    requires below { IfSome selected (λ i. i < n) }
    requires functions { AreReached (P.memory space.now) (P.bytes space.now) a t (looked_up n selected) }
    ensures { Follows P.memory P.bytes (λ m s. selects m s a t n selected) cpu.old space.now cpu.new space.now Next.On }
{
    match selected {
        Some(i) => select(cpu, space, a, t, n, i),
        None => cpu.set_cc(0),
    }
}

/// TRT: searches the first operand for a byte whose function byte is not zero.
pub fn translate_and_test<P: Space>(cpu: &mut Cpu, space: &mut P, it: &Decoded) -> Next
    ensures { Performs P.memory P.bytes (storage_row Op.TRT it.now.code) cpu.old space.old cpu.new space.new result }
{
    let a = cpu.first_based(it);
    let t = cpu.second_based(it);
    let n = u32::from(it.code.i2()) + 1;
    match test_search(space, a, t, n) {
        Ok(selected) => {
            set_found(cpu, space, a, t, n, selected);
            Next::On
        }
        Err(e) => Next::Ended(e),
    }
}
