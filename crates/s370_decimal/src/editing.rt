//! ED and EDMK (Principles of Operation, "Decimal Instructions", "Edit", "Edit and Mark").
ghost use Rattle.std.specs.Prelude.{◌≡◌, ◌+◌, ◌/◌, ◌<◌, ◌≤◌, true, false, [], length, IfOk, IfErr, OnOk, Some, None, if◌then◌else◌};
ghost use Rattle.arrayvec.specs.ArrayVec.{array_vec_len};
ghost use Rattle.cov_base.specs.Meaning.{can_reach, can_store};
ghost use Rattle.s370_decode.specs.Groups.{group_of};
ghost use Rattle.s370_state.specs.Meaning.{store_bytes};
ghost use Rattle.s370_state.specs.Row.{Performs};
ghost use Rattle.s370_state.specs.Parts.{Follows, Tested};
ghost use Rattle.s370_decimal.specs.Meaning.{worked, formed, field_code, marked, edited, pattern_uses, pattern_row, edit_row};

use crate::pattern::work;
use crate::working::Working;
use arrayvec::ArrayVec;
use cov_base::Addr;
use s370_decode::{Decoded, Group, Op};
use s370_state::{Cpu, Ending, Next, Space, put_into, test_store_read};

/// Forms the result of the n pattern bytes from a on and the source from b on, and makes the tests of all bytes that
/// this reads.
#[tactic(auto, using(crate::proofs::Refusals::first_lost, crate::proofs::Refusals::second_lost))]
fn form<P: Space>(
    space: &P,
    a: Addr,
    n: u32,
    b: Addr,
    text: &mut ArrayVec<u8, 256>,
) -> Result<Working, Ending>
    requires some { 1 ≤ n }
    requires most { n ≤ 256 }
    requires empty { text.old.items ≡ [] }
    ensures tested { Tested (P.memory space.now) (pattern_uses (P.memory space.now) (P.bytes space.now) a b n) result }
    ensures value { IfOk result (λ w. w ≡ worked (P.memory space.now) (P.bytes space.now) a b n) }
    ensures store { IfOk result (λ _. can_store (P.memory space.now) a n ≡ true) }
    ensures text { OnOk result (text.new.items ≡ formed (P.memory space.now) (P.bytes space.now) a b n) }
    ensures len { OnOk result (array_vec_len text.new ≡ n) }
{
    if space.can_reach(a, n).is_err() {
        return Err(Ending::Abend(5));
    }
    let Some(w) = work(space, a, n, b, text) else {
        return Err(Ending::Abend(5));
    };
    match test_store_read(space, a, n, b, w.taken) {
        Ok(()) => Ok(w),
        Err(e) => Err(e),
    }
}

/// Stores the n bytes of the text from a on.
#[tactic(auto, using(s370_state::proofs::Laws::none_stored, s370_state::proofs::Laws::one_stored, s370_state::proofs::Laws::all_stored))]
fn store<P: Space>(space: &mut P, a: Addr, n: u32, text: &[u8])
    requires len { length text.now ≡ n }
    requires store { can_store (P.memory space.old) a n ≡ true }
    ensures memory { P.memory space.new ≡ P.memory space.old }
    ensures bytes { P.bytes space.new ≡ store_bytes (P.bytes space.old) a text.now }
{
    for i in 0..n {
        put_into(space, a, i, n, text[i as usize]);
    }
}

/// The condition code of the last field.
fn field_code(w: &Working) -> u8
    ensures value { result ≡ field_code w.now }
    ensures below { result ≤ 2 }
{
    if !w.nonzero {
        0
    } else if w.significant {
        1
    } else {
        2
    }
}

/// The address goes to bits 8-31 of register 1.
fn mark(cpu: &mut Cpu, address: Option<Addr>)
    ensures { cpu.new ≡ record cpu.old { regs = marked true cpu.old.regs address } }
{
    if let Some(at) = address {
        cpu.set_address(1, at);
    }
}

/// The same where the operation marks.
fn mark_by(cpu: &mut Cpu, marks: bool, address: Option<Addr>)
    ensures { cpu.new ≡ record cpu.old { regs = marked marks cpu.old.regs address } }
{
    if marks {
        mark(cpu, address);
    }
}

/// Completes the operation, unless a digit was bad.
fn complete<P: Space>(
    cpu: &mut Cpu,
    space: &mut P,
    a: Addr,
    n: u32,
    text: &[u8],
    w: &Working,
    marks: bool,
) -> Next
    requires len { length text.now ≡ n }
    requires store { can_store (P.memory space.old) a n ≡ true }
    ensures { Follows P.memory P.bytes (λ m s. edited marks s a text.now w.now) cpu.old space.old cpu.new space.new result }
{
    if w.bad {
        return Next::Ended(Ending::Abend(7));
    }
    store(space, a, n, text);
    mark_by(cpu, marks, w.mark);
    cpu.set_cc(field_code(w));
    Next::On
}

/// Edits by the pattern, with or without a mark.
#[tactic(auto, using(s370_state::proofs::Laws::passes, s370_state::proofs::Laws::refuses))]
fn edit_pattern<P: Space>(cpu: &mut Cpu, space: &mut P, it: &Decoded, marks: bool) -> Next
    ensures { Performs P.memory P.bytes (pattern_row marks it.now.code) cpu.old space.old cpu.new space.new result }
{
    let n = u32::from(it.code.i2()) + 1;
    let a = cpu.first_based(it);
    let b = cpu.second_based(it);
    let mut text = ArrayVec::new();
    match form(space, a, n, b, &mut text) {
        Ok(w) => complete(cpu, space, a, n, text.as_slice(), &w, marks),
        Err(e) => Next::Ended(e),
    }
}

/// Performs ED, which edits packed digits by a pattern that the result replaces, or EDMK, which also leaves in bits
/// 8-31 of register 1 the address of each result byte whose digit is not 0 where significance was off before it, so
/// that the last one stays. All tests are made, and the whole result is formed, before anything is changed. The task
/// ends with code 5 where a byte of the pattern, or a source byte up to the last that is read, is inaccessible, 4 where
/// the pattern is not private, Touched by a touch byte among those source bytes, and 7 by a left digit above 9, behind
/// which no source byte is read; all without a change. The condition code is 0 for a last field that is zero or empty,
/// else 1 where the significance indicator is on, 2 where it is off. The instruction address is left as it is. Takes no
/// memory.
pub fn edit<P: Space>(cpu: &mut Cpu, space: &mut P, it: &Decoded) -> Next
    requires { group_of it.now.op ≡ Group.Edit }
    ensures { Performs P.memory P.bytes (edit_row it.now.op it.now.code) cpu.old space.old cpu.new space.new result }
{
    match it.op {
        Op::ED => edit_pattern(cpu, space, it, false),
        Op::EDMK => edit_pattern(cpu, space, it, true),
        _ => unreachable!(),
    }
}
