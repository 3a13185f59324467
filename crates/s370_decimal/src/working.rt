//! The working of a pattern, a byte at a time from left to right.
ghost use Rattle.std.specs.Prelude.{◌≡◌, ◌+◌, ◌*◌, ◌/◌, ◌%◌, ◌<◌, ◌≤◌, true, false, not, ◌&&◌, ◌||◌, ◌==◌, if◌then◌else◌, Some, None, IfSome, IfNone};
ghost use Rattle.cov_base.specs.Meaning.{byte_at, is_accessible, wrap};
ghost use Rattle.s370_decimal.specs.Meaning.{fresh, left_digit, next_digit, digit_selected, separated, byte_kept, pattern_stepped};
ghost use Rattle.s370_decimal.specs.Taking.{CanTake, IsTaken, Takes, digit_taken, step_taken, digit_after, digit_step, byte_step};

use cov_base::Addr;
use s370_state::{Space, is_digit, is_minus, is_sign};

/// A source digit as it is taken.
#[derive(Clone, Copy)]
pub struct Digit {
    pub value: u8,
    /// The digit behind it in its byte, where it is a left digit and no sign follows.
    pub right: Option<u8>,
    /// How many source bytes have been read.
    pub taken: u32,
    /// A plus sign follows it in its byte.
    pub plus: bool,
}

/// How far a pattern has been worked.
#[derive(Clone, Copy)]
pub struct Working {
    /// How many source bytes have been read.
    pub taken: u32,
    /// The right digit of the last of them, while it waits to be taken.
    pub right: Option<u8>,
    /// The significance indicator.
    pub significant: bool,
    /// The field has a digit other than zero.
    pub nonzero: bool,
    /// The address of the last result byte whose digit is not 0 where significance was off before it.
    pub mark: Option<Addr>,
    /// A left digit was above 9, which has ended the working.
    pub bad: bool,
}

/// What a pattern byte does: the working after it, and the result byte.
#[derive(Clone, Copy)]
pub struct PatternStep {
    pub working: Working,
    pub byte: u8,
}

/// Before the first pattern byte.
pub fn fresh() -> Working
    ensures { result ≡ fresh }
{
    Working {
        taken: 0,
        right: None,
        significant: false,
        nonzero: false,
        mark: None,
        bad: false,
    }
}

/// The source byte at a distance from b; none where it is inaccessible.
#[tactic(auto, using(crate::proofs::Sources::reach_one))]
fn source_byte<P: Space>(space: &P, b: Addr, i: u32) -> Option<u8>
    ensures value { IfSome result (λ v. v ≡ byte_at (P.memory space.now) (P.bytes space.now) (wrap (b + i))) }
    ensures reach { IfSome result (λ v. is_accessible (P.memory space.now) (wrap (b + i)) ≡ true) }
    ensures none { IfNone result (is_accessible (P.memory space.now) (wrap (b + i)) ≡ false) }
{
    let at = b.plus(i);
    match space.can_reach(at, 1) {
        Ok(()) => Some(space.byte(at)),
        Err(_) => None,
    }
}

/// The left digit of a source byte.
fn left_digit(w: &Working, v: u8) -> Digit
    requires { w.now.taken < 256 }
    ensures value { result ≡ left_digit w.now v }
    ensures taken { result.taken ≡ w.now.taken + 1 }
    ensures below { result.value < 16 }
    ensures right { IfSome result.right (λ d. d < 16) }
{
    let half = v % 16;
    Digit {
        value: v / 16,
        right: if is_sign(half) { None } else { Some(half) },
        taken: w.taken + 1,
        plus: is_sign(half) && !is_minus(half),
    }
}

/// The next source digit; none where its byte is inaccessible.
#[tactic(auto, unfolding(crate::specs::Meaning::next_digit), using(s370_state::proofs::Laws::reach_more, s370_state::proofs::Laws::reach_fails))]
fn next_digit<P: Space>(space: &P, b: Addr, w: &Working) -> Option<Digit>
    requires { CanTake (P.memory space.now) b w.now }
    ensures digit { Takes (P.memory space.now) (P.bytes space.now) b digit_taken (digit_after w.now) result }
    ensures below { IfSome result (λ d. d.value < 16) }
    ensures taken { IfSome result (λ d. IsTaken (P.memory space.now) b w.now d.taken d.right) }
{
    match w.right {
        Some(value) => Some(Digit {
            value,
            right: None,
            taken: w.taken,
            plus: false,
        }),
        None => match source_byte(space, b, w.taken) {
            Some(v) => Some(left_digit(w, v)),
            None => None,
        },
    }
}

/// A digit selector, or a significance starter, at an address.
#[tactic(auto, unfolding(crate::specs::Meaning::digit_selected))]
fn select(w: &Working, d: &Digit, starts: bool, fill: u8, at: Addr) -> PatternStep
    requires { d.now.value < 16 }
    ensures { result ≡ digit_selected w.now d.now starts fill at }
{
    let nonzero = d.value != 0;
    let shown = w.significant || nonzero;
    let working = Working {
        taken: d.taken,
        right: d.right,
        significant: (shown || starts) && !d.plus,
        nonzero: w.nonzero || nonzero,
        mark: if !w.significant && nonzero {
            Some(at)
        } else {
            w.mark
        },
        bad: !is_digit(d.value),
    };
    let byte = if shown { 240 + d.value } else { fill };
    PatternStep { working, byte }
}

/// Takes the next digit for a selector or starter; none where its byte is inaccessible.
#[tactic(auto, unfolding(crate::specs::Meaning::digit_selected))]
fn take_digit<P: Space>(
    space: &P,
    b: Addr,
    w: &Working,
    starts: bool,
    fill: u8,
    at: Addr,
) -> Option<PatternStep>
    requires { CanTake (P.memory space.now) b w.now }
    ensures step { Takes (P.memory space.now) (P.bytes space.now) b step_taken (digit_step w.now starts fill at) result }
    ensures taken { IfSome result (λ s. IsTaken (P.memory space.now) b w.now s.working.taken s.working.right) }
{
    match next_digit(space, b, w) {
        Some(d) => Some(select(w, &d, starts, fill, at)),
        None => None,
    }
}

/// A field separator.
fn separate(w: &Working, fill: u8) -> PatternStep
    ensures { result ≡ separated w.now fill }
{
    let working = Working {
        significant: false,
        nonzero: false,
        ..*w
    };
    PatternStep {
        working,
        byte: fill,
    }
}

/// A message byte.
fn keep(w: &Working, p: u8, fill: u8) -> PatternStep
    ensures { result ≡ byte_kept w.now p fill }
{
    PatternStep {
        working: *w,
        byte: if w.significant { p } else { fill },
    }
}

/// Works the pattern byte p, whose address is given; none where a source byte that it needs is inaccessible.
#[tactic(auto, unfolding(crate::specs::Meaning::pattern_stepped))]
pub fn work_byte<P: Space>(
    space: &P,
    b: Addr,
    fill: u8,
    p: u8,
    at: Addr,
    w: &Working,
) -> Option<PatternStep>
    requires { CanTake (P.memory space.now) b w.now }
    ensures step { Takes (P.memory space.now) (P.bytes space.now) b step_taken (byte_step w.now fill p at) result }
    ensures taken { IfSome result (λ s. IsTaken (P.memory space.now) b w.now s.working.taken s.working.right) }
{
    if w.bad {
        return Some(PatternStep {
            working: *w,
            byte: fill,
        });
    }
    if p == 0x20 {
        return take_digit(space, b, w, false, fill, at);
    }
    if p == 0x21 {
        return take_digit(space, b, w, true, fill, at);
    }
    if p == 0x22 {
        return Some(separate(w, fill));
    }
    Some(keep(w, p, fill))
}
