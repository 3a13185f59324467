//! The result of a whole pattern, formed before anything is stored.
ghost use Rattle.std.specs.Prelude.{◌≡◌, ◌<◌, ◌≤◌, true, false, [], IfSome, IfNone, OnSome};
ghost use Rattle.arrayvec.specs.ArrayVec.{array_vec_len};
ghost use Rattle.cov_base.specs.Meaning.{byte_at, can_reach, wrap};
ghost use Rattle.s370_decimal.specs.Meaning.{worked, formed, fresh};
ghost use Rattle.s370_decimal.specs.Taking.{Takes, working_taken, working_of};

use crate::working::{Working, fresh, work_byte};
use arrayvec::ArrayVec;
use cov_base::Addr;
use s370_state::{Space, byte_of};

/// The first byte of a pattern.
#[tactic(auto, using(crate::proofs::Sources::first_byte))]
fn fill_byte<P: Space>(space: &P, a: Addr, n: u32) -> u8
    requires some { 1 ≤ n }
    requires reach { can_reach (P.memory space.now) a n ≡ true }
    ensures { result ≡ byte_at (P.memory space.now) (P.bytes space.now) (wrap a) }
{
    byte_of(space, a, 0, n)
}

/// Works the n pattern bytes from a on, over the source from b on, and adds each result byte to the text; none where
/// a source byte that is needed is inaccessible.
#[tactic(auto, using(crate::proofs::Workings::worked_none, crate::proofs::Workings::worked_more, crate::proofs::Workings::formed_none, crate::proofs::Workings::formed_more, crate::proofs::Workings::stays_lost, s370_state::proofs::Laws::reach_none))]
pub fn work<P: Space>(
    space: &P,
    a: Addr,
    n: u32,
    b: Addr,
    text: &mut ArrayVec<u8, 256>,
) -> Option<Working>
    requires some { 1 ≤ n }
    requires most { n ≤ 256 }
    requires reach { can_reach (P.memory space.now) a n ≡ true }
    requires empty { text.old.items ≡ [] }
    ensures working { Takes (P.memory space.now) (P.bytes space.now) b working_taken (working_of a n) result }
    ensures text { OnSome result (text.new.items ≡ formed (P.memory space.now) (P.bytes space.now) a b n) }
    ensures len { OnSome result (array_vec_len text.new ≡ n) }
{
    let fill = fill_byte(space, a, n);
    let mut w = fresh();
    for i in 0..n {
        let p = byte_of(space, a, i, n);
        match work_byte(space, b, fill, p, a.plus(i), &w) {
            Some(step) => {
                text.push(step.byte);
                w = step.working;
            }
            None => return None,
        }
    }
    Some(w)
}
