//! The task calls.
ghost use Rattle.std.specs.Prelude.{◌≡◌, ◌+◌, ◌-◌, ◌/◌, ◌<◌, ◌≤◌, ◌++◌, min, true, slice_index, take, drop};
ghost use Rattle.cov_base.specs.Meaning.{can_reach, can_store};
ghost use Rattle.s370_state.specs.Meaning.{store_bytes, bytes_left, bytes_free};
ghost use Rattle.s370_exec.specs.Does.{Does};
ghost use Rattle.s370_exec.specs.Meaning.{call, put_call, get_call, operand};

use cov_base::Addr;
use s370_state::{Cpu, Ending, Next, Space, TaskIo, byte_of, put_into, test_read, test_store};

/// Appends the n bytes of a tested operand to the output, which has room for them.
#[tactic(auto, using(crate::proofs::CallBytes::none_put, crate::proofs::CallBytes::one_put))]
fn put_bytes<P: Space>(space: &P, io: &mut TaskIo, at: Addr, n: u32)
    requires reach { can_reach (P.memory space.now) at n ≡ true }
    requires room { n ≤ bytes_free io.old }
    ensures { io.new ≡ record io.old { output = (io.old).output ++ operand (P.memory space.now) (P.bytes space.now) at n } }
{
    for i in 0..n {
        io.put(byte_of(space, at, i, n));
    }
}

/// SVC 1: the bytes at the address in bits 8-31 of register 1, as many as register 0 says, are appended to the output.
#[tactic(auto, unfolding(crate::specs::Meaning::put_call))]
fn put<P: Space>(cpu: &mut Cpu, space: &P, io: &mut TaskIo, next: Addr) -> Next
    ensures { Does P.memory P.bytes (put_call next) cpu.old space.now io.old cpu.new space.now io.new result }
{
    let at = Addr::of(cpu.reg(1));
    let n = cpu.reg(0);
    if let Err(e) = test_read(space, at, n) {
        return Next::Ended(e);
    }
    if n > io.free() {
        return Next::Ended(Ending::OutFull);
    }
    put_bytes(space, io, at, n);
    cpu.go(next);
    Next::On
}

/// The next n bytes of input go to a tested operand.
#[tactic(auto, using(s370_state::proofs::Laws::none_stored, s370_state::proofs::Laws::one_received))]
fn get_bytes<P: Space>(space: &mut P, io: &mut TaskIo, at: Addr, n: u32)
    requires store { can_store (P.memory space.old) at n ≡ true }
    requires left { n ≤ bytes_left io.old }
    ensures memory { P.memory space.new ≡ P.memory space.old }
    ensures bytes { P.bytes space.new ≡ store_bytes (P.bytes space.old) at (take n (drop (io.old).taken (io.old).input)) }
    ensures taken { io.new ≡ record io.old { taken = (io.old).taken + n } }
{
    for i in 0..n {
        put_into(space, at, i, n, io.take());
    }
}

/// SVC 2: bytes of input, as register 0 says but no more than are left, go to the address in bits 8-31 of register 1, and
/// register 15 becomes their number.
#[tactic(auto, unfolding(crate::specs::Meaning::get_call))]
fn get<P: Space>(cpu: &mut Cpu, space: &mut P, io: &mut TaskIo, next: Addr) -> Next
    ensures { Does P.memory P.bytes (get_call next) cpu.old space.old io.old cpu.new space.new io.new result }
{
    let at = Addr::of(cpu.reg(1));
    let n = received_size(cpu, io);
    if let Err(e) = test_store(space, at, n) {
        return Next::Ended(e);
    }
    get_bytes(space, io, at, n);
    cpu.set_reg(15, n);
    cpu.go(next);
    Next::On
}

/// The lesser of register 0 and the number of input bytes left.
fn received_size(cpu: &Cpu, io: &TaskIo) -> u32
    ensures { result ≡ min (slice_index (cpu.now).regs 0) (bytes_left io.now) }
{
    let most = cpu.reg(0);
    let left = io.left();
    if most as usize <= left {
        most
    } else {
        left as u32
    }
}

/// A task call by its number: 1 puts, 2 gets, 3 ends the task, 4 and 5 do nothing in it, every other number is bad.
#[tactic(auto, unfolding(crate::specs::Meaning::call))]
pub(crate) fn task_call<P: Space>(
    cpu: &mut Cpu,
    space: &mut P,
    io: &mut TaskIo,
    number: u8,
    next: Addr,
) -> Next
    ensures { Does P.memory P.bytes (call number next) cpu.old space.old io.old cpu.new space.new io.new result }
{
    match number {
        1 => put(cpu, space, io, next),
        2 => get(cpu, space, io, next),
        3 => Next::Ended(Ending::Exit),
        4 => {
            cpu.go(next);
            Next::On
        }
        5 => {
            cpu.go(next);
            Next::On
        }
        _ => Next::Ended(Ending::BadSvc(number)),
    }
}
