//! Every operation against vectors from outside, and the supervisor call that a step executes.
mod branches;
mod control;
mod decimal;
mod editing;
mod fixed;
mod harness;
mod logic;
mod plain_space;
mod storage;

use cov_base::Addr;
use harness::check;
use plain_space::PlainSpace;
use s370_exec::supervisor_call;
use s370_state::Cpu;
use std::test::*;

#[test]
fn operations_and_task_calls_do_as_the_manual_says(rt: HostRuntime) -> Result<(), Fail> {
    check(&rt, rt.alloc(), &fixed::TABLE)?;
    check(&rt, rt.alloc(), &logic::TABLE)?;
    check(&rt, rt.alloc(), &storage::TABLE)?;
    check(&rt, rt.alloc(), &decimal::TABLE)?;
    check(&rt, rt.alloc(), &editing::TABLE)?;
    check(&rt, rt.alloc(), &branches::TABLE)?;
    check(&rt, rt.alloc(), &control::TABLE)
}

/// A module at X'100000', the address of a touch byte in it, where the task is in the module, register 1, and the call that
/// the task executes there. Register 15 is the module's address.
const CALLS: [([u8; 12], u32, u32, u32, Option<u8>); 15] = [
    (
        [0x0A, 0x04, 0x07, 0xFE, 0, 0, 0, 0, 0, 0, 0, 0],
        0,
        0,
        0,
        Some(4),
    ),
    (
        [0x0A, 0xFF, 0x07, 0xFE, 0, 0, 0, 0, 0, 0, 0, 0],
        0,
        0,
        0,
        Some(255),
    ),
    (
        [0x07, 0xFE, 0x0A, 0x04, 0, 0, 0, 0, 0, 0, 0, 0],
        0,
        0,
        0,
        None,
    ),
    (
        [0, 0, 0, 0, 0, 0, 0, 0, 0, 0, 0x0A, 0x05],
        0,
        10,
        0,
        Some(5),
    ),
    (
        [0x0A, 0x04, 0x0A, 0x04, 0, 0, 0, 0, 0, 0, 0, 0],
        0,
        1,
        0,
        None,
    ),
    (
        [0x0A, 0x04, 0x0A, 0x04, 0, 0, 0, 0, 0, 0, 0, 0],
        0,
        12,
        0,
        None,
    ),
    // by EX: its number ORed, or as it is where R1 is 0
    (
        [0x44, 0x10, 0xF0, 0x06, 0x07, 0xFE, 0x0A, 0x00, 0, 0, 0, 0],
        0,
        0,
        5,
        Some(5),
    ),
    (
        [0x44, 0x10, 0xF0, 0x06, 0x07, 0xFE, 0x0A, 0x04, 0, 0, 0, 0],
        0,
        0,
        0x0202_0201,
        Some(5),
    ),
    (
        [0x44, 0x00, 0xF0, 0x06, 0x07, 0xFE, 0x0A, 0x04, 0, 0, 0, 0],
        0,
        0,
        1,
        Some(4),
    ),
    // a subject whose first halfword has touch bytes is fetched all the same
    (
        [0x44, 0x10, 0xF0, 0x06, 0x07, 0xFE, 0x0A, 0x04, 0, 0, 0, 0],
        0x10_0006,
        0,
        0,
        Some(4),
    ),
    // EX of no call, of EX, and of what isn't fetched; EX that isn't fetched whole
    (
        [0x44, 0x10, 0xF0, 0x06, 0x07, 0xFE, 0x07, 0xFE, 0, 0, 0, 0],
        0,
        0,
        0,
        None,
    ),
    (
        [0x44, 0x10, 0xF0, 0x00, 0x07, 0xFE, 0x0A, 0x04, 0, 0, 0, 0],
        0,
        0,
        0,
        None,
    ),
    (
        [
            0x44, 0x10, 0xF0, 0x07, 0x07, 0xFE, 0x0A, 0x04, 0x0A, 0x04, 0, 0,
        ],
        0,
        0,
        0,
        None,
    ),
    (
        [0x44, 0x10, 0xF0, 0x0C, 0x07, 0xFE, 0x0A, 0x04, 0, 0, 0, 0],
        0,
        0,
        0,
        None,
    ),
    (
        [0x44, 0x10, 0xF0, 0x06, 0x07, 0xFE, 0x0A, 0x04, 0, 0, 0, 0],
        0x10_0002,
        0,
        0,
        None,
    ),
];

#[test]
fn the_call_that_a_step_executes(rt: HostRuntime) -> Result<(), Fail> {
    for (i, (module, touch, at, word, call)) in CALLS.iter().enumerate() {
        let mut image = Vec::new(rt.alloc());
        image.extend_from_slice(module)?;
        let mut touches = Vec::new(rt.alloc());
        touches.push(*touch)?;
        let space = PlainSpace {
            size: 0,
            bytes: Vec::new(rt.alloc()),
            base: 0x10_0000,
            image,
            touches,
        };
        let mut regs = [0; 16];
        regs[1] = *word;
        regs[15] = 0x10_0000;
        let at = Addr::of(0x10_0000u32.wrapping_add(*at));
        let cpu = Cpu::new(&regs, at, 0, 0);
        assert_eq!(rt; supervisor_call(&cpu, &space), *call, "{i}");
    }
    Ok(())
}
