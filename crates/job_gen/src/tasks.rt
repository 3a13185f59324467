//! The tasks of a generated job.
ghost use Rattle.std.specs.Prelude.{◌≡◌, ◌≤◌, ◌<◌, IfOk, map};
ghost use Rattle.std.specs.List.{range_with_len};
ghost use Rattle.job_gen.specs.Meaning.{task_name, trial_task};

use cov_base::{Addr, Name, NoMemory, RETURN_ADDRESS};
use session_book::TaskCard;
use std::alloc::Global;

/// The address of the module and the entry of its tasks.
pub(crate) const BASE: u32 = 0x10_0000;

/// T and the number in two digits.
fn task_name(k: u32) -> Name
    requires { k < 100 }
    ensures { result ≡ task_name k }
{
    let tens = 48 + (k / 10) as u8;
    let units = 48 + (k % 10) as u8;
    match Name::read(&[b'T', tens, units]) {
        Some(name) => name,
        None => unreachable!(),
    }
}

/// The card of task k.
#[tactic(auto, unfolding(crate::specs::Meaning::trial_task))]
fn task(alloc: Global, k: u32) -> TaskCard
    requires { k < 100 }
    ensures { result ≡ trial_task k }
{
    let mut regs = [0u32; 16];
    regs[14] = RETURN_ADDRESS;
    regs[15] = BASE;
    regs[1] = k;
    regs[3] = 200;
    TaskCard {
        name: task_name(k),
        phase: 0,
        entry: Addr::of(BASE),
        private: 4096,
        budget: 1_000_000,
        room: 0,
        regs,
        cards: Vec::new(alloc),
        input: Vec::new(alloc),
    }
}

/// The tasks 1 to `count`, at most 64.
pub(crate) fn tasks_of(alloc: Global, count: u32) -> Result<Vec<TaskCard>, NoMemory>
    requires { count ≤ 64 }
    ensures { IfOk result (λ v. v.items ≡ map trial_task (range_with_len 1 count)) }
{
    let mut tasks = Vec::new(alloc);
    for k in 0..count {
        tasks.push(task(alloc, k + 1))?;
    }
    Ok(tasks)
}
