//! What is done behind each instruction of a task.
ghost use Rattle.task_run.specs.Hooks.{DoesBehind, IsBehind, Way, plain};
ghost use Rattle.task_run.specs.Steps.{CanStep};

use crate::bench::Bench;
use crate::observer::Observer;
use brk_table::Tables;
use s370_state::Next;

/// What is done behind each instruction of a task, beside its observer: it may change itself, the observer's pass, the
/// processor, and how the task goes on.
pub trait Hook<O: Observer> {
    /// What it does.
    ghost way: { Way Self O O.Pass };

    /// Does it, behind an instruction with which so many are done and that has left the task to go on so; says how it goes
    /// on.
    fn behind(
        &mut self,
        observer: &O,
        pass: &mut O::Pass,
        tables: &Tables,
        bench: &mut Bench<'_>,
        done: u32,
        next: Next,
    ) -> Next
        requires can { CanStep O.IsReady O.IsTied observer.now tables.now pass.old bench.old done 0 }
        requires behind { IsBehind way O.Observer self.old observer.now tables.now pass.old bench.old done next }
        ensures can { CanStep O.IsReady O.IsTied observer.now tables.now pass.new bench.new done 0 }
        ensures does { DoesBehind way observer.now self.old pass.old bench.old done next self.new pass.new bench.new result };
}

/// Does nothing.
#[derive(Drop)]
pub struct NoHook;

impl<O: Observer> Hook<O> for NoHook {
    ghost way = { plain Self O O.Pass };

    #[inline(always)]
    fn behind(
        &mut self,
        observer: &O,
        pass: &mut O::Pass,
        tables: &Tables,
        bench: &mut Bench<'_>,
        done: u32,
        next: Next,
    ) -> Next {
        next
    }
}
