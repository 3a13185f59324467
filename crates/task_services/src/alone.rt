//! The whole run of a task without sessions.
ghost use Rattle.std.specs.Prelude.{◌≡◌, ◌≤◌};
ghost use Rattle.task_run.specs.Steps.{CanStep, memory_at};
ghost use Rattle.task_services.specs.Alone.{IgnoresCalls};
ghost use Rattle.task_services.specs.Ends.{Ran};

use crate::services::Services;
use brk_table::Tables;
use session_book::Service;
use task_run::{Bench, NoHook, Observer, TaskEnd, Watch, run};

/// Runs a task until it ends, with its job's services, if it has any: before each instruction it ends Returned at X'FFFFFE',
/// else Spent where it has done as many instructions as its budget. The observer, which ignores supervisor calls, is shown
/// what each instruction visits. Takes no memory but the observer's.
pub fn run_alone<O: Observer>(
    observer: &O,
    pass: &mut O::Pass,
    tables: &Tables,
    services: &[Service],
    bench: &mut Bench<'_>,
    budget: u32,
) -> TaskEnd
    requires can { CanStep O.IsReady O.IsTied observer.now tables.now pass.old bench.old 0 0 }
    requires calls { IgnoresCalls O.Answers observer.now }
    ensures memory { memory_at bench.new ≡ memory_at bench.old }
    ensures ran { Ran services.now (O.Makes observer.now tables.now) pass.old budget bench.old result bench.new pass.new }
    ensures most { result.done ≤ budget }
    ensures can { CanStep O.IsReady O.IsTied observer.now tables.now pass.new bench.new result.done 0 }
{
    let watch = Watch { observer, tables };
    if services.is_empty() {
        return run(&watch, pass, &mut NoHook, bench, budget);
    }
    let mut hook = Services {
        services,
        caller: None,
    };
    run(&watch, pass, &mut hook, bench, budget)
}
