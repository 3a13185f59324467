//! Where a task goes on behind a supervisor call.
ghost use Rattle.std.specs.Prelude.{◌≡◌, None};
ghost use Rattle.s370_state.specs.Meaning.{machine_of};
ghost use Rattle.s370_exec.specs.Meaning.{first_tests};
ghost use Rattle.task_run.specs.Meaning.{behind_call};

use cov_base::Addr;
use s370_exec::is_execute;
use s370_state::{Cpu, Space};

/// The address behind the SVC at which the task stands, or the EX that has executed it.
pub fn behind_call<P: Space>(cpu: &Cpu, space: &P) -> Addr
    requires { first_tests (P.memory space.now) cpu.now.ia ≡ None }
    ensures { result ≡ behind_call (P.memory space.now) (machine_of cpu.now (P.bytes space.now)) }
{
    let at = cpu.at();
    // There is a halfword: it was read as the call or as the EX.
    let size = match space.first(at) {
        Ok(half) if is_execute(half) => 4,
        _ => 2,
    };
    at.plus(size)
}
