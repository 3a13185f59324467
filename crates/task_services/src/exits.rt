//! The exit of a task, and what becomes of an ending under it.
ghost use Rattle.std.specs.Prelude.{◌≡◌, None, []};
ghost use Rattle.s370_state.specs.Meaning.{machine_of};
ghost use Rattle.s370_exec.specs.Meaning.{call_address, first_tests};
ghost use Rattle.task_run.specs.Meaning.{behind_call};
ghost use Rattle.task_services.specs.Meaning.{at_exit, exit_named};
ghost use Rattle.task_services.specs.ExitWay.{exit_way};

use brk_table::Tables;
use cov_base::Addr;
use s370_state::{Cpu, Ending, Next, Space};
use task_run::{Bench, Hook, Observer, behind_call};

/// Where a task goes on at its next program interruption, which ends it where there is none.
#[derive(Drop)]
pub struct Exit {
    pub at: Option<Addr>,
}

/// The exit that SVC 6 sets: the address in bits 8-31 of register 1, or none where they are zero.
fn exit_named(cpu: &Cpu) -> Option<Addr>
    ensures { result ≡ exit_named (call_address (machine_of cpu.now [])) }
{
    let at = Addr::of(cpu.reg(1));
    if at.get() == 0 { None } else { Some(at) }
}

/// Goes on behind the SVC at which the task stands, or the EX that has executed it.
fn pass_call<P: Space>(cpu: &mut Cpu, space: &P)
    requires { first_tests (P.memory space.now) cpu.old.ia ≡ None }
    ensures { cpu.new ≡ record cpu.old { ia = behind_call (P.memory space.now) (machine_of cpu.old (P.bytes space.now)) } }
{
    let behind = behind_call(cpu, space);
    cpu.go(behind);
}

/// Goes on at the exit, with the code in register 0 and in register 1 the address at which the task has ended.
fn take_exit(cpu: &mut Cpu, code: u8, exit: Addr)
    ensures { cpu.new ≡ at_exit cpu.old code exit }
{
    let at = cpu.at();
    cpu.set_reg(0, u32::from(code));
    cpu.set_reg(1, at.get());
    cpu.go(exit);
}

/// SVC 6 sets the exit, and a program interruption takes it.
impl<O: Observer> Hook<O> for Exit {
    ghost way = { exit_way O O.Pass };

    #[inline(always)]
    fn behind(
        &mut self,
        observer: &O,
        pass: &mut O::Pass,
        tables: &Tables,
        bench: &mut Bench<'_>,
        done: u32,
        next: Next,
    ) -> Next {
        let Next::Ended(ending) = next else {
            return Next::On;
        };
        match ending {
            Ending::Abend(code) => match self.at {
                Some(at) => {
                    take_exit(&mut bench.cpu, code, at);
                    self.at = None;
                    Next::On
                }
                None => Next::Ended(ending),
            },
            Ending::BadSvc(6) => {
                self.at = exit_named(&bench.cpu);
                pass_call(&mut bench.cpu, &bench.space);
                Next::On
            }
            _ => Next::Ended(ending),
        }
    }
}
