//! The services of a job, and what becomes of a task's steps under them.
ghost use Rattle.std.specs.Prelude.{◌≡◌, None, []};
ghost use Rattle.s370_state.specs.Meaning.{machine_of};
ghost use Rattle.s370_exec.specs.Meaning.{first_tests};
ghost use Rattle.task_services.specs.Meaning.{at_entry, caller_at, resumed, service_for};
ghost use Rattle.task_services.specs.ServiceWay.{HasCalled, HasGoneBack, service_way};

use brk_table::Tables;
use cov_base::Addr;
use s370_state::{Cpu, Ending, Next, Space};
use session_book::Service;
use task_run::{Bench, Hook, Observer, behind_call};

/// The instruction address at which a routine returns to its caller, which register 14 holds as it begins.
pub const SERVICE_RETURN: u32 = 0xFF_FFFC;

/// A task's services, and its caller while a routine runs: the processor as it stood behind the call.
#[derive(Drop)]
pub(crate) struct Services<'a> {
    pub services: &'a [Service],
    pub caller: Option<Cpu>,
}

/// The service of the number, if there is one.
fn service_for(services: &[Service], number: u8) -> Option<Service>
    ensures { result ≡ service_for services.now number }
{
    services
        .iter()
        .copied()
        .find(|service| service.number == number)
}

/// The processor with the address behind the SVC at which the task stands, or the EX that has executed it.
fn caller_at<P: Space>(cpu: &Cpu, space: &P) -> Cpu
    requires { first_tests (P.memory space.now) cpu.now.ia ≡ None }
    ensures { result ≡ caller_at (P.memory space.now) (machine_of cpu.now (P.bytes space.now)) }
{
    cpu.copy_at(behind_call(cpu, space))
}

/// Goes on at the entry of a routine.
fn enter(cpu: &mut Cpu, entry: Addr)
    ensures { cpu.new ≡ at_entry cpu.old entry }
{
    cpu.set_reg(14, SERVICE_RETURN);
    cpu.set_reg(15, entry.get());
    cpu.go(entry);
}

/// Goes on in the caller of a routine, with registers 0, 1 and 15 as the routine has left them.
fn resume(cpu: &mut Cpu, caller: &Cpu)
    ensures { cpu.new ≡ resumed cpu.old caller.now }
{
    let answers = (cpu.reg(0), cpu.reg(1), cpu.reg(15));
    *cpu = caller.copy_at(caller.at());
    cpu.set_reg(0, answers.0);
    cpu.set_reg(1, answers.1);
    cpu.set_reg(15, answers.2);
}

impl Services<'_> {
    /// Begins the routine of the service of this number, or ends the task where there is none or a routine runs.
    fn call<P: Space>(&mut self, cpu: &mut Cpu, space: &P, number: u8) -> Next
        requires { first_tests (P.memory space.now) cpu.old.ia ≡ None }
        ensures { HasCalled P.Space space.now number self.old cpu.old self.new cpu.new result }
    {
        if self.caller.is_some() {
            return Next::Ended(Ending::BadSvc(number));
        }
        match service_for(self.services, number) {
            Some(service) => {
                self.caller = Some(caller_at(cpu, space));
                enter(cpu, service.entry);
                Next::On
            }
            None => Next::Ended(Ending::BadSvc(number)),
        }
    }

    /// Goes on in the caller, if there is one and the task stands where a routine returns.
    #[inline(always)]
    fn go_back(&mut self, cpu: &mut Cpu)
        ensures { HasGoneBack self.old self.new cpu.old cpu.new }
    {
        if cpu.at().get() == SERVICE_RETURN
            && let Some(caller) = self.caller.take()
        {
            resume(cpu, &caller);
        }
    }
}

/// A service answers a call that would end the task, and its routine returns to the caller.
impl<'a, O: Observer> Hook<O> for Services<'a> {
    ghost way = { service_way O O.Pass };

    #[inline(always)]
    fn behind(
        &mut self,
        observer: &O,
        pass: &mut O::Pass,
        tables: &Tables,
        bench: &mut Bench<'_>,
        done: u32,
        next: Next,
    ) -> Next {
        let next = match next {
            Next::Ended(ending) => match ending {
                Ending::BadSvc(number) => self.call(&mut bench.cpu, &bench.space, number),
                _ => Next::Ended(ending),
            },
            Next::On => Next::On,
        };
        if let Next::On = next {
            self.go_back(&mut bench.cpu);
        }
        next
    }
}
