//! Counting as an observer: the cells are fetched at each visit of a place, and the breakpoints stay.
ghost use Rattle.std.specs.Prelude.{◌≡◌, nat_eq};
ghost use Rattle.cov_base.specs.Meaning.{breakpoint};

use crate::cells::CountCells;
use crate::pass::CountPass;
use brk_table::Tables;
use cov_base::BREAKPOINT;
use module_area::{Cell, Control};
use s370_branch::outcome;
use s370_decode::Code;
use s370_state::Cpu;
use task_run::{Observer, Sight};

fn is_breakpoint(cell: Cell) -> bool
    ensures { result ≡ nat_eq cell.half breakpoint }
{
    cell.half == BREAKPOINT
}

/// Counts what it is shown: where an instruction is begun at a planted place, its fact is added once. No call is answered.
impl Observer for CountCells {
    ghost use Rattle.std.specs.Prelude.{refl};
    ghost use Rattle.count_session.specs.Counting.{HasAdded, HasRoom, IsLeft};
    ghost use Rattle.count_session.specs.Laws.{HasAdded-both, HasAdded-none, HasRoom-later, HasRoom-next};

    type Pass = CountPass;

    ghost IsReady = { HasRoom };

    ghost IsTied = { λ cells pass control. Unit {0} };

    ghost Makes = { HasAdded };

    ghost Answers = { IsLeft };

    #[inline(always)]
    fn begun(&self, pass: &mut CountPass, tables: &Tables, cpu: &Cpu, code: &Code, sight: Sight) {
        if let Some(place) = sight.place {
            if is_breakpoint(self.fetch(pass, place)) {
                // The kind is that of the original, also where EX has changed the instruction.
                let fact = tables.place(place).kind.fact(outcome(cpu, code));
                self.add(pass, place, fact);
            }
        }
    }

    #[inline(always)]
    fn refused(&self, pass: &mut CountPass, tables: &Tables, sight: Sight) {
        if let Some(place) = sight.place {
            self.fetch(pass, place);
        }
    }

    #[inline(always)]
    fn called(
        &self,
        pass: &mut CountPass,
        tables: &Tables,
        control: &mut Control,
        done: u32,
        half: u16,
    ) {}

    ghost later = { HasRoom-later };

    ghost next = { HasRoom-next };

    ghost none = { HasAdded-none };

    ghost no_call = { λ cells pass control. (refl, refl) };

    ghost both = { HasAdded-both };
}
