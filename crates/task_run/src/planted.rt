//! What looks on through the cells in which breakpoints stand.

use crate::observer::{Known, Observer, Sight};
use crate::sessions::answer;
use crate::trap::{settle_again, settle_apart};
use brk_table::{Kept, Tables};
use cov_base::BREAKPOINT;
use module_area::{Cells, Control, Plan};
use s370_decode::Code;
use s370_state::Cpu;

/// The cells of a phase's area, and the plan that they were made for. A visit at a place fetches the place's cell; where that
/// answers the breakpoint and the instruction is begun, what the instruction does is marked for the breakpoint's session.
/// SVC 4 opens the next session of the task's control where none is open, and SVC 5 closes the open one.
#[derive(Drop)]
pub struct Planted<'a, C> {
    pub cells: &'a C,
    pub plan: &'a Plan,
}

impl<'a, C: Cells> Observer for Planted<'a, C> {
    ghost use Rattle.std.specs.Prelude.{refl};
    ghost use Rattle.module_area.specs.Tied.{IsTied as KeepsSessions};
    ghost use Rattle.task_run.specs.Laws.{CanNote-later, CanNote-next, MakesEach-both, HasAnswered-none};
    ghost use Rattle.task_run.specs.Noting.{CanNote, MakesEach, HasAnswered};

    type Pass = C::Pass;

    ghost IsReady = { λ o t p done shown. CanNote (C.is_pass o.cells.now p) (C.plan o.cells.now) o.plan.now t (C.notes p) done shown };

    ghost IsTied = { λ o p c. KeepsSessions o.plan.now (C.notes p) c };

    ghost Makes = { λ o t p visits q. MakesEach o.plan.now (C.notes p) visits (C.notes q) };

    ghost Answers = { λ o p c call q d. HasAnswered o.plan.now (C.notes p) c call (C.notes q) d };

    #[inline(always)]
    fn begun(&self, pass: &mut C::Pass, tables: &Tables, cpu: &Cpu, code: &Code, sight: Sight) {
        let Some(place) = sight.place else {
            return;
        };
        let cell = self.cells.fetch(pass, place);
        if cell.half == BREAKPOINT {
            settle_apart(self.cells, pass, tables, cpu, code, place, cell);
        }
    }

    #[inline(always)]
    fn begun_kept(
        &self,
        pass: &mut C::Pass,
        tables: &Tables,
        cpu: &Cpu,
        kept: &Kept,
        sight: Sight,
    ) -> Known {
        let Some(place) = sight.place else {
            return Known::Nothing;
        };
        let cell = self.cells.fetch(pass, place);
        if cell.half != BREAKPOINT {
            return Known::Nothing;
        }
        match settle_again(self.cells, pass, cpu, &kept.decoded, place, cell) {
            Known::Nothing => {
                settle_apart(
                    self.cells,
                    pass,
                    tables,
                    cpu,
                    &kept.decoded.code,
                    place,
                    cell,
                );
                Known::Nothing
            }
            Known::Condition(went) => Known::Condition(went),
            Known::Count(left) => Known::Count(left),
        }
    }

    #[inline(always)]
    fn refused(&self, pass: &mut C::Pass, tables: &Tables, sight: Sight) {
        if let Some(place) = sight.place {
            let _ = self.cells.fetch(pass, place);
        }
    }

    #[inline(always)]
    fn called(
        &self,
        pass: &mut C::Pass,
        tables: &Tables,
        control: &mut Control,
        done: u32,
        half: u16,
    ) {
        answer(self.cells, pass, self.plan, control, half)
    }

    ghost later = { λ o t p d s. CanNote-later _ _ _ _ _ d s };

    ghost next = { λ o t p d. CanNote-next _ _ _ _ _ d };

    ghost none = { λ o t p. refl };

    ghost no_call = { λ o p c. HasAnswered-none _ _ c };

    ghost both = { λ o t p q r vs ws. MakesEach-both _ _ _ _ vs ws };
}
