//! What looks on as a task runs.
ghost use Rattle.std.specs.Prelude.{◌≡◌, ℕ, ◌+◌, [], ◌∷◌, ◌++◌, List, Option, None, IfSome};
ghost use Rattle.cov_base.specs.Meaning.{Visit, kind_of};
ghost use Rattle.brk_table.specs.Meaning.{TablesView};
ghost use Rattle.module_area.specs.Meaning.{ControlView, place_of};
ghost use Rattle.s370_decode.specs.Meaning.{first_half};
ghost use Rattle.task_run.specs.Sights.{IsPlaced, HasKindOf, IsKnown, begun_visit, refused_visit, stage_of};
ghost use Rattle.task_run.specs.Called.{call_at};

use brk_table::{Kept, Tables};
use cov_base::{Addr, PlaceNo};
use module_area::Control;
use s370_decode::Code;
use s370_state::Cpu;

/// A visit: how many instructions the task has done before, the address, the place that begins there, if one does, and
/// whether the instruction is the subject of an EX.
#[derive(Clone, Copy)]
pub struct Sight {
    pub done: u32,
    pub at: Addr,
    pub place: Option<PlaceNo>,
    pub subject: bool,
}

/// What an observer has found out of an instruction that it was shown: of a BC whether it branches, or of a BCT what is left of
/// its count.
#[derive(Clone, Copy)]
pub enum Known {
    Nothing,
    Condition(bool),
    Count(u32),
}

/// What looks on, and over which places.
#[derive(Drop)]
pub struct Watch<'a, O> {
    pub observer: &'a O,
    pub tables: &'a Tables,
}

/// What looks on as tasks run. Of each task it has a pass, with which it notes what it is shown: each visit of the task, in
/// order, and behind the visits of an instruction the supervisor call that the instruction executes, if it is one.
pub trait Observer {
    /// What it notes of one task.
    type Pass;

    /// Over these tables the pass has room for what remains, where so many instructions were done, and so many visits of
    /// the next were shown.
    ghost IsReady: { Self → TablesView → Self.Pass → ℕ → ℕ → Type 0 };

    /// The pass stands to the sessions that its task opens and closes as it should.
    ghost IsTied: { Self → Self.Pass → ControlView → Type 0 };

    /// From one state to the other the pass has noted these visits, and nothing else.
    ghost Makes: { Self → TablesView → Self.Pass → List Visit → Self.Pass → Type 0 };

    /// From one state to the other the pass has noted this call, if there was one, and the control was changed by it.
    ghost Answers: { Self → Self.Pass → ControlView → Option ℕ → Self.Pass → ControlView → Type 0 };

    /// Takes in that the instruction is begun. The processor is as it stands before that, and the code is what is executed:
    /// of a subject of EX it is changed as the EX says.
    fn begun(&self, pass: &mut Self::Pass, tables: &Tables, cpu: &Cpu, code: &Code, sight: Sight)
        requires placed { IsPlaced tables.now.places sight.at sight.place }
        requires ready { IsReady self.now tables.now pass.old sight.done (stage_of sight) }
        ensures ready { IsReady self.now tables.now pass.new sight.done (stage_of sight + 1) }
        ensures tied { (c : ControlView) → IsTied self.now pass.old c → IsTied self.now pass.new c }
        ensures makes { Makes self.now tables.now pass.old (begun_visit sight cpu.now code.now ∷ []) pass.new };

    /// The same of an instruction that the tables keep, where its place begins. What it answers needn't be found out again as the
    /// instruction is carried out.
    #[inline(always)]
    fn begun_kept(
        &self,
        pass: &mut Self::Pass,
        tables: &Tables,
        cpu: &Cpu,
        kept: &Kept,
        sight: Sight,
    ) -> Known
        requires placed { IsPlaced tables.now.places sight.at sight.place }
        requires ready { IsReady self.now tables.now pass.old sight.done (stage_of sight) }
        requires kind { HasKindOf tables.now.places sight.place kept.now.decoded.code }
        ensures ready { IsReady self.now tables.now pass.new sight.done (stage_of sight + 1) }
        ensures tied { (c : ControlView) → IsTied self.now pass.old c → IsTied self.now pass.new c }
        ensures makes { Makes self.now tables.now pass.old (begun_visit sight cpu.now kept.now.decoded.code ∷ []) pass.new }
        ensures known { IsKnown result kept.now.decoded.code cpu.now }
    {
        self.begun(pass, tables, cpu, &kept.decoded.code, sight);
        Known::Nothing
    }

    /// Takes in that the first halfword of an instruction was fetched that isn't begun.
    fn refused(&self, pass: &mut Self::Pass, tables: &Tables, sight: Sight)
        requires placed { IsPlaced tables.now.places sight.at sight.place }
        requires ready { IsReady self.now tables.now pass.old sight.done (stage_of sight) }
        ensures ready { IsReady self.now tables.now pass.new sight.done (stage_of sight + 1) }
        ensures tied { (c : ControlView) → IsTied self.now pass.old c → IsTied self.now pass.new c }
        ensures makes { Makes self.now tables.now pass.old (refused_visit sight ∷ []) pass.new };

    /// Takes in an instruction whose visits it was shown, by its first halfword, which of a subject of EX is as the EX changes it: a
    /// supervisor call is answered.
    fn called(
        &self,
        pass: &mut Self::Pass,
        tables: &Tables,
        control: &mut Control,
        done: u32,
        half: u16,
    )
        requires ready { IsReady self.now tables.now pass.old done 2 }
        requires tied { IsTied self.now pass.old control.old }
        ensures ready { IsReady self.now tables.now pass.new (done + 1) 0 }
        ensures tied { IsTied self.now pass.new control.new }
        ensures answers { Answers self.now pass.old control.old (call_at half) pass.new control.new };

    /// Where less was shown of an instruction, there is no less room.
    ghost later: { (o : Self) (t : TablesView) (p : Self.Pass) (d s : ℕ) → IsReady o t p d s → IsReady o t p d (s + 1) };

    ghost next: { (o : Self) (t : TablesView) (p : Self.Pass) (d : ℕ) → IsReady o t p d 2 → IsReady o t p (d + 1) 0 };

    /// A pass that was shown nothing has made no visits, and has answered no call.
    ghost none: { (o : Self) (t : TablesView) (p : Self.Pass) → Makes o t p [] p };

    ghost no_call: { (o : Self) (p : Self.Pass) (c : ControlView) → Answers o p c None p c };

    /// Visits one after the other.
    ghost both: { (o : Self) (t : TablesView) (p q r : Self.Pass) (vs ws : List Visit) → Makes o t p vs q → Makes o t q ws r → Makes o t p (vs ++ ws) r };
}
