//! Laws of what drains tell. Nothing calls what stands here, and it does nothing: its contract is the theorem, which is said
//! of the definitions alone and is proved because the contract of a public function is.
ghost use Rattle.std.specs.Prelude.{ℕ};
ghost use Rattle.module_area.specs.Meaning.{PlanView};
ghost use Rattle.module_area.specs.Notes.{Notes, after_join, after_split};
ghost use Rattle.early_report.specs.Acts.{Acts};
ghost use Rattle.early_report.specs.Drains.{HasClosed, IsDrainOf, KeepsFinal};
ghost use Rattle.early_report.specs.Laws.{StaysByActs, EndsWithFinal};

/// What a drain tells of its pass stays, whatever calls of the area the pass makes next; sets that are known as final stay so,
/// also behind the root's call that joins the pass and behind its further joins and splits, and are those with which the area
/// ends.
pub fn drains_stay_by_law()
    ensures closed { StaysByActs HasClosed }
    ensures tied { StaysByActs IsDrainOf }
    ensures known { (plan : PlanView) (old new : Notes) → Acts plan old new → KeepsFinal plan old new }
    ensures joined { (plan : PlanView) (root other : Notes) → KeepsFinal plan other (after_join plan root other) }
    ensures kept_by_join { (plan : PlanView) (root other : Notes) → KeepsFinal plan root (after_join plan root other) }
    ensures kept_by_split { (plan : PlanView) (root : Notes) (t : ℕ) → KeepsFinal plan root (after_split root t) }
    ensures finished { EndsWithFinal }
{}
