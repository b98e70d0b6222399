//! What conflict analysis, minimization and cores rest on.

ghost use Rattle.varisat_theory.specs.inside.Laws.{CompletenessStays, CoreConflicts, CoreFails, CoreFollows, CoreOnExample, ImpliedFollows, ImpliedIsKnown, LearnedFollows, LearnedIsNew, LearnedOnExample, MinimizedFollows, ResolventFollows, ShorterFollows, TrailConflicts};

/// What is implied may be taken as known. The others here are uses of this law.
pub fn implied_is_known()
    ensures { ImpliedIsKnown }
{}

/// A clause that is false under a trail conflicts with the literals that the trail rests on.
pub fn trail_conflicts()
    ensures { TrailConflicts }
{}

/// The resolvent of a clause that follows with a reason follows.
pub fn resolvent_follows()
    ensures { ResolventFollows }
{}

/// The learned clause follows, whichever reached literals are resolved: also the one of the first unique implication
/// point.
pub fn learned_follows()
    ensures { LearnedFollows }
{}

/// The premises of that law can be met: on a small conflict they are.
pub fn learned_on_example()
    ensures { LearnedOnExample }
{}

/// What minimization keeps follows.
pub fn minimized_follows()
    ensures { MinimizedFollows }
{}

/// Literals that are false at level 0 are left out.
pub fn shorter_follows()
    ensures { ShorterFollows }
{}

/// What is implied at level 0 follows as a unit clause.
pub fn implied_follows()
    ensures { ImpliedFollows }
{}

/// A core conflicts with the clauses.
pub fn core_conflicts()
    ensures { CoreConflicts }
{}

/// The premises of that law can be met too.
pub fn core_on_example()
    ensures { CoreOnExample }
{}

/// The clause of the opposites of a core's literals follows.
pub fn core_follows()
    ensures { CoreFollows }
{}

/// Assumptions that conflict are a failed core, also under more clauses.
pub fn core_fails()
    ensures { CoreFails }
{}

/// What keeps propagation complete.
pub fn completeness_stays()
    ensures { CompletenessStays }
{}

/// A learned clause has no held clause as a part.
pub fn learned_is_new()
    ensures { LearnedIsNew }
{}
