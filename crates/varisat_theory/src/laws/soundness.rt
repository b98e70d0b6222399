//! What propagation and derivations say of satisfying assignments, and the forms that they have.

ghost use Rattle.varisat_theory.specs.inside.Laws.{AnswersExclude, AssignedSatisfies, ConflictIsPropagation, ConflictIsSound, DerivationIsLineByLine, DerivationIsSound, DratIsSound, FollowsEntails, PresentIsDetermined, RatIsSound, RefutationIsSound, SaturationHasNoConflict, SetsAreSatisfiedAlike};

/// Where propagation conflicts, nothing satisfies the clauses and the base.
pub fn conflict_is_sound()
    ensures { ConflictIsSound }
{}

/// A clause that follows by propagation holds wherever the clauses do.
pub fn follows_entails()
    ensures { FollowsEntails }
{}

/// What satisfies the clauses satisfies what a derivation makes of them.
pub fn derivation_is_sound()
    ensures { DerivationIsSound }
{}

/// What lines refute is not satisfiable.
pub fn refutation_is_sound()
    ensures { RefutationIsSound }
{}

/// A RAT clause may join what is satisfiable.
pub fn rat_is_sound()
    ensures { RatIsSound }
{}

/// Lines of DRAT keep clauses satisfiable.
pub fn drat_is_sound()
    ensures { DratIsSound }
{}

/// An assignment to all literals under which no clause is false satisfies the clauses.
pub fn assigned_satisfies()
    ensures { AssignedSatisfies }
{}

/// Doubled literals and their order change nothing, and a clause with a literal and its opposite constrains nothing.
pub fn sets_are_satisfied_alike()
    ensures { SetsAreSatisfiedAlike }
{}

/// A conflict is a finite list of clauses, each with all literals but one false.
pub fn conflict_is_propagation()
    ensures { ConflictIsPropagation }
{}

/// A derivation is one line by line.
pub fn derivation_is_line_by_line()
    ensures { DerivationIsLineByLine }
{}

/// Whichever of two equal clauses a deletion takes out, the same clauses are present.
pub fn present_is_determined()
    ensures { PresentIsDetermined }
{}

/// There is no conflict where propagation came to its end without one.
pub fn saturation_has_no_conflict()
    ensures { SaturationHasNoConflict }
{}

/// A satisfying assignment and a failed core exclude each other.
pub fn answers_exclude()
    ensures { AnswersExclude }
{}
