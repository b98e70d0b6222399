//! What stays where there is more.

ghost use Rattle.varisat_theory.specs.inside.Laws.{BeginningDerives, ConflictGrows, DerivationGrows, DerivationsJoin, FollowsGrows, MoreCovers, RefutationStays, UnitsAreKnown};

/// A conflict stays under more clauses, stronger ones and more known literals.
pub fn conflict_grows()
    ensures { ConflictGrows }
{}

/// So does a clause that follows, and each one that it is a part of.
pub fn follows_grows()
    ensures { FollowsGrows }
{}

/// More clauses, another order, a part in a clause's place and equal sets are such clauses.
pub fn more_covers()
    ensures { MoreCovers }
{}

/// Literals that are unit clauses add nothing to what is known.
pub fn units_are_known()
    ensures { UnitsAreKnown }
{}

/// Two derivations one after another are one.
pub fn derivations_join()
    ensures { DerivationsJoin }
{}

/// A beginning of a derivation is one.
pub fn beginning_derives()
    ensures { BeginningDerives }
{}

/// A derivation stays one where more clauses are present.
pub fn derivation_grows()
    ensures { DerivationGrows }
{}

/// Lines after a refutation leave it one, and so do more clauses.
pub fn refutation_stays()
    ensures { RefutationStays }
{}
