//! What stays under other names for the variables.

ghost use Rattle.varisat_theory.specs.inside.Laws.{ConflictIsNamedBack, ConflictIsRenamed, DerivationIsRenamed, FollowsIsRenamed, RefutationIsRenamed, SatisfactionIsRenamed};

/// A renamed clause is satisfied where the clause is, read back.
pub fn satisfaction_is_renamed()
    ensures { SatisfactionIsRenamed }
{}

/// A conflict stays one under other names.
pub fn conflict_is_renamed()
    ensures { ConflictIsRenamed }
{}

/// Under one-to-one names a conflict was one before.
pub fn conflict_is_named_back()
    ensures { ConflictIsNamedBack }
{}

/// A clause that follows does so under other names.
pub fn follows_is_renamed()
    ensures { FollowsIsRenamed }
{}

/// A derivation stays one under other names.
pub fn derivation_is_renamed()
    ensures { DerivationIsRenamed }
{}

/// A refutation stays one under other names.
pub fn refutation_is_renamed()
    ensures { RefutationIsRenamed }
{}
