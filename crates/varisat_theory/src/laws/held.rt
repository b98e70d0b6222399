//! What depends on the held clauses alone, and not on their order or spelling.

ghost use Rattle.varisat_theory.specs.inside.Laws.{SameClausesAdd, SameClausesDelete, SameClausesDrop, SameClausesIsEquality, SameLinesDerive, SameLinesRefute};

/// To hold the same clauses is an equality.
pub fn same_clauses_is_equality()
    ensures { SameClausesIsEquality }
{}

/// It stays where equal clauses are added.
pub fn same_clauses_add()
    ensures { SameClausesAdd }
{}

/// It stays where a clause is taken out.
pub fn same_clauses_delete()
    ensures { SameClausesDelete }
{}

/// It stays where the clauses of a variable are dropped.
pub fn same_clauses_drop()
    ensures { SameClausesDrop }
{}

/// The same lines are a derivation from the same clauses.
pub fn same_lines_derive()
    ensures { SameLinesDerive }
{}

/// The same lines refute the same clauses.
pub fn same_lines_refute()
    ensures { SameLinesRefute }
{}
