//! The clauses that are reasons: their marks, and reasons that follow them to other places.
ghost use Rattle.std.specs.Prelude.{◌≡◌, ◌<◌, false, length};
ghost use Rattle.varisat_theory.specs.promises.Membership.{◌∈◌};
ghost use Rattle.varisat_clause.specs.Stored.{StoredClause, IsClauseRef};
ghost use Rattle.varisat_clause.specs.Stores.{stored_clauses, clause_of, IsSound, RewritesClauses, RewritesClauseAt};
ghost use Rattle.varisat_clause.specs.Databases.{Database, Tracks};
ghost use Rattle.varisat_clause.specs.Collected.{live_clauses};
ghost use Rattle.varisat_analysis.specs.Reductions.{first_variable, is_reason, reason_marked, reasons_marked};
ghost use Rattle.varisat_analysis.specs.Collections.{repointed, reasons_repointed};

use std::alloc::Allocator;
use varisat_clause::alloc::{ClauseAlloc, ClauseRef};
use varisat_clause::iter::clauses_iter;
use varisat_literals::Var;
use varisat_prop::prop::{Assignment, ImplGraph, Reason};

/// The variable of the clause's first literal.
pub fn first_var<A: Allocator + Copy>(clause_alloc: &ClauseAlloc<A>, cref: ClauseRef) -> Var
    requires sound { IsSound clause_alloc.now }
    requires place { IsClauseRef (stored_clauses clause_alloc.now) cref }
    ensures { result ≡ first_variable (clause_of clause_alloc.now cref) }
{
    clause_alloc.lits(cref)[0].var()
}

/// Whether the clause is the reason of its first literal, whose variable has a value.
pub fn is_reason_clause<A: Allocator + Copy>(
    assignment: &Assignment<A>,
    clause_alloc: &ClauseAlloc<A>,
    impl_graph: &ImplGraph<A>,
    cref: ClauseRef,
) -> bool
    requires sound { IsSound clause_alloc.now }
    requires place { IsClauseRef (stored_clauses clause_alloc.now) cref }
    requires value { first_variable (clause_of clause_alloc.now cref) < length assignment.now.current }
    requires node { first_variable (clause_of clause_alloc.now cref) < length impl_graph.now.nodes.items }
    ensures { result ≡ is_reason assignment.now.current impl_graph.now.nodes.items (clause_of clause_alloc.now cref) }
{
    let var = first_var(clause_alloc, cref);
    if assignment.var_value(var).is_none() {
        return false;
    }
    match impl_graph.reason(var) {
        Reason::Long(place) => *place == cref,
        _ => false,
    }
}

/// Marks the clause where it is the reason of its first literal, and else takes its mark away. One that is deleted
/// stays as it is.
fn mark_reason<A: Allocator + Copy>(
    assignment: &Assignment<A>,
    clause_alloc: &mut ClauseAlloc<A>,
    impl_graph: &ImplGraph<A>,
    cref: ClauseRef,
)
    requires sound { IsSound clause_alloc.old }
    requires place { IsClauseRef (stored_clauses clause_alloc.old) cref }
    requires value { (clause_of clause_alloc.old cref).header.deleted ≡ false →
        first_variable (clause_of clause_alloc.old cref) < length assignment.now.current }
    requires nodes { length impl_graph.now.nodes.items ≡ length assignment.now.current }
    ensures marked { RewritesClauseAt clause_alloc.old clause_alloc.new cref
        (reason_marked assignment.now.current impl_graph.now.nodes.items) }
    ensures tracks { (d : Database) → Tracks d clause_alloc.old → Tracks d clause_alloc.new }
{
    let mut header = clause_alloc.header(cref);
    if header.deleted() {
        return;
    }
    header.set_mark(is_reason_clause(assignment, clause_alloc, impl_graph, cref));
    clause_alloc.set_header(cref, header);
}

/// Marks exactly the clauses that are the reason of their first literal, of those that are not deleted.
pub fn mark_reasons<A: Allocator + Copy>(
    assignment: &Assignment<A>,
    clause_alloc: &mut ClauseAlloc<A>,
    impl_graph: &ImplGraph<A>,
)
    requires sound { IsSound clause_alloc.old }
    requires values { (k : StoredClause) → k ∈ live_clauses clause_alloc.old →
        first_variable k < length assignment.now.current }
    requires nodes { length impl_graph.now.nodes.items ≡ length assignment.now.current }
    ensures marked { RewritesClauses clause_alloc.old clause_alloc.new
        (reasons_marked assignment.now.current impl_graph.now.nodes.items) }
    ensures tracks { (d : Database) → Tracks d clause_alloc.old → Tracks d clause_alloc.new }
{
    'clauses: for index in 0..clause_alloc.len() {
        let cref = clause_alloc.place(index);
        mark_reason(assignment, clause_alloc, impl_graph, cref);
    }
}

/// Points the reason of the clause's first literal at the new place, where the clause is that reason.
fn repoint_reason<A: Allocator + Copy>(
    assignment: &Assignment<A>,
    clause_alloc: &ClauseAlloc<A>,
    impl_graph: &mut ImplGraph<A>,
    cref: ClauseRef,
    new_cref: ClauseRef,
)
    requires sound { IsSound clause_alloc.now }
    requires place { IsClauseRef (stored_clauses clause_alloc.now) cref }
    requires value { first_variable (clause_of clause_alloc.now cref) < length assignment.now.current }
    requires node { first_variable (clause_of clause_alloc.now cref) < length impl_graph.old.nodes.items }
    ensures { impl_graph.new.nodes.items
        ≡ repointed assignment.now.current impl_graph.old.nodes.items (clause_of clause_alloc.now cref) new_cref }
{
    if is_reason_clause(assignment, clause_alloc, impl_graph, cref) {
        let var = first_var(clause_alloc, cref);
        impl_graph.update_reason(var, Reason::Long(new_cref));
    }
}

/// Points each reason at its clause's place in the new store, where the i-th clause is the i-th that is not deleted
/// here.
pub fn repoint_reasons<A: Allocator + Copy>(
    assignment: &Assignment<A>,
    clause_alloc: &ClauseAlloc<A>,
    impl_graph: &mut ImplGraph<A>,
    new_alloc: &ClauseAlloc<A>,
)
    requires sound { IsSound clause_alloc.now }
    requires count { length (stored_clauses new_alloc.now) ≡ length (live_clauses clause_alloc.now) }
    requires values { (k : StoredClause) → k ∈ live_clauses clause_alloc.now →
        first_variable k < length assignment.now.current }
    requires nodes { length impl_graph.old.nodes.items ≡ length assignment.now.current }
    ensures { impl_graph.new.nodes.items
        ≡ reasons_repointed clause_alloc.now new_alloc.now assignment.now.current impl_graph.old.nodes.items }
{
    let mut index = 0;
    for cref in clauses_iter(clause_alloc) {
        let new_cref = new_alloc.place(index);
        repoint_reason(assignment, clause_alloc, impl_graph, cref, new_cref);
        index += 1;
    }
}
