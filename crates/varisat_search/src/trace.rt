//! What a search has its proof log before clauses change.
ghost use Rattle.std.specs.Prelude.{◌≡◌, ℕ, ◌<◌, ◌≤◌, length, OnOk};
ghost use Rattle.varisat_theory.specs.promises.Membership.{◌∈◌};
ghost use Rattle.varisat_theory.specs.promises.Literals.{Literal, Clause, variable_of, opposite};
ghost use Rattle.varisat_theory.specs.inside.StepLaws.{unit_lines};
ghost use Rattle.varisat_clause.specs.Stored.{IsClauseRef, literals_of};
ghost use Rattle.varisat_search.specs.Deletions.{unmarked_deletions};
ghost use Rattle.varisat_clause.specs.Stores.{stored_clauses, IsSound};
ghost use Rattle.varisat_clause.specs.Collected.{live_clauses};
ghost use Rattle.varisat_prop.specs.Looks.{IsInRange};
ghost use Rattle.varisat_prop.specs.View.{pairs_with, pairs_from};
ghost use Rattle.varisat_search.specs.ProvedUnits.{units_in};
ghost use Rattle.varisat_search.specs.Simplifications.{unassigned, is_gone_pair, lines_of_pairs, lines_of_replaced, lines_of_clause, lines_of_clauses};
ghost use Rattle.varisat_steps.specs.Traces.{LogsLines, CanTake};

use std::alloc::{AllocError, Allocator};
use varisat_analysis::clause_literals::is_satisfied;
use varisat_clause::alloc::{ClauseAlloc, ClauseRef};
use varisat_literals::Lit;
use varisat_prop::binary::BinaryClauses;
use varisat_prop::prop::{Assignment, ImplGraph};
use varisat_prop::short::has_no_value;
use varisat_steps::{ProofStep, ProofTracer, TraceError};

/// Adds each of the literals of which a clause is the reason to the proof, as a unit clause.
pub fn trace_units<A: Allocator + Copy, P: ProofTracer>(
    proof: &mut P,
    impl_graph: &ImplGraph<A>,
    lits: &[Lit],
) -> Result<(), TraceError>
    requires inside { (l : Literal) → l ∈ lits.now → variable_of l < length impl_graph.now.nodes.items }
    requires able { CanTake (P.holds proof.old) (unit_lines (units_in impl_graph.now.nodes.items lits.now)) }
    ensures { LogsLines P.takes P.breaks_off proof.old
        (unit_lines (units_in impl_graph.now.nodes.items lits.now)) result proof.new }
{
    for lit in lits {
        if impl_graph.reason(lit.var()).is_unit() {
            continue;
        }
        // At once, so that no list of them has to grow.
        proof.add_step(&ProofStep::UnitClauses { units: &[*lit] })?;
    }
    Ok(())
}

/// Whether the clause of the two literals is deleted here: one of them has a value, and the first has the smaller code,
/// as the clause stands in two lists.
fn is_gone_pair(values: &[Option<bool>], first: Lit, other: Lit) -> bool
    ensures { result ≡ is_gone_pair values.now first other }
{
    if first.code() >= other.code() {
        return false;
    }
    !(has_no_value(values, first) && has_no_value(values, other))
}

/// Deletes from the proof the clauses of the literal and one of the list, where the literal has the smaller code and
/// one of the two has a value.
fn trace_pairs_with<P: ProofTracer>(
    proof: &mut P,
    values: &[Option<bool>],
    first: Lit,
    others: &[Lit],
) -> Result<(), TraceError>
    requires { CanTake (P.holds proof.old) (lines_of_pairs values.now (pairs_with first others.now)) }
    ensures { LogsLines P.takes P.breaks_off proof.old
        (lines_of_pairs values.now (pairs_with first others.now)) result proof.new }
{
    for other in others {
        if !is_gone_pair(values, first, *other) {
            continue;
        }
        proof.add_step(&ProofStep::DeleteClause {
            clause: &[first, *other],
        })?;
    }
    Ok(())
}

/// Deletes from the proof the clauses of two literals of which one has a value.
fn trace_each_pair<A: Allocator + Copy, P: ProofTracer>(
    proof: &mut P,
    values: &[Option<bool>],
    binary_clauses: &BinaryClauses<A>,
) -> Result<(), TraceError>
    requires small { length binary_clauses.now ≤ 0x2000_0000 }
    requires able { CanTake (P.holds proof.old) (lines_of_pairs values.now (pairs_from 0 binary_clauses.now)) }
    ensures { LogsLines P.takes P.breaks_off proof.old
        (lines_of_pairs values.now (pairs_from 0 binary_clauses.now)) result proof.new }
{
    'lits: for code in 0..binary_clauses.len() {
        let lit = Lit::from_code(code);
        trace_pairs_with(proof, values, !lit, binary_clauses.implied(lit))?;
    }
    Ok(())
}

/// Copies the literals that have no value.
pub fn copy_unassigned<A: Allocator + Copy>(
    left: &mut Vec<Lit, A>,
    assignment: &Assignment<A>,
    lits: &[Lit],
) -> Result<(), AllocError>
    requires { IsInRange assignment.now.current lits.now }
    ensures { OnOk result (left.new.items ≡ unassigned assignment.now.current lits.now) }
{
    left.clear();
    for lit in lits {
        if assignment.lit_is_unk(*lit) {
            left.push(*lit)?;
        }
    }
    Ok(())
}

/// Adds the shorter clause to the proof, and deletes the longer one.
pub fn trace_replaced<P: ProofTracer>(
    proof: &mut P,
    longer: &[Lit],
    shorter: &[Lit],
) -> Result<(), TraceError>
    requires { CanTake (P.holds proof.old) (lines_of_replaced longer.now shorter.now) }
    ensures { LogsLines P.takes P.breaks_off proof.old (lines_of_replaced longer.now shorter.now) result proof.new }
{
    proof.add_step(&ProofStep::AtClause { clause: shorter })?;
    proof.add_step(&ProofStep::DeleteClause { clause: longer })?;
    Ok(())
}

/// Tells the proof what becomes of a clause: a satisfied one is deleted, and one with false literals is replaced by
/// what is left of it.
fn trace_clause<A: Allocator + Copy, P: ProofTracer>(
    proof: &mut P,
    assignment: &Assignment<A>,
    left: &mut Vec<Lit, A>,
    lits: &[Lit],
) -> Result<(), TraceError>
    requires in_range { IsInRange assignment.now.current lits.now }
    requires able { CanTake (P.holds proof.old) (lines_of_clause assignment.now.current lits.now) }
    ensures { LogsLines P.takes P.breaks_off proof.old
        (lines_of_clause assignment.now.current lits.now) result proof.new }
{
    if is_satisfied(assignment, lits) {
        proof.add_step(&ProofStep::DeleteClause { clause: lits })?;
        return Ok(());
    }
    copy_unassigned(left, assignment, lits)?;
    if left.len() < lits.len() {
        trace_replaced(proof, lits, left)?;
    }
    Ok(())
}

/// Tells the proof what becomes of the stored clauses.
fn trace_clauses<A: Allocator + Copy, P: ProofTracer>(
    proof: &mut P,
    assignment: &Assignment<A>,
    clause_alloc: &ClauseAlloc<A>,
    left: &mut Vec<Lit, A>,
) -> Result<(), TraceError>
    requires sound { IsSound clause_alloc.now }
    requires in_range { (c : Clause) → c ∈ literals_of (live_clauses clause_alloc.now) →
        IsInRange assignment.now.current c }
    requires able { CanTake (P.holds proof.old)
        (lines_of_clauses assignment.now.current (live_clauses clause_alloc.now)) }
    ensures { LogsLines P.takes P.breaks_off proof.old
        (lines_of_clauses assignment.now.current (live_clauses clause_alloc.now)) result proof.new }
{
    'clauses: for index in 0..clause_alloc.len() {
        let cref = clause_alloc.place(index);
        if clause_alloc.header(cref).deleted() {
            continue;
        }
        trace_clause(proof, assignment, left, clause_alloc.lits(cref))?;
    }
    Ok(())
}

/// Deletes from the proof the clauses of two literals of which one has a value. Where the tracer takes nothing the
/// lists are not even read.
pub fn trace_pairs<A: Allocator + Copy, P: ProofTracer>(
    proof: &mut P,
    assignment: &Assignment<A>,
    binary_clauses: &BinaryClauses<A>,
) -> Result<(), TraceError>
    requires small { length binary_clauses.now ≤ 0x2000_0000 }
    requires able { CanTake (P.holds proof.old)
        (lines_of_pairs assignment.now.current (pairs_from 0 binary_clauses.now)) }
    ensures { LogsLines P.takes P.breaks_off proof.old
        (lines_of_pairs assignment.now.current (pairs_from 0 binary_clauses.now)) result proof.new }
{
    if !proof.is_active() {
        return Ok(());
    }
    trace_each_pair(proof, assignment.assignment(), binary_clauses)?;
    Ok(())
}

/// Tells the proof what becomes of the stored clauses as they are simplified. Where the tracer takes nothing they are
/// not even read.
pub fn trace_stored<A: Allocator + Copy, P: ProofTracer>(
    proof: &mut P,
    assignment: &Assignment<A>,
    clause_alloc: &ClauseAlloc<A>,
    alloc: A,
) -> Result<(), TraceError>
    requires sound { IsSound clause_alloc.now }
    requires in_range { (c : Clause) → c ∈ literals_of (live_clauses clause_alloc.now) →
        IsInRange assignment.now.current c }
    requires able { CanTake (P.holds proof.old)
        (lines_of_clauses assignment.now.current (live_clauses clause_alloc.now)) }
    ensures { LogsLines P.takes P.breaks_off proof.old
        (lines_of_clauses assignment.now.current (live_clauses clause_alloc.now)) result proof.new }
{
    if !proof.is_active() {
        return Ok(());
    }
    let mut left = Vec::new(alloc);
    trace_clauses(proof, assignment, clause_alloc, &mut left)?;
    Ok(())
}

/// Deletes from the proof the first clauses of the list that are not marked, as many as `count`.
pub fn trace_deletions<A: Allocator + Copy, P: ProofTracer>(
    proof: &mut P,
    clause_alloc: &ClauseAlloc<A>,
    list: &[ClauseRef],
    count: usize,
) -> Result<(), TraceError>
    requires sound { IsSound clause_alloc.now }
    requires listed { (p : ℕ) → p ∈ list.now → IsClauseRef (stored_clauses clause_alloc.now) p }
    requires able { CanTake (P.holds proof.old) (unmarked_deletions (stored_clauses clause_alloc.now) count list.now) }
    ensures { LogsLines P.takes P.breaks_off proof.old
        (unmarked_deletions (stored_clauses clause_alloc.now) count list.now) result proof.new }
{
    let mut left = count;
    'clauses: for cref in list {
        if left == 0 {
            continue;
        }
        if clause_alloc.header(*cref).mark() {
            continue;
        }
        proof.add_step(&ProofStep::DeleteClause {
            clause: clause_alloc.lits(*cref),
        })?;
        left -= 1;
    }
    Ok(())
}
