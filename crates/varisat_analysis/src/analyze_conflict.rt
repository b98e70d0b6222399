//! Learns a clause from a conflict.
ghost use Rattle.std.specs.Prelude.{◌≡◌, ℕ, ◌<◌, ◌≤◌, ◌++◌, true, false, length, slice_index_or, OnOk, IfOk, MatchOption};
ghost use Rattle.varisat_theory.specs.promises.Membership.{◌∈◌, SameSet, IsDistinct};
ghost use Rattle.varisat_theory.specs.promises.Literals.{variable_of, opposite};
ghost use Rattle.varisat_theory.specs.promises.Propagation.{IsFalse};
ghost use Rattle.varisat_prop.specs.View.{View, level_of, WellFormed, PropagatedBeforeDecisions};
ghost use Rattle.varisat_prop.specs.Changes.{IsConflicting};
ghost use Rattle.varisat_analysis.specs.Learned.{no_analysis, names_of, Shows, IsLevelOf, IsLearned, AreInvolved};
ghost use Rattle.varisat_analysis.specs.Marks.{Sees, CanMark, IsPassedOver, IsToMark, marking, MayBegin, MarksAreListed, Marks, AddsMarks, AddsReason, IsResolved, Minimizes, Teaches};
ghost use Rattle.varisat_analysis.specs.Bumps.{literals_among, AreVariablesAbove};
ghost use Rattle.varisat_analysis.specs.Redundancy.{Explores, FindsRedundancy};

use crate::glue::LevelAbstraction;
use crate::unimplied::Unimplied;
use std::alloc::{AllocError, Allocator};
use std::marker::Model;
use varisat_literals::{Lit, Var};
use varisat_prop::clause::ClauseAlloc;
use varisat_prop::prop::{Conflict, ImplGraph, Reason, Trail};

/// The learned clause, the clauses that it came from, their variables above level 0, and a flag for each variable. The
/// flags are false between calls, also after a call that was out of memory.
#[derive(Drop)]
pub struct AnalyzeConflict<A: Allocator + Copy> {
    scratch: Scratch<A>,
    var_flags: Vec<bool, A>,
}

/// The lists that analysis works with.
#[derive(Drop)]
struct Scratch<A: Allocator + Copy> {
    /// The literals of the learned clause.
    clause: Vec<Lit, A>,
    /// The clauses that were resolved.
    involved: Vec<Conflict, A>,
    /// The variables above level 0 of the clauses that were resolved, each once.
    met: Vec<Var, A>,
    /// The variables that minimization marked.
    to_clean: Vec<Var, A>,
    /// True literals whose reasons the search for a redundant literal has still to look at.
    stack: Vec<Lit, A>,
    /// The variables that such searches have found not to be implied.
    unimplied: Unimplied<A>,
}

/// What analysis reads of a search.
#[derive(Clone, Copy)]
pub(crate) struct Parts<'a, A: Allocator + Copy> {
    pub(crate) clause_alloc: &'a ClauseAlloc<A>,
    pub(crate) impl_graph: &'a ImplGraph<A>,
    pub(crate) trail: &'a Trail<A>,
}

impl<A: Allocator + Copy> Model for AnalyzeConflict<A> {
    ghost use Rattle.std.specs.Prelude.{ℕ, ◌≡◌, length, slice_index_or, false};
    ghost use Rattle.varisat_analysis.specs.Learned.{Analysis};

    ghost Value = { Analysis };

    ghost view = { λ a. record {
      clause = a.scratch.clause.items;
      involved = a.scratch.involved.items;
      met = a.scratch.met.items;
      var_count = length a.var_flags.items;
    } };

    ghost invariant = { λ a. (v : ℕ) → slice_index_or a.var_flags.items v false ≡ false };
}

impl<A: Allocator + Copy> AnalyzeConflict<A> {
    /// No clause, and no variables. It takes no memory.
    pub fn new_in(alloc: A) -> AnalyzeConflict<A>
        ensures { result ≡ no_analysis }
    {
        AnalyzeConflict {
            scratch: Scratch {
                clause: Vec::new(alloc),
                involved: Vec::new(alloc),
                met: Vec::new(alloc),
                to_clean: Vec::new(alloc),
                stack: Vec::new(alloc),
                unimplied: Unimplied::new_in(alloc),
            },
            var_flags: Vec::new(alloc),
        }
    }

    /// Raises the count of variables.
    pub fn set_var_count(&mut self, count: usize) -> Result<(), AllocError>
        requires { self.old.var_count ≤ count }
        ensures { OnOk result (self.new ≡ record self.old { var_count = count }) }
    {
        self.var_flags.resize(count, false)?;
        Ok(())
    }

    /// The learned clause.
    pub fn clause(&self) -> &[Lit]
        ensures { result.now ≡ self.now.clause }
    {
        self.scratch.clause.as_slice()
    }

    /// The variables above level 0 of the clauses that were resolved, each once.
    pub fn met(&self) -> &[Var]
        ensures { result.now ≡ self.now.met }
    {
        self.scratch.met.as_slice()
    }

    /// The clauses that were resolved to make the learned one.
    pub fn involved(&self) -> &[Conflict]
        ensures { result.now ≡ self.now.involved }
    {
        self.scratch.involved.as_slice()
    }
}

/// The level of the false literal, unless it is 0 or the literal's variable is marked.
// Like four more below it is compiled in place: a call would write the parts to memory, for each literal or each reason.
#[inline(always)]
fn level_to_mark<A: Allocator + Copy>(
    parts: Parts<'_, A>,
    var_flags: &[bool],
    lit: Lit,
) -> Option<usize>
    ghost s: { View }
    requires can { CanMark s parts var_flags.now }
    requires falsified { opposite lit ∈ s.trail }
    ensures { MatchOption result (IsPassedOver s var_flags.now lit) (IsToMark s var_flags.now lit) }
{
    // The flag first: it is one byte, and the level stands in a node of the graph, which is often not in the cache.
    if var_flags[lit.index()] {
        return None;
    }
    let level = parts.impl_graph.level(lit.var());
    // What is false at level 0 is false by the clauses alone, and can be left out.
    if level == 0 {
        return None;
    }
    Some(level)
}

/// Marks the variables of false literals. Those below the current level join the clause; returns how many of the
/// current level are new.
#[inline(always)]
fn add_literals<A: Allocator + Copy>(
    parts: Parts<'_, A>,
    scratch: &mut Scratch<A>,
    var_flags: &mut [bool],
    lits: &[Lit],
) -> Result<usize, AllocError>
    ghost s: { View }
    requires can { CanMark s parts var_flags.old }
    requires falsified { IsFalse s.trail lits.now }
    ensures { IfOk result
        (λ count. AddsMarks s lits.now count (marking scratch.old var_flags.old) (marking scratch.new var_flags.new)) }
{
    let current = parts.trail.current_level();
    let mut count = 0;
    for lit in lits {
        let Some(level) = level_to_mark(parts, var_flags, *lit) else {
            continue;
        };
        scratch.met.push(lit.var())?;
        if level == current {
            count += 1;
        } else {
            scratch.clause.push(*lit)?;
        }
        var_flags[lit.index()] = true;
    }
    Ok(count)
}

/// Lists the clause that made the literal true, if there is one.
#[inline(always)]
fn list_reason<A: Allocator + Copy>(
    involved: &mut Vec<Conflict, A>,
    lit: Lit,
    reason: Reason,
) -> Result<(), AllocError>
    ensures { OnOk result (involved.new.items ≡ involved.old.items ++ names_of lit reason) }
{
    match reason {
        Reason::Unit => {}
        Reason::Binary(others) => involved.push(Conflict::Binary([lit, others[0]]))?,
        Reason::Long(cref) => involved.push(Conflict::Long(cref))?,
    }
    Ok(())
}

/// Lists the true literal's reason and adds the other literals of the reason. Returns how many of the current level are
/// new.
#[inline(always)]
fn add_reason<A: Allocator + Copy>(
    parts: Parts<'_, A>,
    scratch: &mut Scratch<A>,
    var_flags: &mut [bool],
    lit: Lit,
) -> Result<usize, AllocError>
    ghost s: { View }
    requires can { CanMark s parts var_flags.old }
    requires stands { lit ∈ s.trail }
    ensures { IfOk result
        (λ count. AddsReason s lit count (marking scratch.old var_flags.old) (marking scratch.new var_flags.new)) }
{
    let reason = *parts.impl_graph.reason(lit.var());
    list_reason(&mut scratch.involved, lit, reason)?;
    let count = add_literals(parts, scratch, var_flags, reason.lits(parts.clause_alloc))?;
    Ok(count)
}

/// Resolves the conflict's clause with reasons, down to the first unique implication point: the one literal of the
/// current level that is left. Returns its opposite; the other literals are left in the clause.
fn resolve<A: Allocator + Copy>(
    parts: Parts<'_, A>,
    scratch: &mut Scratch<A>,
    var_flags: &mut [bool],
    conflict: Conflict,
) -> Result<Lit, AllocError>
    ghost s: { View }
    requires { MayBegin s parts conflict (marking scratch.old var_flags.old) }
    ensures { IfOk result (λ first. IsResolved s conflict first (marking scratch.new var_flags.new)) }
{
    scratch.involved.push(conflict)?;
    let mut count = add_literals(parts, scratch, var_flags, conflict.lits(parts.clause_alloc))?;
    // The other literals of a reason are false by earlier places of the trail. So backwards over the trail no literal
    // comes back once it was resolved, and `count`, the marked literals of the current level that are still ahead,
    // says when the last one is met.
    let mut place = parts.trail.trail().len();
    'places: loop {
        place -= 1;
        let lit = parts.trail.trail()[place];
        if !var_flags[lit.index()] {
            continue;
        }
        var_flags[lit.index()] = false;
        count -= 1;
        if count == 0 {
            return Ok(!lit);
        }
        count += add_reason(parts, scratch, var_flags, lit)?;
    }
}

/// Clears the variables' flags.
pub(crate) fn clear_flags(var_flags: &mut [bool], vars: &[Var])
    requires { (v : ℕ) → v ∈ vars.now → v < length var_flags.old }
    ensures gone { (v : ℕ) → v ∈ vars.now → slice_index_or var_flags.new v false ≡ false }
    ensures rest { (v : ℕ) → (v ∈ vars.now → ⊥) →
        slice_index_or var_flags.new v false ≡ slice_index_or var_flags.old v false }
{
    for var in vars {
        var_flags[var.index()] = false;
    }
}

/// Clears all flags.
pub(crate) fn clear_all_flags(var_flags: &mut [bool])
    ensures { (v : ℕ) → slice_index_or var_flags.new v false ≡ false }
{
    for index in 0..var_flags.len() {
        var_flags[index] = false;
    }
}

/// Marks the literals that are false where a reason holds, and puts their opposites on the stack. Returns false where
/// one of them can't be implied by the clause.
#[inline(always)]
fn mark_causes<A: Allocator + Copy>(
    parts: Parts<'_, A>,
    scratch: &mut Scratch<A>,
    var_flags: &mut [bool],
    levels: &LevelAbstraction,
    lits: &[Lit],
) -> Result<bool, AllocError>
    ghost s: { View }
    requires can { CanMark s parts var_flags.old }
    requires falsified { IsFalse s.trail lits.now }
    ensures { IfOk result
        (λ done. Explores s lits.now done (marking scratch.old var_flags.old) (marking scratch.new var_flags.new)) }
{
    for lit in lits {
        let Some(level) = level_to_mark(parts, var_flags, *lit) else {
            continue;
        };
        // A decision that isn't marked is implied by nothing. Where no literal of the clause is of the level, the
        // search would come to the decision of that level in the end; a filter that holds too much only makes it go on.
        if parts.impl_graph.reason(lit.var()).is_unit() || !levels.test(level) {
            return Ok(false);
        }
        // An earlier search of this clause ended here, and no later one gets beyond it.
        if scratch.unimplied.holds(lit.var()) {
            return Ok(false);
        }
        scratch.to_clean.push(lit.var())?;
        scratch.stack.push(!*lit)?;
        var_flags[lit.index()] = true;
    }
    Ok(true)
}

/// Whether the marked literals imply the literal to be false. Where they do, what it is implied by is marked too, and
/// else nothing more is.
fn is_redundant<A: Allocator + Copy>(
    parts: Parts<'_, A>,
    scratch: &mut Scratch<A>,
    var_flags: &mut [bool],
    levels: &LevelAbstraction,
    lit: Lit,
) -> Result<bool, AllocError>
    ghost s: { View }
    requires can { CanMark s parts var_flags.old }
    requires falsified { opposite lit ∈ s.trail }
    ensures { IfOk result
        (λ redundant.
        FindsRedundancy s lit redundant (marking scratch.old var_flags.old) (marking scratch.new var_flags.new)) }
{
    if parts.impl_graph.reason(lit.var()).is_unit() {
        return Ok(false);
    }
    let top = scratch.to_clean.len();
    scratch.stack.clear();
    scratch.stack.push(!lit)?;
    'search: while let Some(implied) = scratch.stack.pop() {
        let lits = parts
            .impl_graph
            .reason(implied.var())
            .lits(parts.clause_alloc);
        if !mark_causes(parts, scratch, var_flags, levels, lits)? {
            // What this search marked need not be implied, and a later one would take it for such. The marks of a
            // search that came to its end stay: what they stand for is implied, and is not searched again.
            clear_flags(var_flags, &scratch.to_clean[top..]);
            scratch.to_clean.truncate(top);
            scratch.unimplied.add(implied.var())?;
            return Ok(false);
        }
    }
    Ok(true)
}

/// The levels of the clause's literals. A filter of 64 bits is enough: a level that it holds by mistake makes a search
/// longer, but does not change what it finds.
fn levels_of<A: Allocator + Copy>(parts: Parts<'_, A>, clause: &[Lit]) -> LevelAbstraction
    requires { (m : ℕ) → m ∈ clause.now → variable_of m < length parts.impl_graph.now.nodes.items }
{
    let mut levels = LevelAbstraction::default();
    for lit in clause {
        levels.add(parts.impl_graph.level(lit.var()));
    }
    levels
}

/// Leaves out the literals that the others imply to be false.
fn minimize<A: Allocator + Copy>(
    parts: Parts<'_, A>,
    scratch: &mut Scratch<A>,
    var_flags: &mut [bool],
) -> Result<(), AllocError>
    ghost s: { View }
    requires can { CanMark s parts var_flags.old }
    requires marks { Marks s 0 (marking scratch.old var_flags.old) }
    ensures { OnOk result (Minimizes s (marking scratch.old var_flags.old) (marking scratch.new var_flags.new)) }
{
    let levels = levels_of(parts, &scratch.clause);
    let mut kept = 0;
    for place in 0..scratch.clause.len() {
        let lit = scratch.clause[place];
        if !is_redundant(parts, scratch, var_flags, &levels, lit)? {
            scratch.clause[kept] = lit;
            kept += 1;
        }
    }
    scratch.clause.truncate(kept);
    Ok(())
}

/// The place of a literal with the highest level.
fn highest_place<A: Allocator + Copy>(parts: Parts<'_, A>, clause: &[Lit]) -> usize
    ghost s: { View }
    requires sees { Sees s parts }
    requires range { (m : ℕ) → m ∈ clause.now → variable_of m < length s.nodes }
    requires some { 0 < length clause.now }
    ensures within { result < length clause.now }
    ensures highest { (k : ℕ) → k < length clause.now →
        level_of s (slice_index_or clause.now k 0) ≤ level_of s (slice_index_or clause.now result 0) }
{
    let mut highest = 0;
    for place in 1..clause.len() {
        let level = parts.impl_graph.level(clause[place].var());
        if level > parts.impl_graph.level(clause[highest].var()) {
            highest = place;
        }
    }
    highest
}

/// Puts a literal with the highest level first. Returns that level, or 0 where there is no literal.
fn put_highest_first<A: Allocator + Copy>(parts: Parts<'_, A>, clause: &mut Vec<Lit, A>) -> usize
    ghost s: { View }
    requires sees { Sees s parts }
    requires range { (m : ℕ) → m ∈ clause.old.items → variable_of m < length s.nodes }
    requires distinct { IsDistinct clause.old.items }
    ensures same { SameSet clause.new.items clause.old.items }
    ensures distinct { IsDistinct clause.new.items }
    ensures level { IsLevelOf s clause.new.items result }
{
    if clause.is_empty() {
        return 0;
    }
    let highest = highest_place(parts, clause);
    clause.swap(0, highest);
    parts.impl_graph.level(clause[0].var())
}

/// Learns a clause from a conflict above level 0. Returns the level to backtrack to. The marked variables are listed.
fn learn<A: Allocator + Copy>(
    parts: Parts<'_, A>,
    scratch: &mut Scratch<A>,
    var_flags: &mut [bool],
    conflict: Conflict,
) -> Result<usize, AllocError>
    ghost s: { View }
    requires { MayBegin s parts conflict (marking scratch.old var_flags.old) }
    ensures teaches { IfOk result
        (λ level. Teaches s conflict scratch.new.clause.items scratch.new.involved.items level) }
    ensures met { OnOk result
        (AreVariablesAbove s.nodes (literals_among s.clauses scratch.new.involved.items) scratch.new.met.items) }
    ensures cleaned { OnOk result (MarksAreListed (marking scratch.new var_flags.new)) }
{
    let first = resolve(parts, scratch, var_flags, conflict)?;
    minimize(parts, scratch, var_flags)?;
    // Once the search backtracks to the second literal's level all but the first are false, and the clause makes the
    // first true. With these two in front the clause is watched by the literals that lose their values last.
    let level = put_highest_first(parts, &mut scratch.clause);
    scratch.clause.insert(0, first)?;
    Ok(level)
}

/// Learns a clause from a conflict above level 0, and clears the flags again.
fn learn_and_clear<A: Allocator + Copy>(
    parts: Parts<'_, A>,
    scratch: &mut Scratch<A>,
    var_flags: &mut [bool],
    conflict: Conflict,
) -> Result<usize, AllocError>
    ghost s: { View }
    requires { MayBegin s parts conflict (marking scratch.old var_flags.old) }
    ensures unmarked { (v : ℕ) → slice_index_or var_flags.new v false ≡ false }
    ensures teaches { IfOk result
        (λ level. Teaches s conflict scratch.new.clause.items scratch.new.involved.items level) }
    ensures met { OnOk result
        (AreVariablesAbove s.nodes (literals_among s.clauses scratch.new.involved.items) scratch.new.met.items) }
{
    match learn(parts, scratch, var_flags, conflict) {
        Ok(level) => {
            clear_flags(var_flags, &scratch.met);
            clear_flags(var_flags, &scratch.to_clean);
            Ok(level)
        }
        Err(error) => {
            clear_all_flags(var_flags);
            Err(error)
        }
    }
}

/// Learns a clause from a conflict. Returns the lowest level at which the clause makes its first literal true; at level
/// 0 the clause is empty. Fails where it is out of memory, and then says nothing of the clause.
pub fn analyze_conflict<A: Allocator + Copy>(
    analyze: &mut AnalyzeConflict<A>,
    clause_alloc: &ClauseAlloc<A>,
    impl_graph: &ImplGraph<A>,
    trail: &Trail<A>,
    conflict: Conflict,
) -> Result<usize, AllocError>
    ghost s: { View }
    requires shows { Shows s clause_alloc.now impl_graph.now.nodes.items trail.now }
    requires well { WellFormed s }
    requires settled { PropagatedBeforeDecisions s }
    requires conflict { IsConflicting s conflict }
    requires flags { analyze.old.var_count ≡ length impl_graph.now.nodes.items }
    ensures count { analyze.new.var_count ≡ analyze.old.var_count }
    ensures learned { IfOk result (λ level. IsLearned s conflict analyze.new.clause level) }
    ensures involved { OnOk result (AreInvolved s conflict analyze.new.involved) }
    ensures met { OnOk result
        (AreVariablesAbove s.nodes (literals_among s.clauses analyze.new.involved) analyze.new.met) }
{
    let parts = Parts {
        clause_alloc,
        impl_graph,
        trail,
    };
    analyze.scratch.clause.clear();
    analyze.scratch.involved.clear();
    analyze.scratch.met.clear();
    analyze.scratch.to_clean.clear();
    analyze.scratch.unimplied.clear();
    if trail.current_level() == 0 {
        return Ok(0);
    }
    let level = learn_and_clear(
        parts,
        &mut analyze.scratch,
        &mut analyze.var_flags,
        conflict,
    )?;
    Ok(level)
}
