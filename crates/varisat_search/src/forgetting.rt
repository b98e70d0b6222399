//! Forgetting variables: a search goes on without them, and they may come into use again.
ghost use Rattle.std.specs.Prelude.{◌≡◌, ℕ, List, ◌<◌, ◌≤◌, ◌+◌, ◌-◌, ◌*◌, ◌^◌, ◌↔◌, ◌∷◌, None, [], false, length, map, min, IfOk};
ghost use Rattle.varisat_theory.specs.promises.Membership.{◌∈◌, IsDistinct};
ghost use Rattle.varisat_theory.specs.promises.Literals.{Literal, Clause, variable_of};
ghost use Rattle.varisat_theory.specs.promises.Searches.{Fits};
ghost use Rattle.varisat_literals.specs.promises.Numbers.{variable_limit};
ghost use Rattle.varisat_clause.specs.Stored.{literals_of};
ghost use Rattle.varisat_clause.specs.Stores.{IsSound};
ghost use Rattle.varisat_clause.specs.Collected.{live_clauses};
ghost use Rattle.varisat_prop.specs.Leaving.{leaves, cleared, AreRenumbered};
ghost use Rattle.varisat_prop.specs.View.{kept};
ghost use Rattle.varisat_search.specs.Contexts.{view, IsReady};
ghost use Rattle.varisat_search.specs.Frames.{ChangesForgotten};
ghost use Rattle.varisat_search.specs.Decisions.{IsDecidable};
ghost use Rattle.varisat_search.specs.Forgotten.{AreStaying, IsWithout, FlagsMentioned, FlagsAlso, FlagsImplying, forgotten_activities, search_without, clauses_without};
ghost use Rattle.varisat_search.specs.Seen.{search_of};
ghost use Rattle.varisat_search.specs.RootSimplified.{IsRootSimplified};

use crate::context::Context;
use std::alloc::{AllocError, Allocator};
use varisat_clause::alloc::ClauseAlloc;
use varisat_clause::iter::clauses_iter;
use varisat_literals::{Lit, Var};
use varisat_prop::binary::BinaryClauses;
use varisat_prop::prop::{Assignment, ImplGraph};
use varisat_schedule::counters::count;
use varisat_vsids::Vsids;

/// Notes each literal's place as its depth, where these are the literals of the trail.
fn renumber<A: Allocator + Copy>(impl_graph: &mut ImplGraph<A>, lits: &[Lit])
    requires known { (l : Literal) → l ∈ lits.now → variable_of l < length impl_graph.old.nodes.items }
    requires distinct { IsDistinct (map variable_of lits.now) }
    requires short { length lits.now < 2 ^ 32 - 1 }
    ensures { AreRenumbered lits.now impl_graph.old.nodes.items impl_graph.new.nodes.items }
{
    for place in 0..lits.len() {
        let lit = lits[place];
        impl_graph.update_depth(lit.var(), place + 1);
    }
}

/// Takes the values of the variables that leave away, and also what was remembered of them.
fn forget_values<A: Allocator + Copy>(assignment: &mut Assignment<A>, gone: &[bool])
    requires count { length gone.now ≡ length assignment.old.current }
    requires small { length gone.now ≤ variable_limit }
    ensures { assignment.new
        ≡ record {
          current = cleared gone.now None assignment.old.current;
          last =
              cleared gone.now false assignment.old.last;
        } }
{
    for index in 0..gone.len() {
        let is_gone = gone[index];
        if !is_gone {
            continue;
        }
        assignment.forget_var(Var::from_index(index));
    }
}

/// Makes the variables that leave unavailable, and their activities 0.
fn forget_activities<A: Allocator + Copy>(vsids: &mut Vsids<A>, gone: &[bool])
    requires count { length gone.now ≡ length vsids.old.activity }
    requires small { length gone.now ≤ variable_limit }
    ensures { vsids.new ≡ forgotten_activities gone.now vsids.old }
{
    for index in 0..gone.len() {
        let is_gone = gone[index];
        if !is_gone {
            continue;
        }
        let var = Var::from_index(index);
        vsids.reset(var);
        vsids.make_unavailable(var);
    }
}

/// Lets the variables leave: the search forgets their values, what it remembered of them and their activities, and no
/// longer decides them. It goes on without them as long as no clause and no assumption names them. It takes no memory.
pub fn detach_variables<A: Allocator + Copy>(ctx: &mut Context<A>, gone: &[bool])
    requires ready { IsReady ctx.old }
    requires settled { IsRootSimplified (view ctx.old) }
    requires count { length gone.now ≡ length ctx.old.assignment.current }
    requires unmentioned { (c : Clause) → c ∈ kept (view ctx.old) → AreStaying gone.now c }
    requires unassumed { AreStaying gone.now ctx.old.assumptions.working }
    ensures dropped { IsWithout gone.now (view ctx.old) (view ctx.new) }
    ensures ready { IsReady ctx.new }
    ensures settled { IsRootSimplified (view ctx.new) }
    ensures decidable { (v : ℕ) →
        IsDecidable (view ctx.new) ctx.new.vsids v
        ↔ (IsDecidable (view ctx.old) ctx.old.vsids v × (leaves gone.now v ≡ false)) }
    // What a proof holds still fits where the clauses that name the variables are left out of it.
    ensures seen { search_of (view ctx.new) ≡ search_without gone.now (search_of (view ctx.old)) }
    ensures fits { (held : List Clause) → Fits held (search_of (view ctx.old)) →
        Fits (clauses_without gone.now held) (search_of (view ctx.new)) }
    ensures frame { ChangesForgotten gone.now ctx.old ctx.new }
{
    let before = ctx.trail.trail().len();
    ctx.trail.remove_units(gone);
    let removed = before.saturating_sub(ctx.trail.trail().len());
    count(&mut ctx.counters.removed_units, removed as u64);
    renumber(&mut ctx.impl_graph, ctx.trail.trail());
    forget_values(&mut ctx.assignment, gone);
    forget_activities(&mut ctx.vsids, gone);
}

/// Sets the flags of the literals' variables.
fn flag_clause(flags: &mut [bool], lits: &[Lit])
    requires { (l : Literal) → l ∈ lits.now → variable_of l < length flags.old }
    ensures { FlagsAlso (lits.now ∷ []) flags.old flags.new }
{
    for lit in lits {
        flags[lit.index()] = true;
    }
}

/// Sets the flags of the variables that clauses of the store name, where these are not deleted.
fn flag_stored<A: Allocator + Copy>(flags: &mut [bool], clause_alloc: &ClauseAlloc<A>)
    requires sound { IsSound clause_alloc.now }
    requires known { (c : Clause) → c ∈ literals_of (live_clauses clause_alloc.now) → (l : Literal) → l ∈ c →
        variable_of l < length flags.old }
    ensures { FlagsAlso (literals_of (live_clauses clause_alloc.now)) flags.old flags.new }
{
    for cref in clauses_iter(clause_alloc) {
        flag_clause(flags, clause_alloc.lits(cref));
    }
}

/// Sets the flags of the variables of which a literal implies others, as the opposite of each literal of a clause of
/// two does.
fn flag_implying<A: Allocator + Copy>(flags: &mut [bool], binary_clauses: &BinaryClauses<A>)
    requires known { length binary_clauses.now ≤ 2 * length flags.old }
    requires small { length flags.old ≤ variable_limit }
    ensures { FlagsImplying binary_clauses.now flags.old flags.new }
{
    for code in 0..binary_clauses.len() {
        let lit = Lit::from_code(code);
        if !binary_clauses.implied(lit).is_empty() {
            flags[lit.index()] = true;
        }
    }
}

/// Says of each variable whether a kept clause names it.
pub fn flag_mentioned<A: Allocator + Copy>(ctx: &Context<A>) -> Result<Vec<bool, A>, AllocError>
    requires { IsReady ctx.now }
    ensures { IfOk result (λ flags. FlagsMentioned (view ctx.now) flags.items) }
{
    let alloc = *ctx.tmp_data.lits.allocator();
    let mut flags = Vec::new(alloc);
    flags.resize(ctx.assignment.assignment().len(), false)?;
    flag_stored(&mut flags, &ctx.clause_alloc);
    flag_implying(&mut flags, &ctx.binary_clauses);
    Ok(flags)
}
