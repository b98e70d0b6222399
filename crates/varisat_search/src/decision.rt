//! The choice of a literal to decide.
ghost use Rattle.std.specs.Prelude.{◌≡◌, ℕ, None, ◌<◌, ◌≤◌, ◌-◌, ◌^◌, true, false, length, slice_index_or, OnOk, IfOk};
ghost use Rattle.varisat_prop.specs.View.{WellFormed, kept};
ghost use Rattle.varisat_prop.specs.Changes.{IsAssignable};
ghost use Rattle.varisat_vsids.specs.Activities.{with_available};
ghost use Rattle.varisat_search.specs.Contexts.{view, IsReady};
ghost use Rattle.varisat_search.specs.Frames.{ChangesDecisions, ChangesTrail, GoesForward};
ghost use Rattle.varisat_search.specs.ContextChanges.{DecidesLit, DecidesIfLeft};
ghost use Rattle.varisat_search.specs.Decisions.{CanDecide, IsDecidable, SameDecidable, SameDecidableBut, TakesUnassigned, initialized};
ghost use Rattle.varisat_search.specs.Forgotten.{AreNotOf, IsUnmentioned};

use crate::context::Context;
use std::alloc::{AllocError, Allocator};
use varisat_literals::{Lit, Var};
use varisat_prop::prop::{Assignment, Reason, enqueue_assignment};
use varisat_schedule::counters::count;
pub use varisat_vsids::Vsids;

/// Takes out available variables, of greatest activity first, until one has no value.
fn take_unassigned<A: Allocator + Copy>(
    vsids: &mut Vsids<A>,
    assignment: &Assignment<A>,
) -> Option<Var>
    requires activity { length vsids.old.activity ≡ length assignment.now.current }
    requires available { length vsids.old.available ≡ length assignment.now.current }
    ensures { TakesUnassigned assignment.now.current vsids.old vsids.new result }
{
    'taking: while let Some(var) = vsids.next() {
        if assignment.var_value(var).is_none() {
            return Some(var);
        }
    }
    None
}

/// Begins a level with the literal, which has no value. The queue stays as it was: the literal is still to be
/// propagated.
pub fn decide_lit<A: Allocator + Copy>(ctx: &mut Context<A>, lit: Lit) -> Result<(), AllocError>
    requires assignable { IsAssignable ctx.old.assignment.current ctx.old.impl_graph.nodes.items lit }
    requires level { length ctx.old.trail.decisions < 2 ^ 32 - 1 }
    requires depth { length ctx.old.trail.literals < 2 ^ 32 - 1 }
    ensures decided { OnOk result (DecidesLit lit ctx.old ctx.new) }
    ensures frame { ChangesTrail ctx.old ctx.new }
{
    ctx.trail.new_decision_level()?;
    enqueue_assignment(
        &mut ctx.assignment,
        &mut ctx.impl_graph,
        &mut ctx.trail,
        lit,
        Reason::Unit,
    )?;
    count(&mut ctx.counters.decisions, 1);
    Ok(())
}

/// Decides an available variable of greatest activity, as it was last assigned, and as false at first, so that a search
/// stays near the assignment that it was at. Returns false where each literal of a kept clause has a value. The queue
/// stays as it was: the decision is still to be propagated.
pub fn make_decision<A: Allocator + Copy>(ctx: &mut Context<A>) -> Result<bool, AllocError>
    requires well { WellFormed (view ctx.old) }
    requires decidable { CanDecide (view ctx.old) ctx.old.vsids }
    ensures decided { IfOk result (λ made. DecidesIfLeft ctx.old ctx.new made) }
    ensures forward { OnOk result (GoesForward ctx.old ctx.new) }
    ensures decidable { OnOk result (CanDecide (view ctx.new) ctx.new.vsids) }
    ensures frame { ChangesDecisions ctx.old ctx.new }
{
    let Some(var) = take_unassigned(&mut ctx.vsids, &ctx.assignment) else {
        return Ok(false);
    };
    let lit = var.lit(ctx.assignment.last_var_value(var));
    decide_lit(ctx, lit)?;
    Ok(true)
}

/// Makes the variable available for decisions.
pub fn make_available<A: Allocator + Copy>(ctx: &mut Context<A>, var: Var)
    requires ready { IsReady ctx.old }
    requires known { var < length ctx.old.assignment.current }
    ensures available { ctx.new ≡ record ctx.old { vsids = with_available var true ctx.old.vsids } }
    ensures ready { IsReady ctx.new }
    ensures decidable { IsDecidable (view ctx.new) ctx.new.vsids var }
    ensures others { SameDecidableBut var (view ctx.old) ctx.old.vsids (view ctx.new) ctx.new.vsids }
{
    ctx.vsids.make_available(var);
}

/// Begins anew with the variable: its activity is 0, and it becomes available for decisions where that is asked. For a
/// caller that raises the count of variables by itself.
pub fn initialize_var<A: Allocator + Copy>(ctx: &mut Context<A>, var: Var, available: bool)
    requires ready { IsReady ctx.old }
    requires known { var < length ctx.old.assignment.current }
    ensures initialized { ctx.new ≡ record ctx.old { vsids = initialized var available ctx.old.vsids } }
    ensures ready { IsReady ctx.new }
    ensures decidable { available ≡ true → IsDecidable (view ctx.new) ctx.new.vsids var }
    ensures same { available ≡ false → SameDecidable (view ctx.old) ctx.old.vsids (view ctx.new) ctx.new.vsids }
    ensures others { SameDecidableBut var (view ctx.old) ctx.old.vsids (view ctx.new) ctx.new.vsids }
{
    ctx.vsids.reset(var);
    if available {
        make_available(ctx, var);
    }
}

/// Makes the variable unavailable for decisions. A search goes on where no kept clause and no assumption names the
/// variable.
pub fn remove_var<A: Allocator + Copy>(ctx: &mut Context<A>, var: Var)
    requires ready { IsReady ctx.old }
    requires known { var < length ctx.old.assignment.current }
    ensures removed { ctx.new ≡ record ctx.old { vsids = with_available var false ctx.old.vsids } }
    ensures not_decidable { slice_index_or ctx.old.assignment.current var None ≡ None →
        IsDecidable (view ctx.new) ctx.new.vsids var → ⊥ }
    ensures others { SameDecidableBut var (view ctx.old) ctx.old.vsids (view ctx.new) ctx.new.vsids }
    ensures ready { IsUnmentioned (kept (view ctx.old)) var → AreNotOf ctx.old.assumptions.working var →
        IsReady ctx.new }
{
    ctx.vsids.make_unavailable(var);
}
