//! Searches that tests load by hand.
ghost use Rattle.std.specs.Prelude.{◌≡◌, ◌≤◌, true, length, OnOk, IfOk};
ghost use Rattle.varisat_prop.specs.Looks.{IsInRange};
ghost use Rattle.varisat_search.specs.Contexts.{view, IsReady};
ghost use Rattle.varisat_search.specs.Decisions.{AreDecidable};
ghost use Rattle.varisat_literals.specs.promises.Numbers.{variable_limit};

use std::alloc::{AllocError, Allocator};
use varisat_literals::{Lit, Var};
use varisat_prop::prop::Assignment;
use varisat_search::assumptions::set_assumptions;
use varisat_search::cdcl::conflict_step;
use varisat_search::context::{Context, set_var_count};
use varisat_search::decision::make_available;
use varisat_search::error::StepError;
use varisat_search::load::load_clause;
use varisat_search::state::SatState;
use varisat_steps::NoTracer;
use varisat_vsids::Vsids;

/// The literal with the DIMACS number, which is not 0.
pub fn literal(number: i8) -> Lit {
    let variable = usize::from(number.unsigned_abs());
    Lit::from_index(variable.saturating_sub(1), number > 0)
}

/// The literals with these numbers, of which there are at most nine.
pub fn literals(numbers: &[i8]) -> [Lit; 9] {
    let mut literals = [literal(1); 9];
    for index in 0..9 {
        if index < numbers.len() {
            literals[index] = literal(numbers[index]);
        }
    }
    literals
}

/// Whether the literals have these numbers, in this order.
pub fn are(lits: &[Lit], numbers: &[i8]) -> bool {
    for (lit, number) in lits.iter().zip(numbers) {
        if lit.to_dimacs() != isize::from(*number) {
            return false;
        }
    }
    lits.len() == numbers.len()
}

/// Makes the literals' variables available, where they are those of the search, and says whether they are.
pub fn make_all_available<A: Allocator + Copy>(ctx: &mut Context<A>, lits: &[Lit]) -> bool
    requires { IsReady ctx.old }
    ensures ready { IsReady ctx.new }
    ensures known { result ≡ true → IsInRange ctx.new.assignment.current lits.now }
    ensures decidable { result ≡ true → AreDecidable (view ctx.new) ctx.new.vsids lits.now }
{
    for lit in lits {
        if lit.index() >= ctx.assignment.assignment().len() {
            return false;
        }
        make_available(ctx, lit.var());
    }
    true
}

/// Makes the clause's variables available and loads the clause, where its variables are those of the search.
pub fn load<A: Allocator + Copy>(ctx: &mut Context<A>, lits: &[Lit]) -> Result<(), StepError>
    requires { IsReady ctx.old }
    ensures { OnOk result (IsReady ctx.new) }
{
    if make_all_available(ctx, lits) {
        load_clause(ctx, &mut NoTracer {}, lits)?;
    }
    Ok(())
}

/// Loads the clause of the literals with these numbers, of which there are at most nine.
pub fn load_numbers<A: Allocator + Copy>(
    ctx: &mut Context<A>,
    numbers: &[i8],
) -> Result<(), StepError>
    requires { IsReady ctx.old }
    ensures { OnOk result (IsReady ctx.new) }
{
    load(ctx, &literals(numbers)[..numbers.len().min(9)])
}

/// Makes the variables of the literals with these numbers available and assumes the literals, where their variables are
/// those of the search. There are at most nine.
pub fn assume<A: Allocator + Copy>(ctx: &mut Context<A>, numbers: &[i8]) -> Result<(), AllocError>
    requires { IsReady ctx.old }
    ensures { OnOk result (IsReady ctx.new) }
{
    let literals = literals(numbers);
    let lits = &literals[..numbers.len().min(9)];
    if make_all_available(ctx, lits) {
        set_assumptions(ctx, lits, lits)?;
    }
    Ok(())
}

/// A search over so many variables, into which those of the clauses are loaded that name no other variable.
pub fn loaded<A: Allocator + Copy>(
    alloc: A,
    count: usize,
    clauses: &[&[i8]],
) -> Result<Context<A>, StepError>
    requires { count ≤ variable_limit }
    ensures { IfOk result (λ ctx. IsReady ctx) }
{
    let mut ctx = Context::new_in(alloc);
    let done = load_all(&mut ctx, count, clauses);
    unless_refused(ctx, done)
}

/// The search, unless what was done with it was refused.
pub fn unless_refused<A: Allocator + Copy>(
    ctx: Context<A>,
    done: Result<(), StepError>,
) -> Result<Context<A>, StepError>
    requires { OnOk done (IsReady ctx) }
    ensures { IfOk result (λ ctx. IsReady ctx) }
{
    match done {
        Ok(()) => Ok(ctx),
        Err(error) => {
            drop(ctx);
            Err(error)
        }
    }
}

/// Gives a search with no variable so many, and loads the clauses that name no other.
fn load_all<A: Allocator + Copy>(
    ctx: &mut Context<A>,
    count: usize,
    clauses: &[&[i8]],
) -> Result<(), StepError>
    requires ready { IsReady ctx.old }
    requires empty { length ctx.old.assignment.current ≡ 0 }
    requires small { count ≤ variable_limit }
    ensures { OnOk result (IsReady ctx.new) }
{
    set_var_count(ctx, count)?;
    for clause in clauses {
        load_numbers(ctx, clause)?;
    }
    Ok(())
}

/// A search that conflicts once 1 and 3 are decided as true: 1 implies 2, 3 implies 4 and 5, and -1 -4 -5 is false.
pub fn loaded_conflict<A: Allocator + Copy>(alloc: A) -> Result<Context<A>, StepError>
    ensures { IfOk result (λ ctx. IsReady ctx) }
{
    let clauses: &[&[i8]] = &[&[-1, 2], &[-3, 4], &[-2, -4, 5], &[-1, -4, -5]];
    loaded(alloc, 5, clauses)
}

/// Makes a step, unless there is a verdict.
pub fn step<A: Allocator + Copy>(ctx: &mut Context<A>) -> Result<(), StepError>
    requires { IsReady ctx.old }
    ensures { OnOk result (IsReady ctx.new) }
{
    if let SatState::Unknown = ctx.solver_state.sat_state {
        conflict_step(ctx, &mut NoTracer {})?;
    }
    Ok(())
}

/// Makes this the value that each variable without one had last.
pub fn prefer_value<A: Allocator + Copy>(assignment: &mut Assignment<A>, value: bool)
    requires { length assignment.old.current ≤ variable_limit }
    ensures { assignment.new.current ≡ assignment.old.current }
{
    for index in 0..assignment.assignment().len() {
        let var = Var::from_index(index);
        if assignment.var_value(var).is_none() {
            let lit = var.lit(value);
            assignment.assign_lit(lit);
            assignment.release_lit(lit);
        }
    }
}

/// Makes a variable more active the lower it is, but less than one that is bumped from then on.
fn prefer_lower<A: Allocator + Copy>(vsids: &mut Vsids<A>)
    requires { length vsids.old.activity ≤ variable_limit }
    ensures count { length vsids.new.activity ≡ length vsids.old.activity }
    ensures available { vsids.new.available ≡ vsids.old.available }
{
    let count = vsids.var_count();
    for index in 0..count {
        for _bump in index..count {
            vsids.bump(Var::from_index(index));
        }
    }
    for _decay in 0..100 {
        vsids.decay();
    }
}

/// Lets the next decisions make variables true, the lowest first.
pub fn prefer_lower_true<A: Allocator + Copy>(ctx: &mut Context<A>)
    requires { IsReady ctx.old }
    ensures { IsReady ctx.new }
{
    prefer_lower(&mut ctx.vsids);
    prefer_value(&mut ctx.assignment, true);
}
