//! Models of what a formula was made into, as models of the formula.
ghost use Rattle.std.specs.Prelude.{◌≡◌, ◌≤◌, ◌^◌, IfOk, max};
ghost use Rattle.varisat_formula.specs.promises.Formulas.{variables_of};
ghost use Rattle.varisat_solve.specs.promises.Extending.{named_count, model_of_all};

use std::alloc::{AllocError, Allocator};
use varisat::{CnfFormula, Lit};
use varisat_formula::values::{literals_of, values_of};
use varisat_simplify::clauses::ClauseList;
use varisat_simplify::stack::extend;

/// The count, or one that has the variables of the literals too.
fn raised(count: usize, literals: &[Lit]) -> usize
    requires { count ≤ 2 ^ 31 }
    ensures count { result ≡ max count (variables_of literals.now) }
    ensures small { result ≤ 2 ^ 31 }
{
    let mut most = count;
    for literal in literals {
        most = most.max(literal.index() + 1);
    }
    most
}

/// How many variables there are up to the highest that the clauses name. A text's head may name many more.
pub fn named_count<A: Allocator + Copy>(formula: &CnfFormula<A>) -> usize
    ensures count { result ≡ named_count formula.now.clauses }
    ensures small { result ≤ 2 ^ 31 }
{
    let mut most: usize = 0;
    for clause in formula.iter() {
        most = raised(most, clause);
    }
    most
}

/// The model of what was made, extended to so many variables, of which those are false that it does not list.
pub fn extend_model<A: Allocator + Copy>(
    alloc: A,
    stack: &ClauseList<A>,
    model: &[Lit],
    count: usize,
) -> Result<Vec<Lit, A>, AllocError>
    requires { count ≤ 2 ^ 31 }
    ensures { IfOk result (λ list. list.items ≡ model_of_all stack.now model.now count) }
{
    let mut values = values_of(alloc, count, model)?;
    extend(stack, &mut values);
    let list = literals_of(alloc, &values)?;
    Ok(list)
}
