//! Values of variables as a list, from the first variable on, and the literals that they make true.
ghost use Rattle.std.specs.Prelude.{◌≡◌, ◌≤◌, ◌^◌, IfOk, length};
ghost use Rattle.varisat_theory.specs.promises.Literals.{value};
ghost use Rattle.varisat_formula.specs.promises.Values.{assignment_of, is_satisfied, with_all_true, model_values, literals_from};

use std::alloc::{AllocError, Allocator};
use varisat_literals::{Lit, Var};

/// Whether the literal is true. A variable without a value is false.
#[tactic(auto, unfolding(varisat_theory::specs::promises::Literals::value))]
fn is_true(values: &[bool], lit: Lit) -> bool
    ensures { result ≡ value (assignment_of values.now) lit }
{
    let value = match values.get(lit.index()) {
        Some(value) => *value,
        None => false,
    };
    if lit.is_positive() { value } else { !value }
}

/// Whether a literal of the clause is true. A variable without a value is false.
pub fn is_satisfied(values: &[bool], clause: &[Lit]) -> bool
    ensures { result ≡ is_satisfied (assignment_of values.now) clause.now }
{
    for lit in clause {
        if is_true(values, *lit) {
            return true;
        }
    }
    false
}

/// Makes the literals true, of which the last of a variable counts. Those of variables without a value are passed over.
fn make_true(values: &mut [bool], literals: &[Lit])
    ensures { values.new ≡ with_all_true literals.now values.old }
{
    for &lit in literals {
        if lit.index() < values.len() {
            values[lit.index()] = lit.is_positive();
        }
    }
}

/// The values of so many variables by the literals, of which the last of a variable counts. A variable of none is false.
/// An error comes where there is no memory for them.
pub fn values_of<A: Allocator + Copy>(
    alloc: A,
    count: usize,
    literals: &[Lit],
) -> Result<Vec<bool, A>, AllocError>
    ensures { IfOk result (λ values. values.items ≡ model_values count literals.now) }
{
    let mut values = Vec::new(alloc);
    values.resize(count, false)?;
    make_true(&mut values, literals);
    Ok(values)
}

/// The literals that are true, one for each value. An error comes where there is no memory for them.
pub fn literals_of<A: Allocator + Copy>(
    alloc: A,
    values: &[bool],
) -> Result<Vec<Lit, A>, AllocError>
    requires { length values.now ≤ 2 ^ 31 }
    ensures { IfOk result (λ literals. literals.items ≡ literals_from 0 values.now) }
{
    let mut literals = Vec::new(alloc);
    literals.reserve_exact(values.len())?;
    for (index, &value) in values.iter().enumerate() {
        literals.push(Var::from_index(index).lit(value))?;
    }
    Ok(literals)
}
