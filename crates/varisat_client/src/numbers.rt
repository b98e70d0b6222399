//! Literals by their DIMACS numbers, one at a time.
ghost use Rattle.std.specs.Prelude.{◌≡◌, ◌≢◌, ◌∷◌, [], ◌++◌, ◌≤◌, ◌^◌, max, pos, OnOk};
ghost use Rattle.varisat_formula.specs.promises.Formulas.{variables_of};
ghost use Rattle.varisat_literals.specs.promises.Numbers.{literal_numbered};

use std::alloc::{AllocError, Allocator};
use varisat_literals::Lit;

/// The literal of the number.
pub fn literal_of(number: i32) -> Lit
    requires { number ≢ pos 0 }
    ensures { result ≡ literal_numbered number }
{
    Lit::from_dimacs(number as isize)
}

/// Puts the literal of the number behind the list.
pub fn put_number<A: Allocator + Copy>(
    list: &mut Vec<Lit, A>,
    number: i32,
) -> Result<(), AllocError>
    requires { number ≢ pos 0 }
    ensures { OnOk result (list.new.items ≡ list.old.items ++ literal_numbered number ∷ []) }
{
    list.push(literal_of(number))?;
    Ok(())
}

/// The count of variables, or the least one above it that has those of the literals too.
pub fn count_with(count: usize, lits: &[Lit]) -> usize
    requires { count ≤ 2 ^ 31 }
    ensures count { result ≡ max count (variables_of lits.now) }
    ensures small { result ≤ 2 ^ 31 }
{
    let mut most = count;
    for lit in lits {
        most = most.max(lit.index() + 1);
    }
    most
}
