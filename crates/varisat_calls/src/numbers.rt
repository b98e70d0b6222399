//! Lists of DIMACS numbers, by which callers give literals and are given them.
ghost use Rattle.std.specs.Prelude.{◌≡◌, pos, map, true, false, Ok, OnOk};
ghost use Rattle.varisat_theory.specs.promises.Membership.{◌∈◌};
ghost use Rattle.varisat_literals.specs.promises.Numbers.{literal_numbered};
ghost use Rattle.varisat_calls.specs.Numbers.{returned_number, returned_numbers, returned_names};

use std::alloc::{AllocError, Allocator};
use varisat_client::numbers::put_number;
use varisat_literals::{Lit, Var};

/// Puts the literals of the numbers in place of those before. False where a number is 0.
pub fn read_numbers<A: Allocator + Copy>(
    list: &mut Vec<Lit, A>,
    numbers: &[i32],
) -> Result<bool, AllocError>
    ensures literals { result ≡ Ok true → list.new.items ≡ map literal_numbered numbers.now }
    ensures sound { result ≡ Ok true → pos 0 ∈ numbers.now → ⊥ }
    ensures zero { result ≡ Ok false → pos 0 ∈ numbers.now }
{
    list.clear();
    for &number in numbers {
        if number == 0 {
            return Ok(false);
        }
        put_number(list, number)?;
    }
    Ok(true)
}

/// The number of the literal.
fn number_of(lit: Lit) -> i32
    ensures { result ≡ returned_number lit }
{
    i32::try_from(lit.to_dimacs()).unwrap_or(0)
}

/// Puts the numbers of the literals in place of those before.
pub fn list_numbers<A: Allocator + Copy>(
    returned: &mut Vec<i32, A>,
    lits: &[Lit],
) -> Result<(), AllocError>
    ensures { OnOk result (returned.new.items ≡ returned_numbers lits.now) }
{
    returned.clear();
    for &lit in lits {
        returned.push(number_of(lit))?;
    }
    Ok(())
}

/// Puts the numbers of the variables in place of those before.
pub fn list_names<A: Allocator + Copy>(
    returned: &mut Vec<i32, A>,
    vars: &[Var],
) -> Result<(), AllocError>
    ensures { OnOk result (returned.new.items ≡ returned_names vars.now) }
{
    returned.clear();
    for &var in vars {
        returned.push(number_of(var.positive()))?;
    }
    Ok(())
}
