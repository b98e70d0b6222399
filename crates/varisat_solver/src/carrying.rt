//! Literals over other variables.
ghost use Rattle.std.specs.Prelude.{◌≡◌, ℕ, Some, map, OnOk};
ghost use Rattle.varisat_theory.specs.promises.Membership.{◌∈◌};
ghost use Rattle.varisat_theory.specs.promises.Literals.{Literal, variable_of};
ghost use Rattle.varisat_names.specs.promises.Maps.{chain};
ghost use Rattle.varisat_names.specs.promises.VarMap.{at};
ghost use Rattle.varisat_tracer.specs.promises.Carried.{carry};

use std::alloc::{AllocError, Allocator};
use varisat_literals::Lit;
use varisat_names::variables::var_map::VarMap;

/// Lists the literals over the variables to which the two maps lead, one after the other.
pub(crate) fn carry_literals<A: Allocator + Copy>(
    first: &VarMap<A>,
    second: &VarMap<A>,
    lits: &[Lit],
    carried: &mut Vec<Lit, A>,
) -> Result<(), AllocError>
    requires { (l : Literal) → l ∈ lits.now →
        (v : ℕ) × (chain (at first.now) (at second.now) (variable_of l) ≡ Some v) }
    ensures { OnOk result (carried.new.items ≡ map (carry (chain (at first.now) (at second.now))) lits.now) }
{
    carried.clear();
    for lit in lits {
        let middle = first.get(lit.var()).unwrap();
        let var = second.get(middle).unwrap();
        carried.push(var.lit(lit.is_positive()))?;
    }
    Ok(())
}
