//! What a conflict does to the activities of variables.
ghost use Rattle.std.specs.Prelude.{◌≡◌, ℕ, ◌<◌, length};
ghost use Rattle.varisat_theory.specs.promises.Membership.{◌∈◌};
ghost use Rattle.varisat_analysis.specs.Bumps.{bumped_each};

use std::alloc::Allocator;
use varisat_literals::Var;
use varisat_vsids::Vsids;

/// Bumps each variable of the list.
pub fn bump_each<A: Allocator + Copy>(vsids: &mut Vsids<A>, vars: &[Var])
    requires { (v : ℕ) → v ∈ vars.now → v < length vsids.old.activity }
    ensures bumps { vsids.new ≡ bumped_each vars.now vsids.old }
    ensures count { length vsids.new.activity ≡ length vsids.old.activity }
{
    for var in vars {
        vsids.bump(*var);
    }
}
