//! Laws of variables and literals, each the contract of a function. Those of numbers say what their bodies come to; what each
//! call of `from_dimacs` and `to_dimacs` returns is said there.
ghost use Rattle.std.specs.Prelude.{◌≡◌, ◌↔◌, IsTrue, fold, pos, ◌≤ℤ◌};
ghost use Rattle.std.specs.Ordering.{nat_cmp};
ghost use Rattle.std.specs.Hash as fed;
ghost use Rattle.varisat_literals.specs.promises.Numbers.{IsLiteralNumber};

use crate::lit::{Lit, Var};
use std::cmp::Ordering;
use std::hash::{Hash, Hasher};

/// The opposite of the opposite is the literal itself.
#[tactic(auto, unfolding(varisat_theory::specs::promises::Literals::opposite))]
pub fn opposite_twice(literal: Lit) -> Lit
    ensures { result ≡ literal }
{
    !!literal
}

/// A variable is the one with its number.
pub fn numbered_var(var: Var) -> Var
    ensures { result ≡ var }
{
    Var::from_dimacs(var.to_dimacs())
}

/// The variable with a number has that number.
pub fn number_of_var(number: isize) -> isize
    requires positive { pos 1 ≤ℤ number }
    requires small { number ≤ℤ pos 0x8000_0000 }
    ensures { result ≡ number }
{
    Var::from_dimacs(number).to_dimacs()
}

/// A literal is the one with its number.
pub fn numbered_lit(literal: Lit) -> Lit
    ensures { result ≡ literal }
{
    Lit::from_dimacs(literal.to_dimacs())
}

/// The literal with a number has that number.
pub fn number_of_lit(number: isize) -> isize
    requires { IsLiteralNumber number }
    ensures { result ≡ number }
{
    Lit::from_dimacs(number).to_dimacs()
}

/// Variables are equal just where their indices are, and are ordered as these.
pub fn compared_vars(a: Var, b: Var) -> (bool, Ordering)
    ensures equal { IsTrue result.0 ↔ (a ≡ b) }
    ensures order { result.1 ≡ nat_cmp a b }
{
    (a == b, a.cmp(&b))
}

/// Literals are equal just where their codes are, and are ordered as these.
pub fn compared_lits(left: Lit, right: Lit) -> (bool, Ordering)
    ensures equal { IsTrue result.0 ↔ (left ≡ right) }
    ensures order { result.1 ≡ nat_cmp left right }
{
    (left == right, left.cmp(&right))
}

/// A variable is hashed as its index.
pub fn hashed_var<H: Hasher>(var: Var, state: &mut H)
    ensures { state.new ≡ fold H.write state.old (fed.u32 var) }
{
    var.hash(state);
}

/// A literal is hashed as its code.
pub fn hashed_lit<H: Hasher>(literal: Lit, state: &mut H)
    ensures { state.new ≡ fold H.write state.old (fed.u32 literal) }
{
    literal.hash(state);
}
