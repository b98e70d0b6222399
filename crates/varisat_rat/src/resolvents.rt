//! The opposites of a clause's literals, and of those of a resolvent.
ghost use Rattle.std.specs.Prelude.{◌≡◌, ◌++◌, IfOk, OnOk};
ghost use Rattle.varisat_theory.specs.promises.Literals.{opposites};
ghost use Rattle.varisat_theory.specs.promises.Rat.{but_for};

use std::alloc::{AllocError, Allocator};
use varisat_literals::Lit;

/// The opposites of the literals.
pub fn negated<A: Allocator + Copy>(alloc: A, clause: &[Lit]) -> Result<Vec<Lit, A>, AllocError>
    ensures { IfOk result (λ base. base.items ≡ opposites clause.now) }
{
    let mut base = Vec::new(alloc);
    for l in clause {
        base.push(!*l)?;
    }
    Ok(base)
}

/// Adds the opposites of the clause's literals but the given one.
pub fn add_others<A: Allocator + Copy>(
    base: &mut Vec<Lit, A>,
    clause: &[Lit],
    literal: Lit,
) -> Result<(), AllocError>
    ensures { OnOk result (base.new.items ≡ base.old.items ++ opposites (but_for literal clause.now)) }
{
    for l in clause {
        if l.code() == literal.code() {
            continue;
        }
        base.push(!*l)?;
    }
    Ok(())
}
