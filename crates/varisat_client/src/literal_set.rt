//! Sets of literals that are asked for in one step each.
ghost use Rattle.std.specs.Prelude.{[], length, ◌↔◌, IsTrue, OnOk, ◌^◌, ◌≤◌};
ghost use Rattle.varisat_client.specs.inside.LiteralSets.{Has, IsSetOf, HaveFlags};

use std::alloc::{AllocError, Allocator};
use std::marker::Model;
use varisat_literals::Lit;

/// How many flags the literals take.
fn flags_for(lits: &[Lit]) -> usize
    ensures enough { HaveFlags result lits.now }
    ensures small { result ≤ 2 ^ 32 }
{
    let mut count = 0;
    for lit in lits {
        let code = lit.code();
        if count <= code {
            count = code + 1;
        }
    }
    count
}

/// Sets the flags of the literals, where none is set.
fn set_flags(flags: &mut [bool], lits: &[Lit])
    requires clear { IsSetOf [] flags.old }
    requires known { HaveFlags (length flags.old) lits.now }
    ensures { IsSetOf lits.now flags.new }
{
    for lit in lits {
        flags[lit.code()] = true;
    }
}

/// A set of literals, by a flag for each up to the greatest.
#[derive(Drop)]
pub struct LitSet<A: Allocator + Copy> {
    flags: Vec<bool, A>,
}

impl<A: Allocator + Copy> Model for LitSet<A> {
    ghost use Rattle.std.specs.Prelude.{List, Bool};

    ghost Value = { List Bool };

    ghost view = { λ s. s.flags.items };
}

impl<A: Allocator + Copy> LitSet<A> {
    /// An empty set. It takes no memory.
    pub fn new_in(alloc: A) -> LitSet<A>
        ensures { IsSetOf [] result }
    {
        LitSet {
            flags: Vec::new(alloc),
        }
    }

    /// Whether the literal is in the set.
    pub fn contains(&self, lit: Lit) -> bool
        ensures { IsTrue result ↔ Has self.now lit }
    {
        let code = lit.code();
        code < self.flags.len() && self.flags[code]
    }

    /// Puts these literals in place of those before. Where memory runs out nothing is known of what is left.
    pub fn replace(&mut self, lits: &[Lit]) -> Result<(), AllocError>
        ensures { OnOk result (IsSetOf lits.now self.new) }
    {
        self.flags.clear();
        self.flags.resize(flags_for(lits), false)?;
        set_flags(&mut self.flags, lits);
        Ok(())
    }
}
