//! The variables that searches for redundant literals have found not to be implied.
ghost use Rattle.std.specs.Prelude.{◌≡◌, ℕ, ◌<◌, ◌^◌, ◌↔◌, ◌++◌, ◌∷◌, [], length, false, IsTrue, OnOk, slice_index_or};
ghost use Rattle.varisat_theory.specs.promises.Membership.{◌∈◌};

use crate::analyze_conflict::clear_flags;
use std::alloc::{AllocError, Allocator};
use std::marker::Model;
use varisat_literals::Var;

/// Variables whose reasons a search for a redundant literal has looked at in vain. Each has a cause that is not marked
/// and, for the same clause, never will be: a decision, a literal of a level that no literal of the clause has, or a
/// variable that is one of these. So no later search gets beyond one that is not marked itself. What analysis proves
/// does not rest on that: one that is held by mistake only keeps a literal that could be left out.
#[derive(Drop)]
pub(crate) struct Unimplied<A: Allocator + Copy> {
    vars: Vec<Var, A>,
    /// By a variable's number whether it is one of them.
    flags: Vec<bool, A>,
}

impl<A: Allocator + Copy> Model for Unimplied<A> {
    ghost use Rattle.std.specs.Prelude.{ℕ, List};
    ghost use Rattle.varisat_analysis.specs.Flags.{AreFlagged};

    ghost Value = { List ℕ };

    ghost view = { λ u. u.vars.items };

    ghost invariant = { λ u. AreFlagged u.flags.items u.vars.items };
}

/// Makes the list of flags so long that it has one for the index.
fn reach<A: Allocator + Copy>(flags: &mut Vec<bool, A>, index: usize) -> Result<(), AllocError>
    requires { index < 2 ^ 32 }
    ensures same { (v : ℕ) → slice_index_or flags.new.items v false ≡ slice_index_or flags.old.items v false }
    ensures reached { OnOk result (index < length flags.new.items) }
{
    if index >= flags.len() {
        flags.resize(index + 1, false)?;
    }
    Ok(())
}

impl<A: Allocator + Copy> Unimplied<A> {
    /// No variables. It takes no memory.
    pub(crate) fn new_in(alloc: A) -> Unimplied<A>
        ensures { result ≡ [] }
    {
        Unimplied {
            vars: Vec::new(alloc),
            flags: Vec::new(alloc),
        }
    }

    /// Whether the variable is one of them.
    pub(crate) fn holds(&self, var: Var) -> bool
        ensures { IsTrue result ↔ (var ∈ self.now) }
    {
        let index = var.index();
        index < self.flags.len() && self.flags[index]
    }

    /// One more variable.
    pub(crate) fn add(&mut self, var: Var) -> Result<(), AllocError>
        ensures { OnOk result (self.new ≡ self.old ++ var ∷ []) }
    {
        let index = var.index();
        reach(&mut self.flags, index)?;
        self.vars.push(var)?;
        self.flags[index] = true;
        Ok(())
    }

    /// Takes all variables out.
    pub(crate) fn clear(&mut self)
        ensures { self.new ≡ [] }
    {
        clear_flags(&mut self.flags, &self.vars);
        self.vars.clear();
    }
}
