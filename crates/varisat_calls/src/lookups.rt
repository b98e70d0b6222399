//! The literals of a model or a core, kept so that each is looked up in one step. The solver makes a model anew each
//! time that it is asked for it: so it is asked once, until it changes.
ghost use Rattle.std.specs.Prelude.{◌≡◌, true, false, OnOk, OnErr, Ok};
ghost use Rattle.varisat_client.specs.inside.LiteralSets.{IsSetOf};
ghost use Rattle.varisat_solver.specs.promises.Summaries.{Summary};
ghost use Rattle.varisat_calls.specs.Lookups.{IsCurrent, IsValueIn, IsMember, AreModelFlags, AreCoreFlags, GivesModel, GivesNoModel, GivesCore, GivesNoCore};
ghost use Rattle.varisat_calls.specs.declared.lookups.Kept.TheVariants.{Nothing};

use crate::codes::NOTHING;
use crate::stream::StreamTarget;
use std::alloc::{AllocError, Allocator};
use std::marker::Model;
use varisat_client::literal_set::LitSet;
use varisat_literals::Lit;
use varisat_solver::Solver;

/// Which list of a solver has its literals kept.
#[derive(Clone, Copy)]
pub enum Kept {
    Nothing,
    Model,
    Core,
}

/// The literals of the list that was looked up last, until the solver changes.
#[derive(Drop)]
pub struct Lookups<A: Allocator + Copy> {
    // Which list the literals are those of. Where it is `Nothing` they are of no use, and only their memory is kept.
    kept: Kept,
    // A flag for each literal.
    literals: LitSet<A>,
}

impl<A: Allocator + Copy> Model for Lookups<A> {
    ghost use Rattle.varisat_calls.specs.Lookups as lookups;

    ghost Value = { lookups.Lookups };

    ghost view = { λ c. record { kept = c.kept; literals = c.literals } };
}

impl<A: Allocator + Copy> Lookups<A> {
    /// Nothing is kept. It takes no memory.
    pub fn new_in(alloc: A) -> Lookups<A>
        ensures { (solver : Summary) → IsCurrent result solver }
    {
        Lookups {
            kept: Kept::Nothing,
            literals: LitSet::new_in(alloc),
        }
    }

    /// Keeps nothing, as the solver changes.
    pub fn forget(&mut self)
        ensures { (solver : Summary) → IsCurrent self.new solver }
    {
        self.kept = Kept::Nothing;
    }

    /// Keeps these literals in place of those before, or none where there is no room.
    fn replace(&mut self, kept: Kept, lits: &[Lit]) -> Result<(), AllocError>
        ensures kept { OnOk result ((self.new.kept ≡ kept) × IsSetOf lits.now self.new.literals) }
        ensures lost { OnErr result (self.new.kept ≡ Nothing) }
    {
        // Where memory runs out the set is neither the old nor the new one.
        self.kept = Kept::Nothing;
        self.literals.replace(lits)?;
        self.kept = kept;
        Ok(())
    }

    /// Keeps the literals of the model, if there is one. Where they are kept already the solver is not asked.
    pub fn find_model(&mut self, solver: &Solver<StreamTarget<A>, A>) -> Result<bool, AllocError>
        requires { IsCurrent self.old solver.now }
        ensures current { IsCurrent self.new solver.now }
        ensures model { result ≡ Ok true → AreModelFlags solver.now self.new.literals }
        ensures none { result ≡ Ok false → GivesNoModel solver.now }
        ensures lost { OnErr result (GivesModel solver.now) }
    {
        if let Kept::Model = self.kept {
            return Ok(true);
        }
        match solver.model() {
            Ok(Some(list)) => {
                self.replace(Kept::Model, &list)?;
                Ok(true)
            }
            Ok(None) => Ok(false),
            Err(_) => Err(AllocError),
        }
    }

    /// Keeps the literals of the core, if there is one. Where they are kept already the solver is not asked.
    pub fn find_core(&mut self, solver: &Solver<StreamTarget<A>, A>) -> Result<bool, AllocError>
        requires { IsCurrent self.old solver.now }
        ensures current { IsCurrent self.new solver.now }
        ensures core { result ≡ Ok true → AreCoreFlags solver.now self.new.literals }
        ensures none { result ≡ Ok false → GivesNoCore solver.now }
        ensures lost { OnErr result (GivesCore solver.now) }
    {
        if let Kept::Core = self.kept {
            return Ok(true);
        }
        match solver.failed_core() {
            Some(core) => {
                self.replace(Kept::Core, core)?;
                Ok(true)
            }
            None => Ok(false),
        }
    }

    /// 1 where the literal is kept, 0 where its opposite is, 15 where neither is: the model has no such variable.
    pub fn value(&self, lit: Lit) -> u8
        ensures { IsValueIn self.now.literals lit result }
    {
        if self.literals.contains(lit) {
            1
        } else if self.literals.contains(!lit) {
            0
        } else {
            NOTHING
        }
    }

    /// 1 where the literal is kept, else 0.
    pub fn is_kept(&self, lit: Lit) -> u8
        ensures { IsMember self.now.literals lit result }
    {
        u8::from(self.literals.contains(lit))
    }
}
