//! The clauses that there ever were, and the lines of a proof that added and deleted them.
ghost use Rattle.std.specs.Prelude.{◌≡◌, ◌<◌, ◌≤◌, ◌^◌, true, false, [], length, slice_index_or, OnOk, OnErr};
ghost use Rattle.varisat_theory.specs.promises.Derivations.{Add};
ghost use Rattle.varisat_database.specs.Written.{nothing, with_clause, with_deletion, clause_of, is_deletion};

use crate::clauses::ClauseList;
use std::alloc::{AllocError, Allocator};
use std::marker::Model;
use varisat_literals::Lit;

/// The most clauses that there may be.
const MOST_CLAUSES: usize = 0x8000_0000;

/// The clauses, none of which changes or leaves, and the lines in order. A line is a number, since its clause is one of these.
#[derive(Drop)]
pub struct History<A: Allocator + Copy> {
    clauses: ClauseList<A>,
    steps: Vec<u32, A>,
}

impl<A: Allocator + Copy> Model for History<A> {
    ghost use Rattle.std.specs.Prelude.{map};
    ghost use Rattle.varisat_database.specs.Written.{WrittenClauses, line_at, AreWritten};

    ghost Value = { WrittenClauses };

    ghost view = { λ h. record { clauses = h.clauses; lines = map (line_at h.clauses) h.steps.items } };

    ghost invariant = { λ h. AreWritten h.clauses h.steps.items };
}

impl<A: Allocator + Copy> History<A> {
    /// No clauses and no lines. It takes no memory.
    pub fn new_in(alloc: A) -> History<A>
        ensures { result ≡ nothing }
    {
        History {
            clauses: ClauseList::new_in(alloc),
            steps: Vec::new(alloc),
        }
    }

    /// Makes room for so many clauses with so many literals in all.
    pub fn reserve(&mut self, clauses: usize, literals: usize) -> Result<(), AllocError>
        ensures { self.new ≡ self.old }
    {
        self.clauses.reserve(clauses, literals)?;
        Ok(())
    }

    /// How many clauses there were.
    pub fn len(&self) -> usize
        ensures count { result ≡ length self.now.clauses }
        ensures small { result ≤ 2 ^ 31 }
    {
        self.clauses.len()
    }

    /// How many literals the clauses have.
    pub fn literal_count(&self) -> usize {
        self.clauses.literal_count()
    }

    /// The clause at the place.
    pub fn clause(&self, place: usize) -> &[Lit]
        requires { place < length self.now.clauses }
        ensures { result.now ≡ slice_index_or self.now.clauses place [] }
    {
        self.clauses.clause(place)
    }

    /// How many lines there are.
    pub fn line_count(&self) -> usize
        ensures { result ≡ length self.now.lines }
    {
        self.steps.len()
    }

    /// Whether the line deletes its clause. The others add it.
    pub fn deletes(&self, line: usize) -> bool
        requires { line < length self.now.lines }
        ensures { result ≡ is_deletion (slice_index_or self.now.lines line (Add [])) }
    {
        self.steps[line] % 2 != 0
    }

    /// The clause of the line.
    pub fn lits(&self, line: usize) -> &[Lit]
        requires { line < length self.now.lines }
        ensures { result.now ≡ clause_of (slice_index_or self.now.lines line (Add [])) }
    {
        let place = self.steps[line] / 2;
        self.clauses.clause(place as usize)
    }

    /// Puts a clause behind the others, which a line adds unless it was given. A refused growth changes nothing.
    pub fn push(&mut self, clause: &[Lit], is_given: bool) -> Result<(), AllocError>
        ensures ok { OnOk result (self.new ≡ with_clause is_given self.old clause.now) }
        ensures refused { OnErr result (self.new ≡ self.old) }
    {
        let place = self.clauses.len();
        if place >= MOST_CLAUSES {
            return Err(AllocError);
        }
        if is_given {
            self.clauses.push(clause)?;
            return Ok(());
        }
        let step = 2 * place;
        self.steps.reserve(1)?;
        self.clauses.push(clause)?;
        self.steps.push_reserved(step as u32);
        Ok(())
    }

    /// A line that deletes the clause at the place. A refused growth changes nothing.
    pub fn delete(&mut self, place: usize) -> Result<(), AllocError>
        requires { place < length self.old.clauses }
        ensures ok { OnOk result (self.new ≡ with_deletion self.old place) }
        ensures refused { OnErr result (self.new ≡ self.old) }
    {
        self.steps.reserve(1)?;
        let step = 2 * place + 1;
        self.steps.push_reserved(step as u32);
        Ok(())
    }
}
