//! Clauses one behind the other in one buffer, none of which ever changes or leaves.
ghost use Rattle.std.specs.Prelude.{◌≡◌, ℕ, List, ◌+◌, ◌∷◌, ◌++◌, [], ◌<◌, ◌≤◌, ◌^◌, length, IsTrue, OnOk, OnErr, slice_index_or, vec_len, vec_capacity};
ghost use Rattle.varisat_database.specs.Cuts.{start_of};

use std::alloc::{AllocError, Allocator};
use std::marker::Model;
use varisat_literals::Lit;

/// The most literals that all clauses have.
const MOST_LITERALS: usize = 0xffff_ffff;

/// A list of clauses.
#[derive(Drop)]
pub struct ClauseList<A: Allocator + Copy> {
    ends: Vec<u32, A>,
    literals: Vec<Lit, A>,
}

impl<A: Allocator + Copy> Model for ClauseList<A> {
    ghost use Rattle.std.specs.Prelude.{List, ℕ, length};
    ghost use Rattle.varisat_database.specs.Cuts.{cut_from, AreEnds};

    ghost Value = { List (List ℕ) };

    ghost view = { λ c. cut_from 0 c.ends.items c.literals.items };

    ghost invariant = { λ c. AreEnds 0 c.ends.items (length c.literals.items) };
}

/// Where the clause at the index begins.
fn start_of(ends: &[u32], index: usize) -> usize
    requires { index < length ends.now }
    ensures { result ≡ start_of 0 ends.now index }
{
    if index == 0 {
        return 0;
    }
    ends[index - 1] as usize
}

/// Whether so many literals more are not too many.
fn has_room(literals: &[Lit], count: usize) -> bool
    ensures { IsTrue result → length literals.now + count < 2 ^ 32 }
{
    count <= MOST_LITERALS && literals.len() <= MOST_LITERALS - count
}

/// Appends the literals, for which there is room, one by one: most clauses are short.
fn append<A: Allocator + Copy>(literals: &mut Vec<Lit, A>, clause: &[Lit])
    requires { vec_len literals.old + length clause.now ≤ vec_capacity literals.old }
    ensures { literals.new.items ≡ literals.old.items ++ clause.now }
{
    for lit in clause {
        literals.push_reserved(*lit);
    }
}

impl<A: Allocator + Copy> ClauseList<A> {
    /// No clauses. It takes no memory.
    pub fn new_in(alloc: A) -> ClauseList<A>
        ensures { result ≡ [] }
    {
        ClauseList {
            ends: Vec::new(alloc),
            literals: Vec::new(alloc),
        }
    }

    /// Makes room for so many clauses with so many literals in all.
    pub fn reserve(&mut self, clauses: usize, literals: usize) -> Result<(), AllocError>
        ensures { self.new ≡ self.old }
    {
        self.ends.reserve_exact(clauses)?;
        self.literals.reserve_exact(literals)?;
        Ok(())
    }

    /// How many clauses there are.
    pub fn len(&self) -> usize
        ensures { result ≡ length self.now }
    {
        self.ends.len()
    }

    /// How many literals they have in all.
    pub fn literal_count(&self) -> usize {
        self.literals.len()
    }

    /// Adds a clause behind the others. A refused growth changes nothing.
    pub fn push(&mut self, clause: &[Lit]) -> Result<(), AllocError>
        ensures ok { OnOk result (self.new ≡ self.old ++ clause.now ∷ []) }
        ensures refused { OnErr result (self.new ≡ self.old) }
    {
        if !has_room(&self.literals, clause.len()) {
            return Err(AllocError);
        }
        self.ends.reserve(1)?;
        self.literals.reserve(clause.len())?;
        append(&mut self.literals, clause);
        let end = self.literals.len();
        self.ends.push_reserved(end as u32);
        Ok(())
    }

    /// Adds a clause behind the others, with a literal in front.
    pub fn push_led(&mut self, lit: Lit, clause: &[Lit]) -> Result<(), AllocError>
        ensures { OnOk result (self.new ≡ self.old ++ (lit ∷ clause.now) ∷ []) }
    {
        let count = clause.len().saturating_add(1);
        if !has_room(&self.literals, count) {
            return Err(AllocError);
        }
        self.ends.reserve(1)?;
        self.literals.reserve(count)?;
        self.literals.push_reserved(lit);
        append(&mut self.literals, clause);
        let end = self.literals.len();
        self.ends.push_reserved(end as u32);
        Ok(())
    }

    /// The clause at the index.
    pub fn clause(&self, index: usize) -> &[Lit]
        requires { index < length self.now }
        ensures { result.now ≡ slice_index_or self.now index [] }
    {
        let start = start_of(&self.ends, index);
        let end = self.ends[index];
        &self.literals[start..end as usize]
    }
}
