//! The literals that are known to be true.
ghost use Rattle.std.specs.Prelude.{◌≡◌, ℕ, ◌≤◌, ◌↔◌, ◌++◌, ◌∷◌, ◌<◌, [], length, take, false, IsTrue, OnOk, slice_get, slice_index_or};
ghost use Rattle.varisat_theory.specs.promises.Membership.{◌∈◌};
ghost use Rattle.varisat_theory.specs.promises.Literals.{opposite};
ghost use Rattle.varisat_present.specs.Places.{place_limit, LosesMarks};

use std::alloc::{AllocError, Allocator};
use std::collections::BTreeMap;
use std::marker::Model;
use varisat_literals::Lit;

/// Literals that are known to be true, oldest first.
#[derive(Drop)]
pub struct Known<A: Allocator + Copy> {
    literals: Vec<Lit, A>,
    /// By a literal's code whether it is known, for the codes below `PLACE_LIMIT`.
    marks: Vec<bool, A>,
    /// For the others their places in `literals`. For a literal that is not known it is any number.
    far: BTreeMap<usize, usize, A>,
}

impl<A: Allocator + Copy> Model for Known<A> {
    ghost use Rattle.std.specs.Prelude.{ℕ, List};
    ghost use Rattle.varisat_present.specs.Places.{MarksKnown, AreFarPlaced};

    ghost Value = { List ℕ };

    ghost view = { λ k. k.literals.items };

    ghost invariant = { λ k. MarksKnown k.literals.items k.marks.items × AreFarPlaced k.literals.items k.far };
}

/// A list has what is kept for literals below this code alone, so that a literal of a high variable takes no more memory
/// than others. Those from there on are looked up in a map.
pub const PLACE_LIMIT: usize = 0x40_0000;

/// Makes the list of marks so long that it has one for the code.
fn reach<A: Allocator + Copy>(marks: &mut Vec<bool, A>, code: usize) -> Result<(), AllocError>
    requires few { code < place_limit }
    requires short { length marks.old.items ≤ place_limit }
    ensures same { (l : ℕ) → slice_index_or marks.new.items l false ≡ slice_index_or marks.old.items l false }
    ensures short { length marks.new.items ≤ place_limit }
    ensures reached { OnOk result (code < length marks.new.items) }
{
    if code >= marks.len() {
        marks.resize(code + 1, false)?;
    }
    Ok(())
}

/// Takes the marks of the literals away.
fn unmark<A: Allocator + Copy>(marks: &mut Vec<bool, A>, literals: &[Lit])
    ensures { LosesMarks literals.now marks.old.items marks.new.items }
{
    for l in literals {
        let code = l.code();
        if code >= marks.len() {
            continue;
        }
        marks[code] = false;
    }
}

impl<A: Allocator + Copy> Known<A> {
    /// No literals. It takes no memory.
    pub fn new_in(alloc: A) -> Known<A>
        ensures { result ≡ [] }
    {
        Known {
            literals: Vec::new(alloc),
            marks: Vec::new(alloc),
            far: BTreeMap::new(alloc),
        }
    }

    /// How many literals are known.
    pub fn len(&self) -> usize
        ensures { result ≡ length self.now }
    {
        self.literals.len()
    }

    /// The literal at the place, if there is one.
    pub fn get(&self, place: usize) -> Option<Lit>
        ensures { result ≡ slice_get self.now place }
    {
        self.literals.get(place).copied()
    }

    /// Whether the literal, whose code is not below the limit, is known.
    #[cold]
    #[inline(never)]
    fn holds_far(&self, literal: Lit) -> bool
        requires { place_limit ≤ literal }
        ensures { IsTrue result ↔ (literal ∈ self.now) }
    {
        let code = literal.code();
        let Some(place) = self.far.get(&code) else {
            return false;
        };
        let place = *place;
        if place >= self.literals.len() {
            return false;
        }
        if self.literals[place].code() != code {
            return false;
        }
        true
    }

    /// Whether the literal is known.
    #[inline(always)]
    pub fn holds(&self, literal: Lit) -> bool
        ensures { IsTrue result ↔ (literal ∈ self.now) }
    {
        let code = literal.code();
        if code < self.marks.len() {
            return self.marks[code];
        }
        if code >= PLACE_LIMIT {
            return self.holds_far(literal);
        }
        false
    }

    /// Whether the literal's opposite is known.
    pub fn is_false(&self, literal: Lit) -> bool
        ensures { IsTrue result ↔ (opposite literal ∈ self.now) }
    {
        self.holds(!literal)
    }

    /// One more literal, which is not known yet.
    pub fn push(&mut self, literal: Lit) -> Result<(), AllocError>
        requires { literal ∈ self.old → ⊥ }
        ensures { OnOk result (self.new ≡ self.old ++ literal ∷ []) }
    {
        let code = literal.code();
        if code >= PLACE_LIMIT {
            let place = self.literals.len();
            self.far.insert(code, place)?;
            self.literals.push(literal)?;
            return Ok(());
        }
        reach(&mut self.marks, code)?;
        self.literals.push(literal)?;
        self.marks[code] = true;
        Ok(())
    }

    /// The first `count` literals stay.
    pub fn cut(&mut self, count: usize)
        ensures { self.new ≡ take count self.old }
    {
        if count >= self.literals.len() {
            return;
        }
        unmark(&mut self.marks, &self.literals[count..]);
        self.literals.truncate(count);
    }
}
