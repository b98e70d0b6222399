//! For each literal the places of clauses that have it, and of some that are gone.
ghost use Rattle.std.specs.Prelude.{◌≡◌, ◌<◌, ◌≤◌, ◌*◌, ◌^◌, ◌-◌, ◌++◌, ◌∷◌, [], length, replicate, true, OnOk, OnErr, IfOk, slice_set, slice_index_or};
ghost use Rattle.std.specs.List.{filter};
ghost use Rattle.varisat_database.specs.Sound.{Grows, IsListed, KeepsLive};
ghost use Rattle.varisat_database.specs.Flags.{is_flagged};

use crate::lists::push_lists;
use crate::names::ShortNames;
use std::alloc::{AllocError, Allocator};
use std::marker::Model;
use varisat_literals::Lit;

/// The most variables that there are.
const MOST_VARIABLES: usize = 0x8000_0000;

/// A list for each literal.
#[derive(Drop)]
pub struct Occurrences<A: Allocator + Copy> {
    by_lit: Vec<Vec<u32, A>, A>,
}

impl<A: Allocator + Copy> Model for Occurrences<A> {
    ghost use Rattle.std.specs.Prelude.{List, ℕ, map};

    ghost Value = { List (List ℕ) };

    ghost view = { λ b. map (λ v. v.items) b.by_lit.items };
}

impl<A: Allocator + Copy> Occurrences<A> {
    ghost use Rattle.std.specs.Borrow.{sem};
    ghost use Rattle.varisat_database.specs.Lending.{lends_places};

    /// No lists. It takes no memory.
    pub fn none_in(alloc: A) -> Occurrences<A> {
        Occurrences {
            by_lit: Vec::new(alloc),
        }
    }

    /// So many empty lists.
    pub fn new_in(alloc: A, count: usize) -> Result<Occurrences<A>, AllocError>
        ensures { IfOk result (λ o. o ≡ replicate count []) }
    {
        let mut by_lit = Vec::new(alloc);
        push_lists(&mut by_lit, count)?;
        Ok(Occurrences { by_lit })
    }

    /// How many lists there are.
    pub fn len(&self) -> usize
        ensures { result ≡ length self.now }
    {
        self.by_lit.len()
    }

    /// The list of the literal.
    pub fn list(&self, lit: Lit) -> &[u32]
        requires { lit < length self.now }
        ensures { result.now ≡ slice_index_or self.now lit [] }
    {
        self.by_lit[lit.code()].as_slice()
    }

    /// The list of the literal, to be changed.
    fn list_mut(&mut self, lit: Lit) -> &mut Vec<u32, A>
        requires { lit < length self.old }
        ensures* lends { sem 𝓛 (lends_places A.row A.Allocator self.entry lit result) }
        ensures value { result.now.items ≡ slice_index_or self.old lit [] }
    {
        &mut self.by_lit[lit.code()]
    }

    /// Makes room for so many more places of the literal, if it has a list.
    pub fn reserve(&mut self, lit: Lit, count: usize) -> Result<(), AllocError>
        ensures { self.new ≡ self.old }
    {
        if lit.code() >= self.len() {
            return Ok(());
        }
        self.list_mut(lit).reserve_exact(count)?;
        Ok(())
    }

    /// Makes room for so many more places of each literal of the first variables.
    pub fn reserve_lists(&mut self, var_count: usize, counts: &[u32]) -> Result<(), AllocError>
        ensures { self.new ≡ self.old }
    {
        for index in 0..var_count.min(MOST_VARIABLES) {
            let lit = Lit::from_index(index, true);
            self.reserve(lit, with_spare(count_at(counts, lit)))?;
            self.reserve(!lit, with_spare(count_at(counts, !lit)))?;
        }
        Ok(())
    }

    /// One more place for the literal.
    pub fn add(&mut self, lit: Lit, place: u32) -> Result<(), AllocError>
        requires { lit < length self.old }
        ensures ok { OnOk result (self.new ≡ slice_set self.old lit (slice_index_or self.old lit [] ++ place ∷ [])) }
        ensures refused { OnErr result (self.new ≡ self.old) }
    {
        self.list_mut(lit).push(place)?;
        Ok(())
    }

    /// Keeps of the literal's places those that are flagged.
    pub fn keep(&mut self, lit: Lit, flags: &[bool])
        requires { lit < length self.old }
        ensures { self.new ≡ slice_set self.old lit (filter (is_flagged flags.now) (slice_index_or self.old lit [])) }
    {
        let list = self.list_mut(lit);
        retain_flagged(list, flags);
    }

    /// The place joins the list of each literal, under its short name. One that has no list is refused as if there was
    /// no memory.
    pub fn add_all(
        &mut self,
        names: &ShortNames<A>,
        lits: &[Lit],
        place: u32,
    ) -> Result<(), AllocError>
        ensures grows { Grows self.old self.new }
        ensures ok { OnOk result (IsListed names.now self.new lits.now place) }
    {
        for lit in lits {
            let short = names.of(*lit);
            if short.code() >= self.len() {
                return Err(AllocError);
            }
            self.add(short, place)?;
        }
        Ok(())
    }
}

/// Keeps the places that are flagged.
fn retain_flagged<A: Allocator + Copy>(list: &mut Vec<u32, A>, flags: &[bool])
    ensures { list.new.items ≡ filter (is_flagged flags.now) list.old.items }
{
    list.retain(|place| is_flagged(flags, *place));
}

/// Whether the place is flagged.
fn is_flagged(flags: &[bool], place: u32) -> bool
    ensures { result ≡ is_flagged flags.now place }
{
    match flags.get(place as usize) {
        Some(flag) => *flag,
        None => false,
    }
}

/// The count, and some more that take no memory: it is given in steps of 16 bytes, behind 8 that are not the list's.
fn with_spare(count: usize) -> usize {
    if count == 0 {
        return 0;
    }
    let steps = count.saturating_add(1) / 4;
    steps.saturating_mul(4).saturating_add(2).max(6)
}

/// The count for the literal.
pub fn count_at(counts: &[u32], lit: Lit) -> usize {
    match counts.get(lit.code()) {
        Some(count) => *count as usize,
        None => 0,
    }
}
