//! Lists of literals most of which are short.
ghost use Rattle.std.specs.Prelude.{◌≡◌, ◌≤◌, ◌<◌, ◌++◌, ◌∷◌, [], length, take, OnOk};
ghost use Rattle.std.specs.List.{filter};
ghost use Rattle.varisat_prop.specs.Simplified.{is_unassigned, are_unassigned};

use std::alloc::{AllocError, Allocator};
use std::marker::Model;
use varisat_literals::Lit;

/// How many literals stand in place.
const FEW: usize = 3;

/// A list of literals. Up to three stand in place, so that who has looked at the list has them too, and needs not wait for
/// memory once more.
#[derive(Drop)]
pub struct ShortList<A: Allocator + Copy> {
    few: [Lit; 3],
    // How many stand in place; where it is more than three all literals stand in `many`. It is next to them, so that one look at
    // memory is enough for most lists.
    count: u32,
    many: Vec<Lit, A>,
}

impl<A: Allocator + Copy> Model for ShortList<A> {
    ghost use Rattle.std.specs.Prelude.{◌≡◌, ◌≤◌, List, ℕ, []};
    ghost use Rattle.varisat_prop.specs.ShortLists.{short_list};

    ghost Value = { List ℕ };

    ghost view = { λ s. short_list 3 s.few s.count s.many.items };

    ghost invariant = { λ s. (s.count ≤ 4) × (s.count ≤ 3 → s.many.items ≡ []) };
}

impl<A: Allocator + Copy> ShortList<A> {
    /// No literals. It takes no memory.
    pub fn new_in(alloc: A) -> ShortList<A>
        ensures { result ≡ [] }
    {
        let none = Lit::from_code(0);
        ShortList {
            few: [none, none, none],
            count: 0,
            many: Vec::new(alloc),
        }
    }

    /// The literals.
    pub fn as_slice(&self) -> &[Lit]
        ensures { result.now ≡ self.now }
    {
        let count = self.count as usize;
        if count <= FEW {
            return &self.few[..count];
        }
        self.many.as_slice()
    }

    /// Reads how many literals stand in place, so that memory has the list at hand. The number means nothing.
    #[inline(always)]
    pub(crate) fn prefetch(&self) -> u32 {
        self.count
    }

    /// Puts a literal behind the others.
    pub fn push(&mut self, lit: Lit) -> Result<(), AllocError>
        ensures { OnOk result (self.new ≡ self.old ++ lit ∷ []) }
    {
        let count = self.count as usize;
        if count < FEW {
            self.few[count] = lit;
            self.count += 1;
            return Ok(());
        }
        if count > FEW {
            self.many.push(lit)?;
            return Ok(());
        }
        self.many.extend_from_slice(&self.few)?;
        self.count += 1;
        self.many.push(lit)?;
        Ok(())
    }

    /// Takes all literals out.
    pub fn clear(&mut self)
        ensures { self.new ≡ [] }
    {
        self.count = 0;
        self.many.clear();
    }

    /// Keeps the literals whose variables have no value.
    pub fn keep_unassigned(&mut self, values: &[Option<bool>])
        ensures { self.new ≡ filter (is_unassigned values.now) self.old }
    {
        // Most lists stay as they are, and are only read.
        if have_no_value(values, self.as_slice()) {
            return;
        }
        let count = self.count as usize;
        if count <= FEW {
            let lits = self.few;
            self.count = compact(&mut self.few, &lits[..count], values) as u32;
            return;
        }
        self.many.retain(|other| has_no_value(values, *other));
    }
}

/// Writes the literals whose variables have no value to the front of `few`, and returns how many they are.
fn compact(few: &mut [Lit], lits: &[Lit], values: &[Option<bool>]) -> usize
    requires { length lits.now ≤ length few.old }
    ensures kept { take result few.new ≡ filter (is_unassigned values.now) lits.now }
    ensures within { result ≤ length lits.now }
{
    let mut kept = 0;
    for lit in lits {
        if has_no_value(values, *lit) {
            few[kept] = *lit;
            kept += 1;
        }
    }
    kept
}

/// Whether the variables of all the literals have no value.
fn have_no_value(values: &[Option<bool>], lits: &[Lit]) -> bool
    ensures { result ≡ are_unassigned values.now lits.now }
{
    for lit in lits {
        if !has_no_value(values, *lit) {
            return false;
        }
    }
    true
}

/// Whether the literal's variable has no value.
pub fn has_no_value(values: &[Option<bool>], lit: Lit) -> bool
    ensures { result ≡ is_unassigned values.now lit }
{
    !matches!(values.get(lit.index()), Some(Some(_)))
}
