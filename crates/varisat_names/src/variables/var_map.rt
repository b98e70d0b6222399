//! Maps between the variables of two name spaces.
ghost use Rattle.std.specs.Prelude.{ℕ, ◌≡◌, ◌<◌, ◌≤◌, ◌^◌, ◌⊎◌, length, take, [], Some, None, OnOk, OnErr};
ghost use Rattle.varisat_names.specs.promises.Maps.{updated, IsInverse};
ghost use Rattle.varisat_names.specs.promises.VarMap.{at, IsPut};
ghost use Rattle.varisat_names.specs.promises.VarBiMap.{no_pairs, directed, IsJoined, RemovesPair};
ghost use Rattle.varisat_names.specs.inside.Entries.{entry};

use super::code_pages::{CodePages, NO_VAR};
use super::number_set::NumberSet;
use std::alloc::{AllocError, Allocator};
use std::marker::Model;
use varisat_literals::Var;

/// A map from variables to variables. It takes a bit for each variable below the watermark that is mapped to itself,
/// and four bytes for each of 1024 variables in a row of which another one is mapped.
#[derive(Drop)]
pub struct VarMap<A: Allocator + Copy> {
    watermark: usize,
    // All variables below are mapped to themselves. For those one comparison settles what they are mapped to.
    same: usize,
    // What the others are mapped to.
    codes: CodePages<A>,
    // The variables that are mapped to themselves.
    own: NumberSet<A>,
}

impl<A: Allocator + Copy> Model for VarMap<A> {
    ghost use Rattle.std.specs.Prelude.{List, Option, ℕ};
    ghost use Rattle.varisat_names.specs.inside.Entries.{entry, entries, EndsAt, AreOwnBelow};

    ghost Value = { List (Option ℕ) };

    ghost view = { λ m. entries (entry m.own m.codes) m.watermark };

    ghost invariant = { λ m. EndsAt (entry m.own m.codes) m.watermark × AreOwnBelow (entry m.own m.codes) m.same };
}

impl<A: Allocator + Copy> VarMap<A> {
    /// Nothing is mapped. It takes no memory.
    pub fn new_in(alloc: A) -> VarMap<A>
        ensures { result ≡ [] }
    {
        VarMap {
            watermark: 0,
            same: 0,
            codes: CodePages::new_in(alloc),
            own: NumberSet::new_in(alloc),
        }
    }

    /// What the variable is mapped to.
    #[inline(always)]
    pub fn get(&self, from: Var) -> Option<Var>
        ensures { result ≡ at self.now from }
    {
        if from.index() < self.same {
            Some(from)
        } else {
            read_entry(&self.own, &self.codes, from)
        }
    }

    /// One above the highest variable that was ever mapped.
    pub fn watermark(&self) -> usize
        ensures { result ≡ length self.now }
    {
        self.watermark
    }

    /// The watermark is at most the number of variables that there can be.
    pub fn prove_small(&self)
        ensures { length self.now ≤ 2 ^ 31 }
    {
        let _ = &self.watermark;
    }

    /// Maps the variable, which is not mapped. Where memory is refused nothing changes.
    pub fn insert(&mut self, into: Var, from: Var) -> Result<(), AllocError>
        requires { at self.old from ≡ None }
        ensures put { OnOk result (IsPut self.old from (Some into) self.new) }
        ensures refused { OnErr result (self.new ≡ self.old) }
    {
        put_entry(&mut self.own, &mut self.codes, into, from)?;
        self.watermark = self.watermark.max(from.index() + 1);
        self.same = same_with(self.same, into, from);
        Ok(())
    }

    /// Maps the variable no longer.
    pub fn remove(&mut self, from: Var)
        ensures below { from < length self.old → IsPut self.old from None self.new }
        ensures above { length self.old ≤ from → self.new ≡ self.old }
    {
        let index = from.index();
        self.own.remove(index);
        self.codes.remove(index);
        self.same = self.same.min(index);
    }

    /// Lowers the watermark, from which on nothing is mapped.
    fn cut(&mut self, watermark: usize)
        requires lower { watermark ≤ length self.old }
        requires above { (i : ℕ) → watermark ≤ i → at self.old i ≡ None }
        ensures { self.new ≡ take watermark self.old }
    {
        self.watermark = watermark;
    }
}

/// What the variable is mapped to in the parts of a map.
// The codes come first: a map that is asked here has mostly other variables than itself for them.
#[inline(always)]
fn read_entry<A: Allocator + Copy>(
    own: &NumberSet<A>,
    codes: &CodePages<A>,
    from: Var,
) -> Option<Var>
    ensures { result ≡ entry own.now codes.now from }
{
    let index = from.index();
    let code = codes.get(index);
    if code < NO_VAR {
        return Some(Var::from_index(code as usize));
    }
    if own.contains(index) {
        Some(from)
    } else {
        None
    }
}

/// Up to where all variables are mapped to themselves, once the variable is mapped too.
fn same_with(same: usize, into: Var, from: Var) -> usize
    ensures { (i : ℕ) → i < result → (i < same) ⊎ ((i ≡ from) × (into ≡ from)) }
{
    if from.index() == same && into.index() == same {
        same + 1
    } else {
        same
    }
}

/// Maps the variable, which is not mapped, in the parts of a map. Where memory is refused each stays mapped as it was.
fn put_entry<A: Allocator + Copy>(
    own: &mut NumberSet<A>,
    codes: &mut CodePages<A>,
    into: Var,
    from: Var,
) -> Result<(), AllocError>
    requires { entry own.old codes.old from ≡ None }
    ensures put { OnOk result
        ((i : ℕ) → entry own.new codes.new i ≡ updated (entry own.old codes.old) from (Some into) i) }
    ensures refused { OnErr result ((i : ℕ) → entry own.new codes.new i ≡ entry own.old codes.old i) }
{
    let target = into.index();
    let index = from.index();
    if target == index {
        own.insert(index)?;
    } else {
        codes.insert(index, target as u32)?;
    }
    Ok(())
}

/// A one-to-one map between variables of two spaces, and the way back.
#[derive(Drop)]
pub struct VarBiMap<A: Allocator + Copy> {
    fwd: VarMap<A>,
    bwd: VarMap<A>,
}

impl<A: Allocator + Copy> Model for VarBiMap<A> {
    ghost use Rattle.varisat_names.specs.promises.Maps.{IsInverse};
    ghost use Rattle.varisat_names.specs.promises.VarMap.{at};
    ghost use Rattle.varisat_names.specs.promises.VarBiMap.{BiMap};

    ghost Value = { BiMap };

    ghost view = { λ m. record { forward = m.fwd; backward = m.bwd } };

    ghost invariant = { λ m. IsInverse (at m.fwd) (at m.bwd) };
}

impl<A: Allocator + Copy> VarBiMap<A> {
    /// Nothing is mapped. It takes no memory.
    pub fn new_in(alloc: A) -> VarBiMap<A>
        ensures { result ≡ no_pairs }
    {
        VarBiMap {
            fwd: VarMap::new_in(alloc),
            bwd: VarMap::new_in(alloc),
        }
    }

    /// The map forward.
    pub fn fwd(&self) -> &VarMap<A>
        ensures { result.now ≡ self.now.forward }
    {
        &self.fwd
    }

    /// The map backward.
    pub fn bwd(&self) -> &VarMap<A>
        ensures { result.now ≡ self.now.backward }
    {
        &self.bwd
    }

    /// Each of the two maps undoes the other.
    pub fn prove_inverse(&self)
        ensures { IsInverse (at self.now.forward) (at self.now.backward) }
    {
        let _ = &self.fwd;
    }

    /// The map forward, to be changed together with the way back.
    pub fn fwd_mut(&mut self) -> VarBiMapMut<'_, A>
        ensures same_reference { result.map.ghost_name ≡ self.entry.ghost_name }
        ensures map { result.map.now ≡ self.old }
        ensures direction { result.direction ≡ Direction.Forward }
    {
        VarBiMapMut {
            map: self,
            direction: Direction::Forward,
        }
    }

    /// The map backward, to be changed together with the way forward.
    pub fn bwd_mut(&mut self) -> VarBiMapMut<'_, A>
        ensures same_reference { result.map.ghost_name ≡ self.entry.ghost_name }
        ensures map { result.map.now ≡ self.old }
        ensures direction { result.direction ≡ Direction.Backward }
    {
        VarBiMapMut {
            map: self,
            direction: Direction::Backward,
        }
    }

    /// Maps the one to the other, neither of which is mapped. Where memory is refused nothing changes.
    pub fn insert(&mut self, into: Var, from: Var) -> Result<(), AllocError>
        requires from_is_free { at self.old.forward from ≡ None }
        requires into_is_free { at self.old.backward into ≡ None }
        ensures joined { OnOk result (IsJoined self.old self.new from into) }
        ensures refused { OnErr result (self.new ≡ self.old) }
    {
        // Where the second map may not grow, the first one is as it was before.
        let watermark = self.fwd.watermark();
        self.fwd.insert(into, from)?;
        if let Err(error) = self.bwd.insert(from, into) {
            self.fwd.remove(from);
            self.fwd.cut(watermark);
            return Err(error);
        }
        Ok(())
    }

    /// Takes the pair of the variable out, if it is mapped.
    pub fn remove(&mut self, from: Var) -> Option<Var>
        ensures { RemovesPair Direction.Forward self.old from result self.new }
    {
        let into = self.fwd.get(from)?;
        self.fwd.remove(from);
        self.bwd.remove(into);
        Some(into)
    }

    /// Takes the pair out that leads to the variable, if there is one.
    fn remove_into(&mut self, target: Var) -> Option<Var>
        ensures { RemovesPair Direction.Backward self.old target result self.new }
    {
        let source = self.bwd.get(target)?;
        self.bwd.remove(target);
        self.fwd.remove(source);
        Some(source)
    }
}

/// From which side a map is seen.
#[derive(Clone, Copy, Debug, PartialEq, Eq)]
pub enum Direction {
    Forward,
    Backward,
}

/// A map with the way back, to be changed from one side.
#[derive(Drop)]
pub struct VarBiMapMut<'a, A: Allocator + Copy> {
    pub map: &'a mut VarBiMap<A>,
    pub direction: Direction,
}

impl<'a, A: Allocator + Copy> VarBiMapMut<'a, A> {
    /// Maps the one to the other, neither of which is mapped. Where memory is refused nothing changes.
    pub fn insert(&mut self, into: Var, from: Var) -> Result<(), AllocError>
        requires from_is_free { at (directed self.old.direction self.old.map.now).forward from ≡ None }
        requires into_is_free { at (directed self.old.direction self.old.map.now).backward into ≡ None }
        ensures same_reference { self.new.map.ghost_name ≡ self.old.map.ghost_name }
        ensures direction { self.new.direction ≡ self.old.direction }
        ensures joined { OnOk result
            (IsJoined (directed self.old.direction self.old.map.now)
            (directed self.old.direction self.new.map.now) from into) }
        ensures refused { OnErr result (self.new.map.now ≡ self.old.map.now) }
    {
        let direction = self.direction;
        let map = &mut *self.map;
        match direction {
            Direction::Forward => map.insert(into, from)?,
            Direction::Backward => map.insert(from, into)?,
        }
        Ok(())
    }

    /// Takes the pair of the variable out, if it is mapped.
    pub fn remove(&mut self, from: Var) -> Option<Var>
        ensures same_reference { self.new.map.ghost_name ≡ self.old.map.ghost_name }
        ensures direction { self.new.direction ≡ self.old.direction }
        ensures parted { RemovesPair self.old.direction self.old.map.now from result self.new.map.now }
    {
        let direction = self.direction;
        let map = &mut *self.map;
        match direction {
            Direction::Forward => map.remove(from),
            Direction::Backward => map.remove_into(from),
        }
    }
}
