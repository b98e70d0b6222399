//! Names that are given out, the least free one first, and the variables that they lead to.
ghost use Rattle.std.specs.Prelude.{◌≡◌, ◌≤◌, ◌<◌, ◌^◌, length, Some, None, OnOk, OnErr};
ghost use Rattle.std.specs.Borrow.{sem};
ghost use Rattle.varisat_names.specs.promises.VarMap.{at, IsLeastUnmapped};
ghost use Rattle.varisat_names.specs.promises.VarBiMap.{no_pairs, IsJoined, IsParted};
ghost use Rattle.varisat_names.specs.promises.Variables.{AreFree};

use super::var_map::{Direction, VarBiMap, VarBiMapMut};
use std::alloc::{AllocError, Allocator};
use std::collections::BTreeSet;
use std::marker::Model;
use varisat_literals::Var;

/// A one-to-one map from names to variables, with a list of the names below the watermark that are free.
#[derive(Drop)]
pub struct NameSpace<A: Allocator + Copy> {
    pairs: VarBiMap<A>,
    free: BTreeSet<usize, A>,
}

impl<A: Allocator + Copy> Model for NameSpace<A> {
    ghost use Rattle.varisat_names.specs.promises.Variables.{NamePairs};

    ghost Value = { NamePairs };

    ghost view = { λ n. record { pairs = n.pairs; free = n.free } };
}

impl<A: Allocator + Copy> NameSpace<A> {
    ghost use Rattle.varisat_names.specs.inside.Lending.{lends_pairs};

    /// No name is in use. It takes no memory.
    pub fn new_in(alloc: A) -> NameSpace<A>
        ensures pairs { result.pairs ≡ no_pairs }
        ensures listed { AreFree result.pairs.forward result.free }
    {
        NameSpace {
            pairs: VarBiMap::new_in(alloc),
            free: BTreeSet::new(alloc),
        }
    }

    /// The names with their variables.
    pub fn pairs(&self) -> &VarBiMap<A>
        ensures { result.now ≡ self.now.pairs }
    {
        &self.pairs
    }

    /// The map from names to variables, to be changed. The list of free names stays.
    pub fn fwd_mut(&mut self) -> VarBiMapMut<'_, A>
        ensures* lends { sem 𝓛 (lends_pairs A.row A.Allocator self.entry result) }
        ensures map { result.map.now ≡ self.old.pairs }
        ensures direction { result.direction ≡ Direction.Forward }
    {
        self.pairs.fwd_mut()
    }

    /// The map from variables to names, to be changed. The list of free names stays.
    pub fn bwd_mut(&mut self) -> VarBiMapMut<'_, A>
        ensures* lends { sem 𝓛 (lends_pairs A.row A.Allocator self.entry result) }
        ensures map { result.map.now ≡ self.old.pairs }
        ensures direction { result.direction ≡ Direction.Backward }
    {
        self.pairs.bwd_mut()
    }

    /// The least free name: below the watermark, else the watermark.
    pub fn next_free(&self) -> usize
        requires { AreFree self.now.pairs.forward self.now.free }
        ensures least { IsLeastUnmapped self.now.pairs.forward result }
        ensures near { result ≤ length self.now.pairs.forward }
    {
        match self.free.first() {
            Some(name) => *name,
            None => self.pairs.fwd().watermark(),
        }
    }

    /// The free name, which is not above the watermark, leads to the variable, which has no name. Where memory is
    /// refused nothing changes.
    pub fn give(&mut self, variable: Var, name: Var) -> Result<(), AllocError>
        requires name_is_free { at self.old.pairs.forward name ≡ None }
        requires near { name ≤ length self.old.pairs.forward }
        requires unnamed { at self.old.pairs.backward variable ≡ None }
        requires listed { AreFree self.old.pairs.forward self.old.free }
        ensures joined { OnOk result (IsJoined self.old.pairs self.new.pairs name variable) }
        ensures refused { OnErr result (self.new.pairs ≡ self.old.pairs) }
        ensures listed { AreFree self.new.pairs.forward self.new.free }
    {
        // A name at the watermark is on no list.
        let watermark = self.pairs.fwd().watermark();
        self.pairs.insert(variable, name)?;
        if name.index() < watermark {
            self.free.remove(&name.index());
        }
        Ok(())
    }

    /// The name of the variable is free again. Where memory is refused nothing changes.
    pub fn release(&mut self, variable: Var, name: Var) -> Result<(), AllocError>
        requires named { at self.old.pairs.forward name ≡ Some variable }
        requires listed { AreFree self.old.pairs.forward self.old.free }
        ensures parted { OnOk result (IsParted self.old.pairs self.new.pairs name variable) }
        ensures refused { OnErr result (self.new.pairs ≡ self.old.pairs) }
        ensures listed { AreFree self.new.pairs.forward self.new.free }
    {
        // Only the list may have to grow, so it comes first.
        self.free.insert(name.index())?;
        self.pairs.remove(name);
        Ok(())
    }
}
