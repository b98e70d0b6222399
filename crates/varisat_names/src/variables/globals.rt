//! What is kept of the global variables, and which may be used again.
ghost use Rattle.std.specs.Prelude.{◌≡◌, ◌<◌, ◌≤◌, ◌^◌, true, false, [], length, slice_set, OnOk, OnErr};
ghost use Rattle.varisat_names.specs.promises.VarData.{fresh, dead, data_at, reaching, IsDataAt, IsLeastRetired, AreDeleted};

use super::data::VarData;
use super::kept_list::KeptList;
use std::alloc::{AllocError, Allocator};
use std::collections::BTreeSet;
use std::marker::Model;
use varisat_literals::Var;

/// The data of each global variable, with a list of those that may be used again.
#[derive(Drop)]
pub struct Globals<A: Allocator + Copy> {
    data: KeptList<A>,
    free: BTreeSet<usize, A>,
}

impl<A: Allocator + Copy> Model for Globals<A> {
    ghost use Rattle.std.specs.Prelude.{◌≤◌, ◌^◌, length};
    ghost use Rattle.varisat_names.specs.promises.VarData.{DataList};

    ghost Value = { DataList };

    ghost view = { λ g. record { kept = g.data.items; capacity = g.data.capacity; free = g.free } };

    ghost invariant = { λ g. length g.data.items ≤ 2 ^ 31 };
}

impl<A: Allocator + Copy> Globals<A> {
    /// No variables. It takes no memory.
    pub fn new_in(alloc: A) -> Globals<A>
        ensures kept { result.kept ≡ [] }
        ensures listed { AreDeleted result.kept result.free }
    {
        Globals {
            data: KeptList::new_in(alloc),
            free: BTreeSet::new(alloc),
        }
    }

    /// How many there are, live or not.
    pub fn len(&self) -> usize
        ensures { result ≡ length self.now.kept }
    {
        self.data.len()
    }

    /// There are no more than variables have indices.
    pub fn prove_small(&self)
        ensures { length self.now.kept ≤ 2 ^ 31 }
    {
        let _ = &self.data;
    }

    /// The least variable that is not live: one that was deleted, else the next one.
    pub fn next_deleted(&self) -> usize
        requires { AreDeleted self.now.kept self.now.free }
        ensures near { result ≤ length self.now.kept }
        ensures least { IsLeastRetired self.now.kept result }
    {
        match self.free.first() {
            Some(global) => *global,
            None => self.data.len(),
        }
    }

    /// Makes room for one more variable. Where memory is refused the variables stay.
    pub fn reserve(&mut self) -> Result<(), AllocError>
        ensures kept { self.new.kept ≡ self.old.kept }
        ensures free { self.new.free ≡ self.old.free }
        ensures room { OnOk result (length self.new.kept < self.new.capacity) }
    {
        self.data.reserve()?;
        Ok(())
    }

    /// Makes a variable that is not live one that just came into use. There is room.
    pub fn make(&mut self, global: Var)
        requires near { global ≤ length self.old.kept }
        requires unused { (data_at self.old.kept global).deleted ≡ true }
        requires room { length self.old.kept < self.old.capacity }
        requires listed { AreDeleted self.old.kept self.old.free }
        ensures kept { IsDataAt self.old.kept global fresh self.new.kept }
        ensures listed { AreDeleted self.new.kept self.new.free }
    {
        if global.index() < self.data.len() {
            self.free.remove(&global.index());
            self.data.set(global, VarData::user_default());
        } else {
            self.data.push_reserved(VarData::user_default());
        }
    }

    /// Deletes a variable, which may be used again. Where memory is refused nothing changes.
    pub fn delete(&mut self, global: Var) -> Result<(), AllocError>
        requires made { global < length self.old.kept }
        requires listed { AreDeleted self.old.kept self.old.free }
        ensures deleted { OnOk result (IsDataAt self.old.kept global dead self.new.kept) }
        ensures refused { OnErr result (self.new.kept ≡ self.old.kept) }
        ensures listed { AreDeleted self.new.kept self.new.free }
    {
        self.free.insert(global.index())?;
        self.data.set(global, VarData::default());
        Ok(())
    }

    /// Keeps data of a live variable in the place of one that was deleted.
    pub fn restore(&mut self, global: Var, old_data: VarData)
        requires made { global < length self.old.kept }
        requires live { old_data.deleted ≡ false }
        requires listed { AreDeleted self.old.kept self.old.free }
        ensures kept { IsDataAt self.old.kept global old_data self.new.kept }
        ensures listed { AreDeleted self.new.kept self.new.free }
    {
        self.free.remove(&global.index());
        self.data.set(global, old_data);
    }

    /// What is kept of the variable.
    pub fn data(&self, global: Var) -> VarData
        requires { global < length self.now.kept }
        ensures { result ≡ data_at self.now.kept global }
    {
        self.data.get(global)
    }

    /// Keeps this of the variable. The list of those that may be used again stays.
    pub fn write_data(&mut self, global: Var, new_data: VarData)
        requires { global < length self.old.kept }
        ensures kept { self.new.kept ≡ slice_set self.old.kept global new_data }
        ensures free { self.new.free ≡ self.old.free }
    {
        self.data.set(global, new_data);
    }

    /// Raises the count above the variable. Those that join are not live. Where memory is refused nothing changes.
    pub fn reach(&mut self, global: Var) -> Result<(), AllocError>
        ensures reached { OnOk result (self.new.kept ≡ reaching self.old.kept global) }
        ensures refused { OnErr result (self.new.kept ≡ self.old.kept) }
        ensures free { self.new.free ≡ self.old.free }
    {
        self.data.reach(global)?;
        Ok(())
    }

    /// Keeps other data of the variable, which is live as it was before.
    pub fn set_data(&mut self, global: Var, new_data: VarData)
        requires made { global < length self.old.kept }
        requires live { new_data.deleted ≡ (data_at self.old.kept global).deleted }
        requires listed { AreDeleted self.old.kept self.old.free }
        ensures kept { IsDataAt self.old.kept global new_data self.new.kept }
        ensures listed { AreDeleted self.new.kept self.new.free }
    {
        self.write_data(global, new_data);
    }
}
