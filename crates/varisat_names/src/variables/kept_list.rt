//! What is kept of the global variables, a byte for each.
ghost use Rattle.std.specs.Prelude.{◌≡◌, ◌<◌, ◌++◌, ◌∷◌, [], length, slice_set, OnOk, OnErr};
ghost use Rattle.varisat_names.specs.promises.VarData.{data_at, reaching};

use super::data::{VarData, code_of, data_of};
use std::alloc::{AllocError, Allocator};
use std::marker::Model;
use varisat_literals::Var;

/// The data of each global variable, as a code of a byte.
#[derive(Drop)]
pub struct KeptList<A: Allocator + Copy> {
    codes: Vec<u8, A>,
}

impl<A: Allocator + Copy> Model for KeptList<A> {
    ghost use Rattle.std.specs.Prelude.{map};
    ghost use Rattle.std.specs.Vec.{vec_capacity};
    ghost use Rattle.varisat_names.specs.inside.KeptCodes.{kept_as, KeptItems};

    ghost Value = { KeptItems };

    ghost view = { λ k. record { items = map kept_as k.codes.items; capacity = vec_capacity k.codes } };
}

impl<A: Allocator + Copy> KeptList<A> {
    /// No variables. It takes no memory.
    pub fn new_in(alloc: A) -> KeptList<A>
        ensures { result.items ≡ [] }
    {
        KeptList {
            codes: Vec::new(alloc),
        }
    }

    /// How many variables there are.
    pub fn len(&self) -> usize
        ensures { result ≡ length self.now.items }
    {
        self.codes.len()
    }

    /// The data of the variable.
    pub fn get(&self, global: Var) -> VarData
        requires { global < length self.now.items }
        ensures { result ≡ data_at self.now.items global }
    {
        data_of(self.codes[global.index()])
    }

    /// Keeps other data of the variable.
    pub fn set(&mut self, global: Var, kept: VarData)
        requires { global < length self.old.items }
        ensures { self.new.items ≡ slice_set self.old.items global kept }
    {
        self.codes[global.index()] = code_of(kept);
    }

    /// Makes room for one more variable. Where memory is refused the variables stay.
    pub fn reserve(&mut self) -> Result<(), AllocError>
        ensures items { self.new.items ≡ self.old.items }
        ensures room { OnOk result (length self.new.items < self.new.capacity) }
    {
        self.codes.reserve(1)?;
        Ok(())
    }

    /// One more variable, with this data. There is room.
    pub fn push_reserved(&mut self, kept: VarData)
        requires { length self.old.items < self.old.capacity }
        ensures { self.new.items ≡ self.old.items ++ kept ∷ [] }
    {
        self.codes.push_reserved(code_of(kept));
    }

    /// Raises the count above the variable. Those that join are not live. Where memory is refused the variables stay.
    pub fn reach(&mut self, global: Var) -> Result<(), AllocError>
        ensures reached { OnOk result (self.new.items ≡ reaching self.old.items global) }
        ensures refused { OnErr result (self.new.items ≡ self.old.items) }
    {
        let count = global.index() + 1;
        if self.codes.len() < count {
            self.codes.resize(count, code_of(VarData::default()))?;
        }
        Ok(())
    }
}
