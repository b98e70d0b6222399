//! What is kept of a global variable, lent to be changed.
ghost use Rattle.std.specs.Prelude.{◌≡◌, ◌<◌, length, slice_set};
ghost use Rattle.varisat_names.specs.promises.VarData.{data_at};

use super::data::VarData;
use super::globals::Globals;
use std::alloc::Allocator;
use varisat_literals::Var;

/// What is kept of a global variable, to be changed. It takes one byte, so it is read and written as a whole.
#[derive(Drop)]
pub struct VarDataMut<'a, A: Allocator + Copy> {
    pub globals: &'a mut Globals<A>,
    pub global: Var,
}

impl<'a, A: Allocator + Copy> VarDataMut<'a, A> {
    /// What is kept.
    pub fn get(&self) -> VarData
        requires { self.now.global < length self.now.globals.now.kept }
        ensures { result ≡ data_at self.now.globals.now.kept self.now.global }
    {
        self.globals.data(self.global)
    }

    /// Keeps other data. The list of those that may be used again stays.
    pub fn set(&mut self, new_data: VarData)
        requires { self.old.global < length self.old.globals.now.kept }
        ensures same_reference { self.new.globals.ghost_name ≡ self.old.globals.ghost_name }
        ensures global { self.new.global ≡ self.old.global }
        ensures kept { self.new.globals.now.kept
            ≡ slice_set self.old.globals.now.kept self.old.global new_data }
        ensures free { self.new.globals.now.free ≡ self.old.globals.now.free }
    {
        let global = self.global;
        let globals = &mut *self.globals;
        globals.write_data(global, new_data);
    }
}
