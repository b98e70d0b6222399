//! Room for lists and flags that are needed for a short time.
ghost use Rattle.std.specs.Prelude.{◌≡◌, ◌≤◌, ◌*◌, ◌-◌, ◌++◌, [], length, replicate, false, OnOk};
ghost use Rattle.varisat_literals.specs.promises.Numbers.{variable_limit};

use std::alloc::{AllocError, Allocator};
use varisat_literals::Lit;

/// Two lists of literals. No call relies on what an earlier one left in them.
#[derive(Drop)]
pub struct TmpData<A: Allocator + Copy> {
    pub lits: Vec<Lit, A>,
    pub lits_2: Vec<Lit, A>,
}

impl<A: Allocator + Copy> TmpData<A> {
    /// Two empty lists. They take no memory.
    pub fn new_in(alloc: A) -> TmpData<A>
        ensures { (result.lits.items ≡ []) × (result.lits_2.items ≡ []) }
    {
        TmpData {
            lits: Vec::new(alloc),
            lits_2: Vec::new(alloc),
        }
    }
}

/// A flag for each literal. All are false between calls: whoever sets one takes it away again, also before an error.
#[derive(Drop)]
pub struct TmpFlags<A: Allocator + Copy> {
    pub flags: Vec<bool, A>,
}

impl<A: Allocator + Copy> TmpFlags<A> {
    /// No flags. It takes no memory.
    pub fn new_in(alloc: A) -> TmpFlags<A>
        ensures { result.flags.items ≡ [] }
    {
        TmpFlags {
            flags: Vec::new(alloc),
        }
    }

    /// Raises the count of variables. The new flags are false.
    pub fn set_var_count(&mut self, count: usize) -> Result<(), AllocError>
        requires raised { length self.old.flags.items ≤ 2 * count }
        requires small { count ≤ variable_limit }
        ensures { OnOk result
            (self.new.flags.items ≡ self.old.flags.items ++ replicate (2 * count - length self.old.flags.items) false) }
    {
        self.flags.resize(2 * count, false)?;
        Ok(())
    }
}
