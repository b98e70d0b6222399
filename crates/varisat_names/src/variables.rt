//! Names of the user, global variables and solver variables, and what is kept of each global variable.
//!
//! A name that is in use leads to a global variable, and a global variable that the search speaks of to a solver
//! variable.
ghost use Rattle.std.specs.Prelude.{◌≡◌, ◌≤◌, ◌<◌, ◌^◌, false, length, Some, MatchOption, OnOk, OnErr, IsSome, IsTrue, ◌↔◌};
ghost use Rattle.std.specs.Borrow.{sem};
ghost use Rattle.varisat_names.specs.promises.Maps.{chain};
ghost use Rattle.varisat_names.specs.promises.VarMap.{at, mapped_from, IsLeastUnmapped};
ghost use Rattle.varisat_names.specs.promises.VarBiMap.{turned};
ghost use Rattle.varisat_names.specs.promises.VarData.{data_at, reaching, live_from, IsLeastRetired, AreDeleted};
ghost use Rattle.varisat_names.specs.promises.Variables.{no_variables, AreFree, AreListed};

mod code_pages;
pub mod data;
mod data_mut;
mod globals;
pub mod iter;
mod kept_list;
pub mod linked;
mod names;
pub mod naming;
mod number_set;
pub mod var_map;

pub use data::{SamplingMode, VarData};
pub use data_mut::VarDataMut;
use globals::Globals;
pub use iter::{GlobalVars, UserVars};
pub use linked::LinkedVariables;
use names::NameSpace;
use std::alloc::{AllocError, Allocator};
use std::marker::Model;
pub use var_map::{Direction, VarBiMap, VarBiMapMut, VarMap};
use varisat_literals::Var;

/// Names of the user, global variables and solver variables, with lists of those that are free. Maps, data and lists
/// may each be changed by itself; `LinkedVariables` are such as fit each other.
#[derive(Drop)]
pub struct Variables<A: Allocator + Copy> {
    users: NameSpace<A>,
    solvers: NameSpace<A>,
    globals: Globals<A>,
}

impl<A: Allocator + Copy> Model for Variables<A> {
    ghost use Rattle.varisat_names.specs.promises.VarBiMap.{turned};
    ghost use Rattle.varisat_names.specs.promises.Variables.{VariableParts};

    ghost Value = { VariableParts };

    ghost view = { λ v. record {
      tables = record { users = v.users.pairs; solvers = turned v.solvers.pairs; kept = v.globals.kept };
      free = record { users = v.users.free; solvers = v.solvers.free; globals = v.globals.free };
    } };
}

impl<A: Allocator + Copy> Variables<A> {
    /// No variables. It takes no memory.
    pub fn new_in(alloc: A) -> Variables<A>
        ensures tables { result.tables ≡ no_variables }
        ensures listed { AreListed result }
    {
        Variables {
            users: NameSpace::new_in(alloc),
            solvers: NameSpace::new_in(alloc),
            globals: Globals::new_in(alloc),
        }
    }

    /// The global variables of the names.
    pub fn global_from_user(&self) -> &VarMap<A>
        ensures { result.now ≡ self.now.tables.users.forward }
    {
        self.users.pairs().fwd()
    }

    /// The names of the global variables.
    pub fn user_from_global(&self) -> &VarMap<A>
        ensures { result.now ≡ self.now.tables.users.backward }
    {
        self.users.pairs().bwd()
    }

    /// The solver variables of the global variables.
    pub fn solver_from_global(&self) -> &VarMap<A>
        ensures { result.now ≡ self.now.tables.solvers.forward }
    {
        self.solvers.pairs().bwd()
    }

    /// The global variables of the solver variables.
    pub fn global_from_solver(&self) -> &VarMap<A>
        ensures { result.now ≡ self.now.tables.solvers.backward }
    {
        self.solvers.pairs().fwd()
    }

    /// One above the highest name that was ever in use.
    pub fn user_watermark(&self) -> usize
        ensures { result ≡ length self.now.tables.users.forward }
    {
        self.global_from_user().watermark()
    }

    /// How many global variables there are, live or not.
    pub fn global_watermark(&self) -> usize
        ensures { result ≡ length self.now.tables.kept }
    {
        self.globals.len()
    }

    /// One above the highest solver variable that was ever taken.
    pub fn solver_watermark(&self) -> usize
        ensures { result ≡ length self.now.tables.solvers.backward }
    {
        self.global_from_solver().watermark()
    }

    /// The names in use, in increasing order.
    pub fn user_var_iter(&self) -> UserVars<'_, A>
        ensures { result ≡ mapped_from 0 self.now.tables.users.forward }
    {
        UserVars::new(self.global_from_user())
    }

    /// The live global variables, in increasing order.
    pub fn global_var_iter(&self) -> GlobalVars<'_, A>
        ensures { result ≡ live_from 0 self.now.tables.kept }
    {
        GlobalVars::new(&self.globals)
    }

    /// What is kept of the global variable.
    pub fn var_data_global(&self, global: Var) -> VarData
        requires { global < length self.now.tables.kept }
        ensures { result ≡ data_at self.now.tables.kept global }
    {
        self.globals.data(global)
    }

    /// The least free name, where the list of these is right.
    pub fn next_unmapped_user(&self) -> Var
        requires listed { AreFree self.now.tables.users.forward self.now.free.users }
        requires room { length self.now.tables.users.forward < 2 ^ 31 }
        ensures least { IsLeastUnmapped self.now.tables.users.forward result }
        ensures near { result ≤ length self.now.tables.users.forward }
    {
        Var::from_index(self.users.next_free())
    }

    /// The least global variable that is not live, where the list of these is right.
    pub fn next_unmapped_global(&self) -> Var
        requires listed { AreDeleted self.now.tables.kept self.now.free.globals }
        requires room { length self.now.tables.kept < 2 ^ 31 }
        ensures least { IsLeastRetired self.now.tables.kept result }
        ensures near { result ≤ length self.now.tables.kept }
    {
        Var::from_index(self.globals.next_deleted())
    }

    /// The least free solver variable, where the list of these is right.
    pub fn next_unmapped_solver(&self) -> Var
        requires listed { AreFree self.now.tables.solvers.backward self.now.free.solvers }
        requires room { length self.now.tables.solvers.backward < 2 ^ 31 }
        ensures least { IsLeastUnmapped self.now.tables.solvers.backward result }
        ensures near { result ≤ length self.now.tables.solvers.backward }
    {
        Var::from_index(self.solvers.next_free())
    }

    /// The solver variable of the name.
    pub fn existing_solver_from_user(&self, user: Var) -> Var
        requires { IsSome (chain (at self.now.tables.users.forward) (at self.now.tables.solvers.forward) user) }
        ensures { chain (at self.now.tables.users.forward) (at self.now.tables.solvers.forward) user ≡ Some result }
    {
        let global = self.global_from_user().get(user).unwrap();
        self.solver_from_global().get(global).unwrap()
    }

    /// The name of the solver variable.
    pub fn existing_user_from_solver(&self, solver: Var) -> Var
        requires { IsSome (chain (at self.now.tables.solvers.backward) (at self.now.tables.users.backward) solver) }
        ensures { chain (at self.now.tables.solvers.backward) (at self.now.tables.users.backward) solver ≡ Some result }
    {
        let global = self.global_from_solver().get(solver).unwrap();
        self.user_from_global().get(global).unwrap()
    }

    /// Whether a global variable has the solver variable.
    pub fn solver_var_present(&self, solver: Var) -> bool
        ensures { IsTrue result ↔ IsSome (at self.now.tables.solvers.backward solver) }
    {
        self.global_from_solver().get(solver).is_some()
    }
}

/// Parts that are lent to be changed. The other parts stay, and so do the lists of what is free.
impl<A: Allocator + Copy> Variables<A> {
    ghost use Rattle.varisat_names.specs.inside.Lending.{lends_users, lends_solvers, lends_globals};

    /// The map from names to global variables, to be changed.
    pub fn global_from_user_mut(&mut self) -> VarBiMapMut<'_, A>
        ensures* lends { sem 𝓛 (lends_users A.row A.Allocator self.entry result) }
        ensures map { result.map.now ≡ self.old.tables.users }
        ensures direction { result.direction ≡ Direction.Forward }
    {
        self.users.fwd_mut()
    }

    /// The map from global variables to names, to be changed.
    pub fn user_from_global_mut(&mut self) -> VarBiMapMut<'_, A>
        ensures* lends { sem 𝓛 (lends_users A.row A.Allocator self.entry result) }
        ensures map { result.map.now ≡ self.old.tables.users }
        ensures direction { result.direction ≡ Direction.Backward }
    {
        self.users.bwd_mut()
    }

    /// The map from global variables to solver variables, to be changed.
    pub fn solver_from_global_mut(&mut self) -> VarBiMapMut<'_, A>
        ensures* lends { sem 𝓛 (lends_solvers A.row A.Allocator self.entry result) }
        ensures map { result.map.now ≡ turned self.old.tables.solvers }
        ensures direction { result.direction ≡ Direction.Backward }
    {
        self.solvers.bwd_mut()
    }

    /// The map from solver variables to global variables, to be changed.
    pub fn global_from_solver_mut(&mut self) -> VarBiMapMut<'_, A>
        ensures* lends { sem 𝓛 (lends_solvers A.row A.Allocator self.entry result) }
        ensures map { result.map.now ≡ turned self.old.tables.solvers }
        ensures direction { result.direction ≡ Direction.Forward }
    {
        self.solvers.fwd_mut()
    }

    /// Raises the count of global variables above this one. Those that join are not live. Where memory is refused
    /// nothing changes.
    pub fn reach_global(&mut self, global: Var) -> Result<(), AllocError>
        ensures reached { OnOk result
            (self.new
            ≡ record self.old { tables = record self.old.tables { kept = reaching self.old.tables.kept global } }) }
        ensures refused { OnErr result (self.new ≡ self.old) }
    {
        self.globals.reach(global)?;
        Ok(())
    }

    /// What is kept of the global variable, to be changed.
    pub fn var_data_global_mut(&mut self, global: Var) -> VarDataMut<'_, A>
        requires { global < length self.old.tables.kept }
        ensures* lends { sem 𝓛 (lends_globals A.row A.Allocator self.entry result) }
        ensures kept { result.globals.now.kept ≡ self.old.tables.kept }
        ensures free { result.globals.now.free ≡ self.old.free.globals }
        ensures global { result.global ≡ global }
    {
        VarDataMut {
            globals: &mut self.globals,
            global,
        }
    }

    /// What is kept of the global variable that has the solver variable, to be changed.
    pub fn var_data_solver_mut(&mut self, solver: Var) -> VarDataMut<'_, A>
        requires { MatchOption (at self.old.tables.solvers.backward solver) ⊥
            (λ global. global < length self.old.tables.kept) }
        ensures* lends { sem 𝓛 (lends_globals A.row A.Allocator self.entry result) }
        ensures kept { result.globals.now.kept ≡ self.old.tables.kept }
        ensures free { result.globals.now.free ≡ self.old.free.globals }
        ensures global { at self.old.tables.solvers.backward solver ≡ Some result.global }
    {
        let global = self.global_from_solver().get(solver).unwrap();
        VarDataMut {
            globals: &mut self.globals,
            global,
        }
    }
}
