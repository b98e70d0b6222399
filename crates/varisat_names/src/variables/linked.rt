//! Variables whose maps, data and lists of what is free fit each other at any time.
ghost use Rattle.std.specs.Prelude.{◌≡◌, ◌≤◌, ◌<◌, ◌^◌, ◌+◌, ◌-◌, ℕ, false, length, Some, None, IfOk, OnOk, OnErr, IsSome};
ghost use Rattle.varisat_names.specs.promises.Maps.{chain};
ghost use Rattle.varisat_names.specs.promises.VarMap.{at, IsLeastUnmapped, IsFull};
ghost use Rattle.varisat_names.specs.promises.VarBiMap.{IsParted};
ghost use Rattle.varisat_names.specs.promises.VarData.{dead, data_at, IsDataAt, IsLeastRetired, AreDeleted};
ghost use Rattle.varisat_names.specs.promises.Variables.{no_variables, unused, AreFree, AreListed, AreLinked, IsGiven, AreNextGiven, IsNamed, IsTaken, IsChangedTo, IsHidden, IsRetiredIfUnused, IsDetached, IsShown};

use super::Variables;
use super::data::{SamplingMode, VarData};
use super::globals::Globals;
use super::names::NameSpace;
use super::var_map::VarMap;
use std::alloc::{AllocError, Allocator};
use std::marker::Model;
use varisat_literals::Var;

/// Names of the user, global variables and solver variables. A variable with a name or a solver variable is live, and
/// the lists hold exactly what is free.
#[derive(Drop)]
pub struct LinkedVariables<A: Allocator + Copy> {
    variables: Variables<A>,
}

impl<A: Allocator + Copy> Model for LinkedVariables<A> {
    ghost use Rattle.varisat_names.specs.promises.Variables.{Tables, AreLinked, AreListed};

    ghost Value = { Tables };

    ghost view = { λ v. v.variables.tables };

    ghost invariant = { λ v. AreLinked v.variables.tables × AreListed v.variables };
}

impl<A: Allocator + Copy> LinkedVariables<A> {
    /// No variables. It takes no memory.
    pub fn new_in(alloc: A) -> LinkedVariables<A>
        ensures { result ≡ no_variables }
    {
        LinkedVariables {
            variables: Variables::new_in(alloc),
        }
    }

    /// What the maps and the data of the variables have to do with each other.
    pub fn prove_linked(&self)
        ensures { AreLinked self.now }
    {
        let _ = &self.variables;
    }

    /// The variables, to be read.
    pub fn variables(&self) -> &Variables<A>
        ensures tables { result.now.tables ≡ self.now }
        ensures listed { AreListed result.now }
    {
        &self.variables
    }

    /// The global variables of the names.
    pub fn global_from_user(&self) -> &VarMap<A>
        ensures { result.now ≡ self.now.users.forward }
    {
        self.variables.global_from_user()
    }

    /// The names of the global variables.
    pub fn user_from_global(&self) -> &VarMap<A>
        ensures { result.now ≡ self.now.users.backward }
    {
        self.variables.user_from_global()
    }

    /// The global variables of the solver variables.
    pub fn global_from_solver(&self) -> &VarMap<A>
        ensures { result.now ≡ self.now.solvers.backward }
    {
        self.variables.global_from_solver()
    }

    /// The solver variables of the global variables.
    pub fn solver_from_global(&self) -> &VarMap<A>
        ensures { result.now ≡ self.now.solvers.forward }
    {
        self.variables.solver_from_global()
    }

    /// One above the highest name that was ever in use.
    pub fn user_watermark(&self) -> usize
        ensures { result ≡ length self.now.users.forward }
    {
        self.variables.user_watermark()
    }

    /// One above the highest global variable that was ever made.
    pub fn global_watermark(&self) -> usize
        ensures { result ≡ length self.now.kept }
    {
        self.variables.global_watermark()
    }

    /// One above the highest solver variable that was ever taken.
    pub fn solver_watermark(&self) -> usize
        ensures { result ≡ length self.now.solvers.backward }
    {
        self.variables.solver_watermark()
    }

    /// What is kept of the global variable.
    #[inline(always)]
    pub fn var_data_global(&self, global: Var) -> VarData
        requires { global < length self.now.kept }
        ensures { result ≡ data_at self.now.kept global }
    {
        self.variables.var_data_global(global)
    }

    /// The least free name.
    pub fn next_unmapped_user(&self) -> Var
        requires { length self.now.users.forward < 2 ^ 31 }
        ensures least { IsLeastUnmapped self.now.users.forward result }
        ensures near { result ≤ length self.now.users.forward }
    {
        self.variables.next_unmapped_user()
    }

    /// The solver variable of the name.
    pub fn existing_solver_from_user(&self, user: Var) -> Var
        requires { IsSome (chain (at self.now.users.forward) (at self.now.solvers.forward) user) }
        ensures { chain (at self.now.users.forward) (at self.now.solvers.forward) user ≡ Some result }
    {
        self.variables.existing_solver_from_user(user)
    }

    /// The name of the solver variable.
    pub fn existing_user_from_solver(&self, solver: Var) -> Var
        requires { IsSome (chain (at self.now.solvers.backward) (at self.now.users.backward) solver) }
        ensures { chain (at self.now.solvers.backward) (at self.now.users.backward) solver ≡ Some result }
    {
        self.variables.existing_user_from_solver(solver)
    }

    /// Brings the free name, which is not above the watermark, into use with the least global variable that is not
    /// live. Where memory is refused nothing changes.
    pub fn give_user_var(&mut self, user: Var) -> Result<Var, AllocError>
        requires free { at self.old.users.forward user ≡ None }
        requires near { user ≤ length self.old.users.forward }
        requires globals { length self.old.kept < 2 ^ 31 }
        ensures given { IfOk result (IsGiven self.old self.new user) }
        ensures refused { OnErr result (self.new ≡ self.old) }
    {
        let global = self.variables.next_unmapped_global();
        self.variables.globals.reserve()?;
        self.variables.users.give(global, user)?;
        self.variables.globals.make(global);
        Ok(global)
    }

    /// Brings all names from the watermark up to this one into use. Where memory is refused some of them are in use.
    pub fn give_user_vars_up_to(&mut self, user: Var) -> Result<(), AllocError>
        requires globals { length self.old.kept + (user + 1 - length self.old.users.forward) ≤ 2 ^ 31 }
        ensures given { OnOk result (AreNextGiven (user + 1 - length self.old.users.forward) self.old self.new) }
        ensures refused { OnErr result
            ((k : ℕ) × (k ≤ user + 1 - length self.old.users.forward) × AreNextGiven k self.old self.new) }
    {
        for index in self.user_watermark()..user.index() + 1 {
            self.give_user_var(Var::from_index(index))?;
        }
        Ok(())
    }

    /// Names the name: where it is free it comes into use, above the watermark with all names up to it. Where memory
    /// is refused some of these are in use.
    #[cold]
    #[inline(never)]
    pub fn name_user_var(&mut self, user: Var) -> Result<(), AllocError>
        requires globals { length self.old.kept + (user + 1 - length self.old.users.forward) < 2 ^ 31 }
        ensures named { OnOk result (IsNamed user self.old self.new) }
        ensures refused { OnErr result
            ((k : ℕ) × (k ≤ user + 1 - length self.old.users.forward) × AreNextGiven k self.old self.new) }
    {
        if user.index() >= self.user_watermark() {
            return self.give_user_vars_up_to(user);
        }
        if self.global_from_user().get(user).is_none() {
            self.give_user_var(user)?;
        }
        Ok(())
    }

    /// Takes the least free solver variable for a live global variable that has none. Where memory is refused nothing
    /// changes.
    #[cold]
    #[inline(never)]
    pub fn take_solver_var(&mut self, global: Var) -> Result<Var, AllocError>
        requires live { (data_at self.old.kept global).deleted ≡ false }
        requires free { at self.old.solvers.forward global ≡ None }
        requires solvers { length self.old.solvers.backward < 2 ^ 31 }
        ensures taken { IfOk result (IsTaken self.old self.new global) }
        ensures full { IfOk result (λ v. IsFull self.old.solvers.backward → v ≡ length self.old.solvers.backward) }
        ensures refused { OnErr result (self.new ≡ self.old) }
    {
        let solver = self.variables.next_unmapped_solver();
        self.variables.solvers.give(global, solver)?;
        Ok(solver)
    }

    /// Drops the solver variable and returns the global variable that had it, which may be used again where it has no
    /// name and is isolated. Where memory is refused nothing changes.
    pub fn detach_solver_var(&mut self, solver: Var) -> Result<Var, AllocError>
        requires { IsSome (at self.old.solvers.backward solver) }
        ensures dropped { IfOk result (λ global. IsDetached self.old self.new global solver) }
        ensures refused { OnErr result (self.new ≡ self.old) }
    {
        let global = self.variables.global_from_solver().get(solver).unwrap();
        let user = self.variables.user_from_global().get(global);
        let kept = self.variables.globals.data(global);
        if is_unused(user, kept) {
            free_and_retire(
                &mut self.variables.solvers,
                &mut self.variables.globals,
                global,
                solver,
            )?;
            return Ok(global);
        }
        self.variables.solvers.release(global, solver)?;
        Ok(global)
    }

    /// Changes how the live variable may be used.
    pub fn set_sampling_mode(&mut self, global: Var, sampling_mode: SamplingMode)
        requires { (data_at self.old.kept global).deleted ≡ false }
        ensures { IsChangedTo self.old self.new global
            (record (data_at self.old.kept global) { sampling_mode = sampling_mode }) }
    {
        let mut kept = self.variables.globals.data(global);
        kept.sampling_mode = sampling_mode;
        self.variables.globals.set_data(global, kept);
    }

    /// Keeps the value that a unit clause forces for the live variable.
    pub fn set_unit(&mut self, global: Var, value: bool)
        requires { (data_at self.old.kept global).deleted ≡ false }
        ensures { IsChangedTo self.old self.new global (record (data_at self.old.kept global) { unit = Some value }) }
    {
        let mut kept = self.variables.globals.data(global);
        kept.unit = Some(value);
        self.variables.globals.set_data(global, kept);
    }

    /// Marks whether the live variable is isolated.
    pub fn set_isolated(&mut self, global: Var, isolated: bool)
        requires { (data_at self.old.kept global).deleted ≡ false }
        ensures { IsChangedTo self.old self.new global (record (data_at self.old.kept global) { isolated = isolated }) }
    {
        let mut kept = self.variables.globals.data(global);
        if kept.isolated == isolated {
            return;
        }
        kept.isolated = isolated;
        self.variables.globals.set_data(global, kept);
    }

    /// Marks whether the live variable is assumed.
    pub fn set_assumed(&mut self, global: Var, assumed: bool)
        requires { (data_at self.old.kept global).deleted ≡ false }
        ensures { IsChangedTo self.old self.new global (record (data_at self.old.kept global) { assumed = assumed }) }
    {
        let mut kept = self.variables.globals.data(global);
        if kept.assumed == assumed {
            return;
        }
        kept.assumed = assumed;
        self.variables.globals.set_data(global, kept);
    }

    /// Frees the name, for `hide_var`: its variable is hidden. Where memory is refused nothing changes.
    pub fn hide(&mut self, user: Var, global: Var) -> Result<(), AllocError>
        requires { at self.old.users.forward user ≡ Some global }
        ensures hidden { OnOk result (IsHidden self.old self.new user global) }
        ensures refused { OnErr result (self.new ≡ self.old) }
    {
        let mut kept = self.variables.globals.data(global);
        self.variables.users.release(global, user)?;
        kept.sampling_mode = SamplingMode::Hide;
        self.variables.globals.set_data(global, kept);
        Ok(())
    }

    /// Lets the live variable, which has no name, be used again where it has no solver variable and is isolated. Where
    /// memory is refused nothing changes.
    pub fn delete_global_if_unused(&mut self, global: Var) -> Result<(), AllocError>
        requires live { (data_at self.old.kept global).deleted ≡ false }
        requires unnamed { at self.old.users.backward global ≡ None }
        ensures deleted { OnOk result (IsRetiredIfUnused self.old self.new global) }
        ensures refused { OnErr result (self.new ≡ self.old) }
    {
        let solver = self.variables.solver_from_global().get(global);
        let kept = self.variables.globals.data(global);
        if is_unused(solver, kept) {
            self.variables.globals.delete(global)?;
        }
        Ok(())
    }

    /// Gives the live variable, which has no name, the least free one, and lets it be used by the mode. Where memory
    /// is refused nothing changes.
    pub fn show(&mut self, global: Var, sampling_mode: SamplingMode) -> Result<Var, AllocError>
        requires live { (data_at self.old.kept global).deleted ≡ false }
        requires unnamed { at self.old.users.backward global ≡ None }
        requires names { length self.old.users.forward < 2 ^ 31 }
        ensures shown { IfOk result (IsShown self.old self.new global sampling_mode) }
        ensures refused { OnErr result (self.new ≡ self.old) }
    {
        let user = self.variables.next_unmapped_user();
        let mut kept = self.variables.globals.data(global);
        self.variables.users.give(global, user)?;
        kept.sampling_mode = sampling_mode;
        self.variables.globals.set_data(global, kept);
        Ok(user)
    }
}

/// Whether a variable that lost its name or its solver variable may be used again: it has not the other one, and is
/// isolated.
fn is_unused(other: Option<Var>, kept: VarData) -> bool
    ensures { result ≡ unused other kept }
{
    other.is_none() && kept.isolated
}

/// Frees the name of a live variable, and deletes the variable. Where memory is refused nothing changes.
fn free_and_retire<A: Allocator + Copy>(
    names: &mut NameSpace<A>,
    globals: &mut Globals<A>,
    variable: Var,
    name: Var,
) -> Result<(), AllocError>
    requires named { at names.old.pairs.forward name ≡ Some variable }
    requires live { (data_at globals.old.kept variable).deleted ≡ false }
    requires listed { AreFree names.old.pairs.forward names.old.free }
    requires deleted { AreDeleted globals.old.kept globals.old.free }
    ensures parted { OnOk result (IsParted names.old.pairs names.new.pairs name variable) }
    ensures dead { OnOk result (IsDataAt globals.old.kept variable dead globals.new.kept) }
    ensures listed { AreFree names.new.pairs.forward names.new.free }
    ensures deleted { AreDeleted globals.new.kept globals.new.free }
    ensures names_refused { OnErr result (names.new.pairs ≡ names.old.pairs) }
    ensures globals_refused { OnErr result (globals.new.kept ≡ globals.old.kept) }
{
    // Both lists of what is free may have to grow. Where the second may not, the variable comes back as it was.
    let kept = globals.data(variable);
    globals.delete(variable)?;
    if let Err(error) = names.release(variable, name) {
        globals.restore(variable, kept);
        return Err(error);
    }
    Ok(())
}
