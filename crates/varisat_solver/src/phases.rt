//! Phases of variables that are set, by which a search decides them first.
ghost use Rattle.std.specs.Prelude.{◌≡◌, ◌≢◌, ◌<◌, ℕ, Option, Bool, Some, None, [], length, false, slice_index_or, slice_set, OnOk, OnErr};
ghost use Rattle.varisat_theory.specs.promises.Literals.{variable_of};
ghost use Rattle.varisat_literals.specs.promises.Numbers.{polarity_of};
ghost use Rattle.varisat_names.specs.promises.Maps.{updated};
ghost use Rattle.varisat_solver.specs.inside.Phases.{phase_of, phase_at, last_by, RemembersAt, RemembersPhases};

use std::alloc::{AllocError, Allocator};
use std::marker::Model;
use varisat_literals::{Lit, Var};
use varisat_names::variables::LinkedVariables;
use varisat_prop::prop::Assignment;

/// The phases that are set, by the names of the variables.
#[derive(Drop)]
pub struct Phases<A: Allocator + Copy> {
    by_name: Vec<Option<bool>, A>,
}

impl<A: Allocator + Copy> Model for Phases<A> {
    ghost use Rattle.std.specs.Prelude.{List, Option, Bool};

    ghost Value = { List (Option Bool) };

    ghost view = { λ p. p.by_name.items };
}

impl<A: Allocator + Copy> Phases<A> {
    /// No phase is set. It takes no memory.
    pub fn new_in(alloc: A) -> Phases<A>
        ensures { result ≡ [] }
    {
        Phases {
            by_name: Vec::new(alloc),
        }
    }

    /// The phase of the name, if one is set.
    fn get(&self, name: Var) -> Option<bool>
        ensures { result ≡ phase_of self.now name }
    {
        *self.by_name.get(name.index())?
    }

    /// Sets the phase of the literal's name to the literal's sign. Where memory is refused nothing changes.
    pub fn set(&mut self, lit: Lit) -> Result<(), AllocError>
        ensures set { OnOk result ((u : ℕ) →
            phase_of self.new u ≡ updated (phase_of self.old) (variable_of lit) (Some (polarity_of lit)) u) }
        ensures refused { OnErr result (self.new ≡ self.old) }
    {
        let name = lit.index();
        if name >= self.by_name.len() {
            self.by_name.resize(name + 1, None)?;
        }
        self.by_name[name] = Some(lit.is_positive());
        Ok(())
    }

    /// The name has no phase that is set any more.
    pub fn unset(&mut self, name: Var)
        ensures { (u : ℕ) → phase_of self.new u ≡ updated (phase_of self.old) name None u }
    {
        if name.index() < self.by_name.len() {
            self.by_name[name.index()] = None;
        }
    }
}

/// The phase that is set for the name of the solver variable, if it has a name and there is one.
fn phase_of_solver<A: Allocator + Copy>(
    phases: &Phases<A>,
    variables: &LinkedVariables<A>,
    solver: Var,
) -> Option<bool>
    ensures { result ≡ phase_at variables.now phases.now solver }
{
    let global = variables.global_from_solver().get(solver)?;
    let name = variables.user_from_global().get(global)?;
    phases.get(name)
}

/// Has the literal's variable as if the literal had been true last, unless the variable has a value.
fn remember<A: Allocator + Copy>(assignment: &mut Assignment<A>, lit: Lit)
    requires { variable_of lit < length assignment.old.current }
    ensures free { slice_index_or assignment.old.current (variable_of lit) None ≡ None →
        (length assignment.old.last ≡ length assignment.old.current)
        × (assignment.new
        ≡ record assignment.old { last = slice_set assignment.old.last (variable_of lit) (polarity_of lit) }) }
    ensures taken { slice_index_or assignment.old.current (variable_of lit) None ≢ None →
        assignment.new ≡ assignment.old }
{
    if assignment.lit_is_unk(lit) {
        assignment.assign_lit(lit);
        assignment.release_lit(lit);
    }
}

/// Has the solver variable as if it had had its phase last, if one is set and it has no value.
fn remember_phase<A: Allocator + Copy>(
    phases: &Phases<A>,
    variables: &LinkedVariables<A>,
    assignment: &mut Assignment<A>,
    solver: Var,
)
    requires { solver < length assignment.old.current }
    ensures { RemembersAt (phase_at variables.now phases.now solver) solver assignment.old assignment.new }
{
    if let Some(phase) = phase_of_solver(phases, variables, solver) {
        remember(assignment, solver.lit(phase));
    }
}

/// Has each solver variable without a value as if it had had its phase last, if one is set: so it is decided first.
pub fn remember_phases<A: Allocator + Copy>(
    phases: &Phases<A>,
    variables: &LinkedVariables<A>,
    assignment: &mut Assignment<A>,
)
    requires { length assignment.old.current ≡ length variables.now.solvers.backward }
    ensures { RemembersPhases variables.now phases.now assignment.old assignment.new }
{
    if phases.by_name.is_empty() {
        return;
    }
    variables.global_from_solver().prove_small();
    for index in 0..variables.solver_watermark() {
        remember_phase(phases, variables, assignment, Var::from_index(index));
    }
}
