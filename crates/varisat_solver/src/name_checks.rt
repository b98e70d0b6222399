//! What a call finds out of the names that it is given, before anything changes.
ghost use Rattle.std.specs.Prelude.{◌≡◌, ◌≢◌, ◌+◌, ◌-◌, MatchBool, MatchOption};
ghost use Rattle.varisat_theory.specs.promises.Membership.{◌∈◌};
ghost use Rattle.varisat_theory.specs.promises.Literals.{Literal, variable_of};
ghost use Rattle.varisat_solver.specs.promises.Names.{name_all, IsWitness, NameNoWitness, IsFirstWitness, IsNextWitness};
ghost use Rattle.varisat_solver.specs.promises.Calls.{IsPastLimit, HasTooManyVariables};
ghost use Rattle.varisat_solver.specs.inside.Accepting.{AreBounded, naming_of, ComesAlone, CountsAlone, CanBeNamed, ChecksNames};

use crate::solver::SolverError;
use std::alloc::Allocator;
use varisat_literals::{Lit, Var};
use varisat_names::variables::LinkedVariables;
use varisat_names::variables::data::SamplingMode;

/// Whether a name of the clause is past the limit.
pub fn is_past_limit(clause: &[Lit]) -> bool
    ensures { MatchBool result (IsPastLimit clause.now) (IsPastLimit clause.now → ⊥) }
{
    for lit in clause {
        if lit.index() >= Var::max_count() {
            return true;
        }
    }
    false
}

/// One above the highest name that was ever in use, once those of the clause are named.
fn watermark_with<A: Allocator + Copy>(variables: &LinkedVariables<A>, clause: &[Lit]) -> usize
    ensures { result ≡ (name_all clause.now (naming_of variables.now)).watermark }
{
    let mut watermark = variables.user_watermark();
    for lit in clause {
        if lit.index() >= watermark {
            watermark = lit.index() + 1;
        }
    }
    watermark
}

/// Whether a literal of the clause is over the variable.
fn has_var(clause: &[Lit], var: Var) -> bool
    ensures { MatchBool result ((l : Literal) × (l ∈ clause.now) × (variable_of l ≡ var))
        ((l : Literal) → l ∈ clause.now → variable_of l ≢ var) }
{
    for lit in clause {
        if lit.index() == var.index() {
            return true;
        }
    }
    false
}

/// Whether the name comes into use alone once the literals before were named.
fn comes_alone<A: Allocator + Copy>(
    variables: &LinkedVariables<A>,
    before: &[Lit],
    user: Var,
) -> bool
    ensures { MatchBool result (ComesAlone variables.now before.now user)
        (ComesAlone variables.now before.now user → ⊥) }
{
    if user.index() >= variables.user_watermark() {
        return false;
    }
    if variables.global_from_user().get(user).is_some() {
        return false;
    }
    !has_var(before, user)
}

/// How many names come into use alone, each once, where those of the clause are named. The work grows with the square
/// of the length.
fn count_alone<A: Allocator + Copy>(variables: &LinkedVariables<A>, clause: &[Lit]) -> usize
    ensures { CountsAlone variables.now clause.now result }
{
    let mut count = 0;
    for index in 0..clause.len() {
        if comes_alone(variables, &clause[..index], clause[index].var()) {
            count += 1;
        }
    }
    count
}

/// Whether a name of the clause is past the limit, by the watermark once they are named.
fn passes_limit<A: Allocator + Copy>(
    _variables: &LinkedVariables<A>,
    _clause: &[Lit],
    watermark: usize,
) -> bool
    requires bounded { AreBounded _variables.now }
    requires watermark { watermark ≡ (name_all _clause.now (naming_of _variables.now)).watermark }
    ensures { MatchBool result (IsPastLimit _clause.now) (IsPastLimit _clause.now → ⊥) }
{
    watermark > Var::max_count()
}

/// Whether there is no room for the variables of the names of the clause that are free, by the watermark once they are
/// named. Names above the watermark before bring those below them along. Only where each literal might need room of its
/// own, and there is none, they are counted.
fn lacks_room<A: Allocator + Copy>(
    variables: &LinkedVariables<A>,
    clause: &[Lit],
    watermark: usize,
) -> bool
    requires bounded { AreBounded variables.now }
    requires in_range { IsPastLimit clause.now → ⊥ }
    requires watermark { watermark ≡ (name_all clause.now (naming_of variables.now)).watermark }
    ensures { MatchBool result (HasTooManyVariables (name_all clause.now (naming_of variables.now)))
        (HasTooManyVariables (name_all clause.now (naming_of variables.now)) → ⊥) }
{
    let rising = watermark - variables.user_watermark();
    let made = variables.global_watermark() + rising;
    if made > Var::max_count() {
        return true;
    }
    let room = Var::max_count() - made;
    if clause.len() <= room {
        return false;
    }
    count_alone(variables, clause) > room
}

/// Whether there is no room for the variables of the names of the clause that are free.
pub fn has_too_many_variables<A: Allocator + Copy>(
    variables: &LinkedVariables<A>,
    clause: &[Lit],
) -> bool
    requires bounded { AreBounded variables.now }
    requires in_range { IsPastLimit clause.now → ⊥ }
    ensures { MatchBool result (HasTooManyVariables (name_all clause.now (naming_of variables.now)))
        (HasTooManyVariables (name_all clause.now (naming_of variables.now)) → ⊥) }
{
    lacks_room(variables, clause, watermark_with(variables, clause))
}

/// Whether the name is a witness.
fn is_witness<A: Allocator + Copy>(variables: &LinkedVariables<A>, user: Var) -> bool
    ensures { MatchBool result (IsWitness (naming_of variables.now) user)
        (IsWitness (naming_of variables.now) user → ⊥) }
{
    variables.prove_linked();
    let Some(global) = variables.global_from_user().get(user) else {
        return false;
    };
    match variables.var_data_global(global).sampling_mode {
        SamplingMode::Witness => true,
        SamplingMode::Sample => false,
        SamplingMode::Hide => false,
    }
}

/// The first witness of some names, with one name more behind them.
fn next_witness<A: Allocator + Copy>(
    variables: &LinkedVariables<A>,
    before: Option<Var>,
    user: Var,
) -> Option<Var>
    ensures { IsNextWitness (naming_of variables.now) before user result }
{
    if before.is_some() {
        return before;
    }
    if is_witness(variables, user) {
        Some(user)
    } else {
        None
    }
}

/// One above the highest name that was ever in use, once those of the clause are named, and the first name of the
/// clause that is a witness.
// Both by one pass, since a clause is mostly short, and to leave a loop takes as long as some literals.
fn scan_names<A: Allocator + Copy>(
    variables: &LinkedVariables<A>,
    clause: &[Lit],
) -> (usize, Option<Var>)
    ensures watermark { result.0 ≡ (name_all clause.now (naming_of variables.now)).watermark }
    ensures witness { MatchOption result.1 (NameNoWitness (naming_of variables.now) clause.now)
        (IsFirstWitness (naming_of variables.now) clause.now) }
{
    let mut watermark = variables.user_watermark();
    let mut first = None;
    for lit in clause {
        watermark = watermark.max(lit.index() + 1);
        first = next_witness(variables, first, lit.var());
    }
    (watermark, first)
}

/// Refuses the names of a clause or of a list of assumptions where one is past the limit, where there is no room for
/// their variables, and where one is a witness.
pub fn check_names<A: Allocator + Copy>(
    variables: &LinkedVariables<A>,
    list: &[Lit],
) -> Result<(), SolverError>
    requires { AreBounded variables.now }
    ensures { ChecksNames variables.now list.now result }
{
    let (watermark, witness) = scan_names(variables, list);
    if passes_limit(variables, list, watermark) || lacks_room(variables, list, watermark) {
        return Err(SolverError::VariableLimit);
    }
    match witness {
        Some(var) => Err(SolverError::WitnessVar { var }),
        None => Ok(()),
    }
}
