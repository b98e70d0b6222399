//! Any list of calls of a solver.
ghost use Rattle.std.specs.Prelude.{◌≡◌, [], IfOk, OnErr};
ghost use Rattle.varisat_solver.specs.promises.States.{State, empty_state};
ghost use Rattle.varisat_solver.specs.inside.Representations.{Represents};
ghost use Rattle.varisat_solver.specs.promises.Represented.{LeadsRepresented};
ghost use Rattle.varisat.specs.promises.Runs.{MakesCall, Run, HasRightLog, MayStillFail, AreReady, story_now};
ghost use Rattle.varisat_solver.specs.promises.Calls.{by_state};
ghost use Rattle.varisat.specs.promises.Pasts.{empty_past};
ghost use Rattle.varisat.specs.promises.Histories.{AreTrue};
ghost use Rattle.varisat.specs.promises.Answers.{AreAnswered, empty_story};
ghost use Rattle.varisat.specs.promises.Moments.{HasFewStepsAlong};

use std::alloc::{AllocError, Allocator};
use varisat_formula::formula::CnfFormula;
use varisat_formula::io::{ByteSource, ProofTarget};
use varisat_literals::{Lit, Var};
use varisat_names::config::SolverConfigUpdate;
use varisat_proof::proof::ProofFormat;
use varisat_solver::solver::{Solver, SolverError};

/// A call of a solver, with what it is given: a text by its source, and a proof by its target.
#[derive(Drop)]
pub enum Call<W: ProofTarget, S: ByteSource, A: Allocator + Copy> {
    AddClause(Vec<Lit, A>),
    AddFormula(CnfFormula<A>),
    AddDimacsCnf(S),
    NewVar,
    SampleVar(Var),
    WitnessVar(Var),
    HideVar(Var),
    ObserveInternalVars,
    SetPhase(Lit),
    UnsetPhase(Var),
    Assume(Vec<Lit, A>),
    Solve,
    Model,
    FailedCore,
    Config(SolverConfigUpdate),
    SetMaxSteps(u64),
    Steps,
    StepsSinceChange,
    IsValid,
    IsFixed(Lit),
    WriteProof(W, ProofFormat),
    CloseProof,
    EnableSelfChecking,
}

/// What a call returned. A source is given back with the answer, and a proof's target where its proof is not opened, or
/// closed. A core is a copy.
#[derive(Drop)]
pub enum Answer<W: ProofTarget, S: ByteSource, A: Allocator + Copy> {
    AddClause(Result<(), SolverError>),
    AddFormula(Result<(), SolverError>),
    AddDimacsCnf(Result<(), SolverError>, S),
    NewVar(Result<Var, SolverError>),
    SampleVar(Result<(), SolverError>),
    WitnessVar(Result<(), SolverError>),
    HideVar(Result<(), SolverError>),
    ObserveInternalVars(Result<Vec<Var, A>, SolverError>),
    SetPhase(Result<(), SolverError>),
    UnsetPhase,
    Assume(Result<(), SolverError>),
    Solve(Result<bool, SolverError>),
    Model(Result<Option<Vec<Lit, A>>, AllocError>),
    FailedCore(Result<Option<Vec<Lit, A>>, AllocError>),
    Config(Result<(), SolverError>),
    SetMaxSteps,
    Steps(u64),
    StepsSinceChange(u64),
    IsValid(bool),
    IsFixed(bool),
    WriteProof(Result<(), (SolverError, W)>),
    CloseProof(Result<Option<W>, (SolverError, W)>),
    EnableSelfChecking(Result<(), SolverError>),
}

/// Makes one call. A source or a target has to have counted fewer than 2^64-1 faults.
pub fn make_call<W: ProofTarget, S: ByteSource, A: Allocator + Copy>(
    solver: &mut Solver<W, A>,
    call: Call<W, S, A>,
) -> Answer<W, S, A>
    requires { MayStillFail S.input W.taken call }
    ensures { (s : State) → Represents solver.old s →
        (t : State) × MakesCall S.input W.taken s call result t × Represents solver.new t }
{
    match call {
        Call::AddClause(clause) => Answer::AddClause(solver.add_clause(&clause)),
        Call::AddFormula(formula) => Answer::AddFormula(solver.add_formula(&formula)),
        Call::AddDimacsCnf(mut source) => {
            let added = solver.add_dimacs_cnf(&mut source);
            Answer::AddDimacsCnf(added, source)
        }
        Call::NewVar => Answer::NewVar(solver.new_var()),
        Call::SampleVar(var) => Answer::SampleVar(solver.sample_var(var)),
        Call::WitnessVar(var) => Answer::WitnessVar(solver.witness_var(var)),
        Call::HideVar(var) => Answer::HideVar(solver.hide_var(var)),
        Call::ObserveInternalVars => { Answer::ObserveInternalVars(solver.observe_internal_vars()) }
        Call::SetPhase(lit) => Answer::SetPhase(solver.set_phase(lit)),
        Call::UnsetPhase(var) => {
            solver.unset_phase(var);
            Answer::UnsetPhase
        }
        Call::Assume(list) => Answer::Assume(solver.assume(&list)),
        Call::Solve => Answer::Solve(solver.solve()),
        Call::Model => Answer::Model(solver.model()),
        Call::FailedCore => Answer::FailedCore(solver.copy_core()),
        Call::Config(update) => Answer::Config(solver.config(&update)),
        Call::SetMaxSteps(max_steps) => {
            solver.set_max_steps(max_steps);
            Answer::SetMaxSteps
        }
        Call::Steps => Answer::Steps(solver.steps()),
        Call::StepsSinceChange => Answer::StepsSinceChange(solver.steps_since_change()),
        Call::IsValid => Answer::IsValid(solver.is_valid()),
        Call::IsFixed(lit) => Answer::IsFixed(solver.is_fixed(lit)),
        Call::WriteProof(target, format) => {
            Answer::WriteProof(solver.write_proof(target, format))
        }
        Call::CloseProof => Answer::CloseProof(solver.close_proof()),
        Call::EnableSelfChecking => Answer::EnableSelfChecking(solver.enable_self_checking()),
    }
}

/// Makes the calls in turn, and returns their answers in this order: they mean what `answers_of` says, over what the
/// solver has before. Behind each call what was logged is right, as long as the solver is valid. At each moment fewer
/// than (n+2)*2^(n+2) steps were made since the last change, where n variables are counted, and so fewer than 2^(2n+3).
/// Err comes only before the first call, where the list of answers was refused. Of what the calls are given the same is
/// asked as by `make_call`.
pub fn run<W: ProofTarget, S: ByteSource, A: Allocator + Copy>(
    solver: &mut Solver<W, A>,
    calls: Vec<Call<W, S, A>, A>,
) -> Result<Vec<Answer<W, S, A>, A>, AllocError>
    requires { AreReady S.input W.taken calls.items }
    ensures run { IfOk result
        (λ answers. LeadsRepresented solver.old (λ s t. Run S.input W.taken s calls.items answers.items t) solver.new) }
    ensures answers { IfOk result
        (λ answers. (s : State) → Represents solver.old s →
        AreAnswered S.input (story_now s) calls.items answers.items) }
    ensures few { IfOk result (λ answers. (s : State) → Represents solver.old s →
        HasFewStepsAlong by_state S.input W.taken s calls.items answers.items) }
    ensures refused { OnErr result (solver.new ≡ solver.old) }
{
    solver.prove_journal();
    let mut answers = Vec::with_capacity(*calls.allocator(), calls.len())?;
    for call in calls {
        answers.push_reserved(make_call(solver, call));
    }
    Ok(answers)
}

/// The answers of a new solver to the calls. `answers` says what they mean, and is to be read first: true comes with a
/// model and false with a failed core, of the clauses that were accepted until then, those of formulas and texts among
/// them, and of the assumptions given last. `truth` says it too, and all else that the calls and answers before say:
/// when a call is refused, what a proof would have logged, and how many steps were made since the last change: fewer than
/// 2^(2n+3), where n variables are counted (`laws::answers_make_few_steps`). Of what the calls are given the same is asked
/// as by `run`.
pub fn answers_of<W: ProofTarget, S: ByteSource, A: Allocator + Copy>(
    calls: Vec<Call<W, S, A>, A>,
) -> Result<Vec<Answer<W, S, A>, A>, AllocError>
    requires { AreReady S.input W.taken calls.items }
    ensures run { IfOk result
        (λ answers. (t : State) × Run S.input W.taken empty_state calls.items answers.items t × HasRightLog t) }
    ensures answers { IfOk result (λ answers. AreAnswered S.input empty_story calls.items answers.items) }
    ensures truth { IfOk result (λ answers. AreTrue S.input W.taken empty_past calls.items answers.items) }
{
    let mut solver: Solver<W, A> = Solver::new_in(*calls.allocator());
    let answers = run(&mut solver, calls);
    // In one step: at the end of a scope each part of it would be one.
    drop(solver);
    answers
}
