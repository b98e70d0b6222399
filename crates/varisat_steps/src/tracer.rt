//! What takes the steps of a search's proof.
ghost use Rattle.std.specs.Prelude.{◌≡◌, ◌++◌, ℕ, [], List, Bool, false};
ghost use Rattle.std.specs.List.Sorted.{IsPermutation};
ghost use Rattle.varisat_theory.specs.promises.Literals.{Clause};
ghost use Rattle.varisat_theory.specs.promises.Journals.{Entry, Leads};
ghost use Rattle.varisat_steps.specs.Traces.{entries_of, CanTakeStep, LogsStep};

use crate::step::ProofStep;
use std::alloc::AllocError;
use std::io;
use varisat_literals::Lit;

/// Why a step was not taken.
#[derive(Debug, Drop)]
pub enum TraceError {
    /// Out of memory.
    Memory,
    /// The target that the lines are written to failed.
    Target(io::Error),
}

impl From<AllocError> for TraceError {
    ghost use Rattle.std.specs.Prelude.{◌≡◌};
    ghost use Rattle.varisat_steps.specs.declared.tracer.TraceError.TheVariants.{Memory};

    ghost from_gives = { λ _ e. e ≡ Memory };

    fn from(_error: AllocError) -> TraceError {
        TraceError::Memory
    }
}

/// What takes the steps of a search, in order: a file, a checker, both or nothing.
pub trait ProofTracer {
    /// Whether it takes steps. One that doesn't lets them pass.
    ghost active: { Self → Bool };

    /// The lists of clauses that it may hold: any, where it checks nothing.
    ghost holds: { Self → List Clause → Type 0 };

    /// It took the entries, in order, and is left as the other one.
    ghost takes: { Self → List Entry → Self → Type 0 };

    /// It took a beginning of the entries, and so many faults came at its target.
    ghost breaks_off: { Self → List Entry → ℕ → Self → Type 0 };

    /// The clause's literals stand in the order of the numbers that it writes.
    ghost in_order: { Self → Clause → Type 0 };

    /// Whether it takes steps. Where it doesn't, none need be put together.
    fn is_active(&self) -> bool
        ensures { result ≡ active self.now };

    /// Brings a clause's literals into its order: for a clause that is deleted without having been kept, so that no order
    /// of the search's says how it is written. Which numbers are written, the search doesn't know.
    fn sort(&self, clause: &mut [Lit])
        ensures moved { IsPermutation clause.old clause.new }
        ensures sorted { in_order self.now clause.new };

    /// Takes the step. The step has to be right for some clauses that the tracer may hold; so no answer says that it is
    /// wrong. After an error a beginning of the step's entries was taken. `Target` is returned just where the target
    /// failed, which is one fault more. One that is not active never fails.
    fn add_step(&mut self, step: &ProofStep<'_>) -> Result<(), TraceError>
        requires { CanTakeStep (holds self.old) step.now }
        ensures { LogsStep (active self.old) takes breaks_off self.old (entries_of step.now) result self.new };

    /// No entry leaves it as it is.
    ghost takes_none: { (x : Self) → takes x [] x };

    /// Entries are taken in turn.
    ghost takes_more: { (x y z : Self) (first second : List Entry) →
        takes x first y →
        takes y second z →
        takes x (first ++ second) z };

    /// One that is not active lets any entries pass.
    ghost takes_idle: { (x : Self) (entries : List Entry) → active x ≡ false → takes x entries x };

    /// It broke off before any entry, by no fault of its own.
    ghost breaks_none: { (x : Self) → breaks_off x [] 0 x };

    /// It breaks off behind what it took.
    ghost breaks_behind: { (x y z : Self) (first second : List Entry) (faults : ℕ) →
        takes x first y →
        breaks_off y second faults z →
        breaks_off x (first ++ second) faults z };

    /// At one that is not active no fault comes.
    ghost breaks_idle: { (x y : Self) (entries : List Entry) (faults : ℕ) →
        active x ≡ false →
        breaks_off x entries faults y →
        faults ≡ 0 };

    /// It may hold what is present after the entries.
    ghost holds_after: { (x y : Self) (entries : List Entry) (held after : List Clause) →
        takes x entries y →
        holds x held →
        Leads held entries after →
        holds y after };
}

/// Takes nothing.
#[derive(Drop)]
pub struct NoTracer {}

impl ProofTracer for NoTracer {
    ghost use Rattle.std.specs.Prelude.{◌≡◌, false, refl};

    ghost active = { λ _. false };

    ghost holds = { λ _ _. Unit {0} };

    ghost takes = { λ _ _ _. Unit {0} };

    ghost breaks_off = { λ _ _ faults _. faults ≡ 0 };

    ghost in_order = { λ _ _. Unit {0} };

    fn is_active(&self) -> bool {
        false
    }

    fn sort(&self, _clause: &mut [Lit]) {}

    fn add_step(&mut self, _step: &ProofStep<'_>) -> Result<(), TraceError> {
        Ok(())
    }

    ghost takes_none = { λ _. tt };

    ghost takes_more = { λ _ _ _ _ _ _ _. tt };

    ghost takes_idle = { λ _ _ _. tt };

    ghost breaks_none = { λ _. refl };

    ghost breaks_behind = { λ _ _ _ _ _ _ _ h. h };

    ghost breaks_idle = { λ _ _ _ _ _ h. h };

    ghost holds_after = { λ _ _ _ _ _ _ _ _. tt };
}
