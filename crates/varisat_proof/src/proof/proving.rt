//! The proof that a solver writes, and the checker that runs inside it. Steps and clauses are over global variables.
ghost use Rattle.std.specs.Prelude.{◌≡◌, ℕ, List, [], ◌∷◌, ◌-◌, ◌<◌, ◌^◌, Option, None, Some, true, false, IfErr, OnOk, Ok, option_copied, is_some};
ghost use Rattle.varisat_theory.specs.promises.Held.{SameClauses};
ghost use Rattle.varisat_theory.specs.promises.Journals.{Accepts, Assumes, Retires};
ghost use Rattle.varisat_steps.specs.Traces.{CanTakeStep, entries_of};
ghost use Rattle.varisat_proof.specs.declared.checker.error.CheckerError.TheVariants.{OutOfMemory};
ghost use Rattle.varisat_lines.specs.declared.format.LineKind.TheVariants as kinds;
ghost use Rattle.varisat_lines.specs.promises.Lines.{line_of_kind};
ghost use Rattle.varisat_lines.specs.promises.Logging.{marked_line};
ghost use Rattle.varisat_proof.specs.inside.Present.{IsLeftAfter};
ghost use Rattle.varisat_proof.specs.promises.Proving.{PutsInto, is_logging, bars_clauses, bars_assumptions, marked_searched, WritesLines, logged, Logs, Flushes, CanCountTargetFault, MayBePresent, IsUsable, IsCheckedIf, IsLogged, IsSpent, IsClosed};

use crate::checker::{Checker, CheckerError};
use std::alloc::Allocator;
use std::io;
use std::marker::Model;
use varisat_formula::io::ProofTarget;
use varisat_lines::format::{LineKind, ProofFormat};
use varisat_lines::step::ProofStep;
use varisat_lines::writer::{WriteError, write_entries, write_marked};
use varisat_literals::{Lit, Var};
use varisat_steps::TraceError;

/// A proof that is being written.
#[derive(Drop)]
pub struct OpenProof<W: ProofTarget> {
    target: W,
    format: ProofFormat,
    searched: bool,
}

impl<W: ProofTarget> Model for OpenProof<W> {
    ghost use Rattle.varisat_proof.specs.promises.Proving.{OpenState};

    ghost Value = { OpenState };

    ghost view = { λ p. record { format = p.format; taken = W.taken p.target; searched = p.searched } };
}

impl<W: ProofTarget> OpenProof<W> {
    /// Writes the lines of the step.
    fn write_step<A: Allocator + Copy>(
        &mut self,
        buffer: &mut Vec<u8, A>,
        step: &ProofStep<'_>,
    ) -> Result<(), WriteError>
        requires { self.old.taken.faults < 2 ^ 64 - 1 }
        ensures puts { PutsInto self.old (logged (entries_of step.now)) result self.new.taken }
        ensures frame { self.new ≡ record self.old { taken = self.new.taken } }
    {
        write_entries(&mut self.target, buffer, self.format.encoding(), step)
    }

    /// Writes a line that only marked text has.
    fn write_marked<A: Allocator + Copy>(
        &mut self,
        buffer: &mut Vec<u8, A>,
        kind: LineKind,
        literals: &[Lit],
    ) -> Result<(), WriteError>
        requires { self.old.taken.faults < 2 ^ 64 - 1 }
        ensures puts { PutsInto self.old (λ e. marked_line e (line_of_kind kind literals.now)) result self.new.taken }
        ensures frame { self.new ≡ record self.old { taken = self.new.taken } }
    {
        write_marked(
            &mut self.target,
            buffer,
            self.format.encoding(),
            kind,
            literals,
        )
    }
}

/// Writes the step's lines, if a proof is open.
fn write_step_if<W: ProofTarget, A: Allocator + Copy>(
    opened: &mut Option<OpenProof<W>>,
    buffer: &mut Vec<u8, A>,
    step: &ProofStep<'_>,
) -> Result<(), TraceError>
    requires { CanCountTargetFault opened.old }
    ensures { WritesLines opened.old (logged (entries_of step.now)) result opened.new }
{
    let Some(proof) = opened else {
        return Ok(());
    };
    match proof.write_step(buffer, step) {
        Ok(()) => Ok(()),
        Err(WriteError::Memory) => Err(TraceError::Memory),
        Err(WriteError::Target(cause)) => Err(TraceError::Target(cause)),
    }
}

/// Writes a line that only marked text has, if a proof is open.
fn write_marked_if<W: ProofTarget, A: Allocator + Copy>(
    opened: &mut Option<OpenProof<W>>,
    buffer: &mut Vec<u8, A>,
    kind: LineKind,
    literals: &[Lit],
) -> Result<(), TraceError>
    requires { CanCountTargetFault opened.old }
    ensures { WritesLines opened.old (λ e. marked_line e (line_of_kind kind literals.now)) result opened.new }
{
    let Some(proof) = opened else {
        return Ok(());
    };
    match proof.write_marked(buffer, kind, literals) {
        Ok(()) => Ok(()),
        Err(WriteError::Memory) => Err(TraceError::Memory),
        Err(WriteError::Target(cause)) => Err(TraceError::Target(cause)),
    }
}

/// Has the checker take the step, if one runs. The step is right for what the checker has, so the only error is out of
/// memory, which spends the checker.
fn check_step_if<A: Allocator + Copy>(
    checker: &mut Option<Checker<A>>,
    step: &ProofStep<'_>,
) -> Result<(), CheckerError>
    requires usable { IsUsable checker.old }
    requires right { CanTakeStep (MayBePresent checker.old) step.now }
    ensures taken { OnOk result (IsCheckedIf checker.old (entries_of step.now) checker.new) }
    ensures right { IfErr result (λ e. e ≡ OutOfMemory) }
    ensures spent { IfErr result (λ e. IsSpent checker.old checker.new) }
{
    let Some(checker) = checker else {
        return Ok(());
    };
    checker.check_step(step)
}

/// Has the checker keep an accepted clause, if one runs. The only error is out of memory, which spends the checker.
fn keep_clause_if<A: Allocator + Copy>(
    checker: &mut Option<Checker<A>>,
    clause: &[Lit],
) -> Result<(), CheckerError>
    requires usable { IsUsable checker.old }
    ensures taken { OnOk result (IsCheckedIf checker.old (Accepts clause.now ∷ []) checker.new) }
    ensures right { IfErr result (λ e. e ≡ OutOfMemory) }
    ensures spent { IfErr result (λ e. IsSpent checker.old checker.new) }
{
    let Some(checker) = checker else {
        return Ok(());
    };
    checker.add_clause(clause)
}

/// The proof that a solver writes and the checker that runs inside it, if there are such. With neither no call does
/// anything.
#[derive(Drop)]
pub struct Proof<W: ProofTarget, A: Allocator + Copy> {
    open: Option<OpenProof<W>>,
    checker: Option<Checker<A>>,
    /// Room to put a line together.
    buffer: Vec<u8, A>,
}

impl<W: ProofTarget, A: Allocator + Copy> Model for Proof<W, A> {
    ghost use Rattle.varisat_proof.specs.promises.Proving.{ProofParts};

    ghost Value = { ProofParts };

    ghost view = { λ p. record { opened = p.open; checker = p.checker } };
}

impl<W: ProofTarget, A: Allocator + Copy> Proof<W, A> {
    /// No proof is open and no checker runs. It takes no memory.
    pub fn new_in(alloc: A) -> Proof<W, A>
        ensures { result ≡ record { opened = None; checker = None } }
    {
        Proof {
            open: None,
            checker: None,
            buffer: Vec::new(alloc),
        }
    }

    /// Opens a proof. It takes no memory.
    pub fn write_proof(&mut self, target: W, format: ProofFormat)
        requires { self.old.opened ≡ None }
        ensures { self.new
            ≡ record self.old { opened = Some (record { format = format; taken = W.taken target; searched = false }) } }
    {
        self.open = Some(OpenProof {
            target,
            format,
            searched: false,
        });
    }

    /// Starts a checker, with no clauses, where none runs. It takes no memory.
    pub fn begin_checking(&mut self, alloc: A)
        ensures begun { self.old.checker ≡ None →
            self.new ≡ record self.old { checker = Some (record { clauses = []; spent = false }) } }
        ensures stays { is_some self.old.checker ≡ true → self.new ≡ self.old }
    {
        if self.checker.is_none() {
            self.checker = Some(Checker::new_in(alloc));
        }
    }

    /// Whether a proof is open or a checker runs.
    pub fn is_active(&self) -> bool
        ensures { result ≡ is_logging self.now }
    {
        self.open.is_some() || self.checker.is_some()
    }

    /// Whether a proof is open.
    pub fn is_open(&self) -> bool
        ensures { result ≡ is_some self.now.opened }
    {
        self.open.is_some()
    }

    /// Whether further clauses would be no part of the proof: one is open under which a search ran, and its format has no
    /// lines for them.
    pub fn bars_clauses(&self) -> bool
        ensures { result ≡ bars_clauses self.now.opened }
    {
        match &self.open {
            Some(open) => open.searched && !open.format.has_marks(),
            None => false,
        }
    }

    /// Whether assumptions would be no part of the proof: one is open, and its format has no lines for them.
    pub fn bars_assumptions(&self) -> bool
        ensures { result ≡ bars_assumptions self.now.opened }
    {
        match &self.open {
            Some(open) => !open.format.has_marks(),
            None => false,
        }
    }

    /// The checker that runs.
    pub fn checker(&self) -> Option<&Checker<A>>
        ensures { option_copied result ≡ self.now.checker }
    {
        self.checker.as_ref()
    }
}

/// Tells an accepted clause: marked text has a line of it, and then the checker keeps it. `Target`: the target failed, and
/// the checker got nothing. `Memory`: a line was not put together, or the checker is spent.
pub fn add_clause<W: ProofTarget, A: Allocator + Copy>(
    proof: &mut Proof<W, A>,
    clause: &[Lit],
) -> Result<(), TraceError>
    requires room { CanCountTargetFault proof.old.opened }
    requires usable { IsUsable proof.old.checker }
    ensures { Logs proof.old (Accepts clause.now ∷ []) result proof.new }
{
    write_marked_if(
        &mut proof.open,
        &mut proof.buffer,
        LineKind::Accepts,
        clause,
    )?;
    match keep_clause_if(&mut proof.checker, clause) {
        Ok(()) => Ok(()),
        Err(_) => Err(TraceError::Memory),
    }
}

/// Tells an accepted list of assumptions, of which marked text has a line; the checker does not keep it. Errors are those
/// of `add_clause`.
pub fn add_assumptions<W: ProofTarget, A: Allocator + Copy>(
    proof: &mut Proof<W, A>,
    assumptions: &[Lit],
) -> Result<(), TraceError>
    requires room { CanCountTargetFault proof.old.opened }
    requires usable { IsUsable proof.old.checker }
    ensures { Logs proof.old (Assumes assumptions.now ∷ []) result proof.new }
{
    write_marked_if(
        &mut proof.open,
        &mut proof.buffer,
        LineKind::Assumes,
        assumptions,
    )
}

/// Tells a step, which is right for what the checker has: its lines are written, each by one `put`, and then the
/// checker takes it. Errors are those of `add_clause`; behind one, some of the lines may stand in the target.
pub fn add_step<W: ProofTarget, A: Allocator + Copy>(
    proof: &mut Proof<W, A>,
    step: &ProofStep<'_>,
) -> Result<(), TraceError>
    requires room { CanCountTargetFault proof.old.opened }
    requires usable { IsUsable proof.old.checker }
    requires right { CanTakeStep (MayBePresent proof.old.checker) step.now }
    ensures { Logs proof.old (entries_of step.now) result proof.new }
{
    write_step_if(&mut proof.open, &mut proof.buffer, step)?;
    match check_step_if(&mut proof.checker, step) {
        Ok(()) => Ok(()),
        Err(_) => Err(TraceError::Memory),
    }
}

/// Tells that a variable is gone for good: the checker drops the clauses of it. No format has a line for that, so that it
/// takes no memory and no target can fail.
pub fn delete_var<W: ProofTarget, A: Allocator + Copy>(proof: &mut Proof<W, A>, var: Var)
    ensures logged { IsLogged proof.old (Retires var ∷ []) proof.new }
    ensures opened { proof.new.opened ≡ proof.old.opened }
{
    if let Some(checker) = &mut proof.checker {
        checker.drop_mentions(var);
    }
}

/// Flushes the target, if a proof is open. It takes no memory, and an error is the target's.
pub fn flush_proof<W: ProofTarget, A: Allocator + Copy>(proof: &mut Proof<W, A>) -> io::Result<()>
    requires { CanCountTargetFault proof.old.opened }
    ensures flushed { Flushes proof.old.opened result proof.new.opened }
    ensures frame { proof.new ≡ record proof.old { opened = proof.new.opened } }
{
    let Some(open) = &mut proof.open else {
        return Ok(());
    };
    match open.target.flush() {
        Ok(()) => Ok(()),
        Err(cause) => Err(cause),
    }
}

/// Ends a search: an open proof is marked as one under which a search ran, and flushed. It takes no memory, and an error
/// is the target's.
pub fn solve_finished<W: ProofTarget, A: Allocator + Copy>(
    proof: &mut Proof<W, A>,
) -> io::Result<()>
    requires { CanCountTargetFault proof.old.opened }
    ensures flushed { Flushes (marked_searched proof.old.opened) result proof.new.opened }
    ensures frame { proof.new ≡ record proof.old { opened = proof.new.opened } }
{
    if let Some(open) = &mut proof.open {
        open.searched = true;
    }
    flush_proof(proof)
}

/// Closes the open proof without a flush, and hands its target back. `None`: no proof is open.
pub fn take_target<W: ProofTarget, A: Allocator + Copy>(proof: &mut Proof<W, A>) -> Option<W>
    ensures taken { IsClosed {E = Unit {0}} W.taken proof.old.opened (Ok result) }
    ensures closed { proof.new ≡ record proof.old { opened = None } }
{
    match proof.open.take() {
        None => None,
        Some(open) => Some(open.target),
    }
}

/// Closes the open proof: flushes the target and hands it back, also where the flush fails, with its fault. `None`: no
/// proof is open.
pub fn close_proof<W: ProofTarget, A: Allocator + Copy>(
    proof: &mut Proof<W, A>,
) -> Result<Option<W>, (io::Error, W)>
    requires { CanCountTargetFault proof.old.opened }
    ensures taken { IsClosed W.taken proof.old.opened result }
    ensures closed { proof.new ≡ record proof.old { opened = None } }
{
    let Some(open) = proof.open.take() else {
        return Ok(None);
    };
    let mut target = open.target;
    match target.flush() {
        Ok(()) => Ok(Some(target)),
        Err(cause) => Err((cause, target)),
    }
}
