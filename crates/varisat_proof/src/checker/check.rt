//! The checker. It keeps the present clauses, and propagates over them for each line.
ghost use Rattle.std.specs.Prelude.{◌≡◌, ◌≢◌, [], ◌∷◌, ◌++◌, ◌-◌, ◌<◌, ◌^◌, ◌↔◌, length, true, false, MatchOption, Ok, Err, OnOk, OnErr, IfOk, IfErr, IsTrue, ◌||◌, slice_index_or};
ghost use Rattle.varisat_theory.specs.promises.Membership.{◌∈◌, SameSet};
ghost use Rattle.varisat_theory.specs.promises.Literals.{Clause, IsSatisfiable};
ghost use Rattle.varisat_theory.specs.promises.Derivations.{Line, Add, Delete, TakesOut};
ghost use Rattle.varisat_theory.specs.promises.Propagation.{Conflicts, Follows};
ghost use Rattle.varisat_plain.specs.promises.Checking.{IsAbsent};
ghost use Rattle.varisat_theory.specs.promises.Held.{without};
ghost use Rattle.varisat_lines.specs.declared.format.LineKind.TheVariants.{Fails};
ghost use Rattle.varisat_lines.specs.declared.format.Encoding.TheVariants.{Text};
ghost use Rattle.varisat_proof.specs.declared.checker.line.LineStatus.TheVariants.{Taken};
ghost use Rattle.varisat_proof.specs.declared.checker.error.CheckVerdict.TheVariants.{Refutation};
ghost use Rattle.varisat_proof.specs.declared.checker.error.CheckerError.TheVariants.{OutOfMemory, Spent};
ghost use Rattle.varisat_lines.specs.promises.Lines.{line_of_kind};
ghost use Rattle.varisat_proof.specs.promises.Marked.{state_of, strict_rules};
ghost use Rattle.varisat_proof.specs.promises.Results.{IsResult};
ghost use Rattle.varisat_proof.specs.promises.DratChecks.{rules_of, IsDratStatusOf, IsDratResult, ChecksDrat};
ghost use Rattle.varisat_proof.specs.inside.Checks.{ReturnsStatus, TakesNext, position_of, ReadsNext, EndsBehind, IsRefutedBehind, ChecksFrom, result_at_end, ChecksLine, ChecksUnits, ChecksCore, RefusesText};
ghost use Rattle.varisat_proof.specs.promises.Calls.{with_clause, at_input, BecomesOrRefuses, AddsText, IsStep, Checks, ChecksMarked, IsMarkedResult, IsTrueReport, IsRightFor, spends};

use crate::checker::drat::{DratCounts, take_drat_line};
use crate::checker::error::{CheckVerdict, CheckerError};
use crate::checker::line::{LineRules, LineStatus};
use crate::checker::marked::{MarkedReport, ReportBuilder};
use std::alloc::{AllocError, Allocator};
use std::marker::Model;
use varisat_formula::dimacs::{ClauseSink, DimacsError, DimacsErrorKind, read_clauses};
use varisat_formula::formula::CnfFormula;
use varisat_formula::io::{ByteSource, PIECE};
use varisat_lines::format::{Encoding, LineKind, ProofFormat};
use varisat_lines::reader::ProofReader;
use varisat_lines::step::ProofStep;
use varisat_lines::token::Event;
use varisat_literals::{Lit, Var};
use varisat_rat::PresentClauses;

/// How many lines were looked at, and whether the present clauses conflicted.
#[derive(Clone, Copy)]
pub struct Count {
    pub steps: u64,
    pub refuted: bool,
}

/// What a check returns where the bytes end: the verdict, or a fault inside a line.
fn verdict_at_end<A: Allocator + Copy>(
    reader: &ProofReader<A>,
    count: &Count,
) -> Result<CheckVerdict, CheckerError>
    ensures { result ≡ result_at_end reader.now count.now }
{
    if reader.is_inside() {
        return Err(CheckerError::Parse {
            offset: reader.offset(),
        });
    }
    if count.refuted {
        Ok(CheckVerdict::Refutation)
    } else {
        Ok(CheckVerdict::Derivation)
    }
}

/// A checker of proofs.
#[derive(Drop)]
pub struct Checker<A: Allocator + Copy> {
    alloc: A,
    clauses: PresentClauses<A>,
    spent: bool,
}

impl<A: Allocator + Copy> Model for Checker<A> {
    ghost use Rattle.varisat_proof.specs.promises.Calls.{CheckerState};

    ghost Value = { CheckerState };

    ghost view = { λ c. record { clauses = c.clauses; spent = c.spent } };
}

impl<A: Allocator + Copy> Checker<A> {
    /// A checker with no clauses. It takes no memory.
    pub fn new_in(alloc: A) -> Checker<A>
        ensures { result ≡ record { clauses = []; spent = false } }
    {
        Checker {
            alloc,
            clauses: PresentClauses::new_in(alloc),
            spent: false,
        }
    }

    /// How many clauses are present.
    pub fn len(&self) -> usize
        ensures { result ≡ length self.now.clauses }
    {
        self.clauses.len()
    }

    /// The literals of a present clause.
    pub fn clause(&self, i: usize) -> &[Lit]
        requires { i < length self.now.clauses }
        ensures { result.now ≡ slice_index_or self.now.clauses i [] }
    {
        self.clauses.clause(i)
    }

    /// Whether a present clause is equal as a set.
    pub fn has_clause(&self, clause: &[Lit]) -> bool
        ensures yes { result ≡ true → (c : Clause) × (c ∈ self.now.clauses) × SameSet c clause.now }
        ensures no { result ≡ false → IsAbsent self.now.clauses clause.now }
    {
        self.clauses.has(clause)
    }

    /// Adds a clause, without a check.
    fn push_clause(&mut self, clause: &[Lit]) -> Result<(), AllocError>
        ensures ok { OnOk result (self.new ≡ with_clause self.old clause.now) }
        ensures refused { OnErr result (self.new ≡ self.old) }
    {
        self.clauses.push(clause)?;
        Ok(())
    }

    /// Ends a call as memory ran out, which spends the checker.
    fn run_out(&mut self) -> CheckerError
        ensures error { result ≡ OutOfMemory }
        ensures spent { self.new ≡ record self.old { spent = true } }
    {
        self.spent = true;
        CheckerError::OutOfMemory
    }

    /// Adds a clause, without a check. Where memory runs out the checker is spent.
    pub fn add_clause(&mut self, clause: &[Lit]) -> Result<(), CheckerError>
        ensures { BecomesOrRefuses self.old (self.old.clauses ++ clause.now ∷ []) result self.new }
    {
        if self.spent {
            return Err(CheckerError::Spent);
        }
        match self.push_clause(clause) {
            Ok(()) => Ok(()),
            Err(_) => Err(self.run_out()),
        }
    }

    /// Adds the formula's clauses in turn, without a check. Where memory runs out the checker is spent.
    pub fn add_formula<B: Allocator + Copy>(
        &mut self,
        formula: &CnfFormula<B>,
    ) -> Result<(), CheckerError>
        ensures { BecomesOrRefuses self.old (self.old.clauses ++ formula.now.clauses) result self.new }
    {
        if self.spent {
            return Err(CheckerError::Spent);
        }
        for clause in formula.iter() {
            match self.push_clause(clause) {
                Ok(()) => {}
                Err(_) => return Err(self.run_out()),
            }
        }
        Ok(())
    }

    /// The error for a fault of a text. Where memory ran out in the reader the checker is spent.
    fn refuse_text(&mut self, fault: DimacsError) -> CheckerError
        ensures { RefusesText self.old fault result self.new }
    {
        if let DimacsErrorKind::OutOfMemory = fault.kind {
            return self.run_out();
        }
        CheckerError::Dimacs { cause: fault }
    }

    /// Adds the clauses of a DIMACS CNF text in turn, without a check. The text's first fault is returned, and the
    /// clauses that ended before it stay. Where memory runs out, also in the reader, the checker is spent.
    pub fn add_dimacs_cnf<S: ByteSource>(&mut self, source: &mut S) -> Result<(), CheckerError>
        requires { (S.input source.old).faults < 2 ^ 64 - 1 }
        ensures { AddsText (at_input self.old (S.input source.old)) result (at_input self.new (S.input source.new)) }
    {
        if self.spent {
            return Err(CheckerError::Spent);
        }
        match read_clauses(self.alloc, source, self) {
            Ok(None) => Ok(()),
            Ok(Some(fault)) => Err(self.refuse_text(fault)),
            Err(error) => Err(error),
        }
    }

    /// Takes out the clauses with a literal of the variable, without a check. It takes no memory; a spent checker
    /// refuses it.
    pub fn delete_var(&mut self, var: Var) -> Result<(), CheckerError>
        ensures taken { self.old.spent ≡ false →
            (result ≡ Ok tt) × (self.new ≡ record self.old { clauses = without var self.old.clauses }) }
        ensures refused { self.old.spent ≡ true → (result ≡ Err Spent) × (self.new ≡ self.old) }
    {
        if self.spent {
            return Err(CheckerError::Spent);
        }
        self.drop_mentions(var);
        Ok(())
    }

    /// Takes out the clauses with a literal of the variable, whether or not the checker is spent.
    pub(crate) fn drop_mentions(&mut self, var: Var)
        ensures { self.new ≡ record self.old { clauses = without var self.old.clauses } }
    {
        self.clauses.drop_mentions(var);
    }

    /// Whether propagation over the present clauses conflicts.
    fn is_refuted(&mut self) -> Result<bool, AllocError>
        ensures found { IfOk result (λ found. IsTrue found ↔ Conflicts self.old.clauses []) }
        ensures frame { self.new ≡ self.old }
    {
        let found = self.clauses.conflicts(&[])?;
        Ok(found)
    }

    /// The same behind a line of this kind, before which it did not. Where a clause was taken out it does not either, so that
    /// a row of deletions costs nothing to propagate.
    fn is_refuted_behind(&mut self, kind: LineKind) -> Result<bool, AllocError>
        ensures found { IfOk result (λ found. IsRefutedBehind kind self.old.clauses found) }
        ensures frame { self.new ≡ self.old }
    {
        match kind {
            LineKind::Deletes => Ok(false),
            LineKind::Adds | LineKind::Accepts | LineKind::Assumes | LineKind::Fails => {
                let found = self.is_refuted()?;
                Ok(found)
            }
        }
    }

    /// Adds a clause, if it follows.
    fn add_line(&mut self, clause: &[Lit]) -> Result<bool, AllocError>
        ensures added { IfOk result
            (λ added. added ≡ true →
            Follows self.old.clauses clause.now × (self.new ≡ with_clause self.old clause.now)) }
        ensures refused { IfOk result
            (λ added. added ≡ false → (Follows self.old.clauses clause.now → ⊥) × (self.new ≡ self.old)) }
        ensures spent { self.new.spent ≡ self.old.spent }
    {
        if !self.clauses.follows(clause)? {
            return Ok(false);
        }
        self.push_clause(clause)?;
        Ok(true)
    }

    /// Takes out one present clause that is equal as a set, or returns false where there is none.
    fn delete_line(&mut self, clause: &[Lit]) -> bool
        ensures taken { result ≡ true → TakesOut self.old.clauses clause.now self.new.clauses }
        ensures absent { result ≡ false → IsAbsent self.old.clauses clause.now }
        ensures stays { result ≡ false → self.new.clauses ≡ self.old.clauses }
        ensures spent { self.new.spent ≡ self.old.spent }
    {
        self.clauses.take_out(clause)
    }

    /// Reports a core, if it is assumed and propagation from it conflicts.
    fn take_core(
        &mut self,
        builder: &mut ReportBuilder<A>,
        core: &[Lit],
    ) -> Result<LineStatus, AllocError>
        ensures status { ReturnsStatus strict_rules (state_of self.old.clauses builder.old) (line_of_kind Fails core.now)
            result (state_of self.new.clauses builder.new) }
        ensures spent { self.new.spent ≡ self.old.spent }
    {
        if !builder.assumes(core) {
            return Ok(LineStatus::Unassumed);
        }
        let is_failed = self.clauses.conflicts(core)?;
        if !is_failed {
            return Ok(LineStatus::Unproved);
        }
        builder.push_core(core)?;
        Ok(LineStatus::Taken)
    }

    /// Takes a line by the strict rules, unless it is wrong.
    fn take_strict_line(
        &mut self,
        builder: &mut ReportBuilder<A>,
        kind: LineKind,
        clause: &[Lit],
    ) -> Result<LineStatus, AllocError>
        ensures status { ReturnsStatus strict_rules (state_of self.old.clauses builder.old) (line_of_kind kind clause.now)
            result (state_of self.new.clauses builder.new) }
        ensures spent { self.new.spent ≡ self.old.spent }
    {
        match kind {
            LineKind::Adds => {
                if !self.add_line(clause)? {
                    return Ok(LineStatus::Unproved);
                }
                Ok(LineStatus::Taken)
            }
            LineKind::Deletes => {
                if !self.delete_line(clause) {
                    return Ok(LineStatus::Absent);
                }
                Ok(LineStatus::Taken)
            }
            LineKind::Accepts => {
                builder.push_input(clause)?;
                self.push_clause(clause)?;
                Ok(LineStatus::Taken)
            }
            LineKind::Assumes => {
                builder.assume(clause)?;
                Ok(LineStatus::Taken)
            }
            LineKind::Fails => {
                let status = self.take_core(builder, clause)?;
                Ok(status)
            }
        }
    }

    /// Takes a line of DRAT, unless it is wrong.
    fn take_drat(
        &mut self,
        counts: &mut DratCounts,
        kind: LineKind,
        clause: &[Lit],
    ) -> Result<LineStatus, AllocError>
        ensures status { IfOk result
            (λ status. (Conflicts self.old.clauses [] → ⊥) →
            IsDratStatusOf self.old.clauses kind clause.now status self.new.clauses) }
        ensures spent { self.new.spent ≡ self.old.spent }
    {
        let status = take_drat_line(&mut self.clauses, counts, kind, clause)?;
        Ok(status)
    }

    /// Takes a line, unless it is wrong.
    fn take_line(
        &mut self,
        rules: LineRules,
        builder: &mut ReportBuilder<A>,
        counts: &mut DratCounts,
        kind: LineKind,
        clause: &[Lit],
    ) -> Result<LineStatus, AllocError>
        ensures status { (Conflicts self.old.clauses [] → ⊥) →
            ReturnsStatus (rules_of rules) (state_of self.old.clauses builder.old) (line_of_kind kind clause.now) result
            (state_of self.new.clauses builder.new) }
        ensures spent { self.new.spent ≡ self.old.spent }
    {
        match rules {
            LineRules::Strict => {
                let status = self.take_strict_line(builder, kind, clause)?;
                Ok(status)
            }
            LineRules::Drat => {
                let status = self.take_drat(counts, kind, clause)?;
                Ok(status)
            }
        }
    }

    /// The next line of a proof. Once the present clauses conflict, lines are not looked at.
    fn next_line(
        &mut self,
        rules: LineRules,
        builder: &mut ReportBuilder<A>,
        counts: &mut DratCounts,
        count: &mut Count,
        kind: LineKind,
        clause: &[Lit],
    ) -> Result<(), CheckerError>
        ensures takes { TakesNext (rules_of rules) (state_of self.old.clauses builder.old) count.old kind clause.now
            result (state_of self.new.clauses builder.new) count.new }
        ensures spent { self.new.spent ≡ self.old.spent }
    {
        if count.refuted {
            return Ok(());
        }
        let step = count.steps.saturating_add(1);
        let status = match self.take_line(rules, builder, counts, kind, clause) {
            Ok(status) => status,
            Err(_) => return Err(CheckerError::OutOfMemory),
        };
        match status {
            LineStatus::Unproved => return Err(CheckerError::CheckFailed { step }),
            LineStatus::Absent => return Err(CheckerError::NoSuchClause { step }),
            LineStatus::Unassumed => return Err(CheckerError::CoreNotAssumed { step }),
            LineStatus::Taken => {}
        }
        let refuted = match self.is_refuted_behind(kind) {
            Ok(refuted) => refuted,
            Err(_) => return Err(CheckerError::OutOfMemory),
        };
        *count = Count {
            steps: step,
            refuted,
        };
        Ok(())
    }

    /// The next piece of a proof.
    fn read_piece(
        &mut self,
        rules: LineRules,
        builder: &mut ReportBuilder<A>,
        counts: &mut DratCounts,
        reader: &mut ProofReader<A>,
        count: &mut Count,
        piece: &[u8],
    ) -> Result<(), CheckerError>
        ensures reads { ReadsNext (rules_of rules) piece.now (position_of self.old builder.old count.old reader.old)
            result (position_of self.new builder.new count.new reader.new) }
        ensures spent { self.new.spent ≡ self.old.spent }
    {
        for b in piece {
            let start = reader.start();
            let event = match reader.byte(*b) {
                Ok(event) => event,
                Err(_) => return Err(CheckerError::OutOfMemory),
            };
            match event {
                Event::More => {}
                Event::Fault => return Err(CheckerError::Parse { offset: start }),
                Event::Ended => {
                    counts.end_line(reader.offset());
                    self.next_line(
                        rules,
                        builder,
                        counts,
                        count,
                        reader.kind(),
                        reader.clause(),
                    )?;
                }
            }
        }
        Ok(())
    }

    /// The end of a proof.
    fn end_proof(
        &mut self,
        rules: LineRules,
        builder: &mut ReportBuilder<A>,
        counts: &mut DratCounts,
        reader: &mut ProofReader<A>,
        count: &mut Count,
    ) -> Result<CheckVerdict, CheckerError>
        ensures ends { EndsBehind (rules_of rules) (position_of self.old builder.old count.old reader.old) result
            (state_of self.new.clauses builder.new) }
        ensures spent { self.new.spent ≡ self.old.spent }
    {
        let last = reader.last_fault();
        let event = match reader.finish() {
            Ok(event) => event,
            Err(_) => return Err(CheckerError::OutOfMemory),
        };
        match event {
            Event::More => {}
            Event::Fault => return Err(CheckerError::Parse { offset: last }),
            Event::Ended => {
                counts.end_line(reader.offset());
                self.next_line(
                    rules,
                    builder,
                    counts,
                    count,
                    reader.kind(),
                    reader.clause(),
                )?;
            }
        }
        verdict_at_end(reader, count)
    }

    /// Reads all of the source as one proof.
    fn run<S: ByteSource>(
        &mut self,
        rules: LineRules,
        builder: &mut ReportBuilder<A>,
        counts: &mut DratCounts,
        source: &mut S,
        encoding: Encoding,
    ) -> Result<CheckVerdict, CheckerError>
        requires few { (S.input source.old).faults < 2 ^ 64 - 1 }
        ensures checks { ChecksFrom (rules_of rules) encoding (at_input self.old (S.input source.old)) builder.old
            result (at_input self.new (S.input source.new)) builder.new }
        ensures spent { self.new.spent ≡ self.old.spent }
    {
        let refuted = match self.is_refuted() {
            Ok(refuted) => refuted,
            Err(_) => return Err(CheckerError::OutOfMemory),
        };
        let mut count = Count { steps: 0, refuted };
        let mut reader = ProofReader::new_in(self.alloc, encoding);
        let mut buffer = [0; PIECE];
        'pieces: loop {
            let size = match source.fill(&mut buffer) {
                Ok(size) => size,
                Err(cause) => return Err(CheckerError::Io { cause }),
            };
            if size == 0 {
                break;
            }
            self.read_piece(
                rules,
                builder,
                counts,
                &mut reader,
                &mut count,
                &buffer[..size],
            )?;
        }
        self.end_proof(rules, builder, counts, &mut reader, &mut count)
    }

    /// Checks that the clause follows, as line number `step` of a step, and adds it.
    fn check_added(&mut self, clause: &[Lit], step: u64) -> Result<(), CheckerError>
        ensures { ChecksLine self.old (Add clause.now) step result self.new }
    {
        match self.add_line(clause) {
            Ok(true) => Ok(()),
            Ok(false) => Err(CheckerError::CheckFailed { step }),
            Err(_) => Err(self.run_out()),
        }
    }

    /// Checks that the clause is present, and takes it out.
    fn check_deleted(&mut self, clause: &[Lit]) -> Result<(), CheckerError>
        ensures { ChecksLine self.old (Delete clause.now) 1 result self.new }
    {
        if !self.delete_line(clause) {
            return Err(CheckerError::NoSuchClause { step: 1 });
        }
        Ok(())
    }

    /// Checks each literal in turn as a clause of its own.
    fn check_units(&mut self, units: &[Lit]) -> Result<(), CheckerError>
        requires { self.old.spent ≡ false }
        ensures { ChecksUnits self.old units.now result self.new }
    {
        for (i, unit) in units.iter().enumerate() {
            self.check_added(&[*unit], i as u64 + 1)?;
        }
        Ok(())
    }

    /// Checks that propagation from the literals conflicts.
    fn check_core(&mut self, core: &[Lit]) -> Result<(), CheckerError>
        ensures { ChecksCore self.old core.now result self.new }
    {
        match self.clauses.conflicts(core) {
            Ok(true) => Ok(()),
            Ok(false) => Err(CheckerError::CheckFailed { step: 1 }),
            Err(_) => Err(self.run_out()),
        }
    }

    /// Checks one step, whether or not propagation over the present clauses conflicts, and takes its lines. Where a
    /// line fails the clauses are those that the step's lines before left; the error has the line's number in the step.
    pub fn check_step(&mut self, step: &ProofStep<'_>) -> Result<(), CheckerError>
        ensures { IsStep self.old step.now result self.new }
    {
        if self.spent {
            return Err(CheckerError::Spent);
        }
        match step {
            ProofStep::AtClause { clause } => self.check_added(clause, 1),
            ProofStep::UnitClauses { units } => self.check_units(units),
            ProofStep::DeleteClause { clause } => self.check_deleted(clause),
            ProofStep::DeleteVar { var } => {
                self.drop_mentions(*var);
                Ok(())
            }
            ProofStep::FailedAssumptions { failed_core } => self.check_core(failed_core),
        }
    }

    /// Spends the checker, if the error does.
    fn end_with(&mut self, error: &CheckerError)
        ensures { self.new ≡ record self.old { spent = self.old.spent || spends error.now } }
    {
        let spends = match error {
            CheckerError::CheckFailed { .. }
            | CheckerError::NoSuchClause { .. }
            | CheckerError::CoreNotAssumed { .. }
            | CheckerError::Dimacs { .. }
            | CheckerError::Spent => false,
            CheckerError::Parse { .. } | CheckerError::Io { .. } | CheckerError::OutOfMemory =>
                true,
        };
        self.spent = self.spent || spends;
    }

    /// Checks all of the source as one proof. As soon as propagation over the present clauses conflicts, also before
    /// the first line, the verdict will be Refutation, and later lines are only read. The first fault in the order of
    /// the bytes is returned: a line that fails, or a token that does not fit. After `CheckFailed` and `NoSuchClause`
    /// the clauses are those that the lines before left; after `Parse`, `Io` and `OutOfMemory` the checker is spent.
    /// Refutation implies that no assignment satisfies the clauses that were present as the call began.
    pub fn check_proof<S: ByteSource>(
        &mut self,
        source: &mut S,
        format: ProofFormat,
    ) -> Result<CheckVerdict, CheckerError>
        requires few { (S.input source.old).faults < 2 ^ 64 - 1 }
        ensures checks { self.old.spent ≡ false →
            Checks format (at_input self.old (S.input source.old)) result (at_input self.new (S.input source.new)) }
        ensures refused { self.old.spent ≡ true →
            (result ≡ Err Spent) × (self.new ≡ self.old) × (source.new ≡ source.old) }
        ensures usable { OnOk result (self.new.spent ≡ self.old.spent) }
        ensures spends { IfErr result (λ e. self.new.spent ≡ (self.old.spent || spends e)) }
        ensures exact { IsRightFor (at_input self.old (S.input source.old)) result
            (λ bytes. IsResult format self.old.clauses bytes result self.new.clauses) }
        ensures sound { result ≡ Ok Refutation → IsSatisfiable self.old.clauses → ⊥ }
    {
        if self.spent {
            return Err(CheckerError::Spent);
        }
        let mut builder = ReportBuilder::new_in(self.alloc);
        let mut counts = DratCounts::new();
        match self.run(
            LineRules::Strict,
            &mut builder,
            &mut counts,
            source,
            format.plain_encoding(),
        ) {
            Ok(verdict) => Ok(verdict),
            Err(error) => {
                self.end_with(&error);
                Err(error)
            }
        }
    }

    /// Checks all of the source as one DRAT proof of a solver that simplifies, as `check_proof` but for three kinds of
    /// lines: a clause that does not follow joins the present ones if it is RAT on one of its literals; a deletion that
    /// finds no clause is passed over; and so is one of a clause of which all literals but one are implied to be false.
    /// `NoSuchClause` does not come. The lines are counted. Refutation implies that no assignment satisfies the clauses
    /// that were present as the call began; but those that are present later may be satisfied by other assignments than
    /// these.
    pub fn check_drat<S: ByteSource>(
        &mut self,
        source: &mut S,
        format: ProofFormat,
        counts: &mut DratCounts,
    ) -> Result<CheckVerdict, CheckerError>
        requires few { (S.input source.old).faults < 2 ^ 64 - 1 }
        ensures checks { self.old.spent ≡ false → ChecksDrat format (at_input self.old (S.input source.old)) result
            (at_input self.new (S.input source.new)) }
        ensures refused { self.old.spent ≡ true →
            (result ≡ Err Spent) × (self.new ≡ self.old) × (source.new ≡ source.old) }
        ensures usable { OnOk result (self.new.spent ≡ self.old.spent) }
        ensures spends { IfErr result (λ e. self.new.spent ≡ (self.old.spent || spends e)) }
        ensures exact { IsRightFor (at_input self.old (S.input source.old)) result
            (λ bytes. IsDratResult format self.old.clauses bytes result self.new.clauses) }
        ensures sound { result ≡ Ok Refutation → IsSatisfiable self.old.clauses → ⊥ }
    {
        if self.spent {
            return Err(CheckerError::Spent);
        }
        let mut builder = ReportBuilder::new_in(self.alloc);
        match self.run(
            LineRules::Drat,
            &mut builder,
            counts,
            source,
            format.plain_encoding(),
        ) {
            Ok(verdict) => Ok(verdict),
            Err(error) => {
                self.end_with(&error);
                Err(error)
            }
        }
    }

    /// The clause for which the line that `check_drat` refused is not RAT on its first literal, if there is one.
    pub fn stopper(&self) -> Option<&[Lit]>
        ensures { MatchOption result (Unit {0}) (λ clause. clause.now ∈ self.now.clauses) }
    {
        self.clauses.stopper()
    }

    /// Checks all of the source as one marked proof, as `check_proof` checks a proof of the format `Drat`. A clause of
    /// an `i` line joins the present ones without a check. A `q` line has the list that is assumed from there on, which
    /// is empty at first. An `f` line has a core: `CoreNotAssumed` where a literal of it is not assumed, and else
    /// `CheckFailed` where propagation from it does not conflict. The report has the clauses of the `i` lines and the
    /// cores, up to where the present clauses conflict. Where the verdict is Refutation no assignment satisfies the
    /// clauses that were present as the call began together with those of the `i` lines; and none makes all literals of
    /// a core true and satisfies these clauses, of the `i` lines those before the core.
    pub fn check_marked<S: ByteSource>(
        &mut self,
        source: &mut S,
    ) -> Result<MarkedReport<A>, CheckerError>
        requires few { (S.input source.old).faults < 2 ^ 64 - 1 }
        ensures checks { self.old.spent ≡ false →
            ChecksMarked (at_input self.old (S.input source.old)) result (at_input self.new (S.input source.new)) }
        ensures refused { self.old.spent ≡ true →
            (result ≡ Err Spent) × (self.new ≡ self.old) × (source.new ≡ source.old) }
        ensures usable { OnOk result (self.new.spent ≡ self.old.spent) }
        ensures spends { IfErr result (λ e. self.new.spent ≡ (self.old.spent || spends e)) }
        ensures exact { IsRightFor (at_input self.old (S.input source.old)) result
            (λ bytes. IsMarkedResult self.old.clauses bytes result self.new.clauses) }
        ensures sound { IfOk result (λ report. IsTrueReport self.old.clauses report) }
    {
        if self.spent {
            return Err(CheckerError::Spent);
        }
        let mut builder = ReportBuilder::new_in(self.alloc);
        let mut counts = DratCounts::new();
        match self.run(
            LineRules::Strict,
            &mut builder,
            &mut counts,
            source,
            Encoding::Text { marked: true },
        ) {
            Ok(verdict) => Ok(builder.report(verdict)),
            Err(error) => {
                self.end_with(&error);
                Err(error)
            }
        }
    }
}

impl<A: Allocator + Copy> ClauseSink for Checker<A> {
    type Error = CheckerError;

    ghost takes = { λ c clauses r d. BecomesOrRefuses c (c.clauses ++ clauses) r d };

    fn take_clauses<B: Allocator + Copy>(
        &mut self,
        clauses: &CnfFormula<B>,
    ) -> Result<(), CheckerError> {
        self.add_formula(clauses)
    }
}
