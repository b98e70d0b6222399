//! The clauses of a formula that is simplified: each is added once, and is live until it is removed. They are found by their
//! literals once all that are live then were listed.
ghost use Rattle.std.specs.Prelude.{◌≡◌, ℕ, List, Bool, true, false, ◌+◌, ◌*◌, ◌/◌, ◌∷◌, ◌++◌, [], ◌<◌, ◌≤◌, ◌^◌, length, IsTrue, OnOk, OnErr, IfOk, IfSome, slice_index_or, slice_set};
ghost use Rattle.varisat_theory.specs.promises.Membership.{◌∈◌};
ghost use Rattle.varisat_database.specs.Databases.{DatabaseState, no_clauses, given, pushed, given_or_pushed, removed, saved, clause_at, IsLive};
ghost use Rattle.varisat_database.specs.Sound.{Grows, IsListed, ListsOccurrences};

use crate::clauses::ClauseList;
use crate::history::History;
use crate::names::ShortNames;
use crate::occurrences::{Occurrences, count_at};
use std::alloc::{AllocError, Allocator};
use std::marker::Model;
use varisat_formula::formula::cnf::CnfFormula;
use varisat_literals::{Lit, Var};

/// The clauses, which of them are live, and by what models are extended once they are gone.
#[derive(Drop)]
pub struct Database<A: Allocator + Copy> {
    var_count: usize,
    frozen: Vec<bool, A>,
    saves_both: bool,
    names: ShortNames<A>,
    history: History<A>,
    live: Vec<bool, A>,
    stack: ClauseList<A>,
    is_listed: bool,
    occurrences: Occurrences<A>,
    signatures: Vec<u32, A>,
    counts: Vec<u32, A>,
    touched: Vec<Var, A>,
    is_touched: Vec<bool, A>,
}

impl<A: Allocator + Copy> Model for Database<A> {
    ghost use Rattle.varisat_database.specs.Databases.{DatabaseState, state_of};
    ghost use Rattle.varisat_database.specs.Sound.{IsSoundDatabase};

    ghost Value = { DatabaseState };

    ghost view = { λ d. state_of d.var_count d.frozen.items d.saves_both d.history d.live.items d.stack };

    ghost invariant = { λ d. IsSoundDatabase d.var_count d.history.clauses d.live.items d.is_listed d.names d.occurrences };
}

/// One bit for each variable of the clause, out of 32.
fn signature_of(clause: &[Lit]) -> u32 {
    let mut bits: u32 = 0;
    for lit in clause {
        bits |= 1u32 << (lit.index() % 32);
    }
    bits
}

/// Counts one clause more, or fewer, for a literal under its short name.
fn recount(counts: &mut [u32], short: Lit, is_added: bool) {
    if let Some(count) = counts.get_mut(short.code()) {
        *count = if is_added {
            count.saturating_add(1)
        } else {
            count.saturating_sub(1)
        };
    }
}

/// Notes that the clauses of the literal's variable changed. It is forgotten where there is no memory.
fn touch<A: Allocator + Copy>(touched: &mut Vec<Var, A>, flags: &mut [bool], short: Lit, lit: Lit) {
    let index = short.index();
    if index >= flags.len() || flags[index] {
        return;
    }
    if touched.push(lit.var()).is_ok() {
        flags[index] = true;
    }
}

/// Notes what one clause more, or fewer, changes, once clauses are listed.
fn note_change<A: Allocator + Copy>(
    is_listed: bool,
    counts: &mut [u32],
    touched: &mut Vec<Var, A>,
    flags: &mut [bool],
    names: &ShortNames<A>,
    clause: &[Lit],
    is_added: bool,
) {
    if !is_listed {
        return;
    }
    for lit in clause {
        let short = names.of(*lit);
        recount(counts, short, is_added);
        touch(touched, flags, short, *lit);
    }
}

/// Notes the variables of a clause that is added, once clauses are listed. Room for it is there.
fn sign<A: Allocator + Copy>(is_listed: bool, signatures: &mut Vec<u32, A>, clause: &[Lit]) {
    if is_listed {
        let _ = signatures.push(signature_of(clause));
    }
}

/// Notes the variables of each clause.
fn sign_all<A: Allocator + Copy>(
    signatures: &mut Vec<u32, A>,
    history: &History<A>,
) -> Result<(), AllocError> {
    signatures.clear();
    signatures.reserve_exact(history.len())?;
    for place in 0..history.len() {
        signatures.push(signature_of(history.clause(place)))?;
    }
    Ok(())
}

/// Lists a clause, if that is wanted.
fn list_clause<A: Allocator + Copy>(
    occurrences: &mut Occurrences<A>,
    names: &ShortNames<A>,
    clause: &[Lit],
    place: usize,
    is_wanted: bool,
) -> Result<(), AllocError>
    requires { place < 2 ^ 32 }
    ensures grows { Grows occurrences.old occurrences.new }
    ensures ok { OnOk result (is_wanted ≡ true → IsListed names.now occurrences.new clause.now place) }
{
    if !is_wanted {
        return Ok(());
    }
    occurrences.add_all(names, clause, place as u32)?;
    Ok(())
}

/// Lists each live clause.
fn list_live<A: Allocator + Copy>(
    occurrences: &mut Occurrences<A>,
    names: &ShortNames<A>,
    history: &History<A>,
    live: &[bool],
) -> Result<(), AllocError>
    requires { length live.now ≡ length history.now.clauses }
    ensures grows { Grows occurrences.old occurrences.new }
    ensures ok { OnOk result (ListsOccurrences names.now history.now.clauses live.now occurrences.new) }
{
    for place in 0..history.len() {
        list_clause(
            occurrences,
            names,
            history.clause(place),
            place,
            live[place],
        )?;
    }
    Ok(())
}

/// So many times the same.
pub fn filled<T: Copy, A: Allocator + Copy>(
    alloc: A,
    count: usize,
    value: T,
) -> Result<Vec<T, A>, AllocError> {
    let mut list = Vec::new(alloc);
    list.reserve_exact(count)?;
    for _ in 0..count {
        list.push(value)?;
    }
    Ok(list)
}

/// Notes each live clause as one more.
fn note_live<A: Allocator + Copy>(
    counts: &mut [u32],
    touched: &mut Vec<Var, A>,
    flags: &mut [bool],
    names: &ShortNames<A>,
    history: &History<A>,
    live: &[bool],
) {
    for place in 0..history.len() {
        if let Some(true) = live.get(place) {
            note_change(
                true,
                counts,
                touched,
                flags,
                names,
                history.clause(place),
                true,
            );
        }
    }
}

/// How many literals the formula's clauses have.
pub fn literals_in<A: Allocator + Copy>(formula: &CnfFormula<A>) -> usize {
    let mut literals: usize = 0;
    for clause in formula.iter() {
        literals = literals.saturating_add(clause.len());
    }
    literals
}

impl<A: Allocator + Copy> Database<A> {
    /// No clauses, over so many variables, of which the flagged ones are frozen. `saves_both` says whether the clauses
    /// with either literal of an eliminated variable are to be saved. Tables are by the short names.
    pub fn new_in(
        alloc: A,
        var_count: usize,
        frozen: &[bool],
        saves_both: bool,
        names: ShortNames<A>,
    ) -> Result<Database<A>, AllocError>
        requires { var_count ≤ 2 ^ 31 }
        ensures { IfOk result (λ d. d ≡ no_clauses var_count frozen.now saves_both) }
    {
        let mut flags = Vec::new(alloc);
        flags.extend_from_slice(frozen)?;
        let size = names.len();
        let counts = filled(alloc, size.saturating_mul(2), 0u32)?;
        let is_touched = filled(alloc, size, false)?;
        let occurrences = Occurrences::new_in(alloc, size.saturating_mul(2))?;
        Ok(Database {
            var_count,
            frozen: flags,
            saves_both,
            names,
            history: History::new_in(alloc),
            live: Vec::new(alloc),
            stack: ClauseList::new_in(alloc),
            is_listed: false,
            occurrences,
            signatures: Vec::new(alloc),
            counts,
            touched: Vec::new(alloc),
            is_touched,
        })
    }

    /// Makes room for the clauses of a formula, which are not there yet.
    pub fn reserve_for(&mut self, formula: &CnfFormula<A>) -> Result<(), AllocError>
        ensures { self.new ≡ self.old }
    {
        self.history.reserve(formula.len(), literals_in(formula))?;
        self.live.reserve_exact(formula.len())?;
        Ok(())
    }

    /// Lists all live clauses by their literals, and each that is added from then on.
    pub fn list_all(&mut self) -> Result<(), AllocError>
        ensures { self.new ≡ self.old }
    {
        if self.is_listed {
            return Ok(());
        }
        sign_all(&mut self.signatures, &self.history)?;
        note_live(
            &mut self.counts,
            &mut self.touched,
            &mut self.is_touched,
            &self.names,
            &self.history,
            &self.live,
        );
        self.occurrences
            .reserve_lists(self.names.len(), &self.counts)?;
        list_live(
            &mut self.occurrences,
            &self.names,
            &self.history,
            &self.live,
        )?;
        self.is_listed = true;
        Ok(())
    }

    /// Forgets the lists, and what else only serves to change clauses, so that its memory is there for what comes then.
    pub fn unlist(&mut self)
        ensures { self.new ≡ self.old }
    {
        let alloc = *self.live.allocator();
        self.is_listed = false;
        self.occurrences = Occurrences::none_in(alloc);
        self.signatures = Vec::new(alloc);
        self.counts = Vec::new(alloc);
        self.touched = Vec::new(alloc);
        self.is_touched = Vec::new(alloc);
    }

    /// How many variables there are.
    pub fn var_count(&self) -> usize
        ensures count { result ≡ self.now.var_count }
        ensures small { result ≤ 2 ^ 31 }
    {
        self.var_count
    }

    /// How many clauses there were.
    pub fn len(&self) -> usize
        ensures count { result ≡ length self.now.clauses }
        ensures even { length self.now.live ≡ length self.now.clauses }
    {
        self.history.len()
    }

    /// Whether the literal's variable may not be resolved away.
    pub fn is_frozen(&self, lit: Lit) -> bool
        ensures { result ≡ slice_index_or self.now.frozen (lit / 2) false }
    {
        match self.frozen.get(lit.index()) {
            Some(flag) => *flag,
            None => false,
        }
    }

    /// Whether the clauses with either literal of an eliminated variable are saved, so that it can be restored.
    pub fn saves_both(&self) -> bool
        ensures { result ≡ self.now.saves_both }
    {
        self.saves_both
    }

    /// How many literals all clauses have that there were.
    pub fn literal_count(&self) -> usize {
        self.history.literal_count()
    }

    /// The short names of the variables.
    pub fn names(&self) -> &ShortNames<A> {
        &self.names
    }

    /// Whether the clause at the place is there and live.
    pub fn is_live(&self, place: usize) -> bool
        ensures { result ≡ slice_index_or self.now.live place false }
    {
        match self.live.get(place) {
            Some(flag) => *flag,
            None => false,
        }
    }

    /// The clause at the place.
    pub fn clause(&self, place: usize) -> &[Lit]
        ensures { result.now ≡ clause_at self.now place }
    {
        if place >= self.history.len() {
            return &[];
        }
        self.history.clause(place)
    }

    /// The variables of the clause at the place, by bits.
    pub fn signature(&self, place: usize) -> u32 {
        match self.signatures.get(place) {
            Some(bits) => *bits,
            None => 0,
        }
    }

    /// How many live clauses have the literal.
    pub fn count(&self, lit: Lit) -> usize {
        count_at(&self.counts, self.names.of(lit))
    }

    /// Places among which each live clause with the literal is. None if the clauses are not listed.
    pub fn places(&self, lit: Lit) -> Option<&[u32]>
        ensures even { length self.now.live ≡ length self.now.clauses }
        ensures all { IfSome result
            (λ places. (k : ℕ) → IsLive self.now k → lit ∈ clause_at self.now k → k ∈ places.now) }
    {
        if !self.is_listed {
            return None;
        }
        let short = self.names.of(lit);
        if short.code() >= self.occurrences.len() {
            return Some(&[]);
        }
        Some(self.occurrences.list(short))
    }

    /// The first index from `first` on of the literal's list where a clause has all the variables of the bits.
    pub fn find_place(&self, lit: Lit, first: usize, bits: u32) -> Option<usize> {
        let places = self.places(lit)?;
        for index in first..places.len() {
            if bits & !self.signature(places[index] as usize) == 0 {
                return Some(index);
            }
        }
        None
    }

    /// A variable whose clauses changed since it was last returned.
    pub fn take_touched(&mut self) -> Option<Var>
        ensures { self.new ≡ self.old }
    {
        let var = self.touched.pop()?;
        if let Some(flag) = self
            .is_touched
            .get_mut(self.names.of(var.positive()).index())
        {
            *flag = false;
        }
        Some(var)
    }

    /// Adds a clause, which is live, and which a checker has already.
    pub fn give(&mut self, clause: &[Lit]) -> Result<(), AllocError>
        ensures { OnOk result (self.new ≡ given self.old clause.now) }
    {
        self.join(clause, true)?;
        Ok(())
    }

    /// Adds a clause, which is live, and a line that adds it. A refused growth changes nothing.
    pub fn push(&mut self, clause: &[Lit]) -> Result<(), AllocError>
        ensures ok { OnOk result (self.new ≡ pushed self.old clause.now) }
        ensures refused { OnErr result (self.new ≡ self.old) }
    {
        self.join(clause, false)?;
        Ok(())
    }

    /// Adds a clause, which is live.
    fn join(&mut self, clause: &[Lit], is_given: bool) -> Result<(), AllocError>
        ensures ok { OnOk result (self.new ≡ given_or_pushed is_given self.old clause.now) }
        ensures refused { OnErr result (self.new ≡ self.old) }
    {
        let place = self.history.len();
        list_clause(
            &mut self.occurrences,
            &self.names,
            clause,
            place,
            self.is_listed,
        )?;
        self.live.reserve(1)?;
        self.signatures.reserve(1)?;
        self.history.push(clause, is_given)?;
        self.live.push_reserved(true);
        sign(self.is_listed, &mut self.signatures, clause);
        note_change(
            self.is_listed,
            &mut self.counts,
            &mut self.touched,
            &mut self.is_touched,
            &self.names,
            clause,
            true,
        );
        Ok(())
    }

    /// Removes the clause at the place, with a line that deletes it, if it is live. A refused growth changes nothing.
    pub fn remove(&mut self, place: usize) -> Result<(), AllocError>
        ensures { OnOk result (self.new ≡ removed self.old place) }
    {
        if !self.is_live(place) || place >= self.history.len() {
            return Ok(());
        }
        self.history.delete(place)?;
        self.live[place] = false;
        note_change(
            self.is_listed,
            &mut self.counts,
            &mut self.touched,
            &mut self.is_touched,
            &self.names,
            self.history.clause(place),
            false,
        );
        Ok(())
    }

    /// Forgets places of the literal where no clause is live, if there are many.
    pub fn tidy(&mut self, lit: Lit)
        ensures { self.new ≡ self.old }
    {
        let short = self.names.of(lit);
        if short.code() >= self.occurrences.len() {
            return;
        }
        let count = self.count(lit).saturating_mul(2).saturating_add(8);
        if self.occurrences.list(short).len() > count {
            self.occurrences.keep(short, &self.live);
        }
    }

    /// Puts a clause on the stack.
    pub fn save(&mut self, clause: &[Lit]) -> Result<(), AllocError>
        ensures ok { OnOk result (self.new ≡ saved self.old clause.now) }
        ensures refused { OnErr result (self.new ≡ self.old) }
    {
        self.stack.push(clause)?;
        Ok(())
    }

    /// Puts the clause at the place on the stack, with a literal in front.
    pub fn save_led(&mut self, lit: Lit, place: usize) -> Result<(), AllocError>
        ensures { OnOk result (self.new ≡ saved self.old (lit ∷ clause_at self.old place)) }
    {
        if place >= self.history.len() {
            return Err(AllocError);
        }
        self.stack.push_led(lit, self.history.clause(place))?;
        Ok(())
    }

    /// The stack, and the clauses and lines that there were.
    pub fn into_parts(self) -> (ClauseList<A>, History<A>)
        ensures stack { result.0 ≡ self.stack }
        ensures lines { result.1.lines ≡ self.lines }
    {
        let Database { stack, history, .. } = self;
        (stack, history)
    }
}
