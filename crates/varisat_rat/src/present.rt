//! Present clauses, and what propagation over them came to.
ghost use Rattle.std.specs.Prelude.{◌≡◌, ◌⊎◌, take, ◌↔◌, ◌++◌, ◌∷◌, ◌<◌, ℕ, [], length, slice_index_or, IfOk, OnOk, OnErr, IsTrue, true, false, MatchOption, Some, None};
ghost use Rattle.varisat_plain.specs.promises.Checking.{IsAbsent, IsClauseStatus};
ghost use Rattle.varisat_plain.specs.declared.propagation.ClauseStatus.TheVariants.{Open};
ghost use Rattle.varisat_theory.specs.promises.Derivations.{TakesOut};
ghost use Rattle.varisat_theory.specs.promises.Held.{without};
ghost use Rattle.varisat_theory.specs.promises.Literals.{Clause, opposites, IsUnit};
ghost use Rattle.varisat_theory.specs.promises.Rat.{ResolventsFollow};
ghost use Rattle.varisat_theory.specs.promises.Membership.{◌∈◌, SameSet};
ghost use Rattle.varisat_theory.specs.promises.Propagation.{Conflicts, Follows, HasClash, IsComplete, IsFalse, LeavesOnly};
ghost use Rattle.varisat_present.specs.Places.{present, present_at};
ghost use Rattle.varisat_present.specs.Pairs.{HaveLiterals};
ghost use Rattle.varisat_present.specs.Knowing.{AreImplied};
ghost use Rattle.varisat_rat.specs.inside.Asking.{IsSpare, Asks, Sees, Keeps, IsPropagatedTo};
ghost use Rattle.varisat_rat.specs.promises.Resolving.{AllConflict, IsForced, IsRatOnSome, IsPivotPlace, IsDeletionOf, IsResolventFound};

use crate::firsts::{UNSEEN, first_of, note_all};
use crate::index::{ClauseIndex, key_of};
use crate::resolvents::{add_others, negated};
use std::alloc::{AllocError, Allocator};
use std::marker::Model;
use varisat_literals::{Lit, Var};
use varisat_plain::propagation::ClauseStatus;
use varisat_present::clause::{holds, is_quiet, status_of};
use varisat_present::guide::Guide;
use varisat_present::known::Known;
use varisat_present::pairs::list_literals;
use varisat_present::places::{clause_at, drop_mentions, find_place, has_clause, is_equal_at};
use varisat_present::propagation::{assume, propagate, saturate};

/// Literals of clauses are chosen anew where one of so many clauses has none.
const FEW: usize = 64;

/// Present clauses, in the order in which they were added. What they imply by propagation alone is kept between calls,
/// so that a question costs in proportion to what is propagated for it. A deletion of the only clause that implied a
/// kept literal, and each new literal that the clauses imply, costs a pass over all clauses.
#[derive(Drop)]
pub struct PresentClauses<A: Allocator + Copy> {
    alloc: A,
    places: Vec<Option<Vec<Lit, A>>, A>,
    /// Literals that the clauses imply.
    known: Known<A>,
    /// Whether propagation came to its end with them.
    is_saturated: bool,
    /// For each of the first places two literals of its clause, which tell whether a pass has to look at it.
    ones: Vec<Lit, A>,
    others: Vec<Lit, A>,
    guide: Guide<A>,
    index: ClauseIndex<A>,
    /// By a literal's code, for those below `PLACE_LIMIT`, a place before which no clause has it.
    firsts: Vec<usize, A>,
    /// The place of the clause for which a clause was not RAT on its first literal, when that was asked last.
    stopper: usize,
}

impl<A: Allocator + Copy> Model for PresentClauses<A> {
    ghost use Rattle.std.specs.Prelude.{List};
    ghost use Rattle.varisat_theory.specs.promises.Literals.{Clause};
    ghost use Rattle.varisat_present.specs.Places.{present};
    ghost use Rattle.varisat_rat.specs.inside.Asking.{Keeps};
    ghost use Rattle.varisat_present.specs.Pairs.{HaveLiterals};
    ghost use Rattle.varisat_rat.specs.promises.Resolving.{AreFirst};

    ghost Value = { List Clause };

    ghost view = { λ p. present p.places.items };

    ghost invariant = { λ p. Keeps p.is_saturated (present p.places.items) p.known × AreFirst p.places.items p.firsts.items
        × HaveLiterals p.places.items p.ones.items × HaveLiterals p.places.items p.others.items };
}

/// The place of a clause that is equal as a set, if the index leads to one.
fn find_indexed<A: Allocator + Copy>(
    alloc: A,
    places: &[Option<Vec<Lit, A>>],
    index: &ClauseIndex<A>,
    clause: &[Lit],
) -> Option<usize>
    ensures { MatchOption result (result ≡ None)
        (λ i. (c : Clause) × (present_at places.now i ≡ Some c) × SameSet c clause.now) }
{
    let mut next = index.first(key_of(clause));
    for _ in 0..index.len() {
        if next == 0 {
            return None;
        }
        let place = next as usize - 1;
        if is_equal_at(alloc, places, place, clause) {
            return Some(place);
        }
        next = index.after(place);
    }
    None
}

/// The place of a clause that is equal as a set.
fn find_equal<A: Allocator + Copy>(
    alloc: A,
    places: &[Option<Vec<Lit, A>>],
    index: &ClauseIndex<A>,
    clause: &[Lit],
) -> Option<usize>
    ensures { MatchOption result (IsAbsent (present places.now) clause.now)
        (λ i. (c : Clause) × (present_at places.now i ≡ Some c) × SameSet c clause.now) }
{
    match find_indexed(alloc, places, index, clause) {
        Some(place) => Some(place),
        None => find_place(alloc, places, clause),
    }
}

/// Whether the index leads to a clause of the literal alone.
fn has_unit<A: Allocator + Copy>(
    alloc: A,
    places: &[Option<Vec<Lit, A>>],
    index: &ClauseIndex<A>,
    literal: Lit,
) -> bool
    ensures { result ≡ true → (c : Clause) × (c ∈ present places.now) × IsUnit literal c }
{
    match find_indexed(alloc, places, index, &[literal]) {
        None => false,
        Some(_) => true,
    }
}

/// Whether propagation is still at its end with a clause more.
fn is_saturated_with<A: Allocator + Copy>(
    is_saturated: bool,
    known: &Known<A>,
    clause: &[Lit],
) -> bool
    ensures { result ≡ true → (is_saturated ≡ true) × IsComplete (clause.now ∷ []) known.now }
{
    if !is_saturated {
        return false;
    }
    is_quiet(known, clause)
}

/// Whether propagation was at its end, and the clause that left the places changed nothing of what they imply.
fn is_spare<A: Allocator + Copy>(
    alloc: A,
    is_saturated: bool,
    places: &[Option<Vec<Lit, A>>],
    index: &ClauseIndex<A>,
    known: &Known<A>,
    clause: &[Lit],
) -> bool
    ensures { result ≡ true → (is_saturated ≡ true) × IsSpare (present places.now) known.now clause.now }
{
    if !is_saturated {
        return false;
    }
    match status_of(known, clause) {
        ClauseStatus::False => false,
        ClauseStatus::Leaves(code) => has_unit(alloc, places, index, Lit::from_code(code as usize)),
        ClauseStatus::Open => true,
    }
}

/// Whether all literals of the clause but one are false.
fn leaves_one<A: Allocator + Copy>(known: &Known<A>, clause: &[Lit]) -> bool
    ensures yes { result ≡ true → (l : ℕ) × (l ∈ clause.now) × LeavesOnly known.now clause.now l }
    ensures no { result ≡ false → IsFalse known.now clause.now ⊎ IsClauseStatus known.now clause.now Open }
{
    match status_of(known, clause) {
        ClauseStatus::Leaves(_) => true,
        ClauseStatus::False => false,
        ClauseStatus::Open => false,
    }
}

/// What becomes of a deletion that may be passed over.
#[derive(Clone, Copy)]
pub enum Deletion {
    /// One clause that is equal as a set was taken out.
    Taken,
    /// It stays, since all literals of it but one are implied to be false: it may be why the last one is implied.
    Kept,
    /// There is none.
    Absent,
}

/// Propagates to the end, unless that was done. Returns whether the clauses conflict.
fn propagate_to_end<A: Allocator + Copy>(
    places: &[Option<Vec<Lit, A>>],
    known: &mut Known<A>,
    guide: &mut Guide<A>,
    ones: &[Lit],
    others: &[Lit],
    is_saturated: bool,
) -> Result<bool, AllocError>
    requires keeps { Keeps is_saturated (present places.now) known.old }
    requires ones { HaveLiterals places.now ones.now }
    requires others { HaveLiterals places.now others.now }
    ensures { IfOk result (λ found. IsPropagatedTo (present places.now) found known.new) }
{
    if is_saturated {
        return Ok(false);
    }
    let found = saturate(places, known, guide, ones, others)?;
    Ok(found)
}

/// Whether propagation from the base conflicts, where literals that the clauses imply are known.
fn ask<A: Allocator + Copy>(
    places: &[Option<Vec<Lit, A>>],
    known: &mut Known<A>,
    guide: &mut Guide<A>,
    base: &[Lit],
) -> Result<bool, AllocError>
    requires no_clash { HasClash known.old → ⊥ }
    requires implied { AreImplied (present places.now) [] known.old }
    ensures { IfOk result (λ found. Asks (present places.now) known.old base.now found known.new) }
{
    let count = known.len();
    let clashes = assume(known, base)?;
    if clashes {
        return Ok(true);
    }
    let conflicts = propagate(places, known, guide, count)?;
    if conflicts {
        return Ok(true);
    }
    let found = saturate(places, known, guide, &[], &[])?;
    Ok(found)
}

/// The same, as far as the guide leads: where it is seen to conflict it does.
fn ask_watches<A: Allocator + Copy>(
    places: &[Option<Vec<Lit, A>>],
    known: &mut Known<A>,
    guide: &mut Guide<A>,
    base: &[Lit],
) -> Result<bool, AllocError>
    requires no_clash { HasClash known.old → ⊥ }
    requires implied { AreImplied (present places.now) [] known.old }
    ensures { IfOk result (λ seen. Sees (present places.now) known.old base.now seen known.new) }
{
    let count = known.len();
    let clashes = assume(known, base)?;
    if clashes {
        return Ok(true);
    }
    let seen = propagate(places, known, guide, count)?;
    Ok(seen)
}

/// Whether propagation conflicts from the base and the opposites of the other literals of the clause at the place, if
/// that has the literal.
fn resolvent_conflicts<A: Allocator + Copy>(
    alloc: A,
    places: &[Option<Vec<Lit, A>>],
    place: usize,
    known: &mut Known<A>,
    guide: &mut Guide<A>,
    base: &[Lit],
    literal: Lit,
) -> Result<bool, AllocError>
    requires no_clash { HasClash known.old → ⊥ }
    requires implied { AreImplied (present places.now) [] known.old }
    ensures { IfOk result (λ found. IsResolventFound places.now place base.now literal known.old found known.new) }
{
    let clause = match clause_at(places, place) {
        None => return Ok(true),
        Some(clause) => clause,
    };
    if !holds(clause, literal) {
        return Ok(true);
    }
    let mut both = Vec::from_slice(alloc, base)?;
    add_others(&mut both, clause, literal)?;
    let found = ask(places, known, guide, &both)?;
    Ok(found)
}

/// Notes where the first clause is for which it is not so.
fn note_stopper(stopper: &mut usize, place: usize) {
    if *stopper == UNSEEN {
        *stopper = place;
    }
}

/// Whether that is so for the clauses at all places, of which those before the first one have not the literal.
fn resolvents_conflict<A: Allocator + Copy>(
    alloc: A,
    places: &[Option<Vec<Lit, A>>],
    known: &mut Known<A>,
    guide: &mut Guide<A>,
    base: &[Lit],
    literal: Lit,
    first: usize,
    stopper: &mut usize,
) -> Result<bool, AllocError>
    requires no_clash { HasClash known.old → ⊥ }
    requires implied { AreImplied (present places.now) [] known.old }
    requires none { AllConflict (present places.now) (present (take first places.now)) base.now literal }
    ensures found { IfOk result
        (λ found. IsTrue found ↔ AllConflict (present places.now) (present places.now) base.now literal) }
    ensures frame { OnOk result (known.new ≡ known.old) }
{
    let count = known.len();
    for place in first..places.len() {
        let found = resolvent_conflicts(alloc, places, place, known, guide, base, literal)?;
        known.cut(count);
        if !found {
            note_stopper(stopper, place);
            return Ok(false);
        }
    }
    Ok(true)
}

impl<A: Allocator + Copy> PresentClauses<A> {
    /// No clauses. It takes no memory.
    pub fn new_in(alloc: A) -> PresentClauses<A>
        ensures { result ≡ [] }
    {
        PresentClauses {
            alloc,
            places: Vec::new(alloc),
            known: Known::new_in(alloc),
            is_saturated: false,
            ones: Vec::new(alloc),
            others: Vec::new(alloc),
            guide: Guide::new_in(alloc),
            index: ClauseIndex::new_in(alloc),
            firsts: Vec::new(alloc),
            stopper: UNSEEN,
        }
    }

    /// How many clauses are present. It takes time in proportion to all that were ever added.
    pub fn len(&self) -> usize
        ensures { result ≡ length self.now }
    {
        let mut count = 0;
        for place in 0..self.places.len() {
            if !has_clause(&self.places, place) {
                continue;
            }
            count += 1;
        }
        count
    }

    /// The literals of a clause. It takes time in proportion to all that were ever added.
    pub fn clause(&self, i: usize) -> &[Lit]
        requires { i < length self.now }
        ensures { result.now ≡ slice_index_or self.now i [] }
    {
        let mut before = 0;
        for place in 0..self.places.len() {
            let clause = match clause_at(&self.places, place) {
                None => continue,
                Some(clause) => clause,
            };
            if before == i {
                return clause;
            }
            before += 1;
        }
        &[]
    }

    /// Adds a clause at the end. On an error the clauses are as before.
    pub fn push(&mut self, clause: &[Lit]) -> Result<(), AllocError>
        ensures ok { OnOk result (self.new ≡ self.old ++ clause.now ∷ []) }
        ensures refused { OnErr result (self.new ≡ self.old) }
    {
        let copy = Vec::from_slice(self.alloc, clause)?;
        note_all(&mut self.firsts, clause, self.places.len())?;
        let is_saturated = is_saturated_with(self.is_saturated, &self.known, clause);
        self.guide.add_clause(&self.places, &self.known, clause)?;
        self.index.add(key_of(clause))?;
        self.places.push(Some(copy))?;
        self.is_saturated = is_saturated;
        Ok(())
    }

    /// Whether a clause is equal as a set.
    pub fn has(&self, clause: &[Lit]) -> bool
        ensures yes { result ≡ true → (c : Clause) × (c ∈ self.now) × SameSet c clause.now }
        ensures no { result ≡ false → IsAbsent self.now clause.now }
    {
        match find_equal(self.alloc, &self.places, &self.index, clause) {
            None => false,
            Some(_) => true,
        }
    }

    /// Takes out one clause that is equal as a set, or returns false where there is none.
    pub fn take_out(&mut self, clause: &[Lit]) -> bool
        ensures taken { result ≡ true → TakesOut self.old clause.now self.new }
        ensures absent { result ≡ false → IsAbsent self.old clause.now }
        ensures stays { result ≡ false → self.new ≡ self.old }
    {
        let place = match find_equal(self.alloc, &self.places, &self.index, clause) {
            None => return false,
            Some(place) => place,
        };
        self.places[place] = None;
        self.guide.forget(place, clause);
        if is_spare(
            self.alloc,
            self.is_saturated,
            &self.places,
            &self.index,
            &self.known,
            clause,
        ) {
            return true;
        }
        self.known.cut(0);
        self.is_saturated = false;
        true
    }

    /// Chooses two literals of each clause anew, if all clauses are to be passed and many were added since.
    fn note_literals(&mut self) -> Result<(), AllocError>
        ensures { self.new ≡ self.old }
    {
        let few = self.places.len() / FEW;
        if self.is_saturated || self.others.len().saturating_add(few) >= self.places.len() {
            return Ok(());
        }
        list_literals(&self.places, &self.known, &[], &mut self.ones)?;
        list_literals(&self.places, &self.known, &self.ones, &mut self.others)?;
        Ok(())
    }

    /// Whether all literals of the clause but one are implied to be false, if the clause is present.
    fn is_forced(&mut self, clause: &[Lit]) -> Result<bool, AllocError>
        ensures yes { IfOk result (λ found. found ≡ true → IsForced self.old clause.now) }
        ensures no { IfOk result
            (λ found. found ≡ false → (Conflicts self.old [] → ⊥) → IsForced self.old clause.now →
            IsAbsent self.old clause.now) }
        ensures frame { self.new ≡ self.old }
    {
        match propagate_to_end(
            &self.places,
            &mut self.known,
            &mut self.guide,
            &self.ones,
            &self.others,
            self.is_saturated,
        ) {
            Ok(found) => {
                self.is_saturated = !found;
                Ok(leaves_one(&self.known, clause))
            }
            Err(error) => {
                self.known.cut(0);
                self.is_saturated = false;
                Err(error)
            }
        }
    }

    /// Takes out one clause that is equal as a set, unless it may be why a literal is implied. Where propagation over
    /// the clauses conflicts any of them may be taken out.
    pub fn take_out_spare(&mut self, clause: &[Lit]) -> Result<Deletion, AllocError>
        ensures told { IfOk result
            (λ deletion. (Conflicts self.old [] → ⊥) → IsDeletionOf self.old clause.now deletion self.new) }
        ensures refused { OnErr result (self.new ≡ self.old) }
    {
        let is_forced = self.is_forced(clause)?;
        if is_forced {
            if self.has(clause) {
                return Ok(Deletion::Kept);
            }
            return Ok(Deletion::Absent);
        }
        if self.take_out(clause) {
            return Ok(Deletion::Taken);
        }
        Ok(Deletion::Absent)
    }

    /// Takes out the clauses with a literal of the variable. It looks at every clause.
    pub fn drop_mentions(&mut self, var: Var)
        ensures { self.new ≡ without var self.old }
    {
        self.guide.forget_mentions(&self.places, var);
        drop_mentions(&mut self.places, var);
        self.known.cut(0);
        self.is_saturated = false;
        self.ones.clear();
        self.others.clear();
    }

    /// Whether unit propagation over the clauses conflicts.
    fn is_refuted(&mut self) -> Result<bool, AllocError>
        ensures found { IfOk result (λ found. IsTrue found ↔ Conflicts self.old []) }
        ensures frame { self.new ≡ self.old }
    {
        match propagate_to_end(
            &self.places,
            &mut self.known,
            &mut self.guide,
            &self.ones,
            &self.others,
            self.is_saturated,
        ) {
            Ok(found) => {
                self.is_saturated = !found;
                Ok(found)
            }
            Err(error) => {
                self.known.cut(0);
                self.is_saturated = false;
                Err(error)
            }
        }
    }

    /// Whether unit propagation over the clauses from the base conflicts.
    pub fn conflicts(&mut self, base: &[Lit]) -> Result<bool, AllocError>
        ensures found { IfOk result (λ found. IsTrue found ↔ Conflicts self.old base.now) }
        ensures frame { self.new ≡ self.old }
    {
        self.note_literals()?;
        let is_refuted = self.is_refuted()?;
        if is_refuted {
            return Ok(true);
        }
        if base.is_empty() {
            return Ok(false);
        }
        let count = self.known.len();
        match ask(&self.places, &mut self.known, &mut self.guide, base) {
            Ok(found) => {
                self.known.cut(count);
                Ok(found)
            }
            Err(error) => {
                self.known.cut(0);
                self.is_saturated = false;
                Err(error)
            }
        }
    }

    /// Whether the clause follows: propagation conflicts once its literals are taken as false.
    pub fn follows(&mut self, clause: &[Lit]) -> Result<bool, AllocError>
        ensures found { IfOk result (λ found. IsTrue found ↔ Follows self.old clause.now) }
        ensures frame { self.new ≡ self.old }
    {
        let base = negated(self.alloc, clause)?;
        let found = self.conflicts(&base)?;
        Ok(found)
    }

    /// Whether the clause is seen to follow, as far as the guide leads. It looks at no other clauses.
    pub fn is_seen_to_follow(&mut self, clause: &[Lit]) -> Result<bool, AllocError>
        ensures seen { IfOk result (λ seen. seen ≡ true → Follows self.old clause.now) }
        ensures frame { self.new ≡ self.old }
    {
        let is_refuted = self.is_refuted()?;
        if is_refuted {
            return Ok(true);
        }
        let base = negated(self.alloc, clause)?;
        let count = self.known.len();
        match ask_watches(&self.places, &mut self.known, &mut self.guide, &base) {
            Ok(seen) => {
                self.known.cut(count);
                Ok(seen)
            }
            Err(error) => {
                self.known.cut(0);
                self.is_saturated = false;
                Err(error)
            }
        }
    }

    /// Whether the clause is RAT on the literal: each clause with the opposite literal follows once the clause's
    /// literals replace that. It looks at every clause from the first one on that may have the opposite.
    fn is_rat_on(&mut self, clause: &[Lit], literal: Lit) -> Result<bool, AllocError>
        ensures found { IfOk result (λ found. IsTrue found ↔ ResolventsFollow self.old clause.now literal) }
        ensures frame { self.new ≡ self.old }
    {
        let is_refuted = self.is_refuted()?;
        if is_refuted {
            return Ok(true);
        }
        let base = negated(self.alloc, clause)?;
        let first = first_of(&self.firsts, !literal);
        match resolvents_conflict(
            self.alloc,
            &self.places,
            &mut self.known,
            &mut self.guide,
            &base,
            !literal,
            first,
            &mut self.stopper,
        ) {
            Ok(found) => Ok(found),
            Err(error) => {
                self.known.cut(0);
                self.is_saturated = false;
                Err(error)
            }
        }
    }

    /// The place of the first literal of the clause on which it is RAT, if there is one.
    pub fn find_pivot(&mut self, clause: &[Lit]) -> Result<Option<usize>, AllocError>
        ensures found { IfOk result
            (λ found. MatchOption found (IsRatOnSome self.old clause.now → ⊥) (IsPivotPlace self.old clause.now)) }
        ensures frame { self.new ≡ self.old }
    {
        self.stopper = UNSEEN;
        for i in 0..clause.len() {
            let is_rat = self.is_rat_on(clause, clause[i])?;
            if is_rat {
                return Ok(Some(i));
            }
        }
        Ok(None)
    }

    /// The clause for which a clause was not RAT on its first literal, when `find_pivot` last found none, as long as it
    /// is present.
    pub fn stopper(&self) -> Option<&[Lit]>
        ensures { MatchOption result (Unit {0}) (λ clause. clause.now ∈ self.now) }
    {
        match clause_at(&self.places, self.stopper) {
            None => None,
            Some(clause) => Some(clause),
        }
    }
}
