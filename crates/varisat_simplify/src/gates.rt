//! Gates that clauses define, and keys by which those of the same kind and inputs are found: their outputs are equal.

use crate::limits::Limits;
use crate::pairs::Pairs;
use crate::tables::{by_literal, code_of, entry, place_count, put};
use std::alloc::{AllocError, Allocator};
use varisat_database::clauses::ClauseList;
use varisat_database::database::Database;
use varisat_literals::{Lit, Var};

/// No gate has more inputs.
const MOST_INPUTS: usize = 50;

/// If a literal is in more clauses of three literals, no choice is looked for whose output it is.
const MOST_TRIPLES: usize = 40;

/// The sets of signs of the clauses by which the parity of four variables is odd, and even: a bit for each set, which
/// has a bit for each negative literal.
const ODD: u32 = 0x9669;

const EVEN: u32 = 0x6996;

/// What the output of a gate is.
#[derive(Clone, Copy)]
pub enum Kind {
    /// Whether all inputs are true.
    And,
    /// The second input if the first is true, and else the third.
    Choice,
    /// Whether an odd number of the inputs, which are two or three, are true.
    Parity,
}

/// The number of the kind.
fn number_of_kind(kind: Kind) -> u8 {
    match kind {
        Kind::And => 0,
        Kind::Choice => 1,
        Kind::Parity => 2,
    }
}

/// The gates that were found.
#[derive(Drop)]
pub struct Gates<A: Allocator + Copy> {
    /// The output of each gate, then its inputs.
    list: ClauseList<A>,
    kinds: Vec<Kind, A>,
    /// A number for the kind and the inputs of each gate, and behind it the index of the gate.
    keys: Vec<u64, A>,
    /// For each literal the last number of a set of literals that it was in.
    marks: Vec<u32, A>,
    /// The last number of a set.
    last: u32,
    inputs: Vec<u32, A>,
    gate: Vec<Lit, A>,
    pairs: Vec<u64, A>,
    halves: Vec<u64, A>,
}

/// Two literals in one number.
fn pair_of(one: Lit, other: Lit) -> u64 {
    (one.code() as u64) * 0x1_0000_0000 + (other.code() as u64)
}

/// The first literal of a pair.
fn first_of(pair: u64) -> Lit {
    Lit::from_code((pair / 0x1_0000_0000) as usize)
}

/// The second literal of a pair.
fn second_of(pair: u64) -> Lit {
    Lit::from_code((pair % 0x1_0000_0000) as usize)
}

/// The two other literals of the clause at the place, if it is live, has this one and two others.
fn other_two<A: Allocator + Copy>(db: &Database<A>, place: usize, lit: Lit) -> Option<(Lit, Lit)> {
    if !db.is_live(place) {
        return None;
    }
    let [one, two, three] = db.clause(place) else {
        return None;
    };
    if one.code() == lit.code() {
        return Some((*two, *three));
    }
    if two.code() == lit.code() {
        return Some((*one, *three));
    }
    if three.code() == lit.code() {
        return Some((*one, *two));
    }
    None
}

/// A number for the kind and the inputs, below 2^32.
fn hash_of(kind: u8, inputs: &[u32]) -> u64 {
    let mut hash: u64 = kind as u64;
    for code in inputs {
        hash = (hash ^ (*code as u64)) % 0x1_0000_0000;
        hash = hash * 0x9e37_79b1;
        hash ^= hash / 0x1_0000;
    }
    hash % 0x1_0000_0000
}

/// The bit of the variable among the inputs, each a literal's code, or the bit after theirs if it is the output's.
fn bit_of(inputs: &[u32], output: Lit, var: Var) -> Option<u32> {
    if output.index() == var.index() {
        return Some((inputs.len() % 4) as u32);
    }
    for index in 0..inputs.len() {
        if inputs[index] as usize / 2 == var.index() {
            return Some((index % 4) as u32);
        }
    }
    None
}

/// A bit for each negative literal of the clause, if its variables are those of the inputs and the output.
fn signs_of(inputs: &[u32], output: Lit, clause: &[Lit]) -> Option<u32> {
    if clause.len() != inputs.len().saturating_add(1) {
        return None;
    }
    let mut signs: u32 = 0;
    for lit in clause {
        let bit = bit_of(inputs, output, lit.var())?;
        if lit.is_negative() {
            signs |= 1u32 << (bit % 4);
        }
    }
    Some(signs % 16)
}

/// The sets of signs of the live clauses with the literal whose variables are those of the inputs and the literal.
fn signs_with<A: Allocator + Copy>(db: &Database<A>, inputs: &[u32], lit: Lit) -> u32 {
    let mut seen: u32 = 0;
    let Some(places) = db.places(lit) else {
        return 0;
    };
    for place in places {
        if db.is_live(*place as usize) {
            if let Some(signs) = signs_of(inputs, lit, db.clause(*place as usize)) {
                seen |= 1u32 << (signs % 16);
            }
        }
    }
    seen
}

/// Whether the clause has four literals, of which those beside the one have the same sign.
fn is_parity_base(clause: &[Lit], lit: Lit) -> bool {
    if clause.len() != 4 {
        return false;
    }
    let mut negative: usize = 0;
    for one in clause {
        if one.code() != lit.code() && one.is_negative() {
            negative = negative.saturating_add(1);
        }
    }
    negative == 0 || negative == 3
}

impl<A: Allocator + Copy> Gates<A> {
    /// No gates.
    pub fn new_in(alloc: A, db: &Database<A>) -> Result<Gates<A>, AllocError> {
        Ok(Gates {
            list: ClauseList::new_in(alloc),
            kinds: Vec::new(alloc),
            keys: Vec::new(alloc),
            marks: by_literal(alloc, db)?,
            last: 0,
            inputs: Vec::new(alloc),
            gate: Vec::new(alloc),
            pairs: Vec::new(alloc),
            halves: Vec::new(alloc),
        })
    }

    /// Brings gates of the same kind and inputs side by side.
    pub fn sort(&mut self) {
        self.keys.as_mut_slice().sort_unstable();
    }

    /// How many gates there are.
    pub fn len(&self) -> usize {
        self.keys.len()
    }

    /// The key at the index.
    pub fn key(&self, index: usize) -> u64 {
        match self.keys.get(index) {
            Some(key) => *key,
            None => 0,
        }
    }

    /// Whether the keys beside the one at the index are of other inputs.
    pub fn is_alone(&self, index: usize) -> bool {
        let inputs = self.key(index) / 0x1_0000_0000;
        let is_first = index == 0 || self.key(index - 1) / 0x1_0000_0000 != inputs;
        is_first && self.key(index.saturating_add(1)) / 0x1_0000_0000 != inputs
    }

    /// The gate of the key: its output, then its inputs.
    pub fn of_key(&self, key: u64) -> &[Lit] {
        let index = (key % 0x1_0000_0000) as usize;
        if index >= self.list.len() {
            return &[];
        }
        self.list.clause(index)
    }

    /// The kind of the key's gate.
    pub fn kind_of_key(&self, key: u64) -> Kind {
        match self.kinds.get((key % 0x1_0000_0000) as usize) {
            Some(kind) => *kind,
            None => Kind::And,
        }
    }

    /// Adds a gate with the listed inputs.
    fn add(&mut self, kind: Kind, output: Lit) -> Result<(), AllocError> {
        self.gate.clear();
        self.gate.push(output)?;
        for code in &self.inputs {
            self.gate.push(Lit::from_code(*code as usize))?;
        }
        let index = self.list.len() as u64 % 0x1_0000_0000;
        let key = hash_of(number_of_kind(kind), &self.inputs) % 0x1_0000_0000 * 0x1_0000_0000;
        self.list.push(&self.gate)?;
        self.kinds.push(kind)?;
        self.keys.push(key + index)?;
        Ok(())
    }

    /// Marks the literals that the literal implies by clauses of two. Returns how many there are.
    fn mark_implied(&mut self, db: &Database<A>, pairs: &Pairs<A>, lit: Lit) -> usize {
        self.last = self.last.saturating_add(1);
        let mut count: usize = 0;
        let Some(places) = db.places(!lit) else {
            return 0;
        };
        for place in places {
            if let Some(other) = pairs.other(db, *place as usize, !lit) {
                put(&mut self.marks, code_of(db, other), self.last);
                count = count.saturating_add(1);
            }
        }
        count
    }

    /// Lists the opposites of the other literals of the clause as inputs, if each is marked.
    fn list_marked(
        &mut self,
        db: &Database<A>,
        place: usize,
        lit: Lit,
    ) -> Result<bool, AllocError> {
        self.inputs.clear();
        for one in db.clause(place) {
            if one.code() != lit.code() {
                if entry(&self.marks, code_of(db, !*one)) != self.last {
                    return Ok(false);
                }
                self.inputs.push((!*one).code() as u32)?;
            }
        }
        self.inputs.as_mut_slice().sort_unstable();
        Ok(true)
    }

    /// Adds the gates whose output, the literal, is whether all inputs are true.
    fn find_ands(
        &mut self,
        db: &Database<A>,
        pairs: &Pairs<A>,
        lit: Lit,
    ) -> Result<(), AllocError> {
        let most = self.mark_implied(db, pairs, lit);
        if most < 2 {
            return Ok(());
        }
        let Some(places) = db.places(lit) else {
            return Ok(());
        };
        for place in places {
            let place = *place as usize;
            if !pairs.has(place) && db.is_live(place) {
                let length = db.clause(place).len();
                let may_be = length > 2 && length <= MOST_INPUTS.min(most).saturating_add(1);
                if may_be && self.list_marked(db, place, lit)? {
                    self.add(Kind::And, lit)?;
                }
            }
        }
        Ok(())
    }

    /// Lists the other two literals of each clause of three with the literal, in both orders. Returns false if there
    /// are too many.
    fn list_pairs(
        &mut self,
        db: &Database<A>,
        pairs: &Pairs<A>,
        lit: Lit,
    ) -> Result<bool, AllocError> {
        self.pairs.clear();
        let Some(places) = db.places(lit) else {
            return Ok(false);
        };
        for place in places {
            let place = *place as usize;
            if !pairs.has(place) {
                if let Some((one, other)) = other_two(db, place, lit) {
                    if self.pairs.len() >= 2 * MOST_TRIPLES {
                        return Ok(false);
                    }
                    self.pairs.push(pair_of(one, other))?;
                    self.pairs.push(pair_of(other, one))?;
                }
            }
        }
        self.pairs.as_mut_slice().sort_unstable();
        Ok(!self.pairs.is_empty())
    }

    /// Lists a literal and one that it makes equal to the literal `lit`, if the pair of the two is listed.
    fn list_half(&mut self, when: Lit, then: Lit) -> Result<(), AllocError> {
        if self.pairs.binary_search(&pair_of(!when, !then)).is_ok() {
            self.halves.push(pair_of(when, then))?;
        }
        Ok(())
    }

    /// Lists each literal and what it makes equal to the literal `lit`, by two clauses of three. Returns false if there
    /// is none, or too many.
    fn list_halves(
        &mut self,
        db: &Database<A>,
        pairs: &Pairs<A>,
        lit: Lit,
    ) -> Result<bool, AllocError> {
        self.halves.clear();
        if !self.list_pairs(db, pairs, lit)? {
            return Ok(false);
        }
        let Some(places) = db.places(!lit) else {
            return Ok(false);
        };
        let mut count: usize = 0;
        for place in places {
            let place = *place as usize;
            if !pairs.has(place) {
                if let Some((one, other)) = other_two(db, place, !lit) {
                    count = count.saturating_add(1);
                    if count > MOST_TRIPLES {
                        return Ok(false);
                    }
                    self.list_half(!one, other)?;
                    self.list_half(!other, one)?;
                }
            }
        }
        self.halves.as_mut_slice().sort_unstable();
        Ok(self.halves.len() > 1)
    }

    /// Adds the gate whose output, the literal, is `then` if `when` is true, and else `other`.
    fn add_choice(&mut self, lit: Lit, when: Lit, then: Lit, other: Lit) -> Result<(), AllocError> {
        self.inputs.clear();
        self.inputs.push(when.code() as u32)?;
        if then.code() == (!other).code() {
            let input = then.var().positive();
            if when.code() < input.code() {
                self.inputs.push(input.code() as u32)?;
                self.add(Kind::Parity, if then.is_positive() { !lit } else { lit })?;
            }
            return Ok(());
        }
        let is_flipped = then.is_negative();
        for input in [then, other] {
            let input = if is_flipped { !input } else { input };
            self.inputs.push(input.code() as u32)?;
        }
        self.add(Kind::Choice, if is_flipped { !lit } else { lit })?;
        Ok(())
    }

    /// Adds the gate that the halves at the two indices make, if they have the same literal first, once with each sign. Returns
    /// whether they have the same variable first.
    fn join_halves(&mut self, lit: Lit, i: usize, j: usize) -> Result<bool, AllocError> {
        let (Some(one), Some(two)) = (self.halves.get(i), self.halves.get(j)) else {
            return Ok(false);
        };
        let (when, then) = (first_of(*one), second_of(*one));
        let (unless, other) = (first_of(*two), second_of(*two));
        if when.index() != unless.index() {
            return Ok(false);
        }
        let is_choice = unless.code() == (!when).code()
            && then.code() != other.code()
            && then.index() != when.index()
            && other.index() != when.index();
        if is_choice {
            self.add_choice(lit, when, then, other)?;
        }
        Ok(true)
    }

    /// Adds the gates whose output, the literal, is one of two others, as a third decides.
    fn find_choices(
        &mut self,
        db: &Database<A>,
        pairs: &Pairs<A>,
        lit: Lit,
    ) -> Result<(), AllocError> {
        if !self.list_halves(db, pairs, lit)? {
            return Ok(());
        }
        for i in 0..self.halves.len() {
            for j in i + 1..self.halves.len() {
                if !self.join_halves(lit, i, j)? {
                    break;
                }
            }
        }
        Ok(())
    }

    /// Lists the variables of the other literals of the clause at the place as inputs.
    fn list_inputs(&mut self, db: &Database<A>, place: usize, lit: Lit) -> Result<(), AllocError> {
        self.inputs.clear();
        for one in db.clause(place) {
            if one.code() != lit.code() {
                self.inputs.push(one.var().positive().code() as u32)?;
            }
        }
        self.inputs.as_mut_slice().sort_unstable();
        Ok(())
    }

    /// Adds the gates of three inputs whose output, the literal or its opposite, is their parity.
    fn find_parities(
        &mut self,
        db: &Database<A>,
        pairs: &Pairs<A>,
        lit: Lit,
        limits: &mut Limits,
    ) -> Result<(), AllocError> {
        let Some(places) = db.places(lit) else {
            return Ok(());
        };
        let count = places.len().saturating_add(place_count(db, !lit));
        for place in places {
            let place = *place as usize;
            if !pairs.has(place) && db.is_live(place) && is_parity_base(db.clause(place), lit) {
                if !limits.visit(count) {
                    return Ok(());
                }
                self.list_inputs(db, place, lit)?;
                let seen = signs_with(db, &self.inputs, lit) | signs_with(db, &self.inputs, !lit);
                if seen & ODD == ODD {
                    self.add(Kind::Parity, !lit)?;
                }
                if seen & EVEN == EVEN {
                    self.add(Kind::Parity, lit)?;
                }
            }
        }
        Ok(())
    }

    /// Adds the gates whose output is the variable or its negation, if places may be looked at.
    pub fn find(
        &mut self,
        db: &Database<A>,
        pairs: &Pairs<A>,
        var: Var,
        limits: &mut Limits,
    ) -> Result<(), AllocError> {
        let lit = var.positive();
        let count = db.count(lit).saturating_add(db.count(!lit));
        if !limits.visit(count.saturating_mul(2)) {
            return Ok(());
        }
        self.find_ands(db, pairs, lit)?;
        self.find_ands(db, pairs, !lit)?;
        self.find_choices(db, pairs, lit)?;
        self.find_parities(db, pairs, lit, limits)?;
        Ok(())
    }
}
