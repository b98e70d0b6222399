//! Which variables of a batch of clauses later calls may name, guessed by those that they named of the batch before.
use std::alloc::Allocator;
use std::mem::swap;
use varisat_formula::formula::cnf::CnfFormula;
use varisat_literals::Lit;

/// A model checker gives a circuit a frame at a time, each with as many new variables, and names those at the same
/// places of each frame in the next one. Eliminating them would only have them restored, and leave their resolvents.
#[derive(Drop)]
pub struct Forecast<A: Allocator + Copy> {
    // The new variables of the last batch: those from `first` to below `end`.
    first: usize,
    end: usize,
    // Whether a call named them since, by their places among the new variables.
    named: Vec<bool, A>,
    // The same of the batch before, if that had as many new variables.
    expected: Vec<bool, A>,
}

impl<A: Allocator + Copy> Forecast<A> {
    /// There was no batch yet. It takes no memory.
    pub fn new_in(alloc: A) -> Forecast<A> {
        Forecast {
            first: 0,
            end: 0,
            named: Vec::new(alloc),
            expected: Vec::new(alloc),
        }
    }

    /// The place of the literal's variable among the new ones of the last batch, if it is one.
    fn place_of(&self, lit: Lit) -> Option<usize> {
        if lit.index() >= self.end {
            return None;
        }
        lit.index().checked_sub(self.first)
    }

    /// Notes that the literals are named.
    pub fn note(&mut self, lits: &[Lit]) {
        for lit in lits {
            if let Some(place) = self.place_of(*lit) {
                if let Some(flag) = self.named.get_mut(place) {
                    *flag = true;
                }
            }
        }
    }

    /// Notes that the clauses are named. If they are to be simplified, they are the next batch.
    pub fn note_clauses(&mut self, formula: &CnfFormula<A>, is_batch: bool) {
        for clause in formula.iter() {
            self.note(clause);
        }
        if is_batch {
            self.begin(formula.var_count());
        }
    }

    /// Begins a batch that has variables below this count. If memory runs out, nothing is expected of the one after it.
    fn begin(&mut self, var_count: usize) {
        let before = self.end.saturating_sub(self.first);
        let count = var_count.saturating_sub(self.end);
        swap(&mut self.named, &mut self.expected);
        if count != before {
            self.expected.clear();
        }
        self.first = self.end;
        self.end = self.end.max(var_count);
        self.named.clear();
        let _ = self.named.resize(count, false);
    }

    /// Whether a later call may name the literal's variable.
    pub fn expects(&self, lit: Lit) -> bool {
        let Some(place) = self.place_of(lit) else {
            return false;
        };
        match self.expected.get(place) {
            Some(flag) => *flag,
            None => false,
        }
    }
}
