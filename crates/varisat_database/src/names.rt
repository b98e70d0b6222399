//! Short names for the variables of a formula that names few of many, so that tables stay small.
ghost use Rattle.std.specs.Prelude.{◌≡◌};
ghost use Rattle.varisat_database.specs.Names.{short_of};

use crate::database::filled;
use std::alloc::{AllocError, Allocator};
use std::marker::Model;
use varisat_formula::formula::cnf::CnfFormula;
use varisat_literals::{Lit, Var};

/// More short names than there may be.
const MOST_NAMES: usize = 0x8000_0000;

/// A variable for each variable. One that has none stands for itself. Two may have the same: lists that they share are
/// longer.
#[derive(Drop)]
pub struct ShortNames<A: Allocator + Copy> {
    of_var: Vec<Var, A>,
    count: usize,
}

impl<A: Allocator + Copy> Model for ShortNames<A> {
    ghost use Rattle.std.specs.Prelude.{List, ℕ};

    ghost Value = { List ℕ };

    ghost view = { λ n. n.of_var.items };
}

impl<A: Allocator + Copy> ShortNames<A> {
    /// Each of so many variables stands for itself. It takes no memory.
    pub fn same_in(alloc: A, count: usize) -> ShortNames<A> {
        ShortNames {
            of_var: Vec::new(alloc),
            count,
        }
    }

    /// Names from 1 on for the variables of the formula, of which there are so many up to the highest. Where that is no
    /// more than the formula has literals, each stands for itself: a table of all takes no more memory than the clauses.
    pub fn of_formula(
        alloc: A,
        formula: &CnfFormula<A>,
        count: usize,
        literals: usize,
    ) -> Result<ShortNames<A>, AllocError> {
        if count <= literals {
            return Ok(ShortNames::same_in(alloc, count));
        }
        let mut names = ShortNames {
            of_var: filled(alloc, count, Var::from_index(0))?,
            count: 1,
        };
        for clause in formula.iter() {
            names.add(clause);
        }
        Ok(names)
    }

    /// Names the variables of the clause that have no name yet.
    fn add(&mut self, clause: &[Lit]) {
        for lit in clause {
            if let Some(var) = self.of_var.get_mut(lit.index()) {
                if var.index() == 0 && self.count < MOST_NAMES {
                    *var = Var::from_index(self.count);
                    self.count += 1;
                }
            }
        }
    }

    /// How many short names there are.
    pub fn len(&self) -> usize {
        self.count
    }

    /// The literal under its variable's short name.
    pub fn of(&self, lit: Lit) -> Lit
        ensures { result ≡ short_of self.now lit }
    {
        let var = match self.of_var.get(lit.index()) {
            Some(var) => *var,
            None => lit.var(),
        };
        var.lit(lit.is_positive())
    }
}
