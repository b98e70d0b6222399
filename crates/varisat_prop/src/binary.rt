//! The kept clauses of two literals, as what each literal implies by them.
ghost use Rattle.std.specs.Prelude.{◌≡◌, ◌<◌, ◌≤◌, ◌*◌, ◌-◌, ◌++◌, ◌∷◌, [], length, replicate, OnOk, slice_set, slice_index_or};
ghost use Rattle.varisat_theory.specs.promises.Literals.{opposite};
ghost use Rattle.varisat_literals.specs.promises.Numbers.{variable_limit};
ghost use Rattle.varisat_prop.specs.Simplified.{unassigned_implied, without_assigned};

use crate::prop::assignment::Assignment;
use crate::short::{ShortList, has_no_value};
use std::alloc::{AllocError, Allocator};
use std::marker::Model;
use varisat_literals::Lit;

/// For each literal those that it implies by a clause of two literals.
#[derive(Drop)]
pub struct BinaryClauses<A: Allocator + Copy> {
    by_lit: Vec<ShortList<A>, A>,
}

impl<A: Allocator + Copy> Model for BinaryClauses<A> {
    ghost use Rattle.std.specs.Prelude.{List, ℕ};

    ghost Value = { List (List ℕ) };

    ghost view = { λ b. b.by_lit.items };
}

impl<A: Allocator + Copy> BinaryClauses<A> {
    ghost use Rattle.std.specs.Borrow.{sem};
    ghost use Rattle.varisat_prop.specs.Lending.{lends_implied};
    ghost use Rattle.varisat_prop.specs.Pairs.{with_pair, pair_count};

    /// No lists. It takes no memory.
    pub fn new_in(alloc: A) -> BinaryClauses<A>
        ensures { result ≡ [] }
    {
        BinaryClauses {
            by_lit: Vec::new(alloc),
        }
    }

    /// How many lists there are, one for each literal.
    pub fn len(&self) -> usize
        ensures { result ≡ length self.now }
    {
        self.by_lit.len()
    }

    /// One more literal, which implies nothing.
    fn push_list(&mut self) -> Result<(), AllocError>
        ensures { OnOk result (self.new ≡ self.old ++ [] ∷ []) }
    {
        let alloc = *self.by_lit.allocator();
        self.by_lit.push(ShortList::new_in(alloc))?;
        Ok(())
    }

    /// Raises the count of variables. The new ones imply nothing.
    pub fn set_var_count(&mut self, count: usize) -> Result<(), AllocError>
        requires raised { length self.old ≤ 2 * count }
        requires small { count ≤ variable_limit }
        ensures { OnOk result (self.new ≡ self.old ++ replicate (2 * count - length self.old) []) }
    {
        let old_count = self.by_lit.len();
        let mut added = 0;
        'lists: while added < 2 * count - old_count {
            self.push_list()?;
            added += 1;
        }
        Ok(())
    }

    /// The list at the place.
    fn list(&self, place: usize) -> &[Lit]
        requires { place < length self.now }
        ensures { result.now ≡ slice_index_or self.now place [] }
    {
        self.by_lit[place].as_slice()
    }

    /// How many clauses there are.
    pub fn count(&self) -> usize
        ensures { result ≡ pair_count self.now }
    {
        let mut entries: usize = 0;
        'lists: for place in 0..self.len() {
            entries = entries.saturating_add(self.list(place).len());
        }
        // Each clause stands in two lists.
        entries / 2
    }

    /// What the literal implies, to be added to.
    fn implied_mut(&mut self, lit: Lit) -> &mut ShortList<A>
        requires { lit < length self.old }
        ensures* lends { sem 𝓛 (lends_implied A.row A.Allocator self.entry lit result) }
        ensures value { result.now ≡ slice_index_or self.old lit [] }
    {
        &mut self.by_lit[lit.code()]
    }

    /// One more literal that the literal implies.
    fn add_implied(&mut self, lit: Lit, implied: Lit) -> Result<(), AllocError>
        requires { lit < length self.old }
        ensures { OnOk result (self.new ≡ slice_set self.old lit (slice_index_or self.old lit [] ++ implied ∷ [])) }
    {
        self.implied_mut(lit).push(implied)?;
        Ok(())
    }

    /// Keeps the clause of these two literals.
    pub fn add_binary_clause(&mut self, lits: [Lit; 2]) -> Result<(), AllocError>
        requires first { opposite (slice_index_or lits 0 0) < length self.old }
        requires second { opposite (slice_index_or lits 1 0) < length self.old }
        ensures { OnOk result (self.new ≡ with_pair self.old (slice_index_or lits 0 0) (slice_index_or lits 1 0)) }
    {
        let [first, second] = lits;
        self.add_implied(!first, second)?;
        self.add_implied(!second, first)?;
        Ok(())
    }

    /// What the literal implies, in the order of adding.
    pub fn implied(&self, lit: Lit) -> &[Lit]
        requires { lit < length self.now }
        ensures { result.now ≡ slice_index_or self.now lit [] }
    {
        self.list(lit.code())
    }

    /// Reads where the list of the literal stands some time before it is needed, so that it is not waited for then. The number means
    /// nothing.
    #[inline(always)]
    pub(crate) fn prefetch(&self, lit: Lit) -> u32 {
        match self.by_lit.get(lit.code()) {
            Some(list) => list.prefetch(),
            None => 0,
        }
    }

    /// Takes from the literal's list what has a value, and all of it where the literal has one itself.
    fn simplify_list(&mut self, lit: Lit, values: &[Option<bool>])
        requires { lit < length self.old }
        ensures { self.new
            ≡ slice_set self.old lit (unassigned_implied values.now lit (slice_index_or self.old lit [])) }
    {
        let implied = self.implied_mut(lit);
        if has_no_value(values, lit) {
            implied.keep_unassigned(values);
        } else {
            implied.clear();
        }
    }

    /// Drops the clauses with a literal that has a value. It takes no memory.
    pub fn simplify(&mut self, assignment: &Assignment<A>)
        requires { length self.old ≤ 0x2000_0000 }
        ensures { self.new ≡ without_assigned assignment.now.current self.old }
    {
        let values = assignment.assignment();
        for code in 0..self.len() {
            self.simplify_list(Lit::from_code(code), values);
        }
    }
}
