//! What a solver knows of its formula.

/// Whether an assignment satisfies the clauses.
#[derive(Clone, Copy, Debug, PartialEq, Eq)]
pub enum SatState {
    Unknown,
    Sat,
    Unsat,
    UnsatUnderAssumptions,
}

/// The verdict, and what was done so far.
#[derive(Clone, Copy, Debug)]
pub struct SolverState {
    pub sat_state: SatState,
    /// Whether no clause was accepted yet. Kept for callers: the search does not read it.
    pub formula_is_empty: bool,
    /// Whether a search was begun. Kept for callers: the search does not read it.
    pub solver_invoked: bool,
    pub state_is_invalid: bool,
}

impl Default for SatState {
    ghost use Rattle.std.specs.Prelude.{◌≡◌};
    ghost use Rattle.varisat_search.specs.declared.state.SatState.TheVariants.{Unknown};

    ghost is_default = { λ s. s ≡ Unknown };

    /// Unknown.
    fn default() -> SatState {
        SatState::Unknown
    }
}

impl Default for SolverState {
    ghost use Rattle.std.specs.Prelude.{◌≡◌};
    ghost use Rattle.varisat_search.specs.Contexts.{first_state};

    ghost is_default = { λ s. s ≡ first_state };

    /// The state of a solver without clauses.
    fn default() -> SolverState {
        SolverState {
            sat_state: SatState::default(),
            formula_is_empty: true,
            solver_invoked: false,
            state_is_invalid: false,
        }
    }
}

impl SolverState {
    ghost use Rattle.std.specs.Prelude.{◌≡◌, false};
    ghost use Rattle.varisat_search.specs.Steps.{reopened_state};
    ghost use Rattle.varisat_search.specs.AssumptionParts.{assumed_state};

    /// Forgets a model that was found.
    pub fn reopen(&mut self)
        ensures { self.new ≡ record self.old { sat_state = reopened_state self.old.sat_state } }
    {
        if let SatState::Sat = self.sat_state {
            self.sat_state = SatState::Unknown;
        }
    }

    /// Notes that a clause was accepted: a model that was found may not satisfy it.
    pub fn accept_clause(&mut self)
        ensures { self.new
            ≡ record self.old { sat_state = reopened_state self.old.sat_state; formula_is_empty = false } }
    {
        self.reopen();
        self.formula_is_empty = false;
    }

    /// Notes that other literals are assumed: what was found under the earlier ones says nothing of these.
    pub fn assume(&mut self)
        ensures { self.new ≡ record self.old { sat_state = assumed_state self.old.sat_state } }
    {
        if let SatState::Unsat = self.sat_state {
            return;
        }
        self.sat_state = SatState::Unknown;
    }
}
