//! Who takes solutions as they are found.
ghost use Rattle.std.specs.Prelude.{List, [], ◌∷◌};
ghost use Rattle.varisat_maxsat.specs.promises.Problems.{Found, IsStopped};

/// Takes each solution that costs less than those before it, at once.
pub trait SolutionSink {
    /// It took these solutions, the last one first, and is left as the other one.
    ghost takes: { Self → List Found → Self → Type 0 };

    /// Takes a solution, and returns whether the search is to go on.
    fn take(&mut self, cost: u64, values: &[bool]) -> bool
        ensures { (x : Self) (found : List Found) → takes x found self.old →
            takes x (record { cost = cost; values = values.now; goes_on = result } ∷ found) self.new };

    /// No solution leaves it as it is.
    ghost takes_none: { (x : Self) → takes x [] x };
}

/// Takes no solution, and never ends the search.
#[derive(Clone, Copy)]
pub struct NoSink;

impl SolutionSink for NoSink {
    ghost takes = { λ _ found _. IsStopped found → ⊥ };

    fn take(&mut self, _cost: u64, _values: &[bool]) -> bool {
        true
    }

    ghost takes_none = { λ _ none. none };
}
