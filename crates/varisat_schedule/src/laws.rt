//! When a search restarts by its schedule, and how many steps a call makes.
ghost use Rattle.varisat_schedule.specs.Plans.{RestartsAreAtPoints, FirstRestartsAreAtSums};
ghost use Rattle.varisat_schedule.specs.CallSteps.{BeginsAnywhere, GoesOnWithout, TrailMayGrow, UnitsMayLeave, IsShortWithout, LargeBudgetIsNotSpent};

/// At one scale the restarts are at the restart points of a call, also where the scale was another before.
pub fn restarts_are_at_points()
    ensures { RestartsAreAtPoints }
{}

/// From the first step on they are at 0 and the partial sums of the scale times the terms.
pub fn first_restarts_are_at_sums()
    ensures { FirstRestartsAreAtSums }
{}

/// A budget of so many steps is never spent.
pub fn large_budget_is_not_spent()
    ensures { LargeBudgetIsNotSpent }
{}

/// Counting may begin at any moment.
pub fn begins_anywhere()
    ensures { BeginsAnywhere }
{}

/// Each step is counted where units have left.
pub fn goes_on_without()
    ensures { GoesOnWithout }
{}

/// What is propagated between steps raises the rank or keeps it.
pub fn trail_may_grow()
    ensures { TrailMayGrow }
{}

/// Units that leave are counted in front of the trail, so that the rank stays.
pub fn units_may_leave()
    ensures { UnitsMayLeave }
{}

/// So many interrupted calls make fewer than (n+2)*2^(n+2) steps together, and so than 2^(2n+3).
pub fn is_short_without()
    ensures { IsShortWithout }
{}
