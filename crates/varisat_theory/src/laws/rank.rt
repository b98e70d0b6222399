//! The rank of a trail, and the number of steps of a call.

ghost use Rattle.varisat_theory.specs.inside.Laws.{BoundIsAPower, CallIsBounded, DistinctIsShort, IntervalsAreBounded, ProgressIsBounded, RankIsBounded, RankRises, RanksAreSteady, RisingIsShort, StepRaisesRank, UnitsComeFirst};

/// A trail's rank is below 2^(n+1).
pub fn rank_is_bounded()
    ensures { RankIsBounded }
{}

/// An implied literal in a decision's place raises the rank.
pub fn rank_rises()
    ensures { RankRises }
{}

/// Which of two ranks is greater does not depend on the number of variables.
pub fn ranks_are_steady()
    ensures { RanksAreSteady }
{}

/// A conflict step raises the rank.
pub fn step_raises_rank()
    ensures { StepRaisesRank }
{}

/// Units that were removed are counted in front.
pub fn units_come_first()
    ensures { UnitsComeFirst }
{}

/// Steps that raise the rank are at most as many as it.
pub fn rising_is_short()
    ensures { RisingIsShort }
{}

/// A list of different elements is no longer than one that holds them.
pub fn distinct_is_short()
    ensures { DistinctIsShort }
{}

/// Intervals of the sequence that are all short are short together.
pub fn intervals_are_bounded()
    ensures { IntervalsAreBounded }
{}

/// A call makes fewer than (n+2) * 2^(n+2) steps.
pub fn call_is_bounded()
    ensures { CallIsBounded }
{}

/// So does a loop of steps that keeps its progress.
pub fn progress_is_bounded()
    ensures { ProgressIsBounded }
{}

/// That is at most 2^(2n+3).
pub fn bound_is_a_power()
    ensures { BoundIsAPower }
{}
