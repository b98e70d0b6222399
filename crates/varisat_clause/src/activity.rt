//! The activities of the clauses, in whole numbers.
//!
//! A bump raises a clause's activity by the increment, and a decay raises the increment. Before numbers come near to
//! 2^32 all are shifted, so that their order stays.
ghost use Rattle.std.specs.Prelude.{◌≡◌, ◌+◌, ◌*◌, ◌/◌, ◌^◌, ◌<◌, ◌≤◌, max, true, false};
ghost use Rattle.varisat_clause.specs.Stored.{IsClauseRef};
ghost use Rattle.varisat_clause.specs.Stores.{stored_clauses, IsSound, RewritesClauses, RewritesHeaderAt};
ghost use Rattle.varisat_clause.specs.ClauseActivities.{ActivityScale, least_clause_increment, clause_activity_limit, first_scale, AreWithinClauseLimits, clauses_shifted, clauses_rescaled, scale_rescaled, reaches_clause_limit, scored, reaches_limit_at, RaisesActivity, RaisesAndShifts, increment_decayed, scale_decayed};

use crate::alloc::{ClauseAlloc, ClauseRef};
use std::alloc::Allocator;
use std::marker::Model;

/// What a bump adds at first, and never less.
const LEAST_INCREMENT: u32 = 1 << 10;

/// Where an activity or the increment reaches it, all are shifted.
const ACTIVITY_LIMIT: u64 = 1 << 28;

/// What is noted of the activities as a whole: what a bump adds, and the decay in thousandths.
#[derive(Clone, Copy)]
pub struct ClauseActivity {
    increment: u32,
    decay: u32,
}

impl Model for ClauseActivity {
    ghost use Rattle.varisat_clause.specs.ClauseActivities.{ActivityScale, AreWithinClauseLimits};

    ghost Value = { ActivityScale };

    ghost view = { λ a. record { increment = a.increment; decay = a.decay } };

    ghost inverse = { λ a. record { increment = a.increment; decay = a.decay } };

    ghost invariant = { λ a. AreWithinClauseLimits a.increment a.decay };
}

impl Default for ClauseActivity {
    ghost use Rattle.std.specs.Prelude.{◌≡◌};
    ghost use Rattle.varisat_clause.specs.ClauseActivities.{first_scale};

    ghost is_default = { λ a. a ≡ first_scale };

    /// As `new`.
    fn default() -> ClauseActivity {
        ClauseActivity::new()
    }
}

impl ClauseActivity {
    /// The least increment, and a decay of 999 thousandths.
    pub fn new() -> ClauseActivity
        ensures { result ≡ first_scale }
    {
        ClauseActivity {
            increment: LEAST_INCREMENT,
            decay: 999,
        }
    }

    /// Sets what each decay leaves of the activities, in thousandths.
    pub fn set_decay(&mut self, decay: u32)
        requires least { 500 ≤ decay }
        requires most { decay ≤ 999 }
        ensures { self.new ≡ record self.old { decay = decay } }
    {
        self.decay = decay;
    }

    /// What a bump adds.
    pub fn increment(&self) -> u32
        ensures increment { result ≡ self.now.increment }
        ensures limits { AreWithinClauseLimits self.now.increment self.now.decay }
    {
        self.increment
    }

    /// The increment after a decay.
    fn decayed(&self) -> u64
        ensures decayed { result ≡ increment_decayed self.now }
        ensures least { least_clause_increment ≤ result }
        ensures small { result < 2 ^ 30 }
    {
        self.increment as u64 * 1000 / self.decay as u64
    }

    /// Sets the increment.
    fn set_increment(&mut self, increment: u32)
        requires least { least_clause_increment ≤ increment }
        requires small { increment < clause_activity_limit }
        ensures { self.new ≡ record self.old { increment = increment } }
    {
        self.increment = increment;
    }
}

/// The increment shifted right by 16, but no less than the least.
fn shifted_increment(increment: u64) -> u32
    requires { increment < 2 ^ 30 }
    ensures { result ≡ max least_clause_increment (increment / 2 ^ 16) }
{
    LEAST_INCREMENT.max((increment >> 16) as u32)
}

/// Shifts the activities of all clauses right by 16.
fn rescale<A: Allocator + Copy>(alloc: &mut ClauseAlloc<A>)
    requires { IsSound alloc.old }
    ensures { RewritesClauses alloc.old alloc.new clauses_shifted }
{
    'clauses: for index in 0..alloc.len() {
        let cref = alloc.place(index);
        let mut header = alloc.header(cref);
        header.set_activity(header.activity() >> 16);
        alloc.set_header(cref, header);
    }
}

/// Sets the activity of the clause.
fn set_activity<A: Allocator + Copy>(alloc: &mut ClauseAlloc<A>, cref: ClauseRef, activity: u32)
    requires sound { IsSound alloc.old }
    requires place { IsClauseRef (stored_clauses alloc.old) cref }
    ensures { RewritesHeaderAt alloc.old alloc.new cref (λ header. record header { activity = activity }) }
{
    let mut header = alloc.header(cref);
    header.set_activity(activity);
    alloc.set_header(cref, header);
}

/// Raises the activity of the clause by the increment. Where it reaches the limit, all activities and the increment are
/// shifted.
pub fn bump_clause_activity<A: Allocator + Copy>(
    alloc: &mut ClauseAlloc<A>,
    activity: &mut ClauseActivity,
    cref: ClauseRef,
)
    requires sound { IsSound alloc.old }
    requires place { IsClauseRef (stored_clauses alloc.old) cref }
    ensures raised { reaches_limit_at cref (scored alloc.old activity.old) ≡ false →
        RaisesActivity alloc.old alloc.new activity.old cref }
    ensures shifted { reaches_limit_at cref (scored alloc.old activity.old) ≡ true →
        RaisesAndShifts alloc.old alloc.new activity.old cref }
    ensures scale { activity.new ≡ scale_rescaled (reaches_limit_at cref (scored alloc.old activity.old)) activity.old }
{
    let increment = activity.increment();
    let value = alloc.header(cref).activity() as u64 + increment as u64;
    if value < ACTIVITY_LIMIT {
        set_activity(alloc, cref, value as u32);
    } else {
        rescale(alloc);
        set_activity(alloc, cref, (value >> 16) as u32);
        activity.set_increment(shifted_increment(increment as u64));
    }
}

/// Makes what later bumps add greater in proportion to what earlier ones have added. Where the increment reaches the
/// limit, it and all activities are shifted.
pub fn decay_clause_activities<A: Allocator + Copy>(
    alloc: &mut ClauseAlloc<A>,
    activity: &mut ClauseActivity,
)
    requires { IsSound alloc.old }
    ensures clauses { RewritesClauses alloc.old alloc.new
        (clauses_rescaled (reaches_clause_limit (increment_decayed activity.old))) }
    ensures scale { activity.new
        ≡ scale_rescaled (reaches_clause_limit (increment_decayed activity.old)) (scale_decayed activity.old) }
{
    let increment = activity.decayed();
    if increment < ACTIVITY_LIMIT {
        activity.set_increment(increment as u32);
    } else {
        rescale(alloc);
        activity.set_increment(shifted_increment(increment));
    }
}
