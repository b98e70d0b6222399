//! How many steps the rounds of a search have whose time is limited, and how far it is after them.
ghost use Rattle.std.specs.Prelude.{◌≤◌};

use crate::watch::{Watch, write_counts};
use std::io::Write;
use std::time::{Clock, CpuClock, Duration};
use varisat_schedule::counters::Counters;

// A round that took fewer milliseconds is followed by one of twice as many steps, and one that took more by one of half as many.
// At the end of each the lines of a proof are flushed.
const SHORT_ROUND: u64 = 25;

const LONG_ROUND: u64 = 100;

/// How many steps the first round has.
const FIRST_ROUND: u64 = 64;

/// How many steps the next round has, how much CPU time was taken when the last one ended, and whether it is shown how far the
/// search is.
#[derive(Clone, Copy)]
pub struct Pace {
    steps: u64,
    now: Duration,
    is_other_second: bool,
    is_shown: bool,
}

impl Pace {
    /// That of the first round, before which so much CPU time was taken.
    pub fn new(now: Duration, is_shown: bool) -> Pace {
        Pace {
            steps: FIRST_ROUND,
            now,
            is_other_second: false,
            is_shown,
        }
    }

    /// How many steps the next round may make, where so many are left: none once the time is spent.
    pub fn next_round<C: Clock + CpuClock>(&self, watch: &Watch<'_, C>, rest: u64) -> u64
        ensures { result ≤ rest }
    {
        if watch.is_spent_at(self.now) {
            return 0;
        }
        rest.min(self.steps)
    }

    /// Notes that a round ended when so much CPU time was taken.
    pub fn end_round(&mut self, now: Duration) {
        let taken = now.saturating_sub(self.now);
        if taken < Duration::from_millis(SHORT_ROUND) {
            self.steps = self.steps.saturating_mul(2);
        } else if taken > Duration::from_millis(LONG_ROUND) {
            self.steps = (self.steps / 2).max(1);
        }
        self.is_other_second = now.as_secs() != self.now.as_secs();
        self.now = now;
    }

    /// Tells how far the search is, once a second, where that is wanted.
    pub fn tell<E: Write>(&self, err: &mut E, steps: u64, counters: &Counters) {
        if !self.is_shown || !self.is_other_second {
            return;
        }
        let Counters {
            conflicts,
            decisions,
            propagations,
            restarts,
            ..
        } = *counters;
        // A writer that fails here leaves nothing to report.
        let _ = writeln!(
            err,
            "c {} s: {steps} steps, {conflicts} conflicts, {decisions} decisions, {propagations} propagations, {restarts} restarts",
            self.now.as_secs()
        );
    }

    /// Tells what was counted in a search that ended, where that is wanted.
    pub fn tell_end<E: Write>(&self, err: &mut E, steps: u64, counters: &Counters) {
        if self.is_shown {
            // A writer that fails here leaves nothing to report.
            let _ = write_counts(err, steps, counters);
        }
    }
}
