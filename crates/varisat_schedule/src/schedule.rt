//! The schedule of a search: how many steps were made, and when it restarts next.
ghost use Rattle.std.specs.Prelude.{◌≡◌, ◌-◌, ◌^◌, ◌<◌, ◌↔◌, IsTrue, suc};
ghost use Rattle.varisat_schedule.specs.Plans.{IsPlan, IsDue, first_plan, step_begun};

use crate::luby::LubySequence;
use std::marker::Model;

/// How many steps a search made, and the number of the step that begins with the next restart. It takes no memory.
#[derive(Debug, Drop)]
pub struct Schedule {
    steps: u64,
    next_restart: u64,
    luby: LubySequence,
}

impl Model for Schedule {
    ghost use Rattle.varisat_schedule.specs.Plans.{Plan, IsPlan};

    ghost Value = { Plan };

    ghost view = { λ s. record { steps = s.steps; next_restart = s.next_restart; next_term = s.luby } };

    ghost invariant = { λ s. IsPlan (record { steps = s.steps; next_restart = s.next_restart; next_term = s.luby }) };
}

impl Default for Schedule {
    ghost use Rattle.std.specs.Prelude.{◌≡◌};
    ghost use Rattle.varisat_schedule.specs.Plans.{first_plan};

    ghost is_default = { λ s. s ≡ first_plan };

    /// The schedule of a search that made no step.
    fn default() -> Schedule {
        Schedule::new()
    }
}

impl Schedule {
    /// No step was made, and the first begins with a restart.
    pub fn new() -> Schedule
        ensures { result ≡ first_plan }
    {
        Schedule {
            steps: 0,
            next_restart: 0,
            luby: LubySequence::new(),
        }
    }

    /// How many steps were made.
    pub fn steps(&self) -> u64
        ensures steps { result ≡ self.now.steps }
        ensures plan { IsPlan self.now }
    {
        self.steps
    }

    /// How many steps there are from here to the next that begins with a restart.
    pub fn steps_to_restart(&self) -> u64
        ensures { result ≡ self.now.next_restart - self.now.steps }
    {
        self.next_restart - self.steps
    }

    /// Whether the next step that begins with a restart has a number below 2^(n+1), for so many variables. Up to it a search
    /// over these may restart at any step.
    pub fn is_interval_short(&self, variables: usize) -> bool
        ensures { IsTrue result ↔ (self.now.next_restart < 2 ^ suc variables) }
    {
        variables >= 63 || self.next_restart >> (variables + 1) == 0
    }

    /// Begins a step, and returns whether it begins with a restart. If so, the next restart is later by the scale times
    /// the next term of the sequence, and stays at 2^64-1 once it is there.
    pub fn begin_step(&mut self, scale: u64) -> bool
        requires counted { self.old.steps < 2 ^ 64 - 1 }
        requires scaled { 0 < scale }
        ensures due { IsTrue result ↔ IsDue self.old }
        ensures plan { self.new ≡ step_begun scale self.old }
        ensures later { self.new.steps < self.new.next_restart }
    {
        if self.steps != self.next_restart {
            return false;
        }
        let interval = scale.saturating_mul(self.luby.advance());
        self.next_restart = self.next_restart.saturating_add(interval);
        true
    }

    /// Ends a step that began: it is counted.
    pub fn end_step(&mut self)
        requires { self.old.steps < self.old.next_restart }
        ensures { self.new ≡ record self.old { steps = suc self.old.steps } }
    {
        self.steps += 1;
    }
}
