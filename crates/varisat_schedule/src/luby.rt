//! The Luby sequence (sequence A182105 of the On-Line Encyclopedia of Integer Sequences), by the walk that Knuth gave
//! there.
ghost use Rattle.std.specs.Prelude.{◌≡◌, ◌-◌, ◌^◌, ◌<◌, suc};
ghost use Rattle.varisat_theory.specs.inside.Luby.{luby};

use std::marker::Model;

/// The reluctant doubling sequence of Luby, Sinclair and Zuckerman, 1 1 2 1 1 2 4 and so on. It is seen as the index of
/// its next term, from 1 on.
#[derive(Debug, Drop)]
pub struct LubySequence {
    // Where the walk stands, and the power of 2 that is the next term. It divides the place.
    place: u64,
    power: u64,
    // How many terms were given.
    given: u64,
}

impl Model for LubySequence {
    ghost use Rattle.std.specs.Prelude.{ℕ, suc};
    ghost use Rattle.varisat_schedule.specs.Walks.{IsWalkAfter};

    ghost Value = { ℕ };

    ghost view = { λ l. suc l.given };

    ghost invariant = { λ l. IsWalkAfter l.given l.place l.power };
}

impl Default for LubySequence {
    ghost use Rattle.std.specs.Prelude.{◌≡◌};

    ghost is_default = { λ l. l ≡ 1 };

    /// The whole sequence.
    fn default() -> LubySequence {
        LubySequence::new()
    }
}

impl LubySequence {
    /// The whole sequence. It takes no memory.
    pub fn new() -> LubySequence
        ensures { result ≡ 1 }
    {
        LubySequence {
            place: 1,
            power: 1,
            given: 0,
        }
    }

    /// Returns the next term and moves on.
    pub fn advance(&mut self) -> u64
        requires { self.old < 2 ^ 64 - 1 }
        ensures term { result ≡ luby self.old }
        ensures next { self.new ≡ suc self.old }
    {
        let term = self.power;
        // Behind the largest power of 2 that divides the place comes the next place, and else the next power.
        if self.place / self.power % 2 == 1 {
            self.place += 1;
            self.power = 1;
        } else {
            self.power *= 2;
        }
        self.given += 1;
        term
    }
}
