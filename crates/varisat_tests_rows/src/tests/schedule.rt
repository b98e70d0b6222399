//! Terms of the Luby sequence, and the steps that begin with a restart.
ghost use Rattle.std.specs.Prelude.{◌<◌};

use varisat_schedule::luby::LubySequence;
use varisat_schedule::schedule::Schedule;

/// Terms by their place in the sequence, from 1 on.
const TERMS: [(u64, u64); 18] = [
    (1, 1),
    (2, 1),
    (3, 2),
    (4, 1),
    (5, 1),
    (6, 2),
    (7, 4),
    (8, 1),
    (9, 1),
    (10, 2),
    (11, 1),
    (12, 1),
    (13, 2),
    (14, 4),
    (15, 8),
    (31, 16),
    (63, 32),
    (64, 1),
];

// The term of the place, which is at most a hundred.
fn term(place: u64) -> u64 {
    let mut sequence = LubySequence::default();
    let mut term = 0;
    for _index in 0..place.min(100) {
        term = sequence.advance();
    }
    term
}

/// The scale of the first restart, that of the others, how many steps there are, and which begin with a restart.
type Row = (u64, u64, u64, &'static [u64]);

const RESTARTS: [Row; 4] = [
    (128, 128, 641, &[0, 128, 256, 512, 640]),
    // A scale counts from the next restart on.
    (128, 10, 200, &[0, 128, 138, 158, 168, 178, 198]),
    // Neighbouring restarts may be one step apart.
    (1, 1, 13, &[0, 1, 2, 4, 5, 6, 8, 12]),
    // The largest scale restarts once.
    (u64::MAX, u64::MAX, 100, &[0]),
];

// Whether a step is in the list.
fn is_listed(steps: &[u64], step: u64) -> bool {
    steps.iter().any(|listed| *listed == step)
}

fn scale_at(row: &Row, step: u64) -> u64
    ensures { 0 < result }
{
    if step == 0 {
        row.0.max(1)
    } else {
        row.1.max(1)
    }
}

// Whether exactly the steps of the row begin with a restart.
fn are_restarts(row: &Row) -> bool {
    let mut schedule = Schedule::default();
    for step in 0..row.2 {
        if schedule.steps() == u64::MAX {
            return false;
        }
        let is_begun = schedule.begin_step(scale_at(row, step));
        if schedule.steps() != step || is_begun != is_listed(row.3, step) {
            return false;
        }
        schedule.end_step();
    }
    true
}

#[test]
fn terms_and_restarts_are_as_listed(rt: HostRuntime) {
    for (place, wanted) in TERMS {
        assert!(rt; term(place) == wanted, "term {place}");
    }
    for (place, row) in RESTARTS.iter().enumerate() {
        assert!(rt; are_restarts(row), "row {place}");
    }
}
