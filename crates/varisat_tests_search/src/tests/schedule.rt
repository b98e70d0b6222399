//! Modes, averages of the glue, and short intervals.

use varisat_schedule::counters::{Counters, count};
use varisat_schedule::schedule::Schedule;

// So many clauses of the glue are learned, by conflicts each of which undoes a level.
fn learn(counters: &mut Counters, clauses: u8, glue: usize) {
    for _ in 0..clauses {
        count(&mut counters.conflicts, 1);
        counters.count_learned(glue, 1);
    }
}

// Counters of a search that had so many conflicts.
fn counters_at(conflicts: u64) -> Counters {
    let mut counters = Counters::default();
    counters.conflicts = conflicts;
    counters
}

// The recent glue rises above the usual one and comes back to it sooner. Equal ones are not high.
#[test]
fn glue_is_high_once_it_rose(rt: HostRuntime) {
    let mut counters = counters_at(1024);
    learn(&mut counters, 200, 4);
    assert!(rt; !counters.is_glue_high(100));
    learn(&mut counters, 30, 8);
    assert!(rt; counters.is_glue_high(125));
    assert!(rt; !counters.is_glue_high(150));
    learn(&mut counters, 100, 4);
    assert!(rt; !counters.is_glue_high(100));
}

// The averages are those of focused mode: what is learned in stable mode is in neither.
#[test]
fn stable_glue_is_passed_over(rt: HostRuntime) {
    let mut counters = counters_at(1);
    learn(&mut counters, 200, 9);
    assert!(rt; (counters.conflicts, counters.focused_conflicts) == (201, 0));
    counters.conflicts = 2000;
    learn(&mut counters, 40, 4);
    assert!(rt; counters.focused_conflicts == 40);
    assert!(rt; !counters.is_glue_high(101));
}

// Two levels a conflict are many, one and a half are not. In stable mode none counts.
#[test]
fn jumps_are_far_above_a_mean(rt: HostRuntime) {
    let mut counters = counters_at(100);
    for _ in 0..50 {
        count(&mut counters.conflicts, 1);
        counters.count_learned(4, 9);
    }
    assert!(rt; !counters.jumps_far());
    counters.conflicts = 1024;
    for undone in [1, 2, 1, 2, 1, 2] {
        counters.count_learned(4, undone);
    }
    assert!(rt; !counters.jumps_far());
    for _ in 0..12 {
        counters.count_learned(4, 2);
    }
    assert!(rt; counters.jumps_far());
}

// Stable up to 1,024 conflicts, focused up to 3,072, and so on: each two modes take twice as many as the two before.
#[test]
fn modes_change_by_conflicts(rt: HostRuntime) {
    for (conflicts, is_focused) in [
        (0, false),
        (1023, false),
        (1024, true),
        (3071, true),
        (3072, false),
        (4096, true),
        (6143, true),
        (6144, false),
        (8192, true),
        (u64::MAX, false),
    ] {
        assert!(rt; counters_at(conflicts).is_focused() == is_focused);
    }
}

#[test]
fn conflicts_are_counted_from_a_restart(rt: HostRuntime) {
    let mut counters = counters_at(3);
    assert!(rt; (counters.restarts, counters.conflicts_since_restart()) == (0, 3));
    counters.count_restart();
    learn(&mut counters, 2, 4);
    assert!(rt; (counters.restarts, counters.conflicts_since_restart()) == (1, 2));
}

// Whether so many variables make the first interval short, where it ends at the step.
fn is_short_up_to(end: u64, variables: usize) -> bool {
    if end == 0 {
        return false;
    }
    let mut schedule = Schedule::new();
    let _ = schedule.begin_step(end);
    schedule.is_interval_short(variables)
}

// An interval is short where it ends before step 2^(n+1); with 63 variables each does.
#[test]
fn short_intervals_end_early(rt: HostRuntime) {
    for (end, variables, is_short) in [
        (1, 0, true),
        (2, 0, false),
        (7, 2, true),
        (8, 2, false),
        (8, 3, true),
        (1 << 63, 62, false),
        ((1 << 63) - 1, 62, true),
        (u64::MAX, 62, false),
        (u64::MAX, 63, true),
        (u64::MAX, 1000, true),
    ] {
        assert!(rt; is_short_up_to(end, variables) == is_short);
    }
}
