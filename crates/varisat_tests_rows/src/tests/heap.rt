//! The variables by activity: eight variables that are bumped, and the order in which they come.

use std::alloc::{AllocError, Allocator, Global};
use varisat_literals::Var;
use varisat_vsids::Vsids;

/// A call of the heap. `Next` has the index of the variable that it must return.
#[derive(Clone, Copy)]
enum Act {
    Bump(usize, usize),
    Decay(usize),
    MakeAvailable(usize),
    MakeUnavailable(usize),
    Reset(usize),
    Next(Option<usize>),
}

use Act::{Bump, Decay, MakeAvailable, MakeUnavailable, Next, Reset};

/// A decay in thousandths, and calls of eight variables, the one of index i bumped i times, available in the order of 5 i modulo 8.
type Row = (u64, &'static [Act]);

const ROWS: [Row; 5] = [
    (
        950,
        &[
            Next(Some(7)),
            Next(Some(6)),
            Next(Some(5)),
            Next(Some(4)),
            Next(Some(3)),
            Next(Some(2)),
            Next(Some(1)),
            Next(Some(0)),
            Next(None),
        ],
    ),
    // The variables that are bumped later overtake those that were bumped more often.
    (
        500,
        &[
            Next(Some(7)),
            Next(Some(6)),
            Next(Some(5)),
            Next(Some(4)),
            Decay(2),
            Bump(0, 8),
            Bump(1, 7),
            Bump(2, 6),
            Bump(3, 5),
            Bump(4, 4),
            Bump(5, 3),
            Bump(6, 2),
            Bump(7, 1),
            Next(Some(0)),
            Next(Some(1)),
            Next(Some(2)),
            Next(Some(3)),
            Next(None),
        ],
    ),
    // Three bumps after a decay by a quarter are less than four before it: the increment, 4/3 of 2^20, is rounded down.
    (
        750,
        &[
            MakeUnavailable(7),
            MakeUnavailable(6),
            MakeUnavailable(5),
            Decay(1),
            Bump(0, 3),
            Next(Some(4)),
            Next(Some(0)),
            Next(Some(3)),
        ],
    ),
    (
        999,
        &[
            MakeUnavailable(7),
            MakeUnavailable(7),
            Reset(6),
            Bump(3, 3),
            Next(Some(3)),
            MakeAvailable(7),
            MakeAvailable(7),
            Next(Some(7)),
            Next(Some(5)),
            Next(Some(4)),
            Next(Some(2)),
            Next(Some(1)),
        ],
    ),
    // The activities are shifted right, and keep their order.
    (
        500,
        &[
            Decay(50),
            Bump(2, 1),
            Decay(20),
            Bump(1, 1),
            Next(Some(1)),
            Next(Some(2)),
        ],
    ),
];

fn bump<A: Allocator + Copy>(vsids: &mut Vsids<A>, index: usize) {
    if index < vsids.var_count() && index < 8 {
        vsids.bump(Var::from_index(index));
    }
}

fn change<A: Allocator + Copy>(vsids: &mut Vsids<A>, index: usize, act: Act) {
    if index < vsids.var_count() && index < 8 {
        let var = Var::from_index(index);
        match act {
            MakeAvailable(_) => vsids.make_available(var),
            MakeUnavailable(_) => vsids.make_unavailable(var),
            _ => vsids.reset(var),
        }
    }
}

// Makes the call. Whether it returned what it must.
fn make<A: Allocator + Copy>(vsids: &mut Vsids<A>, act: Act) -> bool {
    match act {
        Bump(index, times) => {
            for _ in 0..times {
                bump(vsids, index);
            }
        }
        Decay(times) => {
            for _ in 0..times {
                vsids.decay();
            }
        }
        MakeAvailable(index) | MakeUnavailable(index) | Reset(index) => change(vsids, index, act),
        Next(wanted) => return vsids.next().map(|var| var.index()) == wanted,
    }
    true
}

fn make_all<A: Allocator + Copy>(vsids: &mut Vsids<A>, acts: &[Act]) -> bool {
    for act in acts {
        if !make(vsids, *act) {
            return false;
        }
    }
    true
}

fn are_right(alloc: Global, row: &Row) -> Result<bool, AllocError> {
    let (decay, acts) = *row;
    let mut vsids = Vsids::new_in(alloc);
    vsids.set_var_count(8)?;
    vsids.set_decay(decay.clamp(500, 999));
    for index in 0..8 {
        make(&mut vsids, Bump(index, index));
    }
    for index in 0..8 {
        make(&mut vsids, MakeAvailable(index * 5 % 8));
    }
    let are_right = make_all(&mut vsids, acts);
    drop(vsids);
    Ok(are_right)
}

#[test]
fn variables_come_by_activity(rt: HostRuntime) -> Result<(), AllocError> {
    for (place, row) in ROWS.iter().enumerate() {
        let are_right = are_right(rt.alloc(), row)?;
        assert!(rt; are_right, "row {place}");
    }
    Ok(())
}
