//! What the conflicts of a search's steps teach.
ghost use Rattle.std.specs.Prelude.{◌≤◌};
ghost use Rattle.varisat_search.specs.Contexts.{IsReady};
ghost use Rattle.varisat_literals.specs.promises.Numbers.{variable_limit};

use super::searches::{are, loaded, loaded_conflict, prefer_lower_true, step};
use std::alloc::{Allocator, Global};
use varisat_literals::lit;
use varisat_prop::clause::ClauseRef;
use varisat_prop::prop::Conflict;
use varisat_search::context::Context;
use varisat_search::error::StepError;
use varisat_search::state::SatState;

/// Whether the next step, whose decisions make variables true, the lowest first, learns the clause and backtracks to
/// the level.
fn teaches<A: Allocator + Copy>(
    ctx: &mut Context<A>,
    clause: &[i8],
    level: usize,
) -> Result<bool, StepError>
    requires { IsReady ctx.old }
{
    prefer_lower_true(ctx);
    let SatState::Unknown = ctx.solver_state.sat_state else {
        return Ok(false);
    };
    step(ctx)?;
    Ok(are(ctx.analyze_conflict.clause(), clause) & (ctx.trail.current_level() == level))
}

/// Whether the first step learns the clause and backtracks to the level.
fn learns<A: Allocator + Copy>(
    alloc: A,
    count: usize,
    clauses: &[&[i8]],
    learned: &[i8],
    level: usize,
) -> Result<bool, StepError>
    requires { count ≤ variable_limit }
{
    let mut ctx = loaded(alloc, count, clauses)?;
    let is_learned = teaches(&mut ctx, learned, level);
    drop(ctx);
    is_learned
}

/// Whether the next step learns the clause from these, backtracks to the level, and leaves the trail.
fn teaches_from<A: Allocator + Copy>(
    ctx: &mut Context<A>,
    clause: &[i8],
    level: usize,
    involved: &[Conflict],
    trail: &[i8],
) -> Result<bool, StepError>
    requires { IsReady ctx.old }
{
    let is_learned = teaches(ctx, clause, level)?;
    let is_involved = ctx.analyze_conflict.involved() == involved;
    Ok(is_learned & is_involved & are(ctx.trail.trail(), trail))
}

// 1 is decided and implies 2, 3 is decided and implies 4 and 5, and -1 -4 -5 is false.
fn learns_from_long(alloc: Global) -> Result<bool, StepError> {
    let mut ctx = loaded_conflict(alloc)?;
    // The conflict, and the reason of 5.
    let involved = [
        Conflict::Long(ClauseRef::from_offset(6)),
        Conflict::Long(ClauseRef::from_offset(0)),
    ];
    let is_right = teaches_from(&mut ctx, &[-4, -1], 1, &involved, &[1, 2, -4]);
    drop(ctx);
    is_right
}

// 1 is decided and implies 2 and -2: the conflict is over a clause of two literals, and so is the reason of 2.
fn learns_from_pairs(alloc: Global) -> Result<bool, StepError> {
    let mut ctx = loaded(alloc, 2, &[&[-1, 2], &[-1, -2]])?;
    let involved = [
        Conflict::Binary([lit!(-2), lit!(-1)]),
        Conflict::Binary([lit!(2), lit!(-1)]),
    ];
    let is_right = teaches_from(&mut ctx, &[-1], 0, &involved, &[-1]);
    drop(ctx);
    is_right
}

// At level 0 nothing is learned.
fn learns_nothing(alloc: Global) -> Result<bool, StepError> {
    let mut ctx = loaded(alloc, 2, &[&[-1, 2], &[-1, -2], &[1]])?;
    let is_right = teaches_from(&mut ctx, &[], 0, &[], &[1, 2]);
    drop(ctx);
    is_right
}

/// How many variables there are, clauses over them, the clause that the first step learns, and the level to which it
/// backtracks.
type Row = (u8, &'static [&'static [i8]], &'static [i8], u8);

const ROWS: &[Row] = &[
    // 3 is implied by 2 and that by 1, so that -3 is left out over two reasons.
    (
        6,
        &[&[-1, 2], &[-2, 3], &[-4, 5], &[-3, -5, 6], &[-1, -5, -6]],
        &[-5, -1],
        1,
    ),
    // As before, but 2 implies 3 together with 7, which is true at level 0.
    (
        7,
        &[
            &[-1, 2],
            &[-2, -7, 3],
            &[-4, 5],
            &[-3, -5, 6],
            &[-1, -5, -6],
            &[7],
        ],
        &[-5, -1],
        1,
    ),
    // 2 is of level 1 and 4 of level 2, and each has a decision behind it that is not in the clause: the highest level
    // stands second.
    (
        7,
        &[
            &[-1, 2],
            &[-2, -3, 4],
            &[-5, 6],
            &[-4, -6, 7],
            &[-2, -6, -7],
        ],
        &[-6, -4, -2],
        2,
    ),
    // 9 is true at level 0, and is left out.
    (9, &[&[-1, -9, 2], &[-1, -2, -9], &[9]], &[-1], 0),
];

#[test]
fn conflicts_teach(rt: HostRuntime) -> Result<(), StepError> {
    let alloc = rt.alloc();
    let are_right = [
        learns_from_long(alloc)?,
        learns_from_pairs(alloc)?,
        learns_nothing(alloc)?,
    ];
    assert!(rt; are_right == [true; 3]);
    for (place, row) in ROWS.iter().enumerate() {
        let (count, clauses, learned, level) = *row;
        let is_right = learns(
            alloc,
            usize::from(count),
            clauses,
            learned,
            usize::from(level),
        )?;
        assert!(rt; is_right, "row {place}");
    }
    Ok(())
}
