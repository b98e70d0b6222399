//! Glue, tiers and activities of clauses, as conflicts leave them.
ghost use Rattle.std.specs.Prelude.{◌≤◌, OnOk, IfOk};
ghost use Rattle.varisat_search.specs.Contexts.{IsReady};
ghost use Rattle.varisat_literals.specs.promises.Numbers.{variable_limit};

use super::searches::{loaded, prefer_lower_true, step, unless_refused};
use std::alloc::{Allocator, Global};
use varisat_prop::clause::{ClauseHeader, Tier};
use varisat_search::context::Context;
use varisat_search::error::StepError;

/// The header of the stored clause with the index.
fn header_of<A: Allocator + Copy>(ctx: &Context<A>, index: usize) -> Option<ClauseHeader>
    requires { IsReady ctx.now }
{
    if index >= ctx.clause_alloc.len() {
        return None;
    }
    Some(ctx.clause_alloc.header(ctx.clause_alloc.place(index)))
}

/// The tier, the glue and whether it is active of the stored clause with the index.
fn notes_of<A: Allocator + Copy>(ctx: &Context<A>, index: usize) -> Option<(Tier, usize, bool)>
    requires { IsReady ctx.now }
{
    let header = header_of(ctx, index)?;
    Some((header.tier(), header.glue(), header.active()))
}

/// Makes a step whose decisions make variables true, the lowest first.
fn step_down<A: Allocator + Copy>(ctx: &mut Context<A>) -> Result<(), StepError>
    requires { IsReady ctx.old }
    ensures { OnOk result (IsReady ctx.new) }
{
    prefer_lower_true(ctx);
    step(ctx)?;
    Ok(())
}

/// What is noted of the third clause after a step, whose decisions make variables true, the lowest first.
fn notes_after_step<A: Allocator + Copy>(
    ctx: &mut Context<A>,
) -> Result<Option<(Tier, usize, bool)>, StepError>
    requires { IsReady ctx.old }
{
    step_down(ctx)?;
    Ok(notes_of(ctx, 2))
}

/// The same where two clauses are loaded, from which the step learns the third.
fn learned_notes<A: Allocator + Copy>(
    alloc: A,
    count: usize,
    clauses: &[&[i8]],
) -> Result<Option<(Tier, usize, bool)>, StepError>
    requires { count ≤ variable_limit }
{
    let mut ctx = loaded(alloc, count, clauses)?;
    let notes = notes_after_step(&mut ctx);
    drop(ctx);
    notes
}

/// How many variables there are, clauses of which two are stored, and what is noted of the clause that is learned from
/// them.
type Row = (u8, &'static [&'static [i8]], Option<(Tier, usize, bool)>);

const ROWS: &[Row] = &[
    // 1 implies 2 and 3, so that the clause of 2, 3 and 4 has two levels.
    (
        5,
        &[&[-1, 2], &[-1, 3], &[-2, -3, -4, 5], &[-2, -3, -4, -5]],
        Some((Tier::Core, 1, false)),
    ),
    // All variables but the last imply that and its opposite, and each is decided at a level of its own.
    (
        4,
        &[&[-1, -2, -3, 4], &[-1, -2, -3, -4]],
        Some((Tier::Core, 2, false)),
    ),
    (
        5,
        &[&[-1, -2, -3, -4, 5], &[-1, -2, -3, -4, -5]],
        Some((Tier::Mid, 3, false)),
    ),
    (
        8,
        &[
            &[-1, -2, -3, -4, -5, -6, -7, 8],
            &[-1, -2, -3, -4, -5, -6, -7, -8],
        ],
        Some((Tier::Mid, 6, false)),
    ),
    (
        9,
        &[
            &[-1, -2, -3, -4, -5, -6, -7, -8, 9],
            &[-1, -2, -3, -4, -5, -6, -7, -8, -9],
        ],
        Some((Tier::Local, 7, false)),
    ),
];

#[test]
fn learned_clauses_have_their_tiers(rt: HostRuntime) -> Result<(), StepError> {
    for (place, row) in ROWS.iter().enumerate() {
        let (count, clauses, wanted) = *row;
        let notes = learned_notes(rt.alloc(), usize::from(count), clauses)?;
        assert!(rt; notes == wanted, "row {place}");
    }
    Ok(())
}

/// Makes two such steps.
fn step_twice<A: Allocator + Copy>(ctx: &mut Context<A>) -> Result<(), StepError>
    requires { IsReady ctx.old }
    ensures { OnOk result (IsReady ctx.new) }
{
    step_down(ctx)?;
    step(ctx)?;
    Ok(())
}

/// Two steps: the first learns -4 -3 -2 -1, and at the second conflict this is the reason of -4 at the level of 3.
fn two_conflicts<A: Allocator + Copy>(alloc: A) -> Result<Context<A>, StepError>
    ensures { IfOk result (λ ctx. IsReady ctx) }
{
    let clauses: &[&[i8]] = &[
        &[-1, -2, -3, -4, 5],
        &[-1, -2, -3, -4, -5],
        &[4, -3, 6],
        &[4, -3, -6],
    ];
    let mut ctx = loaded(alloc, 6, clauses)?;
    let done = step_twice(&mut ctx);
    unless_refused(ctx, done)
}

/// Whether the user's four clauses are active, and the two learned ones are of the tier Core, of which the first took
/// part in a conflict.
fn are_noted<A: Allocator + Copy>(ctx: &Context<A>) -> bool
    requires { IsReady ctx.now }
{
    for index in 0..4 {
        if notes_of(ctx, index) != Some((Tier::Irred, 0, true)) {
            return false;
        }
    }
    (notes_of(ctx, 4) == Some((Tier::Core, 2, true)))
        & (notes_of(ctx, 5) == Some((Tier::Core, 2, false)))
}

/// Whether so many clauses are of the tiers Irred, Core and Mid.
fn are_counted<A: Allocator + Copy>(ctx: &Context<A>) -> bool {
    let counts = [
        ctx.clause_db.count_by_tier(Tier::Irred),
        ctx.clause_db.count_by_tier(Tier::Core),
        ctx.clause_db.count_by_tier(Tier::Mid),
    ];
    counts == [4, 2, 0]
}

// The learned clause had four levels and has three now. Clauses of the user took part too.
fn lowers_glue<A: Allocator + Copy>(alloc: A) -> Result<bool, StepError> {
    let ctx = two_conflicts(alloc)?;
    let is_lowered = are_noted(&ctx) & are_counted(&ctx);
    drop(ctx);
    Ok(is_lowered)
}

/// Whether these are the activities of the clauses.
fn have_activities<A: Allocator + Copy>(ctx: &Context<A>, wanted: &[u32]) -> bool
    requires { IsReady ctx.now }
{
    for index in 0..wanted.len() {
        let activity = header_of(ctx, index).map(|header| header.activity());
        if activity != Some(wanted[index]) {
            return false;
        }
    }
    true
}

// A bump adds 1024 at the first conflict, and 1024000 / 999 at the second.
fn raises_activities(alloc: Global) -> Result<bool, StepError> {
    let ctx = two_conflicts(alloc)?;
    let is_raised = have_activities(&ctx, &[1024, 1024, 1025, 1025, 1025, 0])
        & (ctx.clause_activity.increment() == 1026);
    drop(ctx);
    Ok(is_raised)
}

#[test]
fn conflicts_change_what_is_noted(rt: HostRuntime) -> Result<(), StepError> {
    let are_right = [lowers_glue(rt.alloc())?, raises_activities(rt.alloc())?];
    assert!(rt; are_right == [true; 2]);
    Ok(())
}
