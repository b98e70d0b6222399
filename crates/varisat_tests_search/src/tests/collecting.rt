//! Clauses that are reasons: they are not deleted by a reduction, and the collector moves them with what names them.
ghost use Rattle.std.specs.Prelude.{OnOk};
ghost use Rattle.varisat_clause.specs.Stores.{IsSound};
ghost use Rattle.varisat_search.specs.Contexts.{IsReady};

use super::searches::{assume, load_numbers, loaded, prefer_lower_true, prefer_value, step};
use std::alloc::{Allocator, Global};
use varisat_prop::clause::{ClauseRef, Tier};
use varisat_prop::prop::{ImplNode, Reason};
use varisat_search::collect::collect_garbage;
use varisat_search::context::Context;
use varisat_search::error::StepError;
use varisat_search::reduce::reduce_locals;
use varisat_search::state::SatState;
use varisat_steps::NoTracer;

/// The words of the store, those that are garbage, whether the last step found a model, and the place of the clause that is the
/// reason of a variable.
type Layout = (usize, usize, bool, Option<u32>);

/// The index of that variable, clauses over at most twelve variables, assumptions, and units in groups with what comes of
/// loading each.
type Row = (
    usize,
    &'static [&'static [i8]],
    &'static [i8],
    &'static [(&'static [i8], Layout)],
);

const ROWS: [Row; 3] = [
    // Six words of 18 are garbage, and nothing is collected; 12 of 18 are, and the reason follows the clause.
    (
        8,
        &[&[1, 2, 3], &[4, 5, 6], &[7, 8, 9]],
        &[-7, -8],
        &[
            (&[], (18, 0, true, Some(12))),
            (&[1], (18, 6, true, Some(12))),
            (&[4], (6, 0, true, Some(0))),
        ],
    ),
    // The second clause loses two literals before it is deleted, so that six words of 21 are garbage, and then 12.
    (
        11,
        &[&[1, 2, 3], &[4, 5, 6, 7, 8], &[9, 10, 11, 12]],
        &[-9, -10, -11],
        &[
            (&[-7, -8], (21, 0, true, Some(14))),
            (&[4], (21, 6, true, Some(14))),
            (&[1], (7, 0, true, Some(0))),
        ],
    ),
    // Twelve words of 24 are garbage, no more than half, and nothing is collected.
    (
        11,
        &[&[1, 2, 3], &[4, 5, 6], &[7, 8, 9], &[10, 11, 12]],
        &[-10, -11],
        &[
            (&[1, 4], (24, 12, true, Some(18))),
            (&[7], (6, 0, true, Some(0))),
        ],
    ),
];

// The clause that is the reason of the variable of the index.
fn reason_of<A: Allocator + Copy>(ctx: &Context<A>, index: usize) -> Option<ClauseRef> {
    match ctx.impl_graph.nodes.get(index) {
        Some(
            ImplNode {
                reason: Reason::Long(cref),
                ..
            },
        ) => Some(*cref),
        _ => None,
    }
}

fn has_layout<A: Allocator + Copy>(ctx: &Context<A>, index: usize, wanted: Layout) -> bool {
    let (words, garbage, is_found, place) = wanted;
    (ctx.clause_alloc.buffer_size() == words)
        & (ctx.clause_db.garbage() == garbage)
        & ((ctx.solver_state.sat_state == SatState::Sat) == is_found)
        & (reason_of(ctx, index) == place.map(ClauseRef::from_offset))
}

// Makes the literals true at level 0 and a step, and collects garbage where that is due.
fn satisfy<A: Allocator + Copy>(ctx: &mut Context<A>, units: &[i8]) -> Result<(), StepError>
    requires { IsReady ctx.old }
    ensures { OnOk result (IsReady ctx.new) }
{
    for unit in units {
        load_numbers(ctx, &[*unit])?;
    }
    step(ctx)?;
    collect_garbage(ctx)?;
    Ok(())
}

// Whether each group of units leaves its layout.
fn are_laid_out<A: Allocator + Copy>(ctx: &mut Context<A>, row: &Row) -> Result<bool, StepError>
    requires { IsReady ctx.old }
{
    let (index, _, assumed, groups) = *row;
    assume(ctx, assumed)?;
    for group in groups {
        let (units, wanted) = *group;
        satisfy(ctx, units)?;
        if !has_layout(ctx, index, wanted) {
            return Ok(false);
        }
    }
    Ok(true)
}

fn are_laid_out_in_new(alloc: Global, row: &Row) -> Result<bool, StepError> {
    let mut ctx = loaded(alloc, 12, row.1)?;
    let is_right = are_laid_out(&mut ctx, row);
    drop(ctx);
    is_right
}

#[test]
fn reasons_follow_their_clauses(rt: HostRuntime) -> Result<(), StepError> {
    for (place, row) in ROWS.iter().enumerate() {
        let is_right = are_laid_out_in_new(rt.alloc(), row)?;
        assert!(rt; is_right, "row {place}");
    }
    Ok(())
}

/// For each of five groups of nine variables two clauses: the first eight imply the last one and its opposite.
const GROUPS: &[&[i8]] = &[
    &[-1, -2, -3, -4, -5, -6, -7, -8, 9],
    &[-1, -2, -3, -4, -5, -6, -7, -8, -9],
    &[-10, -11, -12, -13, -14, -15, -16, -17, 18],
    &[-10, -11, -12, -13, -14, -15, -16, -17, -18],
    &[-19, -20, -21, -22, -23, -24, -25, -26, 27],
    &[-19, -20, -21, -22, -23, -24, -25, -26, -27],
    &[-28, -29, -30, -31, -32, -33, -34, -35, 36],
    &[-28, -29, -30, -31, -32, -33, -34, -35, -36],
    &[-37, -38, -39, -40, -41, -42, -43, -44, 45],
    &[-37, -38, -39, -40, -41, -42, -43, -44, -45],
];

// Makes five steps, each of which learns from a group that its first eight aren't all true.
fn learn_locals<A: Allocator + Copy>(ctx: &mut Context<A>) -> Result<(), StepError>
    requires { IsReady ctx.old }
    ensures { OnOk result (IsReady ctx.new) }
{
    prefer_lower_true(ctx);
    for _group in 0..5 {
        step(ctx)?;
    }
    Ok(())
}

// Lets the next decisions make variables false.
fn prefer_false<A: Allocator + Copy>(ctx: &mut Context<A>)
    requires { IsReady ctx.old }
    ensures { IsReady ctx.new }
{
    prefer_value(&mut ctx.assignment, false);
}

// Finds a model under the assumptions in which all other variables that are decided are false.
fn find_model<A: Allocator + Copy>(ctx: &mut Context<A>, assumed: &[i8]) -> Result<(), StepError>
    requires { IsReady ctx.old }
    ensures { OnOk result (IsReady ctx.new) }
{
    assume(ctx, assumed)?;
    prefer_false(ctx);
    step(ctx)?;
    Ok(())
}

/// How many clauses are of the tier Local, whether a model was found, and which of the learned clauses are deleted.
type Reduced = (usize, bool, [bool; 5]);

fn reduced<A: Allocator + Copy>(ctx: &mut Context<A>, assumed: &[i8]) -> Result<Reduced, StepError>
    requires { IsReady ctx.old }
{
    learn_locals(ctx)?;
    find_model(ctx, assumed)?;
    let count = ctx.clause_db.count_by_tier(Tier::Local);
    let is_found = ctx.solver_state.sat_state == SatState::Sat;
    reduce_locals(ctx, &mut NoTracer {})?;
    let are_deleted = [
        is_deleted(ctx, 10),
        is_deleted(ctx, 11),
        is_deleted(ctx, 12),
        is_deleted(ctx, 13),
        is_deleted(ctx, 14),
    ];
    Ok((count, is_found, are_deleted))
}

// Whether the clause of the index is deleted.
fn is_deleted<A: Allocator + Copy>(ctx: &Context<A>, index: usize) -> bool
    requires { IsSound ctx.now.clause_alloc }
{
    index < ctx.clause_alloc.len()
        && ctx
            .clause_alloc
            .header(ctx.clause_alloc.place(index))
            .deleted()
}

fn reduced_in_new(alloc: Global, assumed: &[i8]) -> Result<Reduced, StepError> {
    let mut ctx = loaded(alloc, 45, GROUPS)?;
    let reduced = reduced(&mut ctx, assumed);
    drop(ctx);
    reduced
}

// All are equally active, so that the first two are deleted; but the second is the reason of -17 where the seven before it are
// assumed, and the third is deleted.
#[test]
fn reasons_are_not_deleted(rt: HostRuntime) -> Result<(), StepError> {
    let free = reduced_in_new(rt.alloc(), &[])?;
    let bound = reduced_in_new(rt.alloc(), &[10, 11, 12, 13, 14, 15, 16])?;
    let wanted = [
        (5, true, [true, true, false, false, false]),
        (5, true, [true, false, true, false, false]),
    ];
    assert!(rt; [free, bound] == wanted);
    Ok(())
}
