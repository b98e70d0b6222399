//! Which clauses are watched by which literals, and what propagation at level 0 comes to by that.
ghost use Rattle.varisat_search.specs.Contexts.{IsReady};

use super::searches::{are, literal, loaded};
use std::alloc::{Allocator, Global};
use varisat_literals::{Lit, lit};
use varisat_prop::clause::ClauseRef;
use varisat_prop::prop::{Conflict, Reason, Watchlists, propagate};
use varisat_search::context::Context;
use varisat_search::error::StepError;

/// Clauses over four variables, how propagation over them ends, which literals are true then, why the last of them is,
/// and at which places the clauses stand that literals watch.
#[derive(Drop)]
struct Row {
    clauses: &'static [&'static [i8]],
    end: Result<(), Conflict>,
    trail: &'static [i8],
    reason: Reason,
    watched: &'static [(i8, &'static [usize])],
}

/// Whether the literal watches the clauses at these places, and no other.
fn watches<A: Allocator + Copy>(lists: &mut Watchlists<A>, lit: Lit, places: &[usize]) -> bool {
    if lists.len() <= lit.code() {
        return false;
    }
    let list = lists.watched_by_mut(lit).as_slice();
    for (watch, place) in list.iter().zip(places) {
        if watch.cref.offset() != *place {
            return false;
        }
    }
    list.len() == places.len()
}

/// Whether these literals watch the clauses at these places.
fn watch<A: Allocator + Copy>(lists: &mut Watchlists<A>, watched: &[(i8, &[usize])]) -> bool {
    for pair in watched {
        let (number, places) = *pair;
        if !watches(lists, literal(number), places) {
            return false;
        }
    }
    true
}

/// Whether the variable of the last true literal was assigned for the reason.
fn is_reason<A: Allocator + Copy>(ctx: &Context<A>, reason: Reason) -> bool {
    let Some(last) = ctx.trail.trail().last() else {
        return false;
    };
    match ctx.impl_graph.nodes.get(last.index()) {
        Some(node) => node.reason == reason,
        None => false,
    }
}

/// Whether propagation comes to what the row says. It ends only where each literal was propagated.
fn comes_to<A: Allocator + Copy>(ctx: &mut Context<A>, row: &Row) -> Result<bool, StepError>
    requires { IsReady ctx.old }
{
    let end = propagate(
        &mut ctx.assignment,
        &mut ctx.clause_alloc,
        &mut ctx.impl_graph,
        &mut ctx.trail,
        &ctx.binary_clauses,
        &mut ctx.watchlists,
    )?;
    let is_propagated = ctx.trail.fully_propagated() == row.end.is_ok();
    let is_end = (end == row.end) & is_propagated & are(ctx.trail.trail(), row.trail);
    Ok(is_end & is_reason(ctx, row.reason) & watch(&mut ctx.watchlists, row.watched))
}

/// Whether the row is right.
fn holds(alloc: Global, row: &Row) -> Result<bool, StepError> {
    let mut ctx = loaded(alloc, 4, row.clauses)?;
    let is_right = comes_to(&mut ctx, row);
    drop(ctx);
    is_right
}

/// A clause is found false that comes behind one that implied a literal. Both watch 2, which was not propagated to its
/// end, and go on watching it.
fn false_clause() -> Row {
    Row {
        clauses: &[&[1, 2, 4], &[-2, 3, 4], &[-2, -3, 4], &[-4], &[-1]],
        end: Err(Conflict::Long(ClauseRef::from_offset(12))),
        trail: &[-4, -1, 2, 3],
        reason: Reason::Long(ClauseRef::from_offset(6)),
        watched: &[
            (-1, &[0]),
            (-2, &[0]),
            (2, &[6, 12]),
            (-3, &[6]),
            (3, &[12]),
        ],
    }
}

fn rows() -> [Row; 5] {
    [
        // 1 is false, so that 3 takes its place beside 2.
        Row {
            clauses: &[&[1, 2, 3], &[-1]],
            end: Ok(()),
            trail: &[-1],
            reason: Reason::Unit,
            watched: &[(-1, &[]), (-2, &[0]), (-3, &[0])],
        },
        // 2 is true as 1 becomes false, so that the clause stays as it is.
        Row {
            clauses: &[&[1, 2, 3], &[2], &[-1]],
            end: Ok(()),
            trail: &[2, -1],
            reason: Reason::Unit,
            watched: &[(-1, &[0]), (-2, &[0]), (-3, &[])],
        },
        // The last literal is implied.
        Row {
            clauses: &[&[1, 2, 3], &[-1], &[-2]],
            end: Ok(()),
            trail: &[-1, -2, 3],
            reason: Reason::Long(ClauseRef::from_offset(0)),
            watched: &[(-1, &[]), (-2, &[0]), (-3, &[0])],
        },
        false_clause(),
        // Clauses of two literals are not watched. 2 implies 3 and -3, in the order of adding.
        Row {
            clauses: &[&[1, 2], &[-2, 3], &[-2, -3], &[-1]],
            end: Err(Conflict::Binary([lit!(-3), lit!(-2)])),
            trail: &[-1, 2, 3],
            reason: Reason::Binary([lit!(-2)]),
            watched: &[(-1, &[]), (-2, &[]), (2, &[])],
        },
    ]
}

#[test]
fn watches_are_right_after_propagation(rt: HostRuntime) -> Result<(), StepError> {
    for (place, row) in rows().iter().enumerate() {
        let is_right = holds(rt.alloc(), row)?;
        assert!(rt; is_right, "row {place}");
    }
    Ok(())
}
