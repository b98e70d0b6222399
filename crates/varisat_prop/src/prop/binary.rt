//! Propagation of clauses of two literals.
ghost use Rattle.std.specs.Prelude.{◌<◌, length, OnOk, IfOk};
ghost use Rattle.varisat_prop.specs.Parts.{IsMadeTrue};
ghost use Rattle.varisat_prop.specs.View.{view_of, WellFormed};
ghost use Rattle.varisat_prop.specs.QueueSteps.{EndsPropagation, HasImplied, PartsPropagate, PartsKeep};

use crate::binary::BinaryClauses;
use crate::clause::ClauseAlloc;
use crate::prop::assignment::Assignment;
use crate::prop::enqueue::enqueue_assignment;
use crate::prop::graph::{Conflict, ImplGraph, Reason};
use crate::prop::trail::Trail;
use std::alloc::{AllocError, Allocator};
use varisat_literals::Lit;

/// Makes true what the literal implies, which became true.
pub fn propagate_binary<A: Allocator + Copy>(
    assignment: &mut Assignment<A>,
    alloc: &ClauseAlloc<A>,
    graph: &mut ImplGraph<A>,
    trail: &mut Trail<A>,
    binary: &BinaryClauses<A>,
    lit: Lit,
) -> Result<Result<(), Conflict>, AllocError>
    requires well { WellFormed (view_of alloc.now binary.now assignment.old trail.old graph.old) }
    requires is_true { IsMadeTrue assignment.old.current lit }
    requires listed { lit < length binary.now }
    ensures propagates { OnOk result
        (PartsPropagate alloc.now alloc.now binary.now assignment.old assignment.new trail.old trail.new
        graph.old graph.new) }
    ensures keeps { OnOk result
        (PartsKeep alloc.now alloc.now binary.now assignment.old assignment.new trail.old trail.new
        graph.old graph.new) }
    ensures ends { IfOk result
        (EndsPropagation (HasImplied lit) (view_of alloc.now binary.now assignment.new trail.new graph.new)) }
{
    for entry in binary.implied(lit) {
        let implied = *entry;
        if assignment.lit_is_false(implied) {
            return Ok(Err(Conflict::Binary([implied, !lit])));
        }
        if assignment.lit_is_true(implied) {
            continue;
        }
        enqueue_assignment(assignment, graph, trail, implied, Reason::Binary([!lit]))?;
    }
    Ok(Ok(()))
}
