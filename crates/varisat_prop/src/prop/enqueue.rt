//! Making literals true.
ghost use Rattle.std.specs.Prelude.{◌≡◌, ◌<◌, ◌-◌, ◌^◌, length, OnOk};
ghost use Rattle.varisat_prop.specs.Changes.{IsAssignable, Enqueues};

use crate::prop::assignment::Assignment;
use crate::prop::graph::{ImplGraph, ImplNode, Reason};
use crate::prop::trail::Trail;
use std::alloc::{AllocError, Allocator};
use varisat_literals::Lit;

/// Makes the literal of a variable without a value true, at the current level and for the reason.
pub fn enqueue_assignment<A: Allocator + Copy>(
    assignment: &mut Assignment<A>,
    impl_graph: &mut ImplGraph<A>,
    trail: &mut Trail<A>,
    lit: Lit,
    reason: Reason,
) -> Result<(), AllocError>
    requires assignable { IsAssignable assignment.old.current impl_graph.old.nodes.items lit }
    // The literal's level and depth fit its node.
    requires level { length trail.old.decisions < 2 ^ 32 }
    requires depth { length trail.old.literals < 2 ^ 32 - 1 }
    ensures view { OnOk result
        (Enqueues assignment.old assignment.new trail.old trail.new impl_graph.old impl_graph.new lit reason) }
    ensures last { OnOk result (assignment.new.last ≡ assignment.old.last) }
{
    trail.push(lit)?;
    assignment.assign_lit(lit);
    impl_graph.nodes[lit.index()] = ImplNode {
        reason,
        level: trail.current_level() as u32,
        depth: trail.trail().len() as u32,
    };
    Ok(())
}
