//! Finds which assumptions can't be true together, once one of them is false when its turn comes.
ghost use Rattle.std.specs.Prelude.{◌≡◌, ◌*◌, ◌++◌, length, replicate, slice_index_or, slice_set, false, OnOk};
ghost use Rattle.varisat_theory.specs.promises.Membership.{◌∈◌};
ghost use Rattle.varisat_theory.specs.promises.Literals.{Literal, opposite};
ghost use Rattle.varisat_theory.specs.promises.Propagation.{IsFalse};
ghost use Rattle.varisat_prop.specs.Changes.{causes_of};
ghost use Rattle.varisat_prop.specs.View.{View, node_of, WellFormed};
ghost use Rattle.varisat_analysis.specs.Learned.{Shows};
ghost use Rattle.varisat_analysis.specs.Marks.{Sees};
ghost use Rattle.varisat_analysis.specs.FailedCores.{ListsFailedCore, FlagsCauses, decided_by};

use crate::analyze_conflict::{Parts, clear_all_flags};
use crate::tmp::TmpFlags;
use std::alloc::{AllocError, Allocator};
use varisat_literals::Lit;
use varisat_prop::clause::ClauseAlloc;
use varisat_prop::prop::{ImplGraph, Reason, Trail};

/// Flags the opposites of false literals, but for those that are true at level 0.
fn flag_causes<A: Allocator + Copy>(parts: Parts<'_, A>, flags: &mut [bool], lits: &[Lit])
    ghost s: { View }
    requires sees { Sees s parts }
    requires flags { length flags.old ≡ 2 * length s.values }
    requires falsified { IsFalse s.trail lits.now }
    ensures { FlagsCauses s lits.now flags.old flags.new }
{
    for lit in lits {
        // What is true at level 0 is so by the clauses alone, without any decision.
        if parts.impl_graph.level(lit.var()) == 0 {
            continue;
        }
        let cause = !*lit;
        flags[cause.code()] = true;
    }
}

/// Lists the literal, unless a clause made it true.
fn list_decided<A: Allocator + Copy>(
    core: &mut Vec<Lit, A>,
    lit: Lit,
    reason: Reason,
) -> Result<(), AllocError>
    ensures { OnOk result (core.new.items ≡ core.old.items ++ decided_by lit reason) }
{
    match reason {
        Reason::Unit => core.push(lit)?,
        Reason::Binary(_) | Reason::Long(_) => {}
    }
    Ok(())
}

/// Takes the flag of a true literal away. Lists the literal if it was decided, and else flags what it was propagated
/// from.
fn pass_flagged<A: Allocator + Copy>(
    parts: Parts<'_, A>,
    core: &mut Vec<Lit, A>,
    flags: &mut [bool],
    lit: Lit,
) -> Result<(), AllocError>
    ghost s: { View }
    requires sees { Sees s parts }
    requires flags { length flags.old ≡ 2 * length s.values }
    requires stands { lit ∈ s.trail }
    ensures listed { OnOk result (core.new.items ≡ core.old.items ++ decided_by lit (node_of s lit).reason) }
    ensures flagged { OnOk result
        (FlagsCauses s (causes_of s.clauses (node_of s lit).reason) (slice_set flags.old lit false) flags.new) }
{
    flags[lit.code()] = false;
    let reason = *parts.impl_graph.reason(lit.var());
    list_decided(core, lit, reason)?;
    flag_causes(parts, flags, reason.lits(parts.clause_alloc));
    Ok(())
}

/// Lists the core, and leaves no flag set.
fn list_core<A: Allocator + Copy>(
    parts: Parts<'_, A>,
    core: &mut Vec<Lit, A>,
    flags: &mut [bool],
    failed: Lit,
) -> Result<(), AllocError>
    ghost s: { View }
    requires sees { Sees s parts }
    requires flags { length flags.old ≡ 2 * length s.values }
    requires false_now { opposite failed ∈ s.trail }
    requires clear { (l : Literal) → slice_index_or flags.old l false ≡ false }
    ensures clear { (l : Literal) → slice_index_or flags.new l false ≡ false }
    ensures core { OnOk result (ListsFailedCore s failed core.new.items) }
{
    core.clear();
    core.push(failed)?;
    flag_causes(parts, flags, &[failed]);
    // A literal is propagated from earlier ones of the trail. So backwards over the trail none is flagged again once it
    // was passed.
    let lits = parts.trail.trail();
    for place in (0..lits.len()).rev() {
        let lit = lits[place];
        if !flags[lit.code()] {
            continue;
        }
        match pass_flagged(parts, core, flags, lit) {
            Ok(()) => {}
            Err(error) => {
                clear_all_flags(flags);
                return Err(error);
            }
        }
    }
    Ok(())
}

/// Lists in `core` the assumption that failed, and the decisions from which propagation came to its opposite. Leaves no
/// flag set. Fails where it is out of memory, and then says nothing of the core.
pub fn analyze_assumption_conflict<A: Allocator + Copy>(
    core: &mut Vec<Lit, A>,
    flags: &mut TmpFlags<A>,
    clause_alloc: &ClauseAlloc<A>,
    impl_graph: &ImplGraph<A>,
    trail: &Trail<A>,
    failed: Lit,
) -> Result<(), AllocError>
    ghost s: { View }
    requires shows { Shows s clause_alloc.now impl_graph.now.nodes.items trail.now }
    requires well { WellFormed s }
    requires false_now { opposite failed ∈ s.trail }
    requires flags { flags.old.flags.items ≡ replicate (2 * length s.values) false }
    ensures flags { flags.new.flags.items ≡ flags.old.flags.items }
    ensures core { OnOk result (ListsFailedCore s failed core.new.items) }
{
    let parts = Parts {
        clause_alloc,
        impl_graph,
        trail,
    };
    list_core(parts, core, &mut flags.flags, failed)?;
    Ok(())
}
