//! The implication graph: why, at which level and where each variable was assigned.
ghost use Rattle.std.specs.Prelude.{◌≡◌, ◌<◌, ◌≤◌, ◌++◌, ◌-◌, ◌↔◌, ◌^◌, IsTrue, [], length, replicate, slice_index_or, slice_set, OnOk};
ghost use Rattle.varisat_clause.specs.Stores.{IsSound};
ghost use Rattle.varisat_clause.specs.Collected.{live_clauses};
ghost use Rattle.varisat_prop.specs.View.{no_node};
ghost use Rattle.varisat_prop.specs.Changes.{NamesClause, causes_of, NamesPlace, named_in};
ghost use Rattle.varisat_prop.specs.Leaving.{removed_unit};

use crate::clause::{ClauseAlloc, ClauseRef};
use std::alloc::{AllocError, Allocator};
use varisat_literals::{Lit, Var};

/// What made a literal true.
#[derive(Clone, Copy, Debug, PartialEq, Eq)]
pub enum Reason {
    /// A clause of one literal, or a decision.
    Unit,
    /// The kept clause of the literal and this one, which is false.
    Binary([Lit; 1]),
    /// The clause, whose first literal it is and whose others are false.
    Long(ClauseRef),
}

/// What propagation found false.
#[derive(Clone, Copy, Debug, PartialEq, Eq)]
pub enum Conflict {
    /// Both literals of the kept clause are false.
    Binary([Lit; 2]),
    /// All literals of the clause are false.
    Long(ClauseRef),
}

/// Why, at which level and at which place a variable was assigned.
#[derive(Clone, Copy, Debug)]
pub struct ImplNode {
    pub reason: Reason,
    pub level: u32,
    /// How long the trail was with it. The largest number stands for a unit that was taken off the trail.
    pub depth: u32,
}

/// A node for each variable. It says nothing of variables that have no value.
#[derive(Drop)]
pub struct ImplGraph<A: Allocator + Copy> {
    pub nodes: Vec<ImplNode, A>,
}

impl Reason {
    /// Whether no clause made the literal true.
    pub fn is_unit(&self) -> bool
        ensures { IsTrue result ↔ (self.now ≡ Reason.Unit) }
    {
        match self {
            Reason::Unit => true,
            Reason::Binary(_) | Reason::Long(_) => false,
        }
    }

    /// The literals whose being false made the literal true: those of the clause but its first.
    pub fn lits<'a, A: Allocator + Copy>(&'a self, clause_alloc: &'a ClauseAlloc<A>) -> &'a [Lit]
        requires sound { IsSound clause_alloc.now }
        requires clause { NamesClause (live_clauses clause_alloc.now) self.now }
        ensures { result.now ≡ causes_of (live_clauses clause_alloc.now) self.now }
    {
        match self {
            Reason::Unit => &[],
            Reason::Binary(lits) => lits,
            Reason::Long(cref) => &clause_alloc.lits(*cref)[1..],
        }
    }
}

impl Conflict {
    /// The literals of the clause, which are all false.
    pub fn lits<'a, A: Allocator + Copy>(&'a self, clause_alloc: &'a ClauseAlloc<A>) -> &'a [Lit]
        requires sound { IsSound clause_alloc.now }
        requires place { NamesPlace (live_clauses clause_alloc.now) self.now }
        ensures { result.now ≡ named_in (live_clauses clause_alloc.now) self.now }
    {
        match self {
            Conflict::Binary(lits) => lits,
            Conflict::Long(cref) => clause_alloc.lits(*cref),
        }
    }
}

impl<A: Allocator + Copy> ImplGraph<A> {
    /// No nodes. It takes no memory.
    pub fn new_in(alloc: A) -> ImplGraph<A>
        ensures { result.nodes.items ≡ [] }
    {
        ImplGraph {
            nodes: Vec::new(alloc),
        }
    }

    /// Raises the count of variables. The new ones have nodes of reason Unit, level 0 and depth 0.
    pub fn set_var_count(&mut self, count: usize) -> Result<(), AllocError>
        requires { length self.old.nodes.items ≤ count }
        ensures { OnOk result
            (self.new.nodes.items ≡ self.old.nodes.items ++ replicate (count - length self.old.nodes.items) no_node) }
    {
        let node = ImplNode {
            reason: Reason::Unit,
            level: 0,
            depth: 0,
        };
        self.nodes.resize(count, node)?;
        Ok(())
    }

    /// Why the variable was assigned.
    pub fn reason(&self, var: Var) -> &Reason
        requires { var < length self.now.nodes.items }
        ensures { result.now ≡ (slice_index_or self.now.nodes.items var no_node).reason }
    {
        &self.nodes[var.index()].reason
    }

    /// The level at which the variable was assigned.
    pub fn level(&self, var: Var) -> usize
        requires { var < length self.now.nodes.items }
        ensures { result ≡ (slice_index_or self.now.nodes.items var no_node).level }
    {
        self.nodes[var.index()].level as usize
    }

    /// How long the trail was with the variable.
    pub fn depth(&self, var: Var) -> usize
        requires { var < length self.now.nodes.items }
        ensures { result ≡ (slice_index_or self.now.nodes.items var no_node).depth }
    {
        self.nodes[var.index()].depth as usize
    }

    /// Gives the variable another reason.
    pub fn update_reason(&mut self, var: Var, reason: Reason)
        requires { var < length self.old.nodes.items }
        ensures { self.new.nodes.items
            ≡ slice_set self.old.nodes.items var
            (record (slice_index_or self.old.nodes.items var no_node) { reason = reason }) }
    {
        self.nodes[var.index()].reason = reason;
    }

    /// Gives the variable another depth.
    pub fn update_depth(&mut self, var: Var, depth: usize)
        requires known { var < length self.old.nodes.items }
        requires small { depth < 2 ^ 32 }
        ensures { self.new.nodes.items
            ≡ slice_set self.old.nodes.items var
            (record (slice_index_or self.old.nodes.items var no_node) { depth = depth }) }
    {
        self.nodes[var.index()].depth = depth as u32;
    }

    /// Notes that the variable is a unit that was taken off the trail.
    pub fn update_removed_unit(&mut self, var: Var)
        requires { var < length self.old.nodes.items }
        ensures { self.new.nodes.items
            ≡ slice_set self.old.nodes.items var (removed_unit (slice_index_or self.old.nodes.items var no_node)) }
    {
        let node = &mut self.nodes[var.index()];
        node.reason = Reason::Unit;
        node.depth = u32::MAX;
    }

    /// Whether the variable is a unit that was taken off the trail.
    pub fn is_removed_unit(&self, var: Var) -> bool
        requires { var < length self.now.nodes.items }
        ensures { IsTrue result ↔ ((slice_index_or self.now.nodes.items var no_node).depth ≡ 2 ^ 32 - 1) }
    {
        self.nodes[var.index()].depth == u32::MAX
    }
}
