//! Sets of levels, to a close approximation, and how many levels a clause has.
ghost use Rattle.std.specs.Prelude.{◌≡◌, ◌≢◌, ℕ, ◌<◌, ◌%◌, ◌↔◌, IsTrue, true, false, length, map, nat_eq, slice_index_or};
ghost use Rattle.std.specs.Set.{distinct_count};
ghost use Rattle.varisat_theory.specs.promises.Membership.{◌∈◌};
ghost use Rattle.varisat_theory.specs.promises.Literals.{Literal, variable_of};
ghost use Rattle.varisat_analysis.specs.Bumps.{level_in};
ghost use Rattle.varisat_analysis.specs.Assessments.{glue_of, CanCount};
ghost use Rattle.varisat_analysis.specs.Levels.{HasLevelBit};

use std::alloc::Allocator;
use std::marker::Model;
use varisat_literals::Lit;
use varisat_prop::prop::ImplGraph;

/// A Bloom filter of levels. It may hold a level that was not added, where that differs from an added one by a multiple
/// of 64.
#[derive(Debug, Drop)]
pub struct LevelAbstraction {
    bits: u64,
}

impl Model for LevelAbstraction {
    ghost use Rattle.std.specs.Prelude.{ℕ};

    ghost Value = { ℕ };

    ghost view = { λ a. a.bits };
}

impl Default for LevelAbstraction {
    ghost use Rattle.std.specs.Prelude.{ℕ};
    ghost use Rattle.varisat_analysis.specs.Levels.{HasLevelBit};

    ghost is_default = { λ a. (level : ℕ) → HasLevelBit a level → ⊥ };

    /// No levels.
    fn default() -> LevelAbstraction {
        LevelAbstraction::new()
    }
}

impl LevelAbstraction {
    /// No levels.
    pub fn new() -> LevelAbstraction
        ensures { (level : ℕ) → HasLevelBit result level → ⊥ }
    {
        LevelAbstraction { bits: 0 }
    }

    /// Adds the level.
    pub fn add(&mut self, level: usize)
        ensures added { HasLevelBit self.new level }
        ensures rest { (other : ℕ) → other % 64 ≢ level % 64 → HasLevelBit self.new other ↔ HasLevelBit self.old other }
    {
        self.bits |= 1 << (level % 64);
    }

    /// Whether the level may have been added.
    pub fn test(&self, level: usize) -> bool
        ensures { IsTrue result ↔ HasLevelBit self.now level }
    {
        self.bits & (1 << (level % 64)) != 0
    }
}

/// Gives each level of the literals a flag, and returns how many there are.
fn flag_levels<A: Allocator + Copy>(
    flags: &mut [bool],
    impl_graph: &ImplGraph<A>,
    lits: &[Lit],
) -> usize
    requires { CanCount impl_graph.now.nodes.items lits.now flags.old }
    ensures count { result ≡ distinct_count nat_eq (map (level_in impl_graph.now.nodes.items) lits.now) }
    ensures only { (n : ℕ) → slice_index_or flags.new n false ≡ true →
        (l : Literal) × (l ∈ lits.now) × (level_in impl_graph.now.nodes.items l ≡ n) }
{
    let mut count = 0;
    for lit in lits {
        let level = impl_graph.level(lit.var());
        // Whether a level was counted before can't be predicted, so that there is no branch on it.
        count += !flags[level] as usize;
        flags[level] = true;
    }
    count
}

/// Takes the flags of the literals' levels away.
fn clear_levels<A: Allocator + Copy>(flags: &mut [bool], impl_graph: &ImplGraph<A>, lits: &[Lit])
    requires known { (l : Literal) → l ∈ lits.now → variable_of l < length impl_graph.now.nodes.items }
    requires room { (l : Literal) → l ∈ lits.now → level_in impl_graph.now.nodes.items l < length flags.old }
    ensures gone { (l : Literal) → l ∈ lits.now →
        slice_index_or flags.new (level_in impl_graph.now.nodes.items l) false ≡ false }
    ensures fewer { (n : ℕ) → slice_index_or flags.new n false ≡ true → slice_index_or flags.old n false ≡ true }
{
    for lit in lits {
        let level = impl_graph.level(lit.var());
        flags[level] = false;
    }
}

/// The glue of the clause: how many levels its literals have, less one. The flags say which levels were counted, so
/// that no memory is taken; all are false again at the end.
pub fn compute_glue<A: Allocator + Copy>(
    flags: &mut [bool],
    impl_graph: &ImplGraph<A>,
    lits: &[Lit],
) -> usize
    requires { CanCount impl_graph.now.nodes.items lits.now flags.old }
    ensures glue { result ≡ glue_of impl_graph.now.nodes.items lits.now }
    ensures flags { flags.new ≡ flags.old }
{
    let count = flag_levels(flags, impl_graph, lits);
    clear_levels(flags, impl_graph, lits);
    count.saturating_sub(1)
}
