//! All parts of a search.
ghost use Rattle.std.specs.Prelude.{◌≡◌, ℕ, ◌+◌, ◌-◌, ◌^◌, [], length, min, slice_index_or, false, OnOk};
ghost use Rattle.varisat_search.specs.Contexts.{view, IsReady, first_state};
ghost use Rattle.varisat_search.specs.Frames.{ChangesVariables};
ghost use Rattle.varisat_search.specs.AssumptionParts.{no_assumptions};
ghost use Rattle.varisat_search.specs.ContextChanges.{ChangesSettings, CanRaise, AddsUnavailable, IsRaisedTo};
ghost use Rattle.varisat_search.specs.Seen.{search_of, first_search};
ghost use Rattle.varisat_search.specs.Decisions.{IsDecidable, SameDecidable};
ghost use Rattle.varisat_names.specs.promises.Settings.{default_settings};
ghost use Rattle.varisat_prop.specs.Parts.{top_level_count};
ghost use Rattle.varisat_schedule.specs.Plans.{first_plan};
ghost use Rattle.varisat_clause.specs.Stores.{no_store};
ghost use Rattle.varisat_vsids.specs.Activities.{no_activities};

use crate::assumptions::Assumptions;
use crate::state::SolverState;
use std::alloc::{AllocError, Allocator};
use varisat_analysis::analyze_conflict::AnalyzeConflict;
use varisat_analysis::tmp::{TmpData, TmpFlags};
use varisat_clause::activity::ClauseActivity;
use varisat_clause::db::ClauseDb;
use varisat_names::config::{ConfigError, SolverConfig, SolverConfigUpdate};
use varisat_prop::binary::BinaryClauses;
use varisat_prop::clause::ClauseAlloc;
use varisat_prop::prop::{Assignment, ImplGraph, Trail, Watchlists};
use varisat_schedule::counters::Counters;
use varisat_schedule::schedule::Schedule;
use varisat_vsids::Vsids;

/// The parts of a search, each under the name of its type.
#[derive(Drop)]
pub struct Context<A: Allocator + Copy> {
    pub analyze_conflict: AnalyzeConflict<A>,
    pub assignment: Assignment<A>,
    pub assumptions: Assumptions<A>,
    pub binary_clauses: BinaryClauses<A>,
    pub clause_activity: ClauseActivity,
    pub clause_alloc: ClauseAlloc<A>,
    pub clause_db: ClauseDb<A>,
    pub counters: Counters,
    pub impl_graph: ImplGraph<A>,
    pub schedule: Schedule,
    pub solver_config: SolverConfig,
    pub solver_state: SolverState,
    pub tmp_data: TmpData<A>,
    pub tmp_flags: TmpFlags<A>,
    pub trail: Trail<A>,
    pub vsids: Vsids<A>,
    pub watchlists: Watchlists<A>,
}

impl<A: Allocator + Copy> Context<A> {
    /// A search without variables and clauses, which made no step. It takes no memory.
    pub fn new_in(alloc: A) -> Context<A>
        ensures ready { IsReady result }
        ensures undecided { result.trail.decisions ≡ [] }
        ensures seen { search_of (view result) ≡ first_search }
        ensures empty { length result.assignment.current ≡ 0 }
        ensures unstored { result.clause_alloc ≡ no_store }
        ensures state { result.solver_state ≡ first_state }
        ensures schedule { result.schedule ≡ first_plan }
        ensures assumptions { result.assumptions ≡ no_assumptions }
        ensures config { result.solver_config ≡ default_settings }
        ensures activities { result.vsids ≡ no_activities }
        ensures none_decidable { (v : ℕ) → IsDecidable (view result) result.vsids v → ⊥ }
    {
        Context {
            analyze_conflict: AnalyzeConflict::new_in(alloc),
            assignment: Assignment::new_in(alloc),
            assumptions: Assumptions::new_in(alloc),
            binary_clauses: BinaryClauses::new_in(alloc),
            clause_activity: ClauseActivity::new(),
            clause_alloc: ClauseAlloc::new_in(alloc),
            clause_db: ClauseDb::new_in(alloc),
            counters: Counters::default(),
            impl_graph: ImplGraph::new_in(alloc),
            schedule: Schedule::new(),
            solver_config: SolverConfig::new(),
            solver_state: SolverState::default(),
            tmp_data: TmpData::new_in(alloc),
            tmp_flags: TmpFlags::new_in(alloc),
            trail: Trail::new_in(alloc),
            vsids: Vsids::new_in(alloc),
            watchlists: Watchlists::new_in(alloc),
        }
    }

    /// How many literals became true at level 0: those of the trail, and those that left it with their variables.
    pub fn top_level_assignment_count(&self) -> u64
        ensures { result ≡ min (top_level_count self.now.trail + self.now.counters.removed_units) (2 ^ 64 - 1) }
    {
        let standing = self.trail.top_level_assignment_count() as u64;
        standing.saturating_add(self.counters.removed_units)
    }

    /// Changes the settings for which there are values. If some value is out of its range, the first such setting is
    /// returned and nothing changes. Another scale of the restarts counts from the next restart that is planned, and
    /// other decays of the activities of variables and of clauses from the next conflict.
    pub fn config_changed(&mut self, update: &SolverConfigUpdate) -> Result<(), ConfigError>
        ensures changed { ChangesSettings update.now self.old self.new result }
        ensures ready { IsReady self.old → IsReady self.new }
        ensures decidable { SameDecidable (view self.old) self.old.vsids (view self.new) self.new.vsids }
    {
        update.apply(&mut self.solver_config)?;
        if update.vsids_decay.is_some() {
            self.vsids.set_decay(self.solver_config.vsids_decay());
        }
        if update.clause_activity_decay.is_some() {
            self.clause_activity
                .set_decay(self.solver_config.clause_activity_decay() as u32);
        }
        Ok(())
    }
}

/// Raises the count of variables. The new ones have no value, had the value false, and are not available for decisions.
/// A refused growth forgets no value that was remembered.
#[cold]
#[inline(never)]
pub fn set_var_count<A: Allocator + Copy>(
    ctx: &mut Context<A>,
    count: usize,
) -> Result<(), AllocError>
    requires { CanRaise count ctx.old }
    ensures raised { OnOk result (IsRaisedTo count ctx.old ctx.new) }
    ensures remembered { (v : ℕ) →
        slice_index_or ctx.new.assignment.last v false ≡ slice_index_or ctx.old.assignment.last v false }
    ensures added { OnOk result (AddsUnavailable count ctx.old ctx.new) }
    ensures frame { ChangesVariables ctx.old ctx.new }
{
    ctx.analyze_conflict.set_var_count(count)?;
    ctx.assignment.set_var_count(count)?;
    ctx.binary_clauses.set_var_count(count)?;
    ctx.impl_graph.set_var_count(count)?;
    ctx.tmp_flags.set_var_count(count)?;
    ctx.vsids.set_var_count(count)?;
    ctx.watchlists.set_var_count(count)?;
    Ok(())
}
