//! A SAT solver that is called again and again on one growing formula.
#![tactic(auto)]

pub mod deciding;
pub mod laws;
pub mod line;
pub mod program;
pub mod session;

/// The clauses of two literals.
pub mod binary {
    pub use varisat_prop::binary::BinaryClauses;
    pub use varisat_search::unit_simplify::simplify_binary;
}

/// The store of the clauses of three or more literals: headers, tiers, activities, reductions and the collector.
pub mod clause {
    pub use varisat_clause::activity::{
        ClauseActivity, bump_clause_activity, decay_clause_activities,
    };
    pub use varisat_clause::alloc::{ClauseAlloc, ClauseRef, StoreError};
    pub use varisat_clause::clause::{Clause, ClauseHeaderMut, ClauseMut};
    pub use varisat_clause::db::{
        ClauseDb, add_clause, delete_clause, set_clause_tier, try_delete_clause,
    };
    pub use varisat_clause::filter::{ClauseFilter, filter_clauses};
    pub use varisat_clause::header::{ClauseHeader, Tier};
    pub use varisat_clause::iter::{Clauses, clauses_iter};
    pub use varisat_clause::reduce::{clear_marks, dedup_and_mark_by_tier};
    pub use varisat_search::assess::{assess_learned_clause, bump_clause};
    pub use varisat_search::collect::collect_garbage;
    pub use varisat_search::reduce::{reduce_locals, reduce_mids};
}

/// Formulas, with the variables and literals that they are made of, and the macros that make them.
pub mod formula {
    pub use varisat_formula::formula::{
        Clauses, CnfFormula, ExtendFormula, FormulaError, laws, new_lits, new_vars,
    };
    pub use varisat_formula::{cnf, cnf_formula};
    pub use varisat_literals::{Lit, VARIABLE_LIMIT, Var, lit, lits, var};
}

/// The parts of a search that propagate, and backtracking.
pub mod prop {
    pub use varisat_prop::prop::{
        Assignment, Conflict, ImplGraph, ImplNode, Reason, Trail, Watch, WatchList, Watchlists,
        enable_watchlists, enqueue_assignment, propagate, propagate_binary, propagate_long,
    };
    pub use varisat_search::levels::{backtrack, full_restart, restart};
}

/// One search: learning, deciding, assuming, loading, simplifying, and the steps of its schedule.
pub mod search {
    pub use varisat_schedule::counters::Counters;
    pub use varisat_search::analyze_conflict::{AnalyzeConflict, analyze_conflict};
    pub use varisat_search::assumptions::{
        Assumptions, EnqueueAssumption, enqueue_assumption, set_assumptions,
    };
    pub use varisat_search::cdcl::{FoundConflict, conflict_step};
    pub use varisat_search::context::{Context, set_var_count};
    pub use varisat_search::decision::{
        Vsids, initialize_var, make_available, make_decision, remove_var,
    };
    pub use varisat_search::error::StepError;
    pub use varisat_search::glue::{LevelAbstraction, compute_glue};
    pub use varisat_search::load::{load_clause, resurrect_unit};
    pub use varisat_search::model::{Model, reconstruct_global_model};
    pub use varisat_search::schedule::{LubySequence, Schedule, schedule_step};
    pub use varisat_search::state::{SatState, SolverState};
    pub use varisat_search::tmp::{TmpData, TmpFlags};
    pub use varisat_search::unit_simplify::{prove_units, unit_simplify};
    pub use varisat_steps::{NoTracer, ProofTracer, TraceError};
}

/// The maps between names, global variables and solver variables, and what is kept of global variables.
pub mod variables {
    pub use varisat_names::variables::naming::{
        global_from_user, new_user_var, observe_internal_vars, set_sampling_mode,
    };
    pub use varisat_names::variables::{
        Direction, GlobalVars, LinkedVariables, SamplingMode, UserVars, VarBiMap, VarBiMapMut,
        VarData, VarDataMut, VarMap, Variables,
    };
    pub use varisat_search::solver_variables::{
        initialize_solver_var, remove_solver_var, solver_from_global, solver_from_user,
        solver_from_user_lits,
    };
}

pub use varisat_formula::formula::{CnfFormula, ExtendFormula};
pub use varisat_formula::{cnf, cnf_formula, dimacs, io};
pub use varisat_literals::{Lit, Var, lit, lits, var};
pub use varisat_names::config;
pub use varisat_proof::proof::ProofFormat;
pub use varisat_proof::{checker, proof};
pub use varisat_solver::{Solver, solver};
