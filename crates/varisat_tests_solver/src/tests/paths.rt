//! Each public item of the crate, by the path under which users find it.

/// The items at the root.
pub mod root {
    pub use varisat::{
        CnfFormula, ExtendFormula, Lit, ProofFormat, Solver, Var, cnf, cnf_formula, lit, lits, var,
    };
}

/// Sources and targets of bytes.
pub mod io {
    pub use varisat::io::{
        ByteSource, CutSource, CutTarget, IoTarget, MemoryTarget, ProofTarget, ReadSource,
    };
}

/// Formulas.
pub mod formula {
    pub use varisat::formula::{
        CnfFormula, ExtendFormula, FormulaError, Lit, Var, cnf, cnf_formula, lit, lits, new_lits,
        new_vars, var,
    };
}

/// DIMACS texts.
pub mod dimacs {
    pub use varisat::dimacs::{
        DimacsError, DimacsErrorKind, DimacsParser, PieceReader, write_dimacs,
    };
}

/// Settings.
pub mod config {
    pub use varisat::config::{ConfigError, ConfigField, SolverConfig, SolverConfigUpdate};
}

/// Names, global variables and solver variables.
pub mod variables {
    pub use varisat::variables::{
        Direction, GlobalVars, LinkedVariables, SamplingMode, UserVars, VarBiMap, VarBiMapMut,
        VarData, VarDataMut, VarMap, Variables, global_from_user, initialize_solver_var,
        new_user_var, observe_internal_vars, remove_solver_var, set_sampling_mode,
        solver_from_global, solver_from_user, solver_from_user_lits,
    };
}

/// Proofs.
pub mod proof {
    pub use varisat::proof::{
        MapStep, Proof, ProofFormat, ProofStep, add_clause, add_step, close_proof, flush_proof,
        solve_finished, write_binary_step, write_step,
    };
}

/// The checker of proofs.
pub mod checker {
    pub use varisat::checker::{CheckVerdict, Checker, CheckerError, MarkedReport};
}

/// The store of clauses.
pub mod clause {
    pub use varisat::clause::{
        Clause, ClauseActivity, ClauseAlloc, ClauseDb, ClauseFilter, ClauseHeader, ClauseHeaderMut,
        ClauseMut, ClauseRef, Clauses, StoreError, Tier, add_clause, assess_learned_clause,
        bump_clause, bump_clause_activity, clauses_iter, clear_marks, collect_garbage,
        decay_clause_activities, dedup_and_mark_by_tier, delete_clause, filter_clauses,
        reduce_locals, reduce_mids, set_clause_tier, try_delete_clause,
    };
}

/// The clauses of two literals.
pub mod binary {
    pub use varisat::binary::{BinaryClauses, simplify_binary};
}

/// Propagation and backtracking.
pub mod prop {
    pub use varisat::prop::{
        Assignment, Conflict, ImplGraph, ImplNode, Reason, Trail, Watch, Watchlists, backtrack,
        enable_watchlists, enqueue_assignment, full_restart, propagate, propagate_binary,
        propagate_long, restart,
    };
}

/// One search.
pub mod search {
    pub use varisat::search::{
        AnalyzeConflict, Assumptions, Context, EnqueueAssumption, FoundConflict, LevelAbstraction,
        LubySequence, Model, NoTracer, ProofTracer, SatState, Schedule, SolverState, StepError,
        TmpData, TmpFlags, TraceError, Vsids, analyze_conflict, compute_glue, conflict_step,
        enqueue_assumption, initialize_var, load_clause, make_available, make_decision,
        prove_units, reconstruct_global_model, remove_var, resurrect_unit, schedule_step,
        set_assumptions, set_var_count, unit_simplify,
    };
}

/// The solver.
pub mod solver {
    pub use varisat::solver::{ProofFormat, Solver, SolverError};
}

/// Lists of calls.
pub mod session {
    pub use varisat::session::{Answer, Call, answers_of, run};
}

/// The commands.
pub mod program {
    pub use varisat::program::{
        SolveOptions, check_drat_lines, check_lines, session_lines, solve_lines,
    };
}
