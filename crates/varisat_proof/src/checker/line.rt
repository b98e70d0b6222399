//! Which lines a check takes, and what becomes of a line.

/// Which lines a check takes.
#[derive(Clone, Copy)]
pub enum LineRules {
    /// Those that add what follows and delete what is present, and those of marks.
    Strict,
    /// Those of DRAT.
    Drat,
}

/// What becomes of a line.
#[derive(Clone, Copy)]
pub enum LineStatus {
    /// The present clauses, and what was logged, are those after it.
    Taken,
    /// It adds a clause that does not follow, or propagation from its core does not conflict.
    Unproved,
    /// It deletes a clause that is not present.
    Absent,
    /// A literal of its core is not assumed.
    Unassumed,
}
