//! What the program's `solve` is asked for, and which formulas it simplifies before it searches.
ghost use Rattle.std.specs.Prelude.{◌≡◌, nat_le, false};
ghost use Rattle.varisat_simplify.specs.promises.Simplified.{literal_count};
ghost use Rattle.varisat_solve.specs.promises.Solving.{is_simplified, may_simplify};
ghost use Rattle.varisat_solve.specs.promises.Timing.{options_left};

use std::alloc::Allocator;
use varisat::CnfFormula;
use varisat::deciding::SolveOptions;
use varisat::proof::ProofFormat;

/// A formula with so many literals or more is long. By default the program simplifies such a formula before it searches.
pub const LONG_FROM: usize = 2000;

/// Which formulas are simplified before they are searched.
#[derive(Clone, Copy, Debug)]
pub enum Simplification {
    /// Every formula is simplified.
    Always,
    /// No formula is simplified.
    Never,
    /// A formula is simplified if it has at least `LONG_FROM` literals.
    IfLong,
}

/// How a model that is found is printed.
#[derive(Clone, Copy, Debug)]
pub enum ModelLines {
    /// On one line `v`.
    One,
    /// On lines `v` of at most 78 characters.
    Wrapped,
    /// Not at all.
    Hidden,
}

/// What the program's `solve` is asked for.
#[derive(Clone, Copy, Debug)]
pub struct ProgramOptions {
    /// The limits of the search, and the format of the proof.
    pub search: SolveOptions,
    /// Which formulas are simplified before they are searched. If the proof is marked text, none is.
    pub simplification: Simplification,
    /// Whether it is reported what was counted, and how long each part of the work took.
    pub counts: bool,
    /// How a model that is found is printed.
    pub model_lines: ModelLines,
    /// After how many seconds of CPU time no further step is made, if the time is limited.
    pub max_seconds: Option<u64>,
}

/// Whether these options let any formula be simplified: they do not ask for none, and not for a proof as marked text.
pub fn may_simplify(options: ProgramOptions) -> bool
    ensures { result ≡ may_simplify options }
{
    match options.simplification {
        Simplification::Never => false,
        Simplification::Always | Simplification::IfLong => {
            !matches!(options.search.format, ProofFormat::Marked)
        }
    }
}

/// Whether the formula is read from the text before a solver takes it: where it may be simplified, and where that is timed,
/// or the time is limited. Elsewhere a solver takes the text, and the formula is nowhere else.
pub fn is_parsed_first(options: ProgramOptions) -> bool
    ensures { result ≡ false → may_simplify options ≡ false }
{
    if options.counts || options.max_seconds.is_some() {
        return true;
    }
    may_simplify(options)
}

/// These options; or, once the time is spent, those that let nothing be simplified and no step be made.
pub fn options_left(options: ProgramOptions, is_spent: bool) -> ProgramOptions
    ensures { result ≡ options_left options is_spent }
{
    if !is_spent {
        return options;
    }
    ProgramOptions {
        search: SolveOptions {
            max_steps: Some(0),
            ..options.search
        },
        simplification: Simplification::Never,
        ..options
    }
}

/// Whether the formula is simplified before it is searched.
pub fn is_simplified<A: Allocator + Copy>(options: ProgramOptions, formula: &CnfFormula<A>) -> bool
    ensures { result ≡ is_simplified options formula.now.clauses }
{
    let is_asked = match options.simplification {
        Simplification::Always => true,
        Simplification::Never => false,
        Simplification::IfLong => has_literals(formula, LONG_FROM),
    };
    is_asked && !matches!(options.search.format, ProofFormat::Marked)
}

/// Whether the formula's clauses have at least so many literals. A literal that a clause names twice counts twice.
fn has_literals<A: Allocator + Copy>(formula: &CnfFormula<A>, least: usize) -> bool
    ensures { result ≡ nat_le least (literal_count formula.now.clauses) }
{
    // Nothing is summed up, since no type says that the sum is below 2^64.
    let mut missing = least;
    for clause in formula.iter() {
        if missing <= clause.len() {
            return true;
        }
        missing -= clause.len();
    }
    missing == 0
}
