//! How far a search is, in columns with a head, as other solvers report it.
use std::alloc::Allocator;
use std::io::{self, Write};
use varisat_literals::Var;
use varisat_names::variables::VarMap;
use varisat_schedule::counters::Counters;

/// How large a search is: how many of its variables no unit fixes, and how many clauses it has, those of two literals
/// and then the longer ones by tier.
#[derive(Clone, Copy, Debug)]
pub(crate) struct SearchSize {
    pub(crate) variables: usize,
    pub(crate) binary: usize,
    pub(crate) irred: usize,
    pub(crate) core: usize,
    pub(crate) mid: usize,
    pub(crate) local: usize,
}

/// How many variables are mapped.
pub(crate) fn count_mapped<A: Allocator + Copy>(map: &VarMap<A>) -> usize {
    map.prove_small();
    let mut count: usize = 0;
    for index in 0..map.watermark() {
        if map.get(Var::from_index(index)).is_some() {
            count = count.saturating_add(1);
        }
    }
    count
}

/// Writes the heads of the columns. Programs that read the output of solvers take a line that begins with `c` for a
/// comment.
pub(crate) fn write_head<E: Write>(err: &mut E) -> io::Result<()> {
    writeln!(
        err,
        "c      steps  conflicts  decisions propagations restarts variables   binary    irred    core     mid   local"
    )
}

/// Writes what was counted so far, below the heads.
pub(crate) fn write_row<E: Write>(
    err: &mut E,
    steps: u64,
    counters: &Counters,
    size: &SearchSize,
) -> io::Result<()> {
    let Counters {
        conflicts,
        decisions,
        propagations,
        restarts,
        ..
    } = *counters;
    let SearchSize {
        variables,
        binary,
        irred,
        core,
        mid,
        local,
    } = *size;
    write!(
        err,
        "c {steps:>10} {conflicts:>10} {decisions:>10} {propagations:>12} {restarts:>8}"
    )?;
    writeln!(
        err,
        " {variables:>9} {binary:>8} {irred:>8} {core:>7} {mid:>7} {local:>7}"
    )
}

/// Writes all that was counted, a number a line.
pub(crate) fn write_summary<E: Write>(
    err: &mut E,
    steps: u64,
    counters: &Counters,
) -> io::Result<()> {
    let rows = [
        ("steps", steps),
        ("conflicts", counters.conflicts),
        ("decisions", counters.decisions),
        ("propagations", counters.propagations),
        ("restarts", counters.restarts),
        ("learned literals", counters.learned_literals),
        ("deleted clauses", counters.deleted_clauses),
        ("collections", counters.collections),
    ];
    for (name, count) in rows {
        writeln!(err, "c {name:<16} {count:>14}")?;
    }
    Ok(())
}
