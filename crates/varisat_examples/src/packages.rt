//! Package versions that conflict, and why. Each rule is a clause group of its own, whose literal is assumed. Where the rules
//! fail together, the failed core names those that do; the least wanted of them goes, and the others are tried again.
ghost use Rattle.std.specs.Prelude.{◌<◌};

use anyhow::Result;
use std::alloc::Global;
use varisat::io::MemoryTarget;
use varisat::{Lit, Solver};

/// Packages with their versions. The variable of each says whether it is installed.
const PACKAGES: [&str; 7] = [
    "app 1", "web 1", "web 2", "tls 1", "tls 2", "log 1", "log 2",
];

/// A rule in words, and its clause: places in `PACKAGES`, each with whether it is installed.
type Rule = (&'static str, &'static [(u8, bool)]);

/// The rules, the most wanted first.
const RULES: [Rule; 9] = [
    (
        "tls 1 and tls 2 exclude each other",
        &[(3, false), (4, false)],
    ),
    ("app 1 needs web 2", &[(0, false), (2, true)]),
    (
        "app 1 needs log 1 or log 2",
        &[(0, false), (5, true), (6, true)],
    ),
    ("web 1 needs tls 1", &[(1, false), (3, true)]),
    ("web 2 needs tls 2", &[(2, false), (4, true)]),
    ("log 1 needs tls 1", &[(5, false), (3, true)]),
    ("log 2 needs tls 2", &[(6, false), (4, true)]),
    ("app 1 is to be installed", &[(0, true)]),
    ("log stays at version 1", &[(6, false)]),
];

/// A solver whose proofs, if it wrote any, would be kept in memory.
type PackageSolver = Solver<MemoryTarget<Global>, Global>;

/// Runs the example.
pub fn run(rt: &HostRuntime) -> Result<()> {
    let mut solver = Solver::new_in(rt.alloc());
    let resolved = resolve(rt, &mut solver);
    drop(solver);
    resolved
}

/// Drops rules until the others can be kept together, and prints what is installed then.
fn resolve(rt: &HostRuntime, solver: &mut PackageSolver) -> Result<()> {
    add_rules(rt, solver)?;
    let mut groups = Vec::new(rt.alloc());
    let dropped = drop_rules(rt, solver, &mut groups);
    drop(groups);
    dropped?;
    print_installed(rt, solver)
}

/// Drops rules until the others, whose groups are listed, can be kept together.
fn drop_rules(rt: &HostRuntime, solver: &mut PackageSolver, groups: &mut Vec<Lit>) -> Result<()> {
    for rule in 0..RULES.len() {
        groups.push(group_of(rule))?;
    }
    for _ in 0..RULES.len() {
        solver.assume(groups)?;
        if solver.solve()? {
            break;
        }
        let dropped = explain(rt, solver)?;
        groups.retain(|group| Some(*group) != dropped);
    }
    Ok(())
}

/// The literal that is assumed to have the rule kept.
fn group_of(rule: usize) -> Lit
    requires { rule < 9 }
{
    Lit::from_index(PACKAGES.len() + rule, true)
}

/// Adds each rule to its group: the clause holds where the group's literal is true.
fn add_rules(rt: &HostRuntime, solver: &mut PackageSolver) -> Result<()> {
    for (rule, (_, packages)) in RULES.iter().enumerate() {
        let mut clause = Vec::new(rt.alloc());
        clause.push(!group_of(rule))?;
        for (package, is_installed) in packages.iter() {
            clause.push(Lit::from_index(usize::from(*package), *is_installed))?;
        }
        solver.add_clause(&clause)?;
    }
    Ok(())
}

/// Prints the rules that conflict, and returns the group of the last one of them.
fn explain(rt: &HostRuntime, solver: &PackageSolver) -> Result<Option<Lit>> {
    println!(rt; "These rules conflict:")?;
    let core = solver.failed_core().unwrap_or_default();
    let mut last = None;
    for (rule, (words, _)) in RULES.iter().enumerate() {
        if core.contains(&group_of(rule)) {
            println!(rt; "- {words}")?;
            last = Some(group_of(rule));
        }
    }
    println!(rt; "The last one is dropped.")?;
    Ok(last)
}

/// Prints the packages that are installed in the model.
fn print_installed(rt: &HostRuntime, solver: &PackageSolver) -> Result<()> {
    let Some(model) = solver.model()? else {
        return Ok(());
    };
    println!(rt; "Installed:")?;
    for (place, package) in PACKAGES.iter().enumerate() {
        if model.contains(&Lit::from_index(place, true)) {
            println!(rt; "- {package}")?;
        }
    }
    Ok(())
}
