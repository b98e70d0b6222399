//! Bounded model checking with one solver. A counter of three bits begins at 0, and each step either adds 1 or doubles it,
//! whichever it likes. After how many steps can it first be 6?
ghost use Rattle.std.specs.Prelude.{◌≤◌};

use std::alloc::Global;
use std::io;
use varisat::io::MemoryTarget;
use varisat::solver::SolverError;
use varisat::{Lit, Solver};

/// How many values the counter has.
const VALUES: u8 = 8;

/// The value that is looked for.
const BAD: u8 = 6;

/// How many steps are tried.
const BOUND: u8 = 20;

/// Of a moment's variables 0 to 2 are the counter's bits, and this one says whether the step from there doubles it.
const DOUBLES: u8 = 3;

/// Whether the clauses hold that the counter is bad at the moment.
const GROUP: u8 = 4;

/// A solver whose proofs, if it wrote any, would be kept in memory.
type CounterSolver = Solver<MemoryTarget<Global>, Global>;

/// Runs the example.
pub fn run(rt: &HostRuntime) -> io::Result<()> {
    let mut solver = Solver::new_in(rt.alloc());
    let written = print_answer(rt, &mut solver);
    drop(solver);
    written
}

/// Tells after how many steps the counter can be bad, and how it comes to that.
fn print_answer(rt: &HostRuntime, solver: &mut CounterSolver) -> io::Result<()> {
    match find_bad(solver) {
        Ok(Some(bound)) => {
            println!(rt; "{BAD} is reached after {bound} steps")?;
            print_trace(rt, solver, bound)
        }
        Ok(None) => println!(rt; "{BAD} is not reached within {BOUND} steps"),
        Err(error) => println!(rt; "error: {error}"),
    }
}

/// The least number of steps after which the counter can be bad. Steps are added one by one, and stay. That the counter is
/// bad behind them is only assumed: so what the solver learned for one bound serves the next.
fn find_bad(solver: &mut CounterSolver) -> Result<Option<u8>, SolverError> {
    for literal in has_value(0, 0) {
        solver.add_clause(&[literal])?;
    }
    for moment in 0..=BOUND {
        add_bad(solver, moment)?;
        solver.assume(&[literal_at(moment, GROUP, true)])?;
        if solver.solve()? {
            return Ok(Some(moment));
        }
        add_step(solver, moment)?;
    }
    Ok(None)
}

/// The group of the clauses which say that the counter is bad at the moment, where the group's literal is true.
fn add_bad(solver: &mut CounterSolver, moment: u8) -> Result<(), SolverError> {
    for literal in has_value(moment, BAD) {
        solver.add_clause(&[literal_at(moment, GROUP, false), literal])?;
    }
    Ok(())
}

/// The clauses of a step: behind each value comes the next one, by the choice that is made at the moment.
fn add_step(solver: &mut CounterSolver, moment: u8) -> Result<(), SolverError>
    requires { moment ≤ BOUND }
{
    for value in 0..VALUES {
        for (doubles, next) in [(false, (value + 1) % VALUES), (true, value * 2 % VALUES)] {
            let [a, b, c] = has_value(moment, value);
            let other = literal_at(moment, DOUBLES, !doubles);
            for literal in has_value(moment + 1, next) {
                solver.add_clause(&[!a, !b, !c, other, literal])?;
            }
        }
    }
    Ok(())
}

/// The literals that are true where the counter has the value at the moment.
fn has_value(moment: u8, value: u8) -> [Lit; 3] {
    [
        literal_at(moment, 0, value % 2 == 1),
        literal_at(moment, 1, value / 2 % 2 == 1),
        literal_at(moment, 2, value / 4 % 2 == 1),
    ]
}

/// The literal of one of the five variables of the moment.
fn literal_at(moment: u8, variable: u8, is_true: bool) -> Lit {
    Lit::from_index(usize::from(moment) * 5 + usize::from(variable), is_true)
}

/// Prints the values that the counter has in the model.
fn print_trace(rt: &HostRuntime, solver: &CounterSolver, bound: u8) -> io::Result<()> {
    let Some(model) = solver.model()? else {
        return Ok(());
    };
    for moment in 0..=bound {
        for value in 0..VALUES {
            let [a, b, c] = has_value(moment, value);
            if model.contains(&a) && model.contains(&b) && model.contains(&c) {
                println!(rt; "{moment}: {value}")?;
            }
        }
    }
    Ok(())
}
