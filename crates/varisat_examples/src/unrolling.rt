//! Bounded model checking of a step that is simplified once. A counter of six bits begins at 3, and each step adds 1 or doubles
//! it. After how many steps can it first be 45? The gates of a step are resolved away, its states are frozen, and each moment
//! gets a copy of what is left.
ghost use Rattle.std.specs.Prelude.{◌<◌, ◌≤◌};

use anyhow::Result;
use std::alloc::Global;
use varisat::io::MemoryTarget;
use varisat::{CnfFormula, Lit, Solver};
use varisat_simplify::simplify::{Simplified, simplify};

/// How many bits the counter has.
const BITS: u8 = 6;

/// Where the counter begins.
const FIRST: u8 = 3;

/// The value that is looked for.
const BAD: u8 = 45;

/// How many steps are tried.
const BOUND: u8 = 20;

/// Of a step's variables the first are the counter's bits before it. This one says whether the step doubles.
const DOUBLES: u8 = 6;

/// This one is false.
const NOTHING: u8 = 7;

/// These are carried when 1 is added.
const CARRY: u8 = 8;

/// These are the sum's bits.
const SUM: u8 = 14;

/// These are the counter's bits behind the step: the first variables of the next moment.
const NEXT: u8 = 20;

/// How many variables a step has.
const WIDTH: usize = 26;

/// A solver whose proofs, if it wrote any, would be kept in memory.
type UnrollingSolver = Solver<MemoryTarget<Global>, Global>;

/// Runs the example.
pub fn run(rt: &HostRuntime) -> Result<()> {
    let mut solver = Solver::new_in(rt.alloc());
    let told = print_answer(rt, &mut solver);
    drop(solver);
    told
}

/// Simplifies a step, and tells what comes of it.
fn print_answer(rt: &HostRuntime, solver: &mut UnrollingSolver) -> Result<()> {
    let step = step_formula(rt.alloc())?;
    let clauses = step.len();
    let simplified = simplify(rt.alloc(), step, &frozen())?;
    let told = print_bad(rt, solver, clauses, &simplified);
    drop(simplified);
    told
}

/// Tells what is left of a step of so many clauses, after how many steps the counter can be bad, and by which.
fn print_bad(
    rt: &HostRuntime,
    solver: &mut UnrollingSolver,
    clauses: usize,
    step: &Simplified<Global>,
) -> Result<()> {
    let is_less = step.formula.len() < clauses;
    println!(rt; "fewer than {clauses} clauses of a step are left: {is_less}")?;
    match find_bad(rt.alloc(), solver, &step.formula)? {
        Some(bound) => {
            println!(rt; "{BAD} is reached after {bound} steps")?;
            print_trace(rt, solver, step, bound)
        }
        None => Ok(println!(rt; "{BAD} is not reached within {BOUND} steps")?),
    }
}

/// Flags the variables of a step that other steps name too.
fn frozen() -> [bool; 26] {
    let mut flags = [false; 26];
    for bit in 0..BITS {
        flags[usize::from(bit)] = true;
        flags[usize::from(NEXT + bit)] = true;
    }
    flags
}

/// The literal of a variable of a step.
fn local(variable: u8) -> Lit {
    Lit::from_index(usize::from(variable), true)
}

/// The gates of a step: the sum, and the choice between it and the bits one place up.
fn step_formula(alloc: Global) -> Result<CnfFormula<Global>> {
    let mut step = CnfFormula::new_in(alloc);
    add_gates(&mut step)?;
    Ok(step)
}

/// Adds them.
fn add_gates(step: &mut CnfFormula<Global>) -> Result<()> {
    step.add_clause(&[!local(NOTHING)])?;
    step.add_clause(&[local(CARRY)])?;
    for bit in 0..BITS {
        let now = local(bit);
        let sum = local(SUM + bit);
        let below = if bit == 0 {
            local(NOTHING)
        } else {
            local(bit - 1)
        };
        add_exclusive(step, sum, now, local(CARRY + bit))?;
        if bit + 1 < BITS {
            add_both(step, local(CARRY + bit + 1), now, local(CARRY + bit))?;
        }
        add_choice(step, local(NEXT + bit), below, sum)?;
    }
    Ok(())
}

/// The gate is true where just one of the inputs is.
fn add_exclusive(step: &mut CnfFormula<Global>, gate: Lit, a: Lit, b: Lit) -> Result<()> {
    step.add_clause(&[!gate, a, b])?;
    step.add_clause(&[!gate, !a, !b])?;
    step.add_clause(&[gate, !a, b])?;
    step.add_clause(&[gate, a, !b])?;
    Ok(())
}

/// The gate is true where both inputs are.
fn add_both(step: &mut CnfFormula<Global>, gate: Lit, a: Lit, b: Lit) -> Result<()> {
    step.add_clause(&[!gate, a])?;
    step.add_clause(&[!gate, b])?;
    step.add_clause(&[gate, !a, !b])?;
    Ok(())
}

/// The gate is the first input where the step doubles, and else the second.
fn add_choice(step: &mut CnfFormula<Global>, gate: Lit, a: Lit, b: Lit) -> Result<()> {
    let doubles = local(DOUBLES);
    step.add_clause(&[!doubles, !gate, a])?;
    step.add_clause(&[!doubles, gate, !a])?;
    step.add_clause(&[doubles, !gate, b])?;
    step.add_clause(&[doubles, gate, !b])?;
    Ok(())
}

/// The least number of steps after which the counter can be bad, of which each is a copy of what is left of one.
fn find_bad(
    alloc: Global,
    solver: &mut UnrollingSolver,
    step: &CnfFormula<Global>,
) -> Result<Option<u8>> {
    for literal in has_value(0, FIRST) {
        solver.add_clause(&[literal])?;
    }
    for moment in 0..=BOUND {
        solver.assume(&has_value(moment, BAD))?;
        if solver.solve()? {
            return Ok(Some(moment));
        }
        add_step(alloc, solver, step, moment)?;
    }
    Ok(None)
}

/// Adds the clauses of the step from the moment.
fn add_step(
    alloc: Global,
    solver: &mut UnrollingSolver,
    step: &CnfFormula<Global>,
    moment: u8,
) -> Result<()> {
    for clause in step.iter() {
        let mut copy = Vec::new(alloc);
        for literal in clause {
            copy.push(literal_at(moment, *literal))?;
        }
        solver.add_clause(&copy)?;
    }
    Ok(())
}

/// The literals that are true where the counter has the value at the moment.
fn has_value(moment: u8, value: u8) -> [Lit; 6] {
    [
        bit_at(moment, 0, value % 2 == 1),
        bit_at(moment, 1, value / 2 % 2 == 1),
        bit_at(moment, 2, value / 4 % 2 == 1),
        bit_at(moment, 3, value / 8 % 2 == 1),
        bit_at(moment, 4, value / 16 % 2 == 1),
        bit_at(moment, 5, value / 32 % 2 == 1),
    ]
}

/// The literal of a bit of the counter at the moment.
fn bit_at(moment: u8, bit: u8, is_true: bool) -> Lit {
    literal_at(moment, Lit::from_index(usize::from(bit), is_true))
}

/// What a literal of a step is called where the step begins at the moment. No step names a higher variable than the last.
fn literal_at(moment: u8, literal: Lit) -> Lit {
    let variable = literal.index().min(WIDTH - 1);
    Lit::from_index(
        usize::from(moment) * usize::from(NEXT) + variable,
        literal.is_positive(),
    )
}

/// Prints the values of the counter in the model, and what each step does: the variable for that was resolved away.
fn print_trace(
    rt: &HostRuntime,
    solver: &UnrollingSolver,
    step: &Simplified<Global>,
    bound: u8,
) -> Result<()> {
    let Some(model) = solver.model()? else {
        return Ok(());
    };
    for moment in 0..bound {
        let mut values = [false; 26];
        for (variable, value) in values.iter_mut().enumerate() {
            *value = model.contains(&literal_at(moment, Lit::from_index(variable, true)));
        }
        step.extend_model(&mut values);
        let action = if values[usize::from(DOUBLES)] {
            "doubles"
        } else {
            "adds 1"
        };
        println!(rt; "{}: {action}", value_of(&values))?;
    }
    Ok(())
}

/// The value of the counter before a step.
fn value_of(values: &[bool]) -> u8 {
    let mut value: u8 = 0;
    for bit in 0..BITS {
        if let Some(true) = values.get(usize::from(bit)) {
            value |= 1 << bit;
        }
    }
    value
}
