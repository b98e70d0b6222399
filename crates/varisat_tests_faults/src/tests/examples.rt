//! Worked examples of calls that no session makes, of which each growth of memory is refused in turn.
ghost use Rattle.std.specs.Prelude.{◌≡◌};
ghost use Rattle.varisat_clause.specs.Databases.{Tracks};

use std::alloc::{AllocError, Allocator, Global};
use varisat::clause::{ClauseAlloc, ClauseDb, ClauseHeader, StoreError, add_clause, delete_clause};
use varisat::dimacs::write_dimacs;
use varisat::formula::CnfFormula;
use varisat::io::MemoryTarget;
use varisat::proof::{ProofStep, write_binary_step, write_step};
use varisat::session::{Call, run};
use varisat::solver::Solver;
use varisat_clause::collect::collect_garbage;
use varisat_formula::cnf_formula;
use varisat_formula::io::CutSource;
use varisat_literals::lits;
use varisat_tests_heap::CutHeap;

/// What an example came to: all was as it should be, or memory was wanted where that is told, or neither.
#[derive(Clone, Copy, Debug, PartialEq, Eq)]
enum Came {
    Whole,
    Short,
    Wrong,
}

fn whole_if(is_right: bool) -> Came {
    if is_right { Came::Whole } else { Came::Wrong }
}

fn short_if(is_right: bool) -> Came {
    if is_right { Came::Short } else { Came::Wrong }
}

/// The examples.
#[derive(Clone, Copy, Debug)]
enum Example {
    /// A step is written as text, or in the binary format.
    Step(bool),
    /// Two of three clauses are deleted and collected.
    Store,
    /// A formula is written as a text.
    Text,
    /// A call that takes no memory is run.
    Run,
}

const EXAMPLES: [Example; 5] = [
    Example::Step(false),
    Example::Step(true),
    Example::Store,
    Example::Text,
    Example::Run,
];

// Writes a step. A target that fails has a beginning of its bytes.
fn write<A: Allocator + Copy>(
    target: &mut MemoryTarget<A>,
    line: &mut Vec<u8, A>,
    is_binary: bool,
) -> Came
    requires { target.old.faults ≡ 0 }
{
    let clause = lits![1, -2];
    let step = ProofStep::AtClause { clause: &clause };
    let (written, wanted) = if is_binary {
        let wanted = b"\x61\x02\x05\x00".as_slice();
        (write_binary_step(target, line, &step), wanted)
    } else {
        (write_step(target, line, &step), b"1 -2 0\n".as_slice())
    };
    match written {
        Ok(()) => whole_if(target.bytes() == wanted),
        Err(_) => short_if(wanted.starts_with(target.bytes())),
    }
}

fn write_in<A: Allocator + Copy>(heap: A, is_binary: bool) -> Came {
    let mut line: Vec<u8, A> = Vec::new(heap);
    let mut target = MemoryTarget::new_in(heap);
    let came = write(&mut target, &mut line, is_binary);
    drop(target);
    came
}

// Deletes the clause of the index, if there is one that is not deleted.
fn delete<A: Allocator + Copy>(alloc: &mut ClauseAlloc<A>, db: &mut ClauseDb<A>, index: usize)
    requires { Tracks db.old alloc.old }
    ensures { Tracks db.new alloc.new }
{
    if index < alloc.len() {
        let cref = alloc.place(index);
        if !alloc.header(cref).deleted() {
            delete_clause(alloc, db, cref);
        }
    }
}

// Collects the garbage where that is due, and says whether it was.
fn collect<A: Allocator + Copy>(
    alloc: &mut ClauseAlloc<A>,
    db: &mut ClauseDb<A>,
) -> Result<bool, AllocError>
    requires { Tracks db.old alloc.old }
    ensures { Tracks db.new alloc.new }
{
    let done = collect_garbage(alloc, db)?;
    Ok(done)
}

fn add_three<A: Allocator + Copy>(
    alloc: &mut ClauseAlloc<A>,
    db: &mut ClauseDb<A>,
) -> Result<(), StoreError>
    requires { Tracks db.old alloc.old }
    ensures { Tracks db.new alloc.new }
{
    let header = ClauseHeader::new();
    add_clause(alloc, db, header, &lits![1, 2, 3])?;
    add_clause(alloc, db, header, &lits![1, 2, 4])?;
    add_clause(alloc, db, header, &lits![1, 2, 5])?;
    Ok(())
}

// Six words of 18 are garbage, and nothing is collected; then 12 are. A collection that is refused changes nothing.
fn store<A: Allocator + Copy>(alloc: &mut ClauseAlloc<A>, db: &mut ClauseDb<A>) -> Came
    requires { Tracks db.old alloc.old }
{
    if add_three(alloc, db).is_err() {
        return short_if(alloc.len() < 3);
    }
    delete(alloc, db, 0);
    if collect(alloc, db) != Ok(false) || alloc.buffer_size() != 18 {
        return Came::Wrong;
    }
    delete(alloc, db, 1);
    match collect(alloc, db) {
        Ok(is_collected) => whole_if(is_collected & (alloc.buffer_size() == 6)),
        Err(_) => short_if((alloc.buffer_size() == 18) & (db.garbage() == 12)),
    }
}

fn store_in<A: Allocator + Copy>(heap: A) -> Came {
    let mut alloc = ClauseAlloc::new_in(heap);
    let mut db = ClauseDb::new_in(heap);
    let came = store(&mut alloc, &mut db);
    drop(alloc);
    drop(db);
    came
}

// A target that fails has a beginning of the text.
fn write_text<A: Allocator + Copy>(
    target: &mut MemoryTarget<A>,
    formula: &mut CnfFormula<Global>,
) -> Came
    requires { target.old.faults ≡ 0 }
{
    let wanted = b"p cnf 3 2\n1 -2 0\n0\n".as_slice();
    formula.set_var_count(3);
    match write_dimacs(target, formula) {
        Ok(()) => whole_if(target.bytes() == wanted),
        Err(_) => short_if(wanted.starts_with(target.bytes())),
    }
}

fn write_text_in<A: Allocator + Copy>(alloc: Global, heap: A) -> Came {
    let Ok(mut formula) = cnf_formula!(in alloc; 1, -2; ;) else {
        return Came::Wrong;
    };
    let mut target = MemoryTarget::new_in(heap);
    let came = write_text(&mut target, &mut formula);
    drop(target);
    came
}

// Where the list of answers is refused the call is not made.
fn run_calls<A: Allocator + Copy>(solver: &mut Solver<MemoryTarget<A>, A>, heap: A) -> Came {
    let mut calls: Vec<Call<MemoryTarget<A>, CutSource<'static>, A>, A> = Vec::new(heap);
    if calls.push(Call::EnableSelfChecking).is_err() {
        return Came::Short;
    }
    match run(solver, calls) {
        Ok(answers) => whole_if(answers.len() == 1 && solver.checker().is_some()),
        Err(_) => short_if(solver.checker().is_none()),
    }
}

fn run_calls_in<A: Allocator + Copy>(heap: A) -> Came {
    let mut solver = Solver::new_in(heap);
    let came = run_calls(&mut solver, heap);
    drop(solver);
    came
}

fn come_to<A: Allocator + Copy>(alloc: Global, heap: A, example: Example) -> Came {
    match example {
        Example::Step(is_binary) => write_in(heap, is_binary),
        Example::Store => store_in(heap),
        Example::Text => write_text_in(alloc, heap),
        Example::Run => run_calls_in(heap),
    }
}

// How many growths of the example may be refused, each of which is reported.
fn sweep(alloc: Global, example: Example) -> Option<u64> {
    let heap = CutHeap::new(alloc);
    for number in 1..1000 {
        heap.refuse(number);
        let came = come_to(alloc, &heap, example);
        if heap.growths() < number {
            return (came == Came::Whole).then_some(number - 1);
        }
        if came != Came::Short {
            return None;
        }
    }
    None
}

#[test]
fn each_growth_of_an_example_is_told(rt: HostRuntime) {
    for example in EXAMPLES {
        let swept = sweep(rt.alloc(), example);
        assert!(rt; matches!(swept, Some(1..)), "{example:?} {swept:?}");
        println!(rt; "{swept:?}").unwrap_or(());
    }
}
