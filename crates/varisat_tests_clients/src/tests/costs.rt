//! MaxSAT: how texts are read, where a fault is, that an optimum is found, and each growth refused.

use std::alloc::{Allocator, Global};
use varisat_formula::io::MemoryTarget;
use varisat_maxsat::{MaxSatError, optimize};
use varisat_tests_heap::CutHeap;
use varisat_wcnf::program::solve_lines;
use varisat_wcnf::wcnf::{WcnfFault, parse};

/// What a text comes to.
#[derive(Clone, Copy, PartialEq, Eq)]
enum End {
    Cost(u64),
    NoModel,
    Refused(MaxSatError),
    Fault(u64, WcnfFault),
}

fn solved<A: Allocator + Copy>(alloc: A, text: &str) -> End {
    let problem = match parse(text.as_bytes(), alloc) {
        Ok(problem) => problem,
        Err(error) => return End::Fault(error.line, error.fault),
    };
    match optimize(&problem, alloc) {
        Ok(Some(optimum)) => End::Cost(optimum.cost),
        Ok(None) => End::NoModel,
        Err(error) => End::Refused(error),
    }
}

// By hand: one of two is false, and either costs 3 or 4; clauses that nothing satisfies cost what they weigh.
#[test]
fn both_formats_are_read(rt: HostRuntime) {
    let alloc = rt.alloc();
    assert!(rt; solved(alloc, "") == End::Cost(0));
    assert!(rt; solved(alloc, "h 0\n") == End::NoModel);
    assert!(rt; solved(alloc, "h 1 0\nh -1 0\n7 2 0\n") == End::NoModel);
    assert!(rt; solved(alloc, "c\nh -1 -2 0\n3 1 0\n4 2 0\n") == End::Cost(3));
    assert!(rt; solved(alloc, "p wcnf 2 3 9\n9 -1 -2 0\n3 1 0\n4 2 0\n") == End::Cost(3));
    assert!(rt; solved(alloc, "p wcnf 2 3\n9 -1 -2 0\n3 1 0\n4 2 0\n") == End::Cost(3));
    assert!(rt; solved(alloc, "5 0\n2 1 0\n2 -1 0\n2 1 1 0\n0 -1 0") == End::Cost(7));
}

// By hand: of the literals, three are true at least.
#[test]
fn a_core_of_many_is_counted(rt: HostRuntime) {
    let text =
        "h 1 2 3 0\nh 4 5 0\nh 6 7 0\nh -1 8 0\nh -2 8 0\nh -3 8 0\n2 -1 0\n2 -2 0\n2 -3 0\n2 -4 0\n2 -5 0\n2 -6 0\n2 -7 0\n1 -8 0\n";
    assert!(rt; solved(rt.alloc(), text) == End::Cost(7));
}

#[test]
fn the_greatest_costs_are_found_or_refused(rt: HostRuntime) {
    let alloc = rt.alloc();
    assert!(rt; solved(alloc, "18446744073709551615 0\n") == End::Cost(u64::MAX));
    assert!(rt;
        solved(alloc, "18446744073709551615 0\n1 1 0\n1 -1 0\n")
            == End::Refused(MaxSatError::CostOverflow)
    );
}

#[test]
fn a_fault_has_its_line(rt: HostRuntime) {
    let alloc = rt.alloc();
    assert!(rt; solved(alloc, "h 1 0\nx 1 0\n") == End::Fault(2, WcnfFault::Start));
    assert!(rt; solved(alloc, "h 1\n") == End::Fault(1, WcnfFault::End));
    assert!(rt; solved(alloc, "h 1 0 2\n") == End::Fault(1, WcnfFault::End));
    assert!(rt; solved(alloc, "\n\n3 1 y 0\n") == End::Fault(3, WcnfFault::Literal));
    assert!(rt; solved(alloc, "p cnf 1 1\n") == End::Fault(1, WcnfFault::Header));
    assert!(rt;
        solved(alloc, "p wcnf 1 1\n1 1 0\np wcnf 1 1\n") == End::Fault(3, WcnfFault::Header)
    );
    assert!(rt; solved(alloc, "c\nh 1 0\np wcnf 1 1 9\n") == End::Fault(3, WcnfFault::Header));
    assert!(rt; solved(alloc, "h 268435457 0\n") == End::Fault(1, WcnfFault::VariableLimit));
    assert!(rt; solved(alloc, "18446744073709551616 1 0\n") == End::Fault(1, WcnfFault::Start));
}

// Petersen's graph: of each edge a vertex is taken, which costs 1. A search that assumes nothing meets no false clause.
const COVER: &[u8] =
    b"h 1 2 0\nh 2 3 0\nh 3 4 0\nh 4 5 0\nh 5 1 0\nh 6 8 0\nh 8 10 0\nh 10 7 0\nh 7 9 0\nh 9 6 0\nh 1 6 0\nh 2 7 0\nh 3 8 0\nh 4 9 0\nh 5 10 0\n1 -1 0\n1 -2 0\n1 -3 0\n1 -4 0\n1 -5 0\n1 -6 0\n1 -7 0\n1 -8 0\n1 -9 0\n1 -10 0\n";

#[test]
fn the_best_solution_is_printed_where_the_steps_are_spent(rt: HostRuntime) {
    let rows: [(Option<u64>, &[u8], u8); 4] = [
        (Some(0), b"s UNKNOWN\n", 0),
        (Some(1), b"o ", 10),
        (Some(1000), b"o 6\ns OPTIMUM FOUND\n", 30),
        (None, b"o 6\ns OPTIMUM FOUND\n", 30),
    ];
    for (steps, beginning, wanted) in rows {
        let mut out = MemoryTarget::new_in(rt.alloc());
        let status = solve_lines(
            rt.alloc(),
            "cover.wcnf",
            COVER,
            steps,
            &mut out,
            &mut rt.stderr(),
        );
        assert!(rt; status == wanted && out.bytes().starts_with(beginning));
    }
}

const WEIGHTED: &str =
    "h 1 2 3 0\nh -1 -2 0\nh 3 4 0\nh -3 5 0\n3 -1 0\n3 -2 0\n2 -3 0\n4 -4 -5 0\n2 -5 1 0\n1 2 4 0\n";

#[test]
fn each_growth_may_be_refused(rt: HostRuntime) {
    let heap = CutHeap::new(rt.alloc());
    let whole = solved(&heap, WEIGHTED);
    assert!(rt; matches!(whole, End::Cost(_)));
    let growths = heap.growths();
    let mut refused: u64 = 0;
    for number in 1..growths.saturating_add(1) {
        heap.refuse(number);
        let cut = solved(&heap, WEIGHTED);
        if cut == End::Refused(MaxSatError::OutOfMemory)
            || matches!(cut, End::Fault(_, WcnfFault::OutOfMemory))
        {
            refused = refused.saturating_add(1);
        } else {
            assert!(rt; cut == whole);
        }
    }
    assert!(rt; growths > 50 && refused > 50);
}
