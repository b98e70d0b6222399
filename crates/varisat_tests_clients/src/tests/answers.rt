//! What a client is answered, asked a few things in turn.
use Call::{Add, Assume, Begin, HasFailed, LimitSteps, Search, Value};
use linked_list_allocator::LocalHeap;
use std::alloc::{AllocError, Allocator, Global};
use varisat_client::client::{Client, SearchEnd};
use varisat_client::refusal::Refusal;
use varisat_client::session::{Answer, Call, answers_of, make_call};

// An answer as a number: the ends of searches and why calls are refused as a C program is given them.
fn number_of(answer: Answer) -> i32 {
    match answer {
        Answer::Done => 0,
        Answer::Prepared(is_part) => is_part as i32,
        Answer::Search(SearchEnd::Satisfiable) => 10,
        Answer::Search(SearchEnd::Unsatisfiable) => 20,
        Answer::Search(SearchEnd::Interrupted) => 0,
        Answer::Search(SearchEnd::Refused) => 1,
        Answer::Value(number) => number,
        Answer::HasFailed(has_failed) => has_failed as i32,
        Answer::Refusal(None) => 0,
        Answer::Refusal(Some(Refusal::OutOfMemory)) => 1,
        Answer::Refusal(Some(Refusal::VariableLimit)) => 2,
        Answer::Refusal(Some(Refusal::ClauseStoreFull)) => 3,
        Answer::Steps(steps) => i32::try_from(steps).unwrap_or(i32::MAX),
    }
}

// Calls, and what they are answered as numbers.
type Row = &'static [(Call, i32)];

// Nothing was asked yet: there is no model, no core and no refusal.
const NEW: [(Call, i32); 8] = [
    (Value(1), 0),
    (HasFailed(1), 0),
    (Call::Refusal, 0),
    (Assume(0), 0),
    (Begin, 0),
    (Call::Prepare, 0),
    (Search, 10),
    (Value(1), 0),
];

// A chain of implications, without assumptions, under some of which two fail, and under one. What was assumed is gone
// with its search; a model and a core stay until the next.
const CHAIN: [(Call, i32); 28] = [
    (Add(-1), 0),
    (Add(2), 0),
    (Add(0), 0),
    (Add(-2), 0),
    (Add(3), 0),
    (Add(0), 0),
    (Begin, 0),
    (Search, 10),
    (Assume(1), 0),
    (Assume(4), 0),
    (Assume(-3), 0),
    (Begin, 0),
    (Search, 20),
    (HasFailed(1), 1),
    (HasFailed(-1), 0),
    (HasFailed(4), 0),
    (HasFailed(-3), 1),
    (HasFailed(0), 0),
    (Assume(1), 0),
    (Begin, 0),
    (Search, 10),
    (Value(1), 1),
    (Value(-1), 1),
    (Value(3), 3),
    (Value(5), 0),
    (Value(0), 0),
    (Value(i32::MIN), 0),
    (HasFailed(-3), 1),
];

// The clause of no literal, and what comes after it.
const EMPTY: [(Call, i32); 8] = [
    (Add(1), 0),
    (Add(0), 0),
    (Add(0), 0),
    (Search, 20),
    (HasFailed(1), 0),
    (Add(2), 0),
    (Add(0), 0),
    (Search, 20),
];

// A clause counts once it was ended.
const OPEN: [(Call, i32); 5] = [
    (Add(1), 0),
    (Assume(-1), 0),
    (Begin, 0),
    (Search, 10),
    (Value(1), -1),
];

// A variable past the limit is refused as its clause ends, and so is all that follows. 2^28 is within it.
const PAST: [(Call, i32); 12] = [
    (Add(1), 0),
    (Add(0), 0),
    (Search, 10),
    (Add(0x1000_0001), 0),
    (Call::Refusal, 0),
    (Add(0), 0),
    (Call::Refusal, 2),
    (Search, 1),
    (Value(1), 0),
    (Add(-1), 0),
    (Begin, 0),
    (Search, 1),
];

// So is one that is assumed, as the search begins; here it is the greatest number of all.
const PAST_ASSUMED: [(Call, i32); 6] = [
    (Assume(i32::MIN), 0),
    (Call::Refusal, 0),
    (Begin, 0),
    (Call::Refusal, 2),
    (Search, 1),
    (HasFailed(i32::MIN), 0),
];

// A search that may make no step, and then any number.
const LIMITED: [(Call, i32); 11] = [
    (Add(1), 0),
    (Add(2), 0),
    (Add(0), 0),
    (Add(-1), 0),
    (Add(2), 0),
    (Add(0), 0),
    (LimitSteps(0), 0),
    (Search, 0),
    (Call::Refusal, 0),
    (LimitSteps(u64::MAX), 0),
    (Search, 10),
];

// All clauses of two variables: no unit propagation starts from them, so that the first step of a search learns a clause,
// and does not end it. Steps of all searches are counted together, and the limit is for each.
const COUNTED: [(Call, i32); 20] = [
    (Call::Steps, 0),
    (Add(1), 0),
    (Add(2), 0),
    (Add(0), 0),
    (Add(1), 0),
    (Add(-2), 0),
    (Add(0), 0),
    (Add(-1), 0),
    (Add(2), 0),
    (Add(0), 0),
    (Add(-1), 0),
    (Add(-2), 0),
    (Add(0), 0),
    (LimitSteps(0), 0),
    (Search, 0),
    (Call::Steps, 0),
    (LimitSteps(1), 0),
    (Search, 0),
    (Call::Steps, 1),
    (Call::Steps, 1),
];

const ROWS: [Row; 8] = [
    &NEW,
    &CHAIN,
    &EMPTY,
    &OPEN,
    &PAST,
    &PAST_ASSUMED,
    &LIMITED,
    &COUNTED,
];

// The place of the first call of the row that is answered otherwise, if one is.
fn first_wrong<A: Allocator + Copy>(client: &mut Client<A>, row: Row) -> Option<usize> {
    for (place, (call, wanted)) in row.iter().enumerate() {
        if number_of(make_call(client, *call)) != *wanted {
            return Some(place);
        }
    }
    None
}

// The same of a new client.
fn first_wrong_in_new(alloc: Global, row: Row) -> Option<usize> {
    let mut client = Client::new_in(alloc);
    let place = first_wrong(&mut client, row);
    drop(client);
    place
}

#[test]
fn calls_are_answered(rt: HostRuntime) {
    for (number, row) in ROWS.iter().enumerate() {
        let wrong = first_wrong_in_new(rt.alloc(), *row);
        assert!(rt; wrong.is_none(), "row {number}: {wrong:?}");
    }
}

// Where the calls are handed over as a list: the last answer as a number.
fn last_answer(alloc: Global) -> Result<Option<i32>, AllocError> {
    let calls = Vec::from_array(alloc, [Add(1), Add(0), Assume(-1), Begin, Search])?;
    let answers = answers_of(calls)?;
    Ok(answers.last().map(|answer| number_of(*answer)))
}

#[test]
fn lists_are_answered(rt: HostRuntime) {
    assert!(rt; matches!(last_answer(rt.alloc()), Ok(Some(20))));
}

// What the calls come to with little memory: the end of a search over the chain, and why calls are refused then.
fn outcome<A: Allocator + Copy>(client: &mut Client<A>) -> [i32; 2] {
    for (call, _) in &CHAIN[..6] {
        make_call(client, *call);
    }
    for call in [Assume(1), Assume(-3), Begin] {
        make_call(client, call);
    }
    [Search, Call::Refusal].map(|call| number_of(make_call(client, call)))
}

// The same of a new client.
fn outcome_in<A: Allocator + Copy>(alloc: A) -> [i32; 2] {
    let mut client = Client::new_in(alloc);
    let outcome = outcome(&mut client);
    drop(client);
    outcome
}

// What happens on a heap of that many times 16 bytes.
fn outcome_with(alloc: Global, room: u16) -> Result<[i32; 2], AllocError> {
    let heap = LocalHeap::new(alloc, 16 * usize::from(room))?;
    Ok(outcome_in(&heap))
}

// What can happen: memory runs out in some call, and then the search is refused too; or nothing does.
const REFUSED: [i32; 2] = [1, 1];

const FAILED: [i32; 2] = [20, 0];

#[test]
fn memory_that_runs_out_is_told(rt: HostRuntime) {
    for room in 0..800 {
        let outcome = outcome_with(rt.alloc(), room);
        assert!(rt;
            outcome.is_ok_and(|ends| ends == REFUSED || ends == FAILED),
            "{room} times 16 bytes"
        );
    }
    assert!(rt; outcome_with(rt.alloc(), 0).is_ok_and(|ends| ends == REFUSED));
    assert!(rt; outcome_with(rt.alloc(), 800).is_ok_and(|ends| ends == FAILED));
}
