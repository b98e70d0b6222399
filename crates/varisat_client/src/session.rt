//! Any list of calls of a client.
ghost use Rattle.std.specs.Prelude.{◌≡◌, IfOk, OnErr};
ghost use Rattle.varisat_client.specs.promises.Pasts.{ClientPast, empty_client_past};
ghost use Rattle.varisat_client.specs.inside.Clients.{Moves};
ghost use Rattle.varisat_client.specs.promises.Runs.{Makes, MakeInTurn};
ghost use Rattle.varisat_client.specs.promises.Given.{none_given, AreDecided};

use crate::client::{Client, SearchEnd};
use crate::refusal::Refusal;
use std::alloc::{AllocError, Allocator};

/// A call of a client, with what it is given.
#[derive(Clone, Copy)]
pub enum Call {
    Add(i32),
    Assume(i32),
    Begin,
    Prepare,
    Search,
    LimitSteps(u64),
    Value(i32),
    HasFailed(i32),
    Refusal,
    Steps,
}

/// What a call returned.
#[derive(Clone, Copy)]
pub enum Answer {
    Done,
    Prepared(bool),
    Search(SearchEnd),
    Value(i32),
    HasFailed(bool),
    Refusal(Option<Refusal>),
    Steps(u64),
}

/// Makes one call.
pub fn make_call<A: Allocator + Copy>(client: &mut Client<A>, call: Call) -> Answer
    ensures { Moves (λ p q. Makes p call result q) client.old client.new }
{
    match call {
        Call::Add(number) => {
            client.add(number);
            Answer::Done
        }
        Call::Assume(number) => {
            client.assume(number);
            Answer::Done
        }
        Call::Begin => {
            client.begin();
            Answer::Done
        }
        Call::Prepare => Answer::Prepared(client.prepare()),
        Call::Search => Answer::Search(client.search()),
        Call::LimitSteps(steps) => {
            client.limit_steps(steps);
            Answer::Done
        }
        Call::Value(number) => Answer::Value(client.value(number)),
        Call::HasFailed(number) => Answer::HasFailed(client.has_failed(number)),
        Call::Refusal => Answer::Refusal(client.refusal()),
        Call::Steps => Answer::Steps(client.steps()),
    }
}

/// Makes the calls in turn, and returns their answers in this order. Err comes only before the first call, where there
/// is no memory for the list of answers.
pub fn run<A: Allocator + Copy>(
    client: &mut Client<A>,
    calls: Vec<Call, A>,
) -> Result<Vec<Answer, A>, AllocError>
    ensures run { IfOk result
        (λ answers. Moves (λ p q. MakeInTurn p calls.items answers.items q) client.old client.new) }
    ensures refused { OnErr result (client.new ≡ client.old) }
{
    let mut answers = Vec::with_capacity(*calls.allocator(), calls.len())?;
    for call in calls {
        answers.push_reserved(make_call(client, call));
    }
    Ok(answers)
}

/// The answers of a new client to the calls. Each is true of what the calls and answers before it say. Of the calls
/// alone: for each search that is satisfiable some assignment satisfies the clauses that were given until then and
/// makes the assumptions true under which it was begun, and for each that is unsatisfiable none does. All searches
/// since a clause ended, a search was begun or a limit was given make fewer than 2^(2n+3) steps together, where n
/// variables are in clauses that ended and assumptions under which a search was begun: so where each may make some they
/// come to an end, or no more steps can be counted. `Steps` tells how many all searches made, until a call is refused.
pub fn answers_of<A: Allocator + Copy>(calls: Vec<Call, A>) -> Result<Vec<Answer, A>, AllocError>
    ensures truth { IfOk result
        (λ answers. (q : ClientPast) × MakeInTurn empty_client_past calls.items answers.items q) }
    ensures decided { IfOk result (λ answers. AreDecided none_given calls.items answers.items) }
{
    let mut client = Client::new_in(*calls.allocator());
    let answers = run(&mut client, calls);
    // In one step: at the end of a scope each part of it would be one.
    drop(client);
    answers
}
