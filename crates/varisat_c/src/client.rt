//! A client of the solver for C programs: each call takes a handle, behind which a client stands.
ghost use Rattle.std.specs.Prelude.{◌≡◌, ◌↔◌, None, IsSome, IsTrue, IfSome};
ghost use Rattle.varisat_client.specs.promises.Pasts.{empty_client_past, AddsNumber, AssumesNumber, Begins, LimitsSteps, Prepares, ReturnsValue, ReturnsFailed};
ghost use Rattle.varisat_client.specs.inside.Clients.{RepresentsPast, IsTrueOfPast, Moves};
ghost use Rattle.varisat_c.specs.Ends.{SearchesBy, refusal_code};
ghost use Rattle.varisat_c.specs.Slots.{MovesHeld, IsTrueBehind};

use crate::client_handle::ClientHandle;
use crate::ends::{end_code, refusal_code};
use std::alloc::Global;
use varisat_client::client::Client;

/// Makes a client of a new solver. False where memory runs out; the handle stays empty then.
#[unsafe(no_mangle)]
pub extern "C" fn client_open(alloc: Global, handle: &mut ClientHandle) -> bool
    requires { handle.old.held ≡ None }
    ensures made { IsTrue result ↔ IsSome handle.new.held }
    ensures new { IfSome handle.new.held (λ g. RepresentsPast g empty_client_past) }
{
    match Box::new(alloc, Client::new_in(alloc)) {
        Ok(client) => {
            handle.put(alloc, client);
            true
        }
        Err(_) => false,
    }
}

/// Drops the client, and leaves the handle empty.
#[unsafe(no_mangle)]
pub extern "C" fn client_close(alloc: Global, handle: &mut ClientHandle)
    requires { IsSome handle.old.held }
    ensures { handle.new.held ≡ None }
{
    drop(handle.take(alloc));
}

/// Adds the literal of the number to the clause that is being given, or ends that clause where the number is 0.
#[unsafe(no_mangle)]
pub extern "C" fn client_add(alloc: Global, handle: &mut ClientHandle, number: i32)
    requires { IsSome handle.old.held }
    ensures { MovesHeld (Moves (AddsNumber number)) handle.old.held handle.new.held }
{
    let mut client = handle.take(alloc);
    client.add(number);
    handle.put(alloc, client);
}

/// Adds the literal of the number to the assumptions for the next search. 0 adds none.
#[unsafe(no_mangle)]
pub extern "C" fn client_assume(alloc: Global, handle: &mut ClientHandle, number: i32)
    requires { IsSome handle.old.held }
    ensures { MovesHeld (Moves (AssumesNumber number)) handle.old.held handle.new.held }
{
    let mut client = handle.take(alloc);
    client.assume(number);
    handle.put(alloc, client);
}

/// How many steps each call of `client_search` may make.
#[unsafe(no_mangle)]
pub extern "C" fn client_limit_steps(alloc: Global, handle: &mut ClientHandle, steps: u64)
    requires { IsSome handle.old.held }
    ensures { MovesHeld (Moves (LimitsSteps steps)) handle.old.held handle.new.held }
{
    let mut client = handle.take(alloc);
    client.limit_steps(steps);
    handle.put(alloc, client);
}

/// Sets how many literals the clauses have at least that were given since the last search, for the next one to simplify
/// them first. 0 simplifies none.
#[unsafe(no_mangle)]
pub extern "C" fn client_simplify_from(alloc: Global, handle: &mut ClientHandle, literals: u32)
    requires { IsSome handle.old.held }
    ensures { handle.new.held ≡ handle.old.held }
{
    let mut client = handle.take(alloc);
    let least = if literals == 0 {
        usize::MAX
    } else {
        literals as usize
    };
    client.simplify_from(least);
    handle.put(alloc, client);
}

/// Hints that later calls name the variable of the number.
#[unsafe(no_mangle)]
pub extern "C" fn client_freeze(alloc: Global, handle: &mut ClientHandle, number: i32)
    requires { IsSome handle.old.held }
    ensures { handle.new.held ≡ handle.old.held }
{
    let mut client = handle.take(alloc);
    client.freeze(number);
    handle.put(alloc, client);
}

/// Takes the hint back.
#[unsafe(no_mangle)]
pub extern "C" fn client_melt(alloc: Global, handle: &mut ClientHandle, number: i32)
    requires { IsSome handle.old.held }
    ensures { handle.new.held ≡ handle.old.held }
{
    let mut client = handle.take(alloc);
    client.melt(number);
    handle.put(alloc, client);
}

/// How many variables simplifications eliminated so far, or restored if `restored` is true.
#[unsafe(no_mangle)]
pub extern "C" fn client_eliminations(
    alloc: Global,
    handle: &mut ClientHandle,
    restored: bool,
) -> u64
    requires { IsSome handle.old.held }
    ensures { handle.new.held ≡ handle.old.held }
{
    let client = handle.take(alloc);
    let count = if restored {
        client.restorations()
    } else {
        client.eliminations()
    };
    handle.put(alloc, client);
    count
}

/// Begins a search under the assumptions that were given.
#[unsafe(no_mangle)]
pub extern "C" fn client_begin(alloc: Global, handle: &mut ClientHandle)
    requires { IsSome handle.old.held }
    ensures { MovesHeld (Moves Begins) handle.old.held handle.new.held }
{
    let mut client = handle.take(alloc);
    client.begin();
    handle.put(alloc, client);
}

/// Does a part of the simplification that the next search begins with, which takes some milliseconds. Whether it did one.
#[unsafe(no_mangle)]
pub extern "C" fn client_prepare(alloc: Global, handle: &mut ClientHandle) -> bool
    requires { IsSome handle.old.held }
    ensures { MovesHeld (Moves Prepares) handle.old.held handle.new.held }
{
    let mut client = handle.take(alloc);
    let is_part = client.prepare();
    handle.put(alloc, client);
    is_part
}

/// Searches: 10 where some assignment satisfies the clauses and makes the assumptions true, 20 where none does, 0 where
/// the steps of one call are spent, 1 where the call is refused.
#[unsafe(no_mangle)]
pub extern "C" fn client_search(alloc: Global, handle: &mut ClientHandle) -> u8
    requires { IsSome handle.old.held }
    ensures { MovesHeld (Moves (SearchesBy result)) handle.old.held handle.new.held }
{
    let mut client = handle.take(alloc);
    let end = client.search();
    handle.put(alloc, client);
    end_code(end)
}

/// The number where its literal is true in the model that was found last, the opposite number where that is, else 0.
#[unsafe(no_mangle)]
pub extern "C" fn client_value(alloc: Global, handle: &mut ClientHandle, number: i32) -> i32
    requires { IsSome handle.old.held }
    ensures same { handle.new.held ≡ handle.old.held }
    ensures value { IsTrueBehind (IsTrueOfPast (ReturnsValue number result)) handle.old.held }
{
    let client = handle.take(alloc);
    let value = client.value(number);
    handle.put(alloc, client);
    value
}

/// Whether the literal of the number is in the failed core that was found last.
#[unsafe(no_mangle)]
pub extern "C" fn client_has_failed(alloc: Global, handle: &mut ClientHandle, number: i32) -> bool
    requires { IsSome handle.old.held }
    ensures same { handle.new.held ≡ handle.old.held }
    ensures failed { IsTrueBehind (IsTrueOfPast (ReturnsFailed number result)) handle.old.held }
{
    let client = handle.take(alloc);
    let failed = client.has_failed(number);
    handle.put(alloc, client);
    failed
}

/// Why calls are refused: 0 where they are not, 1 since memory ran out, 2 since a variable is past 2^28, 3 since the
/// store of clauses is full.
#[unsafe(no_mangle)]
pub extern "C" fn client_refusal(alloc: Global, handle: &mut ClientHandle) -> u8
    requires { IsSome handle.old.held }
    ensures same { handle.new.held ≡ handle.old.held }
    ensures refusal { IsTrueBehind (IsTrueOfPast (λ p. result ≡ refusal_code p.refusal)) handle.old.held }
{
    let client = handle.take(alloc);
    let refusal = client.refusal();
    handle.put(alloc, client);
    refusal_code(refusal)
}
