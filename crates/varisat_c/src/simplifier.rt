//! A simplifier of clauses for C programs: each call takes a handle, behind which a simplifier stands.
ghost use Rattle.std.specs.Prelude.{◌≡◌, ◌↔◌, min, length, take, drop, None, IsSome, IsTrue, IfSome};
ghost use Rattle.varisat_calls.specs.Simplifiers.{nothing_given, Adds, Freezes, Simplifies, ListsClauses, Extends};
ghost use Rattle.varisat_c.specs.Slots.{MovesHeld, IsTrueBehind};

use crate::copy_front;
use crate::simplifier_handle::SimplifierHandle;
use std::alloc::Global;
use varisat_calls::simplifier::Simplifier;

/// Makes a simplifier without clauses. False where memory runs out; the handle stays empty then.
#[unsafe(no_mangle)]
pub extern "C" fn simplifier_open(alloc: Global, handle: &mut SimplifierHandle) -> bool
    requires { handle.old.held ≡ None }
    ensures made { IsTrue result ↔ IsSome handle.new.held }
    ensures new { IfSome handle.new.held (λ g. g ≡ nothing_given) }
{
    match Box::new(alloc, Simplifier::new_in(alloc)) {
        Ok(simplifier) => {
            handle.put(alloc, simplifier);
            true
        }
        Err(_) => false,
    }
}

/// Drops the simplifier, and leaves the handle empty.
#[unsafe(no_mangle)]
pub extern "C" fn simplifier_close(alloc: Global, handle: &mut SimplifierHandle)
    requires { IsSome handle.old.held }
    ensures { handle.new.held ≡ None }
{
    drop(handle.take(alloc));
}

/// Takes the clause of these numbers.
#[unsafe(no_mangle)]
pub extern "C" fn simplifier_add_clause(
    alloc: Global,
    handle: &mut SimplifierHandle,
    numbers: &[i32],
) -> u8
    requires { IsSome handle.old.held }
    ensures { MovesHeld (λ g h. Adds numbers.now g result h) handle.old.held handle.new.held }
{
    let mut simplifier = handle.take(alloc);
    let answer = simplifier.add_clause(numbers);
    handle.put(alloc, simplifier);
    answer
}

/// Freezes the variable.
#[unsafe(no_mangle)]
pub extern "C" fn simplifier_freeze(
    alloc: Global,
    handle: &mut SimplifierHandle,
    variable: i32,
) -> u8
    requires { IsSome handle.old.held }
    ensures { MovesHeld (λ g h. Freezes variable g result h) handle.old.held handle.new.held }
{
    let mut simplifier = handle.take(alloc);
    let answer = simplifier.freeze(variable);
    handle.put(alloc, simplifier);
    answer
}

/// Simplifies the clauses that were given.
#[unsafe(no_mangle)]
pub extern "C" fn simplifier_simplify(alloc: Global, handle: &mut SimplifierHandle) -> u8
    requires { IsSome handle.old.held }
    ensures { MovesHeld (λ g h. Simplifies g result h) handle.old.held handle.new.held }
{
    let mut simplifier = handle.take(alloc);
    let answer = simplifier.simplify();
    handle.put(alloc, simplifier);
    answer
}

/// Lists the clauses that are left, each ended by a 0.
#[unsafe(no_mangle)]
pub extern "C" fn simplifier_clauses(alloc: Global, handle: &mut SimplifierHandle) -> u8
    requires { IsSome handle.old.held }
    ensures { MovesHeld (λ g h. ListsClauses g result h) handle.old.held handle.new.held }
{
    let mut simplifier = handle.take(alloc);
    let answer = simplifier.clauses();
    handle.put(alloc, simplifier);
    answer
}

/// Lists values of all variables of the clauses that were given, by a model of those that are left.
#[unsafe(no_mangle)]
pub extern "C" fn simplifier_extend(
    alloc: Global,
    handle: &mut SimplifierHandle,
    numbers: &[i32],
) -> u8
    requires { IsSome handle.old.held }
    ensures { MovesHeld (λ g h. Extends numbers.now g result h) handle.old.held handle.new.held }
{
    let mut simplifier = handle.take(alloc);
    let answer = simplifier.extend(numbers);
    handle.put(alloc, simplifier);
    answer
}

/// How many numbers the list has that was asked for last.
#[unsafe(no_mangle)]
pub extern "C" fn simplifier_list_len(alloc: Global, handle: &mut SimplifierHandle) -> usize
    requires { IsSome handle.old.held }
    ensures same { handle.new.held ≡ handle.old.held }
    ensures count { IsTrueBehind (λ g. result ≡ length g.list) handle.old.held }
{
    let simplifier = handle.take(alloc);
    let answer = simplifier.list().len();
    handle.put(alloc, simplifier);
    answer
}

/// Copies the front of that list, and returns how many numbers it copied.
#[unsafe(no_mangle)]
pub extern "C" fn simplifier_list_copy(
    alloc: Global,
    handle: &mut SimplifierHandle,
    out: &mut [i32],
) -> usize
    requires { IsSome handle.old.held }
    ensures same { handle.new.held ≡ handle.old.held }
    ensures count { IsTrueBehind (λ g. result ≡ min (length g.list) (length out.new)) handle.old.held }
    ensures copied { IsTrueBehind (λ g. take result out.new ≡ take result g.list) handle.old.held }
    ensures kept { drop result out.new ≡ drop result out.old }
{
    let simplifier = handle.take(alloc);
    let answer = copy_front(simplifier.list(), out);
    handle.put(alloc, simplifier);
    answer
}
