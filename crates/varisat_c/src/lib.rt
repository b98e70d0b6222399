//! All calls of a solver for C programs: each takes a handle, behind which a caller stands. `contrib/c/varisat.c` calls
//! them and those of `simplifier`, and `contrib/c/ipasir.c` those of `client`.
#![tactic(auto)]

ghost use Rattle.std.specs.Prelude.{◌≡◌, ◌↔◌, ◌≤◌, min, length, take, drop, None, IsSome, IsTrue, IfSome};
ghost use Rattle.varisat_solver.specs.promises.Calls.{AddsClause, Assumes};
ghost use Rattle.varisat_solver.specs.promises.ProofCalls.{EnablesChecking};
ghost use Rattle.varisat_calls.specs.Codes.{field_numbered, format_numbered, mode_numbered};
ghost use Rattle.varisat_calls.specs.Callers.{IsNewCaller, MakesNumbered, MakesOver, PutsNumber, SetsMaxSteps, SolvesNumbered, IsSatisfiableNow, IsUnsatisfiableNow, TellsSteps, TellsValid, TellsFixed, SetsField, SetsModeNumbered, SetsPhaseNumbered, UnsetsPhaseNumbered, ReturnsModel, ReturnsCore, ReturnsListOf, ShowsHidden, OpensFormat, ClosesNumbered, TakesWritten};
ghost use Rattle.varisat_calls.specs.Lookups.{LooksUpValue, LooksUpFailed};
ghost use Rattle.varisat_calls.specs.Texts.{Feeds, IsRefutedText};
ghost use Rattle.varisat_calls.specs.Checks.{ReturnsCheck};
ghost use Rattle.varisat_c.specs.Codes.{NamesBy, AnswersEnd};
ghost use Rattle.varisat_c.specs.Slots.{MovesHeld, IsTrueBehind};

pub mod client;
pub mod client_handle;
pub mod codes;
pub mod ends;
pub mod handle;
pub mod simplifier;
pub mod simplifier_handle;
pub mod slot;

use codes::{count_answer, variable_answer};
use handle::Handle;
use std::alloc::Global;
use varisat_calls::caller::Caller;
use varisat_calls::checks::check_texts;

/// Copies as many as both have, and returns how many.
fn copy_front<T: Copy>(from: &[T], to: &mut [T]) -> usize
    ensures count { result ≡ min (length from.now) (length to.new) }
    ensures copied { take result to.new ≡ take result from.now }
    ensures kept { drop result to.new ≡ drop result to.old }
{
    let count = from.len().min(to.len());
    to[..count].copy_from_slice(&from[..count]);
    count
}

/// The bytes from this place on.
fn behind(bytes: &[u8], from: usize) -> &[u8]
    ensures { result.now ≡ drop from bytes.now }
{
    &bytes[from.min(bytes.len())..]
}

/// Makes a caller of a new solver. False where memory runs out; the handle stays empty then.
#[unsafe(no_mangle)]
pub extern "C" fn caller_open(alloc: Global, handle: &mut Handle) -> bool
    requires { handle.old.held ≡ None }
    ensures made { IsTrue result ↔ IsSome handle.new.held }
    ensures new { IfSome handle.new.held IsNewCaller }
{
    match Box::new(alloc, Caller::new_in(alloc)) {
        Ok(caller) => {
            handle.put(alloc, caller);
            true
        }
        Err(_) => false,
    }
}

/// Drops the caller, and leaves the handle empty.
#[unsafe(no_mangle)]
pub extern "C" fn caller_close(alloc: Global, handle: &mut Handle)
    requires { IsSome handle.old.held }
    ensures { handle.new.held ≡ None }
{
    drop(handle.take(alloc));
}

/// Accepts the clause of these numbers.
#[unsafe(no_mangle)]
pub extern "C" fn caller_add_clause(alloc: Global, handle: &mut Handle, numbers: &[i32]) -> u8
    requires { IsSome handle.old.held }
    ensures { MovesHeld (λ g h. MakesOver numbers.now AddsClause g result h) handle.old.held handle.new.held }
{
    let mut caller = handle.take(alloc);
    let answer = caller.add_clause(numbers);
    handle.put(alloc, caller);
    answer
}

/// Puts the literal of the number behind the clause that is being given, or accepts that clause where the number is 0.
#[unsafe(no_mangle)]
pub extern "C" fn caller_add(alloc: Global, handle: &mut Handle, number: i32) -> u8
    requires { IsSome handle.old.held }
    ensures { MovesHeld (λ g h. PutsNumber number g result h) handle.old.held handle.new.held }
{
    let mut caller = handle.take(alloc);
    let answer = caller.add(number);
    handle.put(alloc, caller);
    answer
}

/// Accepts the clauses that end in the next piece of a DIMACS text.
#[unsafe(no_mangle)]
pub extern "C" fn caller_feed(alloc: Global, handle: &mut Handle, piece: &[u8]) -> u8
    requires { IsSome handle.old.held }
    ensures { MovesHeld (λ g h. Feeds piece.now g result h) handle.old.held handle.new.held }
{
    let mut caller = handle.take(alloc);
    let answer = caller.feed(piece);
    handle.put(alloc, caller);
    answer
}

/// Ends the DIMACS text: the highest number of its header and its literals, or the opposite of a refusal's number.
#[unsafe(no_mangle)]
pub extern "C" fn caller_end_text(alloc: Global, handle: &mut Handle) -> isize
    requires { IsSome handle.old.held }
    ensures { MovesHeld (λ g h. AnswersEnd g result h) handle.old.held handle.new.held }
{
    let mut caller = handle.take(alloc);
    let answer = count_answer(caller.end_text());
    handle.put(alloc, caller);
    answer
}

/// Replaces the assumptions by the literals of these numbers.
#[unsafe(no_mangle)]
pub extern "C" fn caller_assume(alloc: Global, handle: &mut Handle, numbers: &[i32]) -> u8
    requires { IsSome handle.old.held }
    ensures { MovesHeld (λ g h. MakesOver numbers.now Assumes g result h) handle.old.held handle.new.held }
{
    let mut caller = handle.take(alloc);
    let answer = caller.assume(numbers);
    handle.put(alloc, caller);
    answer
}

/// How many steps each call of `caller_solve` may make.
#[unsafe(no_mangle)]
pub extern "C" fn caller_limit_steps(alloc: Global, handle: &mut Handle, steps: u64)
    requires { IsSome handle.old.held }
    ensures { MovesHeld (SetsMaxSteps steps) handle.old.held handle.new.held }
{
    let mut caller = handle.take(alloc);
    caller.limit_steps(steps);
    handle.put(alloc, caller);
}

/// Searches: 10 where the clauses are satisfiable under the assumptions, 20 where they are not, or a refusal's number.
#[unsafe(no_mangle)]
pub extern "C" fn caller_solve(alloc: Global, handle: &mut Handle) -> u8
    requires { IsSome handle.old.held }
    ensures call { MovesHeld (λ g h. SolvesNumbered g result h) handle.old.held handle.new.held }
    ensures satisfiable { result ≡ 10 → IsTrueBehind IsSatisfiableNow handle.old.held }
    ensures unsatisfiable { result ≡ 20 → IsTrueBehind IsUnsatisfiableNow handle.old.held }
{
    let mut caller = handle.take(alloc);
    let answer = caller.solve();
    handle.put(alloc, caller);
    answer
}

/// Brings the least free variable into use: its number, or the opposite of a refusal's.
#[unsafe(no_mangle)]
pub extern "C" fn caller_new_var(alloc: Global, handle: &mut Handle) -> isize
    requires { IsSome handle.old.held }
    ensures { MovesHeld (λ g h. NamesBy g result h) handle.old.held handle.new.held }
{
    let mut caller = handle.take(alloc);
    let answer = variable_answer(caller.new_var());
    handle.put(alloc, caller);
    answer
}

/// Lets clauses and assumptions name the variable (0), lets none name it (1), or hides it (2).
#[unsafe(no_mangle)]
pub extern "C" fn caller_set_mode(alloc: Global, handle: &mut Handle, variable: i32, mode: u8) -> u8
    requires { IsSome handle.old.held }
    ensures { MovesHeld
        (λ g h. SetsModeNumbered variable (mode_numbered mode) g result h) handle.old.held handle.new.held }
{
    let mut caller = handle.take(alloc);
    let answer = caller.set_mode(variable, mode);
    handle.put(alloc, caller);
    answer
}

/// Tells the model, or 15 where there is none.
#[unsafe(no_mangle)]
pub extern "C" fn caller_model(alloc: Global, handle: &mut Handle) -> u8
    requires { IsSome handle.old.held }
    ensures { MovesHeld (λ g h. ReturnsListOf ReturnsModel g result h) handle.old.held handle.new.held }
{
    let mut caller = handle.take(alloc);
    let answer = caller.model();
    handle.put(alloc, caller);
    answer
}

/// Tells the core, or 15 where there is none.
#[unsafe(no_mangle)]
pub extern "C" fn caller_core(alloc: Global, handle: &mut Handle) -> u8
    requires { IsSome handle.old.held }
    ensures { MovesHeld (λ g h. ReturnsListOf ReturnsCore g result h) handle.old.held handle.new.held }
{
    let mut caller = handle.take(alloc);
    let answer = caller.core();
    handle.put(alloc, caller);
    answer
}

/// 1 where the literal of the number is true in the model, 0 where it is false, 15 where there is no model or it
/// has no such variable.
#[unsafe(no_mangle)]
pub extern "C" fn caller_value(alloc: Global, handle: &mut Handle, number: i32) -> u8
    requires { IsSome handle.old.held }
    ensures { MovesHeld (λ g h. LooksUpValue number g result h) handle.old.held handle.new.held }
{
    let mut caller = handle.take(alloc);
    let answer = caller.value(number);
    handle.put(alloc, caller);
    answer
}

/// 1 where the literal of the number is one of the core, 0 where it is not, 15 where there is no core.
#[unsafe(no_mangle)]
pub extern "C" fn caller_is_failed(alloc: Global, handle: &mut Handle, number: i32) -> u8
    requires { IsSome handle.old.held }
    ensures { MovesHeld (λ g h. LooksUpFailed number g result h) handle.old.held handle.new.held }
{
    let mut caller = handle.take(alloc);
    let answer = caller.is_failed(number);
    handle.put(alloc, caller);
    answer
}

/// Brings the hidden variables back as witnesses, and returns their names.
#[unsafe(no_mangle)]
pub extern "C" fn caller_observe(alloc: Global, handle: &mut Handle) -> u8
    requires { IsSome handle.old.held }
    ensures { MovesHeld (λ g h. ShowsHidden g result h) handle.old.held handle.new.held }
{
    let mut caller = handle.take(alloc);
    let answer = caller.observe();
    handle.put(alloc, caller);
    answer
}

/// Sets the setting of this number.
#[unsafe(no_mangle)]
pub extern "C" fn caller_config(alloc: Global, handle: &mut Handle, field: u8, value: u64) -> u8
    requires { IsSome handle.old.held }
    ensures { MovesHeld (λ g h. SetsField (field_numbered field) value g result h) handle.old.held handle.new.held }
{
    let mut caller = handle.take(alloc);
    let answer = caller.config(field, value);
    handle.put(alloc, caller);
    answer
}

/// Opens a proof in the format of this number.
#[unsafe(no_mangle)]
pub extern "C" fn caller_open_proof(alloc: Global, handle: &mut Handle, format: u8) -> u8
    requires { IsSome handle.old.held }
    ensures { MovesHeld (λ g h. OpensFormat (format_numbered format) g result h) handle.old.held handle.new.held }
{
    let mut caller = handle.take(alloc);
    let answer = caller.open_proof(format);
    handle.put(alloc, caller);
    answer
}

/// Closes the proof. 15 where none is open.
#[unsafe(no_mangle)]
pub extern "C" fn caller_close_proof(alloc: Global, handle: &mut Handle) -> u8
    requires { IsSome handle.old.held }
    ensures { MovesHeld (λ g h. ClosesNumbered g result h) handle.old.held handle.new.held }
{
    let mut caller = handle.take(alloc);
    let answer = caller.close_proof();
    handle.put(alloc, caller);
    answer
}

/// Has a checker run inside.
#[unsafe(no_mangle)]
pub extern "C" fn caller_self_check(alloc: Global, handle: &mut Handle) -> u8
    requires { IsSome handle.old.held }
    ensures { MovesHeld (λ g h. MakesNumbered EnablesChecking g result h) handle.old.held handle.new.held }
{
    let mut caller = handle.take(alloc);
    let answer = caller.self_check();
    handle.put(alloc, caller);
    answer
}

/// Takes out what a proof wrote since the last call, and returns how many bytes these are.
#[unsafe(no_mangle)]
pub extern "C" fn caller_take_written(alloc: Global, handle: &mut Handle) -> usize
    requires { IsSome handle.old.held }
    ensures taken { MovesHeld TakesWritten handle.old.held handle.new.held }
    ensures count { IsTrueBehind (λ g. result ≡ length g.written) handle.new.held }
{
    let mut caller = handle.take(alloc);
    caller.take_written();
    let count = caller.written().len();
    handle.put(alloc, caller);
    count
}

/// All steps made.
#[unsafe(no_mangle)]
pub extern "C" fn caller_steps(alloc: Global, handle: &mut Handle) -> u64
    requires { IsSome handle.old.held }
    ensures same { handle.new.held ≡ handle.old.held }
    ensures steps { IsTrueBehind (TellsSteps result) handle.old.held }
{
    let caller = handle.take(alloc);
    let answer = caller.steps();
    handle.put(alloc, caller);
    answer
}

/// The counter of this number, 0 where there is none.
#[unsafe(no_mangle)]
pub extern "C" fn caller_counter(alloc: Global, handle: &mut Handle, number: u8) -> u64
    requires { IsSome handle.old.held }
    ensures { handle.new.held ≡ handle.old.held }
{
    let caller = handle.take(alloc);
    let answer = caller.counter(number);
    handle.put(alloc, caller);
    answer
}

/// Whether no refusal came from which there is no way back.
#[unsafe(no_mangle)]
pub extern "C" fn caller_is_valid(alloc: Global, handle: &mut Handle) -> bool
    requires { IsSome handle.old.held }
    ensures same { handle.new.held ≡ handle.old.held }
    ensures valid { IsTrueBehind (TellsValid result) handle.old.held }
{
    let caller = handle.take(alloc);
    let answer = caller.is_valid();
    handle.put(alloc, caller);
    answer
}

/// Sets the phase of the literal of the number.
#[unsafe(no_mangle)]
pub extern "C" fn caller_set_phase(alloc: Global, handle: &mut Handle, number: i32) -> u8
    requires { IsSome handle.old.held }
    ensures { MovesHeld (λ g h. SetsPhaseNumbered number g result h) handle.old.held handle.new.held }
{
    let mut caller = handle.take(alloc);
    let answer = caller.set_phase(number);
    handle.put(alloc, caller);
    answer
}

/// The variable has no phase that is set any more.
#[unsafe(no_mangle)]
pub extern "C" fn caller_unset_phase(alloc: Global, handle: &mut Handle, variable: i32) -> u8
    requires { IsSome handle.old.held }
    ensures { MovesHeld (λ g h. UnsetsPhaseNumbered variable g result h) handle.old.held handle.new.held }
{
    let mut caller = handle.take(alloc);
    let answer = caller.unset_phase(variable);
    handle.put(alloc, caller);
    answer
}

/// 1 where the literal of the number is fixed, 0 where it is not.
#[unsafe(no_mangle)]
pub extern "C" fn caller_is_fixed(alloc: Global, handle: &mut Handle, number: i32) -> u8
    requires { IsSome handle.old.held }
    ensures same { handle.new.held ≡ handle.old.held }
    ensures fixed { IsTrueBehind (λ g. TellsFixed number g result) handle.old.held }
{
    let caller = handle.take(alloc);
    let answer = caller.is_fixed(number);
    handle.put(alloc, caller);
    answer
}

/// How many numbers the list has that was returned last.
#[unsafe(no_mangle)]
pub extern "C" fn caller_list_len(alloc: Global, handle: &mut Handle) -> usize
    requires { IsSome handle.old.held }
    ensures same { handle.new.held ≡ handle.old.held }
    ensures count { IsTrueBehind (λ g. result ≡ length g.returned) handle.old.held }
{
    let caller = handle.take(alloc);
    let answer = caller.returned().len();
    handle.put(alloc, caller);
    answer
}

/// Copies the front of that list, and returns how many numbers it copied.
#[unsafe(no_mangle)]
pub extern "C" fn caller_list_copy(alloc: Global, handle: &mut Handle, out: &mut [i32]) -> usize
    requires { IsSome handle.old.held }
    ensures same { handle.new.held ≡ handle.old.held }
    ensures count { IsTrueBehind (λ g. result ≡ min (length g.returned) (length out.new)) handle.old.held }
    ensures copied { IsTrueBehind (λ g. take result out.new ≡ take result g.returned) handle.old.held }
    ensures kept { drop result out.new ≡ drop result out.old }
{
    let caller = handle.take(alloc);
    let answer = copy_front(caller.returned(), out);
    handle.put(alloc, caller);
    answer
}

/// Copies what was taken out of a proof from this place on, and returns how many bytes it copied.
#[unsafe(no_mangle)]
pub extern "C" fn caller_written_copy(
    alloc: Global,
    handle: &mut Handle,
    from: usize,
    out: &mut [u8],
) -> usize
    requires { IsSome handle.old.held }
    ensures same { handle.new.held ≡ handle.old.held }
    ensures count { IsTrueBehind
        (λ g. result ≡ min (length (drop from g.written)) (length out.new)) handle.old.held }
    ensures copied { IsTrueBehind (λ g. take result out.new ≡ take result (drop from g.written)) handle.old.held }
    ensures kept { drop result out.new ≡ drop result out.old }
{
    let caller = handle.take(alloc);
    let answer = copy_front(behind(caller.written(), from), out);
    handle.put(alloc, caller);
    answer
}

/// Copies the front of the text of the last refusal, and returns how many bytes it copied.
#[unsafe(no_mangle)]
pub extern "C" fn caller_refusal_copy(alloc: Global, handle: &mut Handle, out: &mut [u8]) -> usize
    requires { IsSome handle.old.held }
    ensures same { handle.new.held ≡ handle.old.held }
    ensures count { result ≤ length out.new }
    ensures kept { drop result out.new ≡ drop result out.old }
{
    let caller = handle.take(alloc);
    let answer = copy_front(caller.refusal_text().as_bytes(), out);
    handle.put(alloc, caller);
    answer
}

/// Checks a proof against a DIMACS text: 20 where it refutes the clauses, 0 where all lines are right, else what is
/// wrong and where.
#[unsafe(no_mangle)]
pub extern "C" fn caller_check(
    alloc: Global,
    format: u8,
    text: &[u8],
    proof: &[u8],
    place: &mut u64,
) -> u8
    ensures returns { ReturnsCheck (format_numbered format) text.now proof.now result place.new }
    ensures sound { result ≡ 20 → IsRefutedText text.now }
{
    let returned = check_texts(alloc, format, text, proof);
    *place = returned.place;
    returned.number
}
