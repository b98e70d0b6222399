//! Models on lines of a bounded length.
ghost use Rattle.std.specs.Prelude.{◌≡◌, ◌-◌, ◌^◌, ◌<◌, ◌≤◌, ◌∷◌, length, decimal};
ghost use Rattle.varisat_formula.specs.promises.Written.{Puts};
ghost use Rattle.varisat.specs.promises.Decided.{concluded};
ghost use Rattle.varisat_solve.specs.promises.Solving.{shown_text};
ghost use Rattle.varisat_solve.specs.promises.Wrapping.{line_room, room_behind, parting, placed, wrapped_text, wrapped_model_text};
ghost use Rattle.varisat_solve.specs.declared.options.ModelLines.TheVariants.{Wrapped};

use itoa::Buffer;
use std::alloc::Allocator;
use std::io;
use varisat::Lit;
use varisat::io::ProofTarget;
use varisat::program::{Report, print_report};
use varisat_proof::program::print_text;

/// How many characters a line has behind the `v` that it begins with.
const LINE_ROOM: usize = 77;

/// Prints what a text was found to be, and a model on lines of at most 78 characters.
pub fn print_wrapped<T: ProofTarget, A: Allocator + Copy>(
    out: &mut T,
    report: &Report<A>,
) -> io::Result<()>
    requires { (T.taken out.old).faults < 2 ^ 64 - 1 }
    ensures { Puts (T.taken out.old) result (shown_text Wrapped (concluded report.now)) (T.taken out.new) }
{
    match report {
        Report::Decided(Some(model)) => print_model(out, model),
        Report::Decided(None) | Report::Unknown => print_report(out, report),
    }
}

/// Prints that a model was found, and the model on lines of at most 78 characters.
fn print_model<T: ProofTarget>(out: &mut T, model: &[Lit]) -> io::Result<()>
    requires { (T.taken out.old).faults < 2 ^ 64 - 1 }
    ensures { Puts (T.taken out.old) result (wrapped_model_text model.now) (T.taken out.new) }
{
    out.put(b"s SATISFIABLE\nv")?;
    put_literals(out, model)?;
    print_text(out, b"\n")
}

/// Puts the literals' DIMACS numbers, and then 0, on lines of which the first one has its `v`.
fn put_literals<T: ProofTarget>(out: &mut T, literals: &[Lit]) -> io::Result<()>
    requires { (T.taken out.old).faults < 2 ^ 64 - 1 }
    ensures { Puts (T.taken out.old) result (wrapped_text line_room literals.now) (T.taken out.new) }
{
    let mut buffer = Buffer::new();
    let mut room = LINE_ROOM;
    for literal in literals {
        let number = buffer.format(literal.to_dimacs()).as_bytes();
        put_number(out, room, number)?;
        room = room_behind(room, number.len());
    }
    put_number(out, room, b"0")
}

/// Puts the number behind a space. If the line has no room for both, they begin the next one.
fn put_number<T: ProofTarget>(out: &mut T, room: usize, number: &[u8]) -> io::Result<()>
    requires { (T.taken out.old).faults < 2 ^ 64 - 1 }
    ensures { Puts (T.taken out.old) result (placed room number.now) (T.taken out.new) }
{
    put_parting(out, room, number.len())?;
    out.put(number)
}

/// Puts what stands before a number of so many digits, if the line has so much room.
fn put_parting<T: ProofTarget>(out: &mut T, room: usize, digits: usize) -> io::Result<()>
    requires { (T.taken out.old).faults < 2 ^ 64 - 1 }
    ensures { Puts (T.taken out.old) result (parting room digits) (T.taken out.new) }
{
    if digits < room {
        out.put(b" ")
    } else {
        out.put(b"\nv ")
    }
}

/// How much room a line has behind a number of so many digits, which begins another line if this one has no room.
fn room_behind(room: usize, digits: usize) -> usize
    requires { room ≤ line_room }
    ensures exact { result ≡ room_behind room digits }
    ensures within { result ≤ line_room }
{
    let before = if digits < room { room } else { LINE_ROOM };
    before.saturating_sub(digits).saturating_sub(1)
}
