//! The program: solves a problem in a file, and prints the answer as the MaxSAT Evaluations ask for it.
#![tactic(auto)]

ghost use Rattle.std.specs.Prelude.{◌≡◌, ◌⊎◌, ◌-◌, ◌^◌, ◌<◌};
ghost use Rattle.varisat_wcnf.specs.promises.Printed.{AnswersText};

mod help;
mod words;

use crate::help::{HELP, VERSION};
use crate::words::{Asked, Options, asked_by};
use linked_list_allocator::LocalHeap;
use std::io::{self, BufWriter, IsTerminal, Read, Write};
use std::process::ExitCode;
use std::{env, fs};
use varisat_formula::io::{IoTarget, ProofTarget};
use varisat_wcnf::program::{solve_lines, tell, tell_file};
use varisat_words::mistakes::Mistake;

fn main(rt: HostRuntime) -> ExitCode {
    match run(&rt) {
        Ok(status) => ExitCode::from(status),
        Err(error) => ExitCode::from(tell(&mut rt.stderr(), &error)),
    }
}

/// The status where a text of the program itself was printed.
const STATUS_DONE: u8 = 0;

/// Does what the command line asks for.
fn run(rt: &HostRuntime) -> io::Result<u8> {
    let mut words = Vec::new(rt.alloc());
    for word in env::args(rt)?.skip(1) {
        words.push(word)?;
    }
    match asked_by(words.as_slice()) {
        Ok(Asked::Help) => print(rt, HELP),
        Ok(Asked::Version) => print(rt, VERSION),
        Ok(Asked::Solve(path, options)) => solve(rt, path, options),
        Err(mistake) => Ok(refuse(rt, &mistake)),
    }
}

/// Prints a text.
fn print(rt: &HostRuntime, text: &str) -> io::Result<u8> {
    println!(rt; "{text}")?;
    Ok(STATUS_DONE)
}

/// Tells how the program is called, and a person at a terminal first what was wrong.
fn refuse(rt: &HostRuntime, mistake: &Mistake<'_>) -> u8 {
    let mut err = rt.stderr();
    if err.is_terminal() {
        // A writer that fails here leaves nothing to report.
        let _ = writeln!(err, "error: {mistake}");
    }
    tell(
        &mut err,
        &"usage: maxsat FILE [OPTION ..]; maxsat --help tells more",
    )
}

/// What FILE is called where the problem comes on standard input.
const STANDARD_INPUT: &str = "-";

/// The bytes of the file, or of standard input.
fn read(rt: &HostRuntime, path: &str) -> io::Result<Vec<u8>> {
    if path == STANDARD_INPUT {
        let mut text = Vec::new(rt.alloc());
        let mut reader = rt.reader();
        reader.read_to_end(&mut text)?;
        Ok(text)
    } else {
        fs::read(rt, path)
    }
}

/// Solves the problem in the file.
fn solve(rt: &HostRuntime, path: &str, options: Options) -> io::Result<u8> {
    match read(rt, path) {
        Ok(text) => {
            let mut out = IoTarget::new(BufWriter::new(rt.alloc(), io::writer(rt))?);
            Ok(solve_in_heap(rt, path, &text, options, &mut out))
        }
        Err(error) => Ok(tell_file(&mut rt.stderr(), path, &error)),
    }
}

/// Solves the problem of the text in a file. All that the search has is a heap of the size that is given, if one is.
fn solve_in_heap<T: ProofTarget>(
    rt: &HostRuntime,
    path: &str,
    text: &[u8],
    options: Options,
    out: &mut T,
) -> u8
    requires { (T.taken out.old).faults < 2 ^ 64 - 1 }
    ensures { AnswersText text.now (T.taken out.old) (T.taken out.new) result
        ⊎ ((result ≡ 2) × (T.taken out.new ≡ T.taken out.old)) }
{
    let mut err = rt.stderr();
    match options.heap {
        None => solve_lines(rt.alloc(), path, text, options.max_steps, out, &mut err),
        Some(size) => match LocalHeap::new(rt.alloc(), size) {
            Ok(heap) => solve_lines(&heap, path, text, options.max_steps, out, &mut err),
            Err(_) => tell(&mut err, &"out of memory"),
        },
    }
}
