//! What the program says of itself.
ghost use Rattle.std.specs.Prelude.{OnOk};
ghost use Rattle.std.specs.Io.KnownBytes.{Appends};

use std::io::{self, Write};

/// The version of this program, and the crate that has the same calls. No program can know whether it was proved.
pub const VERSION: &str = "varisat 2.0.0, with the calls of the Rust crate varisat 0.2.2\n";

/// The commands with their options, the formats and the exit codes.
pub const HELP: &str = "varisat 2.0.0: a SAT solver

    varisat solve FILE [OPTION ..]                   decide a DIMACS CNF text
    varisat FILE [PROOF] [OPTION ..]                 the same, with --proof PROOF
    varisat check CNF PROOF [--binary | --marked]    check a proof that such a text is unsatisfiable
    varisat check --drat CNF PROOF [--binary]        the same, where lines may also be RAT
    varisat check CNF PROOF --heap BYTES             the same with so many bytes of memory
    varisat session                                  call a solver line by line
    varisat COMMAND --help                           tell more of a command
    varisat --help | -h | --version | -V

options of solve, at any place behind it, each at most once; a value may follow = too:
    --proof P        write a DRAT proof to the file P
    --binary         write it in the binary format, and not as text
    --marked         write it as marked text, with the clauses of FILE
    --check          have each step of the search checked
    --max-steps N    give up after N steps
    -t SECONDS       give up after so many seconds of CPU time
    --heap BYTES     give the solver so many bytes of memory
    --simplify       simplify the formula first, however short it is
    --no-simplify    search the formula as it is, however long it is
    --progress       show on standard error how far the search is
    -v, --statistics show on standard error what was counted, and how long each part took
    --output FILE    write the verdict and the model to FILE
    --wrap           print the model on lines of at most 78 characters
    -n               print no line v
    -q               show nothing on standard error but faults, as without --progress and -v

FILE and CNF are DIMACS CNF, and - stands for standard input. PROOF is DRAT. ./varisat and the installed
varisat decompress what they read from files named .gz, .bz2, .xz or .zst.

exit codes:
    10    solve: satisfiable        0    solve: unknown, check: verified, session: done
    20    solve: unsatisfiable      1    check: not verified
     2    a bad command line, or a fault, which standard error tells
";

/// The command `solve`.
pub const SOLVE_HELP: &str = "varisat solve FILE [OPTION ..]
varisat FILE [PROOF] [OPTION ..]

Decides the DIMACS CNF text in FILE, or on standard input where FILE is -. A formula of 2000 literals or
more is simplified first, a shorter one is searched as it is. Prints one of

    s SATISFIABLE      exit code 10; a line v with the literals of a model and 0 follows
    s UNSATISFIABLE    exit code 20
    s UNKNOWN          exit code 0; the steps of --max-steps were spent, or the time of -t

Options, at any place behind solve or FILE, each at most once. A value may follow = too, as in --proof=P.
A number N or BYTES may have a unit: k, M and G are 1000, 1000000 and 1000000000 steps, and 1024 bytes,
1024 of these and 1024 of those.

    --proof P        write a DRAT proof to the file P, which is made or emptied; it must not be FILE,
                     nor the file to which standard output goes; varisat FILE P does so too
    --binary         write the proof in the binary format; only with --proof
    --marked         write it as marked text, in which the clauses of FILE stand too; only with --proof,
                     and not with --binary
    --check          have a checker inside the solver check each step; takes several times as long
    --max-steps N    make at most N steps, of which each ends with a conflict or an answer
    -t SECONDS       make no further step once the process took so many seconds of CPU time, which is asked
                     for after reading, after simplifying, and several times a second in the search
    --heap BYTES     give the solver a heap of so many bytes, from 4096, and no other memory; where it is
                     full: error: Out of memory, exit code 2
    --simplify       simplify the formula first, however short it is; not with --no-simplify or --marked
    --no-simplify    search the formula as it is, however long it is; --marked does so too
    --progress       show on standard error how many clauses simplifying left, and in how many milliseconds;
                     then, every 10000 steps and at the end: steps, conflicts, decisions,
                     propagations and restarts so far; variables that are not fixed; clauses of two
                     literals, given ones, and learned ones to keep (core), to keep if used (mid), or to
                     drop by and by (local); with -t only what was counted, once a second and at the end
    -v, --statistics
                     show on standard error how many milliseconds reading, simplifying, the search and the end
                     of the proof took; steps, conflicts, decisions, propagations, restarts, literals of
                     learned clauses, deleted clauses and collections of garbage; and the most memory that
                     the program had, in units of 1024 bytes
    --output FILE    write what is printed otherwise, the verdict and the model, to the file FILE, which is
                     made or emptied; it must not be the formula's, nor the proof's
    --wrap           print the model on lines v of at most 78 characters, of which the last one has the 0
    -n               print no line v
    -q               show nothing on standard error but faults, which is so without --progress and -v too

The first word behind solve is FILE, whatever it is called, if the others are options.
";

/// The command `check`.
pub const CHECK_HELP: &str = "varisat check CNF PROOF [--binary | --marked] [--heap BYTES]
varisat check --drat CNF PROOF [--binary] [--heap BYTES]

Checks that PROOF, a file, shows the DIMACS CNF text in CNF, or on standard input where CNF is -, to be
unsatisfiable. Prints one of

    s VERIFIED        exit code 0
    s NOT VERIFIED    exit code 1; a line does not follow, deletes what is not there, or is no line; or
                      the lines refute nothing; standard error tells which, if CNF and PROOF are files

PROOF is DRAT, as text or with --binary in the binary format: each added clause has to follow by unit
propagation. With --marked it is DRAT text in which lines i, q and f tell the clauses that a solver was
given, its assumptions and its failed cores. Options stand at any place behind check.

With --drat the same for proofs of solvers that simplify: an added clause has to follow or to be RAT on one of its
literals. A deletion of what is not there is passed over, and so is one of a clause of which all literals
but one are implied to be false, as of a single literal. Standard error tells the first wrong line, with
its bytes and a clause for which it is not RAT, and how many lines were of these kinds. Without --binary
the first twelve bytes of PROOF tell text from the binary format.

With --heap BYTES the checker has a heap of so many bytes, from 4096, and no other memory; where it is full:
error: Out of memory, exit code 2. BYTES may have a unit, as of solve.
";

/// The command `session`.
pub const SESSION_HELP: &str = "varisat session

Reads a call of a solver from each line of standard input, and answers each with a line: ok and what is
told, err and a number, or bad line. L is a literal, as 3 or -3, V a variable, as 3, N a number.

    add L ..       add a clause         assume L ..       replace the assumptions
    solve          true or false        model, core       the model, or assumptions that fail
    new            make a variable      observe           bring hidden variables back
    hide V         free its name        config FIELD N    change a setting
    witness V      let no clause        steps, since      steps in all, and since the last change
    sample V       or any name it       selfcheck         check each step from now on
    proof text     begin a proof        proof binary      the same in the binary format
    proof marked   begin a proof of the whole session, with its clauses, assumptions and cores
    close          end the proof, and tell its bytes in hexadecimal
";

/// Prints a text.
pub fn print_text<W: Write>(out: &mut W, text: &str) -> io::Result<()>
    ensures { OnOk result (Appends (W.contents out.old) (W.contents out.new) text.now) }
{
    out.write_all(text.as_bytes())?;
    out.flush()?;
    Ok(())
}
