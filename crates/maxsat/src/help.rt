//! What the program says of itself.

/// The version of this program. No program can know whether it was proved.
pub const VERSION: &str = "maxsat 2.0.0";

/// How the program is called, what it prints, and its statuses.
pub const HELP: &str = "maxsat FILE [OPTION ..]

Solves the weighted partial MaxSAT problem in FILE, or on standard input where FILE is -, a WCNF text in the new or
the old format. Prints a line o with the cost of each solution that costs less than those before it, as soon as it is
found, and then one of

    s OPTIMUM FOUND    exit code 30; the last line o has the least cost, a line v behind it has values
    s UNSATISFIABLE    exit code 20; nothing satisfies the hard clauses
    s SATISFIABLE      exit code 10; a limit was met, as of steps or memory; the last line o has the cost of the best
                       solution until then, a line v behind it has values
    s UNKNOWN          exit code 0; a limit was met before a solution was found, and standard error tells which

Options, in any order, each at most once, also as --max-steps=N:

    --max-steps N    make at most N steps in all, of which each ends with a conflict or an answer; 2k is 2000, M and G
                     are a thousand and a million times that
    --heap BYTES     use a heap of so many bytes, from 4096, and no other memory, but for the text; 1k is 1024 bytes,
                     M and G are 1024 and 1048576 times that
    --help, -h       tell this
    --version, -V    tell the version

Exit code 2: a bad command line, or a fault, which standard error tells. ./maxsat and the installed maxsat decompress
a FILE named .gz, .bz2, .xz or .zst.";
