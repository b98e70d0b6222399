//! Sessions of calls on one formula, and under proofs.
use crate::Exchange;

/// A checker that runs inside the solver.
pub const SELF_CHECKING: Exchange = ("selfcheck\n", "ok\n");

/// What each session stands behind in turn: nothing, settings by which learned clauses are reduced at each step, and a
/// checker inside.
pub const SETTINGS: [Exchange; 3] = [
    ("", ""),
    (
        "config reduce_locals_interval 1\nconfig reduce_mids_interval 1\n",
        "ok\nok\n",
    ),
    SELF_CHECKING,
];

/// Sessions that take little memory.
pub const SESSIONS: [Exchange; 17] = [
    ("add 3\nsolve\nmodel\n", "ok\nok true\nok -1 -2 3 0\n"),
    // A checker begins before a clause, and an invalid solver refuses it otherwise.
    (
        "selfcheck\nadd 1 2\nselfcheck\nsolve\nselfcheck\n",
        "ok\nok\nerr 11\nok true\nerr 11\n",
    ),
    ("solve\nmodel\n", "ok true\nok 0\n"),
    (
        "add 1 -2\nadd 3\nsolve\nmodel\n",
        "ok\nok\nok true\nok -1 -2 3 0\n",
    ),
    (
        "new\nnew\nadd -2\nsolve\nmodel\n",
        "ok 1\nok 2\nok\nok true\nok -1 -2 0\n",
    ),
    ("add\nsolve\nmodel\n", "ok\nok false\nok none\n"),
    (
        "add 1 2\nadd -1 2\nadd 1 -2\nadd -1 -2\nsolve\n",
        "ok\nok\nok\nok\nok false\n",
    ),
    // Clauses of two literals, of which a unit satisfies one.
    (
        "add 1 2\nadd -1 3\nadd 1\nsolve\nmodel\n",
        "ok\nok\nok\nok true\nok 1 -2 3 0\n",
    ),
    ("add 268435457\nadd 0\nnew\n", "err 7\nbad line\nok 1\n"),
    // A tautology, and duplicated literals.
    ("add 1 -1\nsolve\nmodel\n", "ok\nok true\nok -1 0\n"),
    ("add 2 2 2\nsolve\nmodel\n", "ok\nok true\nok -1 2 0\n"),
    // A contradiction gives Unsat at once, and then a clause names nothing.
    (
        "add 1\nadd -1\nadd 5\nnew\nmodel\n",
        "ok\nok\nok\nok 2\nok none\n",
    ),
    // A model is returned until a clause comes, and a name that came after it is false.
    (
        "add 1\nsolve\nnew\nmodel\nadd 3\nmodel\nsolve\nmodel\n",
        "ok\nok true\nok 2\nok 1 -2 0\nok\nok none\nok true\nok 1 -2 3 0\n",
    ),
    // Unsat is for good, and after it a name past the limit is not looked at.
    ("add\nadd 268435457\nsolve\n", "ok\nok\nok false\n"),
    // Assumptions bring their names into use, and fail or hold together with the clauses.
    (
        "assume 3\nmodel\nsolve\nmodel\nadd -3\nsolve\ncore\n",
        "ok\nok none\nok true\nok -1 -2 3 0\nok\nok false\nok 3 0\n",
    ),
    (
        "add -1\nassume 2 1\nsolve\ncore\nassume 2 -1\nsolve\nmodel\n",
        "ok\nok\nok false\nok 1 0\nok\nok true\nok -1 2 0\n",
    ),
    // Lines that are none, of which the last ends without a line feed.
    (
        "\nadd  1\nassume 1 \nADD 1\nsolve \nadd 01\nnew\nadd 1",
        "bad line\nbad line\nbad line\nbad line\nbad line\nbad line\nok 1\nok\n",
    ),
];

/// Sessions under a proof. A line for which memory is refused is the target's failure.
pub const PROOF_SESSIONS: [Exchange; 4] = [
    (
        "proof text\nadd 1\nadd -1 2\nadd -2 3\nadd -2 -3\nsolve\nadd 4\n",
        "ok\nok\nok\nok\nok\nok false\nok\n",
    ),
    (
        "proof text\nadd 1\nadd 2 1\nadd 1 3 2\nadd -3 1\nnew\n",
        "ok\nok\nok\nok\nok\nok 4\n",
    ),
    (
        "proof binary\nadd 1 2\nadd -1 3\nadd 1\nsolve\nmodel\nadd 4\n",
        "ok\nok\nok\nok\nok true\nok 1 -2 3 0\nerr 9\n",
    ),
    (
        "proof marked\nadd 1 2\nsolve\nadd -1\nassume -2\nsolve\ncore\nadd -2\nsolve\n",
        "ok\nok\nok true\nok\nok\nok false\nok -2 0\nok\nok false\n",
    ),
];

/// Sessions with ample memory alone: they ask for the steps, which an invalid solver returns too, have settings, or take
/// much memory.
pub const AMPLE_SESSIONS: [Exchange; 31] = [
    (
        "steps\nsolve\nsteps\nsolve\nsteps\n",
        "ok 0\nok true\nok 1\nok true\nok 1\n",
    ),
    // An interrupted search is gone on with.
    (
        "config max_steps 1\nadd 1 2\nadd -1 2\nadd 1 -2\nadd -1 -2\nsolve\nsteps\nmodel\nsolve\nsteps\n",
        "ok\nok\nok\nok\nok\nerr 1\nok 1\nok none\nok false\nok 2\n",
    ),
    // So are its steps since the last change, which other calls set to 0, also one that changes nothing else.
    (
        "config max_steps 1\nadd 1 2\nadd -1 2\nadd 1 -2\nadd -1 -2\nsolve\nsince\nmodel\nsolve\nsince\nsteps\nadd 5\nsince\n",
        "ok\nok\nok\nok\nok\nerr 1\nok 1\nok none\nok false\nok 2\nok 2\nok\nok 0\n",
    ),
    (
        "config max_steps 1\nadd 1 2\nadd -1 2\nadd 1 -2\nadd -1 -2\nsolve\nconfig max_steps 1\nsince\nsolve\nsince\nsteps\n",
        "ok\nok\nok\nok\nok\nerr 1\nok\nok 0\nok false\nok 1\nok 2\n",
    ),
    // Refused calls, lines that are none, and calls that only return something leave them.
    (
        "since\nsolve\nsince\nmodel\ncore\nsteps\nsolve\nadd 268435457\nassume 268435457\nhide 268435457\nconfig vsids_decay 1\nbad\nsince\n",
        "ok 0\nok true\nok 1\nok 0\nok none\nok 1\nok true\nerr 7\nerr 7\nerr 7\nerr 12\nbad line\nok 1\n",
    ),
    // Each other call sets them to 0.
    (
        "solve\nassume\nsince\nsolve\nnew\nsince\nassume\nsolve\nwitness 1\nsince\nassume\nsolve\nsample 1\nsince\nassume\nsolve\nhide 1\nsince\nassume\nsolve\nobserve\nsince\nassume\nsolve\nclose\nsince\nsolve\nadd 1\nsince\nsteps\n",
        "ok true\nok\nok 0\nok true\nok 1\nok 0\nok\nok true\nok\nok 0\nok\nok true\nok\nok 0\nok\nok true\nok\nok 0\nok\nok true\nok 0\nok 0\nok\nok true\nok none\nok 0\nok true\nok\nok 0\nok 7\n",
    ),
    ("add\nsolve\nsteps\n", "ok\nok false\nok 0\n"),
    (
        "config max_steps 0\nadd 1 2\nsolve\nsteps\nconfig max_steps 1\nsolve\nsteps\n",
        "ok\nok\nerr 1\nok 0\nok\nok true\nok 1\n",
    ),
    (
        "config vsids_decay 499\nconfig vsids_decay 999\nconfig speed 1\n",
        "err 12\nok\nbad line\n",
    ),
    (
        "config vsids_decay 1000\nconfig vsids_decay 500\nconfig luby_restart_interval_scale 0\nconfig restart_glue 1001\nconfig restart_glue 1000\n",
        "err 12\nok\nerr 12\nerr 12\nok\n",
    ),
    (
        "config max_steps 0\nconfig max_steps 18446744073709551615\n",
        "ok\nok\n",
    ),
    // Proofs: what is closed is printed in hexadecimal.
    ("close\nproof binary\nclose\n", "ok none\nok\nok\n"),
    (
        "proof text\nadd 1\nadd 2 1 2\nadd 1 -1\nclose\n",
        "ok\nok\nok\nok\nok 642031203220300a\n",
    ),
    (
        "proof text\nadd 1\nadd -1\nsolve\nadd 5\nclose\n",
        "ok\nok\nok\nok false\nok\nok\n",
    ),
    // Units that clauses imply, and the empty clause.
    (
        "proof text\nadd 1\nadd -1 2\nadd -2 3\nadd -2 -3\nsolve\nclose\n",
        "ok\nok\nok\nok\nok\nok false\nok 3220300a3320300a300a\n",
    ),
    // A unit, and then the clauses that it and another one satisfy: `3 0`, `d -1 3 0`, `d 1 2 0`.
    (
        "proof text\nadd 1 2\nadd -1 3\nadd 1\nsolve\nclose\n",
        "ok\nok\nok\nok\nok true\nok 3320300a64202d31203320300a642031203220300a\n",
    ),
    // A satisfied clause of the literals 63 and -64 is deleted as it is loaded.
    (
        "proof binary\nadd 63\nadd 63 -64\nclose\nclose\n",
        "ok\nok\nok\nok 647e810100\nok none\n",
    ),
    // Of the variables that are free a name gets the least: `d 1 -2 0`.
    (
        "proof text\nnew\nnew\nhide 2\nhide 1\nadd 3\nadd 3 -4\nclose\n",
        "ok\nok 1\nok 2\nok\nok\nok\nok\nok 642031202d3220300a\n",
    ),
    // A proof begins before all else, and is the only one.
    (
        "proof text\nproof binary\nclose\nproof binary\nclose\nnew\nproof text\n",
        "ok\nerr 10\nok\nok\nok\nok 1\nerr 11\n",
    ),
    (
        "solve\nproof text\nadd\nproof text\nclose\nproof text\n",
        "ok true\nok\nok\nerr 10\nok\nerr 11\n",
    ),
    // Once `solve` was called under it no clause is accepted, and no assumption under it.
    (
        "solve\nproof text\nadd 1\nsolve\nadd 2\nclose\nadd 2\nproof text\n",
        "ok true\nok\nok\nok true\nerr 9\nok\nok\nerr 11\n",
    ),
    (
        "proof text\nadd 1 2\nassume 1\nsolve\nadd 3\nadd 3\nassume 1\nassume 1\nproof text\nproof text\nclose\nadd 3\nassume 1\nproof binary\nproof binary\n",
        "ok\nok\nerr 10\nok true\nerr 9\nerr 9\nerr 10\nerr 10\nerr 10\nerr 10\nok\nok\nok\nerr 11\nerr 11\n",
    ),
    // Under a marked proof both are: it has the clauses and the lists as they were given, and the core.
    (
        "proof marked\nadd 1 2\nsolve\nadd -1\nassume -2\nsolve\ncore\nadd -2\nsolve\ncore\nclose\n",
        "ok\nok\nok true\nok\nok\nok false\nok -2 0\nok\nok false\nok 0\nok 692031203220300a69202d3120300a71202d3220300a3220300a642031203220300a66202d3220300a69202d3220300a\n",
    ),
    // A proof that is opened or closed sets the steps since the last change to 0, a refused one leaves them.
    (
        "solve\nproof text\nsince\nadd 1 2\nsolve\nsince\nassume 1\nadd 3\nproof text\nsince\nclose\nsince\n",
        "ok true\nok\nok 0\nok\nok true\nok 1\nerr 10\nerr 9\nerr 10\nok 1\nok\nok 0\n",
    ),
    // Self checking may be switched on again, also after `solve` and under a proof, until something is accepted. That sets
    // the steps since the last change to 0, and a refusal leaves them.
    (
        "selfcheck\nselfcheck\nsolve\nsince\nselfcheck\nsince\nproof text\nselfcheck\nadd 1 2\nsolve\nsince\nselfcheck\nsince\nclose\nselfcheck\n",
        "ok\nok\nok true\nok 1\nok\nok 0\nok\nok\nok\nok true\nok 1\nerr 11\nok 1\nok\nerr 11\n",
    ),
    (
        "new\nselfcheck\nselfcheck 1\nselfcheck \nSelfcheck\nself check\nsolve\n",
        "ok 1\nerr 11\nbad line\nbad line\nbad line\nbad line\nok true\n",
    ),
    // Settings and a refused clause are none that come before it, a list of assumptions is.
    (
        "config max_steps 9\nadd 268435457\nselfcheck\nassume\nselfcheck\n",
        "ok\nerr 7\nok\nok\nerr 11\n",
    ),
    (
        "assume\nproof text\nproof\nproof marked\nproof  text\nproof text \nPROOF text\n",
        "ok\nerr 11\nbad line\nerr 11\nbad line\nbad line\nbad line\n",
    ),
    // Calls in an odd order.
    (
        "solve\nmodel\nhide 2\nmodel\nnew\nassume 1\nsample 1\nwitness 2\nassume 2\nsolve\nmodel\nsteps\nadd 2 1\nselfcheck\nproof text\nadd\ncore\nnew\nadd 9\nassume 1\nconfig max_steps 0\nsolve\nsteps\nmodel\nclose\nadd 01\nadd  1\n",
        "ok true\nok 0\nok\nok -1 0\nok 2\nok\nerr 8\nok\nerr 6\nok true\nok 1 -2 0\nok 2\nerr 6\nerr 11\nerr 11\nok\nok 0\nok 3\nok\nok\nok\nok false\nok 2\nok none\nok none\nbad line\nbad line\n",
    ),
    // Once 2 has left, a checker inside still has the clauses of 1.
    (
        "add 2 3\nhide 2\nadd -3\nadd 1 4\nsolve\nadd 1 -4\nadd -1 5\nadd -1 -5\nsolve\n",
        "ok\nok\nok\nok\nok true\nok\nok\nok\nok false\n",
    ),
    // Names that no clause names have no variable in the search.
    (
        "add 1000 2\nadd -1000 5\nsolve\nadd -2\nadd -5\nsolve\n",
        "ok\nok\nok true\nok\nok\nok false\n",
    ),
];

/// A session that takes much memory.
pub const WIDE_SESSIONS: [Exchange; 1] = [(
    "add 1000000 2\nadd -1000000 5\nsolve\nadd -2\nadd -5\nsolve\n",
    "ok\nok\nok true\nok\nok\nok false\n",
)];

/// Sessions with assumptions, where no order of a core is open.
pub const ASSUMING_SESSIONS: [Exchange; 13] = [
    ("add\ncore\nsolve\nsteps\n", "ok\nok 0\nok false\nok 0\n"),
    (
        "add 1\nadd -1\ncore\nsolve\nadd 5\nnew\n",
        "ok\nok\nok 0\nok false\nok\nok 2\n",
    ),
    (
        "assume 1 -1\nsolve\nadd -2\nassume 2\nsolve\ncore\n",
        "ok\nok false\nok\nok\nok false\nok 2 0\n",
    ),
    (
        "add -1 2\nassume 1 -2\nsolve\nsteps\nadd 1\nsolve\nsteps\nassume\nsolve\nmodel\nsteps\n",
        "ok\nok\nok false\nok 1\nok\nok false\nok 1\nok\nok true\nok 1 2 0\nok 2\n",
    ),
    (
        "assume 2 2\nsolve\nmodel\nsteps\n",
        "ok\nok true\nok -1 2 0\nok 1\n",
    ),
    (
        "add -1 -2 -3\nassume 1 2 3\nsolve\nassume 1 2\nsolve\nmodel\n",
        "ok\nok\nok false\nok\nok true\nok 1 2 -3 0\n",
    ),
    (
        "add -1 2\nassume 1 2\nsolve\nmodel\n",
        "ok\nok\nok true\nok 1 2 0\n",
    ),
    // No core is returned before `solve`, nor with a model, nor once other literals are assumed.
    (
        "core\nassume 1\nsolve\ncore\nadd -1\ncore\nsolve\ncore\nassume\ncore\n",
        "ok none\nok\nok true\nok none\nok\nok none\nok false\nok 1 0\nok\nok none\n",
    ),
    // A core stays one under more clauses, until the clauses alone are unsatisfiable.
    (
        "add -1\nassume 1\nsolve\nadd 2 3\ncore\nadd 1\ncore\nassume 2\nsolve\ncore\n",
        "ok\nok\nok false\nok\nok 1 0\nok\nok 0\nok\nok false\nok 0\n",
    ),
    // A refused list leaves the one before.
    (
        "add -1\nassume 1\nassume 268435457 2\nsolve\ncore\nnew\n",
        "ok\nok\nerr 7\nok false\nok 1 0\nok 2\n",
    ),
    // Where the clauses are unsatisfiable a list still names its names, and one past the limit is refused.
    (
        "add\nassume 2\nassume 268435457\nsolve\nnew\n",
        "ok\nok\nerr 7\nok false\nok 3\n",
    ),
    // Assumptions are units, follow from units and from each other.
    (
        "add 1\nadd -2 3\nassume 1 2 3 1\nsolve\nmodel\nadd -3 4\nsolve\nmodel\n",
        "ok\nok\nok\nok true\nok 1 2 3 0\nok\nok true\nok 1 2 3 4 0\n",
    ),
    // An interrupted search is gone on with under its assumptions.
    (
        "config max_steps 0\nadd -1 2\nassume 1\nsolve\ncore\nconfig max_steps 9\nsolve\nmodel\n",
        "ok\nok\nok\nerr 1\nok none\nok\nok true\nok 1 2 0\n",
    ),
];
