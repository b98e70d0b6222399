//! Sessions in which variables are witnesses, hidden, and brought back.

/// Lines of a session, and what they are answered.
pub type Exchange = (&'static str, &'static str);

/// Sessions that take little memory and bring back no variable.
pub const MODE_SESSIONS: [Exchange; 12] = [
    // An assumed variable keeps its mode and its name, as long as it is assumed.
    (
        "add -1 2\nassume 1 2\nsolve\nmodel\nhide 2\nwitness 1\nsample 1\nassume -1\nhide 2\nsolve\nmodel\n",
        "ok\nok\nok true\nok 1 2 0\nerr 8\nerr 8\nerr 8\nok\nok\nok true\nok -1 0\n",
    ),
    // The two variables called 1 differ.
    (
        "add 1 2\nhide 1\nadd -1\nadd -2\nsolve\nmodel\n",
        "ok\nok\nok\nok\nok true\nok -1 -2 0\n",
    ),
    // A model is returned of the names in use, and a name that came after it is false.
    (
        "add 1\nsolve\nhide 1\nmodel\nnew\nmodel\n",
        "ok\nok true\nok\nok 0\nok 1\nok -1 0\n",
    ),
    // A refused clause names nothing, and Unsat takes any clause.
    (
        "witness 1\nadd 1 2\nsolve\nmodel\nadd\nadd 1\nassume 1\nnew\n",
        "ok\nerr 6\nok true\nok -1 0\nok\nok\nerr 6\nok 2\n",
    ),
    // A name past the limit is returned before a witness.
    (
        "witness 1\nwitness 2\nadd 3 2 1\nadd 268435457 1\nnew\n",
        "ok\nok\nerr 6\nerr 7\nok 3\n",
    ),
    // A witness that is sampled again may be constrained.
    (
        "witness 1\nsample 1\nadd 1\nsolve\nmodel\n",
        "ok\nok\nok\nok true\nok 1 0\n",
    ),
    // A name above the others brings them along, also where it is free at once.
    (
        "hide 3\nsolve\nmodel\nnew\nmodel\n",
        "ok\nok true\nok -1 -2 0\nok 3\nok -1 -2 -3 0\n",
    ),
    // A free name below them comes into use alone.
    (
        "add 3\nhide 1\nhide 2\nwitness 2\nnew\nnew\nsolve\nmodel\n",
        "ok\nok\nok\nok\nok 1\nok 4\nok true\nok -1 -2 3 -4 0\n",
    ),
    // What was said of a variable before it was hidden stays.
    (
        "add -1 2\nadd -2 3\nhide 2\nassume 1 -2\nsolve\nmodel\nassume 1 -3\nsolve\n",
        "ok\nok\nok\nok\nok true\nok 1 -2 3 0\nok\nok false\n",
    ),
    // A name past the limit is refused, and nothing is named.
    (
        "hide 268435457\nsample 268435457\nwitness 268435457\nnew\n",
        "err 7\nerr 7\nerr 7\nok 1\n",
    ),
    // A mode leaves the verdict.
    (
        "add 1 -2\nassume -1\nsolve\nwitness 2\nmodel\nadd 2\nmodel\n",
        "ok\nok\nok true\nok\nok -1 -2 0\nerr 6\nok -1 -2 0\n",
    ),
    // Lines that are none.
    (
        "hide\nhide 0\nhide -1\nwitness 1 2\nsample 01\nobserve 1\nnew\n",
        "bad line\nbad line\nbad line\nbad line\nbad line\nbad line\nok 1\n",
    ),
];

/// Sessions that bring hidden variables back.
pub const OBSERVING_SESSIONS: [Exchange; 7] = [
    ("observe\nhide 1\nobserve\n", "ok 0\nok\nok 0\n"),
    // One whose value follows from the clauses alone leaves in a step, and does not come back.
    (
        "add 1 2\nhide 1\nadd -2\nsolve\nobserve\n",
        "ok\nok\nok\nok true\nok 0\n",
    ),
    // One whose only clause is satisfied leaves too, and comes back, as its value is open.
    (
        "add 1 2\nhide 1\nadd 2\nsolve\nobserve\nsample 1\nadd -1\nsolve\nmodel\n",
        "ok\nok\nok\nok true\nok 1 0\nok\nok\nok true\nok -1 2 0\n",
    ),
    // A variable that comes back is a witness.
    (
        "add 1 2\nhide 2\nobserve\nadd 2 3\nassume -1\nsolve\nmodel\n",
        "ok\nok\nok 2 0\nerr 6\nok\nok true\nok -1 2 0\n",
    ),
    // And may be sampled then.
    (
        "add 1 2\nhide 1\nobserve\nadd 1\nsample 1\nadd 1\nassume -2\nsolve\nmodel\n",
        "ok\nok\nok 1 0\nerr 6\nok\nok\nok\nok true\nok 1 -2 0\n",
    ),
    // It keeps the value that it has in the model found last.
    (
        "add 1 2\nassume -1\nhide 2\nsolve\nmodel\nobserve\nmodel\n",
        "ok\nok\nok\nok true\nok -1 0\nok 2 0\nok -1 2 0\n",
    ),
    // Those that come back have the least free names, though theirs are in use for others.
    (
        "add 1 2 3\nhide 3\nhide 1\nnew\nwitness 1\nobserve\nobserve\nsample 3\nassume -2 -3\nsolve\nhide 1\nobserve\n",
        "ok\nok\nok\nok 1\nok\nok 3 4 0\nok 0\nok\nok\nok true\nok\nok 0\n",
    ),
];
