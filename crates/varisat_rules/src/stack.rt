//! How a model of what is left is extended.
ghost use Rattle.std.specs.Prelude.{◌≡◌};
ghost use Rattle.varisat_rules.specs.promises.Stacks.{amended, extended};

use std::alloc::Allocator;
use varisat_database::clauses::ClauseList;
use varisat_formula::values::is_satisfied;
use varisat_literals::Lit;

/// Makes the clause's first literal true unless the clause is satisfied.
fn amend(values: &mut [bool], clause: &[Lit])
    ensures { values.new ≡ amended clause.now values.old }
{
    let Some(lit) = clause.first() else {
        return;
    };
    if !is_satisfied(values, clause) && lit.index() < values.len() {
        values[lit.index()] = lit.is_positive();
    }
}

/// Makes of the values that satisfy what is left values that satisfy all.
pub fn extend<A: Allocator + Copy>(stack: &ClauseList<A>, values: &mut [bool])
    ensures { values.new ≡ extended stack.now values.old }
{
    let mut k = stack.len();
    while k > 0 {
        k -= 1;
        amend(values, stack.clause(k));
    }
}
