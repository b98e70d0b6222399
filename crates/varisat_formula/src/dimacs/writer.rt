//! Writes formulas as DIMACS CNF text.
ghost use Rattle.std.specs.Prelude.{◌≡◌, ℕ, List, [], ◌∷◌, ◌++◌, ◌+◌, ◌-◌, ◌<◌, ◌≤◌, ◌^◌, length, take, flat_map, OnOk, OnErr};
ghost use Rattle.varisat_literals.specs.promises.Numbers.{literal_text, variable_limit};
ghost use Rattle.varisat_formula.specs.promises.Written.{Puts, ReadsBack, spaced_literals, header_text, formula_text};

use crate::formula::{CnfFormula, Lit};
use crate::io::ProofTarget;
use itoa::Buffer;
use std::alloc::Allocator;
use std::io;

/// Writes the parts one after another.
fn put_all<W: ProofTarget>(target: &mut W, parts: &[&[u8]]) -> io::Result<()>
    requires { (W.taken target.old).faults < 2 ^ 64 - 1 }
    ensures { Puts (W.taken target.old) result (flat_map (λ p. p.now) parts.now) (W.taken target.new) }
{
    for part in parts {
        target.put(part)?;
    }
    Ok(())
}

/// Writes the literal's number and a space.
fn write_literal<W: ProofTarget>(target: &mut W, literal: Lit) -> io::Result<()>
    requires { (W.taken target.old).faults < 2 ^ 64 - 1 }
    ensures { Puts (W.taken target.old) result (literal_text literal ++ 32 ∷ []) (W.taken target.new) }
{
    let mut buffer = Buffer::new();
    let number = buffer.format(literal.index() + 1).as_bytes();
    if literal.is_negative() {
        put_all(target, &[b"-".as_slice(), number, b" ".as_slice()])
    } else {
        put_all(target, &[number, b" ".as_slice()])
    }
}

/// Writes the clause's literals, `0` and a line feed.
fn write_clause<W: ProofTarget>(target: &mut W, clause: &[Lit]) -> io::Result<()>
    requires { (W.taken target.old).faults < 2 ^ 64 - 1 }
    ensures { Puts (W.taken target.old) result (spaced_literals clause.now ++ 48 ∷ 10 ∷ []) (W.taken target.new) }
{
    for literal in clause {
        write_literal(target, *literal)?;
    }
    put_all(target, &[b"0\n".as_slice()])
}

/// Writes the header.
fn write_header<W: ProofTarget>(target: &mut W, vars: usize, clauses: usize) -> io::Result<()>
    requires { (W.taken target.old).faults < 2 ^ 64 - 1 }
    ensures { Puts (W.taken target.old) result (header_text vars clauses) (W.taken target.new) }
{
    let mut vars_buffer = Buffer::new();
    let mut clauses_buffer = Buffer::new();
    let vars = vars_buffer.format(vars).as_bytes();
    let clauses = clauses_buffer.format(clauses).as_bytes();
    put_all(
        target,
        &[
            b"p cnf ".as_slice(),
            vars,
            b" ".as_slice(),
            clauses,
            b"\n".as_slice(),
        ],
    )
}

/// Writes the formula as DIMACS CNF text: the header with its count of variables and of clauses, and then each clause
/// on a line of its own. A fault is the target's, and a beginning of the text then stands in the target. What is
/// written for up to 2^28 variables is read back as the same clauses and count of variables.
pub fn write_dimacs<W: ProofTarget, A: Allocator + Copy>(
    target: &mut W,
    formula: &CnfFormula<A>,
) -> io::Result<()>
    requires { (W.taken target.old).faults < 2 ^ 64 - 1 }
    ensures whole { OnOk result ((W.taken target.new).bytes ≡ (W.taken target.old).bytes ++ formula_text formula.now) }
    ensures begun { OnErr result
        ((n : ℕ) × ((W.taken target.new).bytes ≡ (W.taken target.old).bytes ++ take n (formula_text formula.now))) }
    ensures quiet { OnOk result ((W.taken target.new).faults ≡ (W.taken target.old).faults) }
    ensures fault { OnErr result ((W.taken target.new).faults ≡ (W.taken target.old).faults + 1) }
    ensures read_back { formula.now.var_count ≤ variable_limit → ReadsBack formula.now }
{
    write_header(target, formula.var_count(), formula.len())?;
    for clause in formula.iter() {
        write_clause(target, clause)?;
    }
    Ok(())
}
