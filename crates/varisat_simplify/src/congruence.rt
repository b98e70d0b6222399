//! Gates of the same kind and inputs, whose outputs are equal: what follows from that is derived (A. Biere, K. Fazekas,
//! M. Fleury and N. Froleyks, Clausal congruence closure, 2024).
ghost use Rattle.std.specs.Prelude.{OnOk};
ghost use Rattle.varisat_rules.specs.inside.States.{IsLaterState};

use crate::equal::Equal;
use crate::gates::{Gates, Kind};
use crate::limits::Limits;
use crate::pairs::Pairs;
use crate::tables::{Lists, number_of};
use std::alloc::{AllocError, Allocator};
use varisat_database::database::Database;
use varisat_literals::Lit;
use varisat_rules::derive::{derive, retract};
use varisat_rules::resolve::holds;

/// Lists the clauses of two literals by which the literal implies inputs of a gate.
fn hint_implied<A: Allocator + Copy>(
    db: &Database<A>,
    pairs: &Pairs<A>,
    lit: Lit,
    inputs: &[Lit],
    hints: &mut Vec<u32, A>,
) -> Result<(), AllocError> {
    let Some(places) = db.places(!lit) else {
        return Ok(());
    };
    for place in places {
        if let Some(other) = pairs.other(db, *place as usize, !lit) {
            if holds(inputs, other) {
                hints.push(*place)?;
            }
        }
    }
    Ok(())
}

/// Whether the clause has the literal, and beside it the opposites of as many inputs as there are.
fn is_of_opposites(clause: &[Lit], lit: Lit, inputs: &[Lit]) -> bool {
    if clause.len() != inputs.len().saturating_add(1) {
        return false;
    }
    for one in clause {
        if one.code() != lit.code() && !holds(inputs, !*one) {
            return false;
        }
    }
    true
}

/// Whether the clause has more than two literals, and beside the literal only inputs and their opposites.
fn is_of_inputs(clause: &[Lit], lit: Lit, inputs: &[Lit]) -> bool {
    if clause.len() <= 2 || clause.len() > inputs.len().saturating_add(1) {
        return false;
    }
    for one in clause {
        if one.code() != lit.code() && !holds(inputs, *one) && !holds(inputs, !*one) {
            return false;
        }
    }
    true
}

/// Lists the clauses by which the inputs of a gate of the kind, together, imply the literal.
fn hint_implying<A: Allocator + Copy>(
    db: &Database<A>,
    kind: Kind,
    lit: Lit,
    inputs: &[Lit],
    hints: &mut Vec<u32, A>,
) -> Result<(), AllocError> {
    let Some(places) = db.places(lit) else {
        return Ok(());
    };
    for place in places {
        if db.is_live(*place as usize) {
            let clause = db.clause(*place as usize);
            let is_hint = match kind {
                Kind::And => is_of_opposites(clause, lit, inputs),
                Kind::Choice | Kind::Parity => is_of_inputs(clause, lit, inputs),
            };
            if is_hint {
                hints.push(*place)?;
            }
        }
    }
    Ok(())
}

/// Derives the clause by which the output `from` implies the output `to`, both whether all inputs are true. Returns its
/// place.
fn connect_ands<A: Allocator + Copy>(
    db: &mut Database<A>,
    from: Lit,
    to: Lit,
    inputs: &[Lit],
    lists: &mut Lists<A>,
) -> Result<Option<usize>, AllocError>
    ensures { OnOk result (IsLaterState db.old db.new) }
{
    lists.hints.clear();
    hint_implied(db, &lists.pairs, from, inputs, &mut lists.hints)?;
    hint_implying(db, Kind::And, to, inputs, &mut lists.hints)?;
    lists.clause.clear();
    lists.clause.push(!from)?;
    lists.clause.push(to)?;
    let made = db.len();
    if derive(db, &lists.clause, &lists.hints, &mut lists.falses)? {
        return Ok(Some(made));
    }
    Ok(None)
}

/// Derives that `from` implies `to` if the literals of the case are false, from the clauses from the place `first` on
/// and those of the two gates, which `back` lists. Returns whether it did.
fn derive_case<A: Allocator + Copy>(
    db: &mut Database<A>,
    from: Lit,
    to: Lit,
    case: &[Lit],
    first: usize,
    lists: &mut Lists<A>,
) -> Result<bool, AllocError>
    ensures { OnOk result (IsLaterState db.old db.new) }
{
    lists.clause.clear();
    lists.clause.push(!from)?;
    lists.clause.push(to)?;
    lists.clause.extend_from_slice(case)?;
    lists.hints.clear();
    for place in first..db.len() {
        lists.hints.push(number_of(place))?;
    }
    lists.hints.extend_from_slice(&lists.back)?;
    derive(db, &lists.clause, &lists.hints, &mut lists.falses)
}

/// Derives that `from` implies `to` if the first literal is false, and if it is true and the second one is false.
/// Returns whether it did.
fn derive_cases<A: Allocator + Copy>(
    db: &mut Database<A>,
    from: Lit,
    to: Lit,
    one: Lit,
    two: Lit,
    first: usize,
    lists: &mut Lists<A>,
) -> Result<bool, AllocError>
    ensures { OnOk result (IsLaterState db.old db.new) }
{
    if !derive_case(db, from, to, &[one, two], first, lists)? {
        return Ok(false);
    }
    if !derive_case(db, from, to, &[one], first, lists)? {
        return Ok(false);
    }
    let is_derived = derive_case(db, from, to, &[!one, two], first, lists)?;
    Ok(is_derived)
}

/// Derives that `from` implies `to` in cases by which the inputs of a gate of the kind decide. Returns whether it did.
fn split<A: Allocator + Copy>(
    db: &mut Database<A>,
    kind: Kind,
    from: Lit,
    to: Lit,
    inputs: &[Lit],
    first: usize,
    lists: &mut Lists<A>,
) -> Result<bool, AllocError>
    ensures { OnOk result (IsLaterState db.old db.new) }
{
    match (kind, inputs) {
        (Kind::Choice, [when, _, _]) => derive_case(db, from, to, &[*when], first, lists),
        (Kind::Parity, [one, _]) => derive_case(db, from, to, &[*one], first, lists),
        (Kind::Parity, [one, two, _]) => derive_cases(db, from, to, *one, *two, first, lists),
        _ => Ok(false),
    }
}

/// Removes the clauses from the place `first` on up to the place `by`, of which the clause there is a part.
fn remove_cases<A: Allocator + Copy>(
    db: &mut Database<A>,
    first: usize,
    by: usize,
    lists: &mut Lists<A>,
) -> Result<(), AllocError>
    ensures { OnOk result (IsLaterState db.old db.new) }
{
    lists.hints.clear();
    lists.hints.push(number_of(by))?;
    for place in first..by {
        let _ = retract(db, place, &lists.hints, &mut lists.falses)?;
    }
    Ok(())
}

/// Derives the clause by which the output `from` implies the output `to`, by cases. Returns its place.
fn connect_by_cases<A: Allocator + Copy>(
    db: &mut Database<A>,
    kind: Kind,
    from: Lit,
    to: Lit,
    inputs: &[Lit],
    lists: &mut Lists<A>,
) -> Result<Option<usize>, AllocError>
    ensures { OnOk result (IsLaterState db.old db.new) }
{
    lists.back.clear();
    hint_implying(db, kind, !from, inputs, &mut lists.back)?;
    hint_implying(db, kind, to, inputs, &mut lists.back)?;
    let first = db.len();
    if !split(db, kind, from, to, inputs, first, lists)? {
        return Ok(None);
    }
    let made = db.len();
    if !derive_case(db, from, to, &[], first, lists)? {
        return Ok(None);
    }
    remove_cases(db, first, made, lists)?;
    Ok(Some(made))
}

/// Derives the clause by which the output `from` implies the output `to`, both of a gate of the kind with the inputs.
/// Returns its place.
fn connect<A: Allocator + Copy>(
    db: &mut Database<A>,
    kind: Kind,
    from: Lit,
    to: Lit,
    inputs: &[Lit],
    lists: &mut Lists<A>,
) -> Result<Option<usize>, AllocError>
    ensures { OnOk result (IsLaterState db.old db.new) }
{
    match kind {
        Kind::And => connect_ands(db, from, to, inputs, lists),
        Kind::Choice | Kind::Parity => connect_by_cases(db, kind, from, to, inputs, lists),
    }
}

/// Whether two gates, each an output and inputs, have the same inputs.
fn are_same(one: &[Lit], other: &[Lit]) -> bool {
    if one.len() != other.len() || one.len() < 2 {
        return false;
    }
    for index in 1..one.len() {
        if one[index].code() != other[index].code() {
            return false;
        }
    }
    true
}

/// Derives that the outputs of two gates are equal, if they have the same inputs and neither output was met. Returns
/// whether it did.
fn merge<A: Allocator + Copy>(
    db: &mut Database<A>,
    kind: Kind,
    gate: &[Lit],
    other: &[Lit],
    equal: &mut Equal<A>,
    lists: &mut Lists<A>,
) -> Result<bool, AllocError>
    ensures { OnOk result (IsLaterState db.old db.new) }
{
    let (Some(by), Some(lit)) = (gate.first(), other.first()) else {
        return Ok(false);
    };
    let (by, lit) = (*by, *lit);
    if !are_same(gate, other) || by.index() == lit.index() || db.is_frozen(lit) {
        return Ok(false);
    }
    if equal.is_replaced(db, by) || equal.is_met(db, lit) {
        return Ok(false);
    }
    let Some(inputs) = gate.get(1..) else {
        return Ok(false);
    };
    let Some(there) = connect(db, kind, lit, by, inputs, lists)? else {
        return Ok(false);
    };
    let Some(back) = connect(db, kind, by, lit, inputs, lists)? else {
        return Ok(false);
    };
    equal.join(db, lit, by, there, back)?;
    Ok(true)
}

/// Whether live clauses have the gate's output and its opposite.
fn is_there<A: Allocator + Copy>(db: &Database<A>, gate: &[Lit]) -> bool {
    match gate.first() {
        Some(lit) => db.count(*lit) != 0 && db.count(!*lit) != 0,
        None => false,
    }
}

/// Derives that the output of the gate at the index is equal to that of the first gate before it with the same inputs,
/// whose key is `first`. If these are other inputs, it is the first gate with its own.
fn merge_next<A: Allocator + Copy>(
    db: &mut Database<A>,
    gates: &Gates<A>,
    index: usize,
    first: &mut u64,
    equal: &mut Equal<A>,
    lists: &mut Lists<A>,
) -> Result<(), AllocError>
    ensures { OnOk result (IsLaterState db.old db.new) }
{
    let key = gates.key(index);
    if gates.is_alone(index) || !is_there(db, gates.of_key(key)) {
        return Ok(());
    }
    let before = *first;
    *first = key;
    if key / 0x1_0000_0000 != before / 0x1_0000_0000 || key == before {
        return Ok(());
    }
    let (gate, other) = (gates.of_key(before), gates.of_key(key));
    if merge(db, gates.kind_of_key(key), gate, other, equal, lists)? {
        *first = before;
    }
    Ok(())
}

/// Derives that outputs of gates with the same inputs are equal, as long as clauses may be added.
pub fn merge_all<A: Allocator + Copy>(
    db: &mut Database<A>,
    gates: &Gates<A>,
    limits: &mut Limits,
    equal: &mut Equal<A>,
    lists: &mut Lists<A>,
) -> Result<(), AllocError>
    ensures { OnOk result (IsLaterState db.old db.new) }
{
    if !limits.visit(gates.len()) {
        return Ok(());
    }
    let mut first: u64 = gates.key(0);
    for index in 0..gates.len() {
        if limits.are_reached(db) {
            return Ok(());
        }
        merge_next(db, gates, index, &mut first, equal, lists)?;
    }
    Ok(())
}
