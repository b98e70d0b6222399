//! Variables that are flagged.
ghost use Rattle.std.specs.Prelude.{◌≡◌, ◌↔◌, ◌<◌, ◌^◌, false, length, IsTrue, OnOk};
ghost use Rattle.varisat_theory.specs.promises.Literals.{variable_of};
ghost use Rattle.varisat_incremental.specs.Flags.{IsFlagged, AreFlagged, AreClear, AreAmong, AllFlagged, AllClear};

use crate::forecast::Forecast;
use std::alloc::{AllocError, Allocator};
use varisat_formula::formula::cnf::CnfFormula;
use varisat_literals::Lit;

/// Whether the literal's variable is flagged.
pub fn has_flag(flags: &[bool], lit: Lit) -> bool
    ensures { IsTrue result ↔ IsFlagged flags.now (variable_of lit) }
{
    lit.index() < flags.len() && flags[lit.index()]
}

/// Makes room for the flag at the index.
fn grow<A: Allocator + Copy>(flags: &mut Vec<bool, A>, index: usize) -> Result<(), AllocError>
    requires { index < 2 ^ 31 }
    ensures keeps { OnOk result (AreAmong flags.old.items flags.new.items) }
    ensures room { OnOk result (index < length flags.new.items) }
{
    if index >= flags.len() {
        flags.resize(index + 1, false)?;
    }
    Ok(())
}

/// Flags the literal's variable.
pub fn set_flag<A: Allocator + Copy>(flags: &mut Vec<bool, A>, lit: Lit) -> Result<(), AllocError>
    ensures keeps { OnOk result (AreAmong flags.old.items flags.new.items) }
    ensures sets { OnOk result (IsFlagged flags.new.items (variable_of lit)) }
{
    grow(flags, lit.index())?;
    flags[lit.index()] = true;
    Ok(())
}

/// Flags the variables of the literals.
pub fn set_flags<A: Allocator + Copy>(
    flags: &mut Vec<bool, A>,
    lits: &[Lit],
) -> Result<(), AllocError>
    ensures keeps { OnOk result (AreAmong flags.old.items flags.new.items) }
    ensures sets { OnOk result (AreFlagged flags.new.items lits.now) }
{
    for lit in lits {
        set_flag(flags, *lit)?;
    }
    Ok(())
}

/// Flags the variables of the clauses.
pub fn set_all_flags<A: Allocator + Copy>(
    flags: &mut Vec<bool, A>,
    formula: &CnfFormula<A>,
) -> Result<(), AllocError>
    ensures keeps { OnOk result (AreAmong flags.old.items flags.new.items) }
    ensures sets { OnOk result (AllFlagged flags.new.items formula.now.clauses) }
{
    for clause in formula.iter() {
        set_flags(flags, clause)?;
    }
    Ok(())
}

/// Flags the literal's variable if it is flagged in `hinted` or expected to be named later.
fn set_if_hinted<A: Allocator + Copy>(
    flags: &mut Vec<bool, A>,
    hinted: &[bool],
    forecast: &Forecast<A>,
    lit: Lit,
) -> Result<(), AllocError>
    ensures { OnOk result (AreAmong flags.old.items flags.new.items) }
{
    if !has_flag(hinted, lit) && !forecast.expects(lit) {
        return Ok(());
    }
    set_flag(flags, lit)?;
    Ok(())
}

/// Flags those variables of the literals that are flagged in `hinted` or expected to be named later.
fn set_hinted_in<A: Allocator + Copy>(
    flags: &mut Vec<bool, A>,
    hinted: &[bool],
    forecast: &Forecast<A>,
    lits: &[Lit],
) -> Result<(), AllocError>
    ensures { OnOk result (AreAmong flags.old.items flags.new.items) }
{
    for lit in lits {
        set_if_hinted(flags, hinted, forecast, *lit)?;
    }
    Ok(())
}

/// Flags those variables of the clauses that are flagged in `hinted` or expected to be named later.
pub fn set_hinted_flags<A: Allocator + Copy>(
    flags: &mut Vec<bool, A>,
    hinted: &[bool],
    forecast: &Forecast<A>,
    formula: &CnfFormula<A>,
) -> Result<(), AllocError>
    ensures { OnOk result (AreAmong flags.old.items flags.new.items) }
{
    for clause in formula.iter() {
        set_hinted_in(flags, hinted, forecast, clause)?;
    }
    Ok(())
}

/// Clears the flag of the literal's variable. Whether it was set.
pub fn clear_flag<A: Allocator + Copy>(flags: &mut Vec<bool, A>, lit: Lit) -> bool
    ensures fewer { AreAmong flags.new.items flags.old.items }
    ensures clear { IsFlagged flags.new.items (variable_of lit) → ⊥ }
    ensures same { result ≡ false → flags.new.items ≡ flags.old.items }
{
    if lit.index() < flags.len() && flags[lit.index()] {
        flags[lit.index()] = false;
        return true;
    }
    false
}

/// Clears the flags of the variables of the literals. Whether one was set.
pub fn clear_flags<A: Allocator + Copy>(flags: &mut Vec<bool, A>, lits: &[Lit]) -> bool
    ensures fewer { AreAmong flags.new.items flags.old.items }
    ensures clear { AreClear flags.new.items lits.now }
    ensures same { result ≡ false → flags.new.items ≡ flags.old.items }
{
    let mut is_any = false;
    for lit in lits {
        let is_one = clear_flag(flags, *lit);
        is_any = is_any || is_one;
    }
    is_any
}

/// Clears the flags of the variables of the clauses. Whether one was set.
pub fn clear_all_flags<A: Allocator + Copy>(
    flags: &mut Vec<bool, A>,
    formula: &CnfFormula<A>,
) -> bool
    ensures fewer { AreAmong flags.new.items flags.old.items }
    ensures clear { AllClear flags.new.items formula.now.clauses }
    ensures same { result ≡ false → flags.new.items ≡ flags.old.items }
{
    let mut is_any = false;
    for clause in formula.iter() {
        let is_one = clear_flags(flags, clause);
        is_any = is_any || is_one;
    }
    is_any
}
