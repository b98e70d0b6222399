//! Names come into use, modes are set, and hidden variables come back.
ghost use Rattle.std.specs.Prelude.{◌≡◌, ◌≤◌, ◌<◌, ◌^◌, ◌+◌, ◌-◌, ℕ, List, None, false, length, IfOk, OnOk, OnErr};
ghost use Rattle.varisat_names.specs.promises.VarMap.{at};
ghost use Rattle.varisat_names.specs.promises.VarData.{data_at};
ghost use Rattle.varisat_names.specs.promises.Variables.{AreNextGiven, IsNamed};
ghost use Rattle.varisat_names.specs.inside.NamesAndModes.{IsLeastGiven, MovesName, SetsModeOf, AreShownInTurn, ShowsAllHidden, ShowsOne};

use crate::variables::data::SamplingMode;
use crate::variables::linked::LinkedVariables;
use std::alloc::{AllocError, Allocator};
use varisat_literals::Var;

/// Names the name, and returns its global variable. A free name comes into use, above the watermark with all names up
/// to it. Where memory is refused, which it isn't for a name in use, some of these are in use.
#[inline(always)]
pub fn global_from_user<A: Allocator + Copy>(
    variables: &mut LinkedVariables<A>,
    user: Var,
) -> Result<Var, AllocError>
    requires { length variables.old.kept + (user + 1 - length variables.old.users.forward) < 2 ^ 31 }
    ensures named { OnOk result (IsNamed user variables.old variables.new) }
    ensures leads { IfOk result (λ global. at variables.new.users.forward user ≡ Some global) }
    ensures free { OnErr result (at variables.old.users.forward user ≡ None) }
    ensures refused { OnErr result
        ((k : ℕ) × (k ≤ user + 1 - length variables.old.users.forward) × AreNextGiven k variables.old variables.new) }
{
    if let Some(global) = variables.global_from_user().get(user) {
        return Ok(global);
    }
    variables.name_user_var(user)?;
    let global = variables.global_from_user().get(user).unwrap();
    Ok(global)
}

/// Brings the least free name into use, and returns it. Where memory is refused nothing changes.
pub fn new_user_var<A: Allocator + Copy>(
    variables: &mut LinkedVariables<A>,
) -> Result<Var, AllocError>
    requires names { length variables.old.users.forward < 2 ^ 31 }
    requires globals { length variables.old.kept < 2 ^ 31 }
    ensures given { IfOk result (IsLeastGiven variables.old variables.new) }
    ensures refused { OnErr result (variables.new ≡ variables.old) }
{
    let user = variables.next_unmapped_user();
    variables.give_user_var(user)?;
    Ok(user)
}

/// Sets how the live variable may be used. `Hide` frees its name, if it has one; the variable stays, also where it is
/// unused. As another mode a variable without a name gets the least free one, which is returned. Where memory is
/// refused, which it is only for these two, nothing changes.
pub fn set_sampling_mode<A: Allocator + Copy>(
    variables: &mut LinkedVariables<A>,
    global: Var,
    mode: SamplingMode,
) -> Result<Option<Var>, AllocError>
    requires live { (data_at variables.old.kept global).deleted ≡ false }
    requires names { length variables.old.users.forward < 2 ^ 31 }
    ensures set { IfOk result (SetsModeOf global mode variables.old variables.new) }
    ensures moves { OnErr result (MovesName mode (at variables.old.users.backward global)) }
    ensures refused { OnErr result (variables.new ≡ variables.old) }
{
    variables.prove_linked();
    match variables.user_from_global().get(global) {
        Some(user) => match mode {
            SamplingMode::Hide => {
                variables.hide(user, global)?;
                return Ok(None);
            }
            SamplingMode::Sample | SamplingMode::Witness => {}
        },
        None => match mode {
            SamplingMode::Hide => {}
            SamplingMode::Sample | SamplingMode::Witness => {
                let user = variables.show(global, mode)?;
                return Ok(Some(user));
            }
        },
    }
    variables.set_sampling_mode(global, mode);
    Ok(None)
}

/// Brings the variable back as a witness, if it is hidden, and lists its name. Where memory is refused it may be back.
fn show_if_hidden<A: Allocator + Copy>(
    variables: &mut LinkedVariables<A>,
    global: Var,
    shown: &mut Vec<Var, A>,
) -> Result<(), AllocError>
    requires made { global < length variables.old.kept }
    requires names { length variables.old.users.forward < 2 ^ 31 }
    ensures shows { OnOk result (ShowsOne global shown.old.items shown.new.items variables.old variables.new) }
    ensures refused { OnErr result ((us : List ℕ) × AreShownInTurn us variables.old variables.new) }
{
    if variables.var_data_global(global).deleted
        || variables.user_from_global().get(global).is_some()
    {
        return Ok(());
    }
    let user = variables.show(global, SamplingMode::Witness)?;
    shown.push(user)?;
    Ok(())
}

/// Brings all hidden variables back as witnesses, each under the least free name, and returns these names. Where memory
/// is refused some of them are back.
pub fn observe_internal_vars<A: Allocator + Copy>(
    variables: &mut LinkedVariables<A>,
    alloc: A,
) -> Result<Vec<Var, A>, AllocError>
    requires { length variables.old.users.forward + length variables.old.kept ≤ 2 ^ 31 }
    ensures shown { IfOk result (λ shown. ShowsAllHidden shown.items variables.old variables.new) }
    ensures refused { OnErr result ((us : List ℕ) × AreShownInTurn us variables.old variables.new) }
{
    let mut shown = Vec::new(alloc);
    for index in 0..variables.global_watermark() {
        show_if_hidden(variables, Var::from_index(index), &mut shown)?;
    }
    Ok(shown)
}
