//! What is kept of each global variable.
ghost use Rattle.std.specs.Prelude.{◌≡◌, ◌<◌};
ghost use Rattle.varisat_names.specs.promises.VarData.{fresh, dead};
ghost use Rattle.varisat_names.specs.inside.KeptCodes.{mode_as, unit_as, kept_as};

/// How a variable may be used.
#[derive(Clone, Copy, Debug, PartialEq, Eq)]
pub enum SamplingMode {
    /// It has a name, and clauses may name it.
    Sample,
    /// It has a name, and models have its value, but clauses and assumptions may not name it.
    Witness,
    /// It has no name, and lives on in the clauses alone.
    Hide,
}

/// What is kept of a global variable, also of one that has no solver variable.
#[derive(Clone, Copy, Debug)]
pub struct VarData {
    /// How the variable may be used.
    pub sampling_mode: SamplingMode,
    /// The value that a unit clause forces, kept for when the unit clause leaves the search.
    pub unit: Option<bool>,
    /// No clause names the variable together with others, or its value is kept in `unit`.
    pub isolated: bool,
    /// The variable is assumed.
    pub assumed: bool,
    /// The variable is not live, and may be used again.
    pub deleted: bool,
}

impl Default for VarData {
    /// What is kept of a variable that is not live.
    fn default() -> VarData
        ensures { result ≡ dead }
    {
        VarData {
            sampling_mode: SamplingMode::Hide,
            unit: None,
            isolated: true,
            assumed: false,
            deleted: true,
        }
    }
}

impl VarData {
    /// What is kept of a variable that just came into use for a name.
    pub fn user_default() -> VarData
        ensures { result ≡ fresh }
    {
        VarData {
            sampling_mode: SamplingMode::Sample,
            unit: None,
            isolated: true,
            assumed: false,
            deleted: false,
        }
    }
}

/// The number of the mode.
fn mode_code(mode: SamplingMode) -> u8
    ensures below { result < 4 }
    ensures mode { mode_as result ≡ mode }
{
    match mode {
        SamplingMode::Sample => 0,
        SamplingMode::Witness => 1,
        SamplingMode::Hide => 2,
    }
}

/// The mode of the number.
fn mode_of(code: u8) -> SamplingMode
    ensures { result ≡ mode_as code }
{
    match code {
        0 => SamplingMode::Sample,
        1 => SamplingMode::Witness,
        _ => SamplingMode::Hide,
    }
}

/// The number of the value that a unit clause forces.
fn unit_code(unit: Option<bool>) -> u8
    ensures below { result < 4 }
    ensures unit { unit_as result ≡ unit }
{
    match unit {
        None => 0,
        Some(false) => 1,
        Some(true) => 2,
    }
}

/// The value, if any, of the number.
fn unit_of(code: u8) -> Option<bool>
    ensures { result ≡ unit_as code }
{
    match code {
        0 => None,
        1 => Some(false),
        _ => Some(true),
    }
}

/// What is kept of a variable, as a number.
pub(super) fn code_of(kept: VarData) -> u8
    ensures { kept_as result ≡ kept }
{
    mode_code(kept.sampling_mode)
        + 4 * unit_code(kept.unit)
        + 16 * kept.isolated as u8
        + 32 * kept.assumed as u8
        + 64 * kept.deleted as u8
}

/// What the number says that is kept of a variable.
#[tactic(auto, unfolding(crate::specs::inside::KeptCodes::kept_as))]
pub(super) fn data_of(code: u8) -> VarData
    ensures { result ≡ kept_as code }
{
    VarData {
        sampling_mode: mode_of(code % 4),
        unit: unit_of(code / 4 % 4),
        isolated: code / 16 % 2 == 1,
        assumed: code / 32 % 2 == 1,
        deleted: code / 64 % 2 == 1,
    }
}
