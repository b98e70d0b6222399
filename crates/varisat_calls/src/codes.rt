//! The numbers of answers, settings, formats and modes for callers. Refusals have those of `SolverError::number`.
ghost use Rattle.std.specs.Prelude.{◌≡◌};
ghost use Rattle.varisat_calls.specs.Codes.{field_numbered, format_numbered, mode_numbered};

use varisat_names::config::ConfigField;
use varisat_names::variables::SamplingMode;
use varisat_proof::proof::ProofFormat;

/// A call that was not refused.
pub const DONE: u8 = 0;

/// A call that found no memory.
pub const OUT_OF_MEMORY: u8 = 3;

/// A call that was given a variable above those that a solver takes.
pub const VARIABLE_LIMIT: u8 = 7;

/// A call that was given no literal, no variable, no setting, no mode or no format.
pub const WRONG: u8 = 14;

/// A call that found no list or proof to return.
pub const NOTHING: u8 = 15;

/// A call that comes once the clauses are simplified.
pub const TOO_LATE: u8 = 19;

/// The setting of the number.
pub fn field_of(number: u8) -> Option<ConfigField>
    ensures { result ≡ field_numbered number }
{
    match number {
        0 => Some(ConfigField::VsidsDecay),
        1 => Some(ConfigField::ClauseActivityDecay),
        2 => Some(ConfigField::ReduceLocalsInterval),
        3 => Some(ConfigField::ReduceMidsInterval),
        4 => Some(ConfigField::LubyRestartIntervalScale),
        5 => Some(ConfigField::RestartGlue),
        _ => None,
    }
}

/// The format of the number.
pub fn format_of(number: u8) -> Option<ProofFormat>
    ensures { result ≡ format_numbered number }
{
    match number {
        0 => Some(ProofFormat::Drat),
        1 => Some(ProofFormat::BinaryDrat),
        2 => Some(ProofFormat::Marked),
        _ => None,
    }
}

/// The mode of the number: clauses and assumptions may name the variable, none may, or its name is free.
pub fn mode_of(number: u8) -> Option<SamplingMode>
    ensures { result ≡ mode_numbered number }
{
    match number {
        0 => Some(SamplingMode::Sample),
        1 => Some(SamplingMode::Witness),
        2 => Some(SamplingMode::Hide),
        _ => None,
    }
}
