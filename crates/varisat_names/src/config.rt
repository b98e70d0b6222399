//! The settings of a solver, and updates of them.
ghost use Rattle.std.specs.Prelude.{◌≡◌, ◌≢◌, ◌≤◌, ◌<◌, None, Some, true, false, MatchOption, MatchResult};
ghost use Rattle.varisat_names.specs.promises.Settings.{AreSettingsInRange, default_settings, may_take, first_bad, AppliesUpdate, least_value, greatest_value, field_text, no_update, update_of};

use std::fmt;
use std::marker::Model;
use thiserror::Error;

/// The settings of a solver, each of which is within its range.
///
/// | setting | default | range |
/// |---|---|---|
/// | `vsids_decay`, in thousandths | 950 | 500 to 999 |
/// | `clause_activity_decay`, in thousandths | 999 | 500 to 999 |
/// | `reduce_locals_interval`, in steps | 15000 | from 1 |
/// | `reduce_mids_interval`, in steps | 10000 | from 1 |
/// | `luby_restart_interval_scale`, in steps | 128 | from 1 |
/// | `restart_glue`, in hundredths | 0 | 0 to 1000 |
/// | `max_steps`, of one call of `solve` | 2^64-1 | any |
#[derive(Clone, Copy, Debug, PartialEq, Eq)]
pub struct SolverConfig {
    vsids_decay: u64,
    clause_activity_decay: u64,
    reduce_locals_interval: u64,
    reduce_mids_interval: u64,
    luby_restart_interval_scale: u64,
    restart_glue: u64,
    max_steps: u64,
}

impl Model for SolverConfig {
    ghost use Rattle.varisat_names.specs.promises.Settings.{Settings, AreSettingsInRange};

    ghost Value = { Settings };

    ghost view = { λ c. record {
      vsids_decay = c.vsids_decay;
      clause_activity_decay = c.clause_activity_decay;
      reduce_locals_interval = c.reduce_locals_interval;
      reduce_mids_interval = c.reduce_mids_interval;
      luby_restart_interval_scale = c.luby_restart_interval_scale;
      restart_glue = c.restart_glue;
      max_steps = c.max_steps;
    } };

    ghost inverse = { λ s. record {
      vsids_decay = s.vsids_decay;
      clause_activity_decay = s.clause_activity_decay;
      reduce_locals_interval = s.reduce_locals_interval;
      reduce_mids_interval = s.reduce_mids_interval;
      luby_restart_interval_scale = s.luby_restart_interval_scale;
      restart_glue = s.restart_glue;
      max_steps = s.max_steps;
    } };

    ghost invariant = { λ c. AreSettingsInRange
        (record {
          vsids_decay = c.vsids_decay;
          clause_activity_decay = c.clause_activity_decay;
          reduce_locals_interval = c.reduce_locals_interval;
          reduce_mids_interval = c.reduce_mids_interval;
          luby_restart_interval_scale = c.luby_restart_interval_scale;
          restart_glue = c.restart_glue;
          max_steps = c.max_steps;
        }) };
}

/// Which settings to change, and to what. The settings for which there is no value stay.
#[derive(Clone, Copy, Debug, PartialEq, Eq)]
pub struct SolverConfigUpdate {
    pub vsids_decay: Option<u64>,
    pub clause_activity_decay: Option<u64>,
    pub reduce_locals_interval: Option<u64>,
    pub reduce_mids_interval: Option<u64>,
    pub luby_restart_interval_scale: Option<u64>,
    pub restart_glue: Option<u64>,
    pub max_steps: Option<u64>,
}

/// A setting, by its name. Its text is that name.
#[derive(Clone, Copy, Debug, PartialEq, Eq)]
pub enum ConfigField {
    VsidsDecay,
    ClauseActivityDecay,
    ReduceLocalsInterval,
    ReduceMidsInterval,
    LubyRestartIntervalScale,
    RestartGlue,
    MaxSteps,
}

/// An update would have put the setting out of its range.
#[derive(Clone, Copy, Debug, PartialEq, Eq, Error)]
#[error("Configuration value out of range: {field}")]
pub struct ConfigError {
    /// The first such setting, in the order of the fields of an update.
    pub field: ConfigField,
}

impl Default for SolverConfig {
    ghost use Rattle.std.specs.Prelude.{◌≡◌};
    ghost use Rattle.varisat_names.specs.promises.Settings.{default_settings};

    ghost is_default = { λ c. c ≡ default_settings };

    /// The settings of a new solver.
    fn default() -> SolverConfig {
        SolverConfig::new()
    }
}

impl SolverConfig {
    /// The settings of a new solver.
    pub fn new() -> SolverConfig
        ensures { result ≡ default_settings }
    {
        SolverConfig {
            vsids_decay: 950,
            clause_activity_decay: 999,
            reduce_locals_interval: 15000,
            reduce_mids_interval: 10000,
            luby_restart_interval_scale: 128,
            restart_glue: 0,
            max_steps: u64::MAX,
        }
    }

    /// Each setting is within its range.
    pub fn prove_in_range(&self)
        ensures { AreSettingsInRange self.now }
    {
        let _ = &self.vsids_decay;
    }

    /// By what the activities of variables decay, in thousandths.
    pub fn vsids_decay(&self) -> u64
        ensures value { result ≡ self.now.vsids_decay }
        ensures range { (500 ≤ result) × (result ≤ 999) }
    {
        self.vsids_decay
    }

    /// By what the activities of clauses decay, in thousandths.
    pub fn clause_activity_decay(&self) -> u64
        ensures value { result ≡ self.now.clause_activity_decay }
        ensures range { (500 ≤ result) × (result ≤ 999) }
    {
        self.clause_activity_decay
    }

    /// How many steps lie between reductions of the local clauses.
    pub fn reduce_locals_interval(&self) -> u64
        ensures value { result ≡ self.now.reduce_locals_interval }
        ensures range { 0 < result }
    {
        self.reduce_locals_interval
    }

    /// How many steps lie between reductions of the mid clauses.
    pub fn reduce_mids_interval(&self) -> u64
        ensures value { result ≡ self.now.reduce_mids_interval }
        ensures range { 0 < result }
    {
        self.reduce_mids_interval
    }

    /// By what the Luby sequence is multiplied to give the steps between restarts.
    pub fn luby_restart_interval_scale(&self) -> u64
        ensures value { result ≡ self.now.luby_restart_interval_scale }
        ensures range { 0 < result }
    {
        self.luby_restart_interval_scale
    }

    /// Above how many hundredths of the usual glue that of the last learned clauses has to be in focused mode for a due
    /// restart to be made. At 0 there are no modes, and each is made.
    pub fn restart_glue(&self) -> u64
        ensures value { result ≡ self.now.restart_glue }
        ensures range { result ≤ 1000 }
    {
        self.restart_glue
    }

    /// How many steps one call of `solve` may make.
    pub fn max_steps(&self) -> u64
        ensures { result ≡ self.now.max_steps }
    {
        self.max_steps
    }
}

impl ConfigField {
    /// The name of the setting.
    pub fn name(self) -> &'static str
        ensures { result.now ≡ field_text self }
    {
        match self {
            ConfigField::VsidsDecay => "vsids_decay",
            ConfigField::ClauseActivityDecay => "clause_activity_decay",
            ConfigField::ReduceLocalsInterval => "reduce_locals_interval",
            ConfigField::ReduceMidsInterval => "reduce_mids_interval",
            ConfigField::LubyRestartIntervalScale => "luby_restart_interval_scale",
            ConfigField::RestartGlue => "restart_glue",
            ConfigField::MaxSteps => "max_steps",
        }
    }

    /// The setting of the name, if it is one of a setting.
    pub fn from_name(name: &[u8]) -> Option<ConfigField>
        ensures { MatchOption result ((field : ConfigField) → field_text field ≢ name.now)
            (λ field. field_text field ≡ name.now) }
    {
        if name == b"vsids_decay".as_slice() {
            Some(ConfigField::VsidsDecay)
        } else if name == b"clause_activity_decay".as_slice() {
            Some(ConfigField::ClauseActivityDecay)
        } else if name == b"reduce_locals_interval".as_slice() {
            Some(ConfigField::ReduceLocalsInterval)
        } else if name == b"reduce_mids_interval".as_slice() {
            Some(ConfigField::ReduceMidsInterval)
        } else if name == b"luby_restart_interval_scale".as_slice() {
            Some(ConfigField::LubyRestartIntervalScale)
        } else if name == b"restart_glue".as_slice() {
            Some(ConfigField::RestartGlue)
        } else if name == b"max_steps".as_slice() {
            Some(ConfigField::MaxSteps)
        } else {
            None
        }
    }

    /// The least and the greatest value of the setting.
    fn range(self) -> (u64, u64)
        ensures { (result.0 ≡ least_value self) × (result.1 ≡ greatest_value self) }
    {
        match self {
            ConfigField::VsidsDecay | ConfigField::ClauseActivityDecay => (500, 999),
            ConfigField::ReduceLocalsInterval
            | ConfigField::ReduceMidsInterval
            | ConfigField::LubyRestartIntervalScale => (1, u64::MAX),
            ConfigField::RestartGlue => (0, 1000),
            ConfigField::MaxSteps => (0, u64::MAX),
        }
    }

    /// Refuses a value that is out of the setting's range.
    fn check(self, value: Option<u64>) -> Result<(), ConfigError>
        ensures { MatchResult result (λ _. may_take self value ≡ true)
            (λ error. (may_take self value ≡ false) × (error.field ≡ self)) }
    {
        let (lowest, highest) = self.range();
        match value {
            None => Ok(()),
            Some(value) if lowest <= value && value <= highest => Ok(()),
            Some(_) => Err(ConfigError { field: self }),
        }
    }
}

impl fmt::Display for ConfigField {
    ghost output = { λ field. Some (field_text field) };

    /// Prints the name.
    fn fmt<W: fmt::Write>(&self, f: &mut fmt::Formatter<W>) -> fmt::Result {
        f.write_str(self.name())
    }
}

impl Default for SolverConfigUpdate {
    ghost use Rattle.std.specs.Prelude.{◌≡◌};
    ghost use Rattle.varisat_names.specs.promises.Settings.{no_update};

    ghost is_default = { λ u. u ≡ no_update };

    /// Changes nothing.
    fn default() -> SolverConfigUpdate {
        SolverConfigUpdate::new()
    }
}

impl SolverConfigUpdate {
    /// Changes nothing.
    pub fn new() -> SolverConfigUpdate
        ensures { result ≡ no_update }
    {
        SolverConfigUpdate {
            vsids_decay: None,
            clause_activity_decay: None,
            reduce_locals_interval: None,
            reduce_mids_interval: None,
            luby_restart_interval_scale: None,
            restart_glue: None,
            max_steps: None,
        }
    }

    /// Changes one setting.
    pub fn one(field: ConfigField, value: u64) -> SolverConfigUpdate
        ensures { result ≡ update_of field value }
    {
        let mut update = SolverConfigUpdate::new();
        match field {
            ConfigField::VsidsDecay => update.vsids_decay = Some(value),
            ConfigField::ClauseActivityDecay => update.clause_activity_decay = Some(value),
            ConfigField::ReduceLocalsInterval => update.reduce_locals_interval = Some(value),
            ConfigField::ReduceMidsInterval => update.reduce_mids_interval = Some(value),
            ConfigField::LubyRestartIntervalScale => {
                update.luby_restart_interval_scale = Some(value);
            }
            ConfigField::RestartGlue => update.restart_glue = Some(value),
            ConfigField::MaxSteps => update.max_steps = Some(value),
        }
        update
    }

    /// Refuses the first value that is out of its range.
    fn check(&self) -> Result<(), ConfigError>
        ensures { MatchResult result (λ _. first_bad self.now ≡ None) (λ error. first_bad self.now ≡ Some error.field) }
    {
        ConfigField::VsidsDecay.check(self.vsids_decay)?;
        ConfigField::ClauseActivityDecay.check(self.clause_activity_decay)?;
        ConfigField::ReduceLocalsInterval.check(self.reduce_locals_interval)?;
        ConfigField::ReduceMidsInterval.check(self.reduce_mids_interval)?;
        ConfigField::LubyRestartIntervalScale.check(self.luby_restart_interval_scale)?;
        ConfigField::RestartGlue.check(self.restart_glue)?;
        Ok(())
    }

    /// Changes the settings for which there are values. If some value is out of its range, the first such setting is
    /// returned and nothing changes.
    pub fn apply(&self, config: &mut SolverConfig) -> Result<(), ConfigError>
        ensures { AppliesUpdate self.now config.old result config.new }
    {
        self.check()?;
        *config = SolverConfig {
            vsids_decay: self.vsids_decay.unwrap_or(config.vsids_decay),
            clause_activity_decay: self
                .clause_activity_decay
                .unwrap_or(config.clause_activity_decay),
            reduce_locals_interval: self
                .reduce_locals_interval
                .unwrap_or(config.reduce_locals_interval),
            reduce_mids_interval: self
                .reduce_mids_interval
                .unwrap_or(config.reduce_mids_interval),
            luby_restart_interval_scale: self
                .luby_restart_interval_scale
                .unwrap_or(config.luby_restart_interval_scale),
            restart_glue: self.restart_glue.unwrap_or(config.restart_glue),
            max_steps: self.max_steps.unwrap_or(config.max_steps),
        };
        Ok(())
    }
}
