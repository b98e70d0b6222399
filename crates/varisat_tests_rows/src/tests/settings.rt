//! Updates of settings: an update with a value out of range changes nothing, and names the first such setting.

use varisat_names::config::{ConfigError, ConfigField, SolverConfig, SolverConfigUpdate};

/// The settings, in the order of the fields of an update.
type Values = [u64; 7];

fn values(config: &SolverConfig) -> Values {
    [
        config.vsids_decay(),
        config.clause_activity_decay(),
        config.reduce_locals_interval(),
        config.reduce_mids_interval(),
        config.luby_restart_interval_scale(),
        config.restart_glue(),
        config.max_steps(),
    ]
}

const DEFAULTS: Values = [950, 999, 15000, 10000, 128, 0, u64::MAX];

fn update(fields: &[(ConfigField, u64)]) -> SolverConfigUpdate {
    let mut update = SolverConfigUpdate::default();
    for (field, value) in fields {
        let one = SolverConfigUpdate::one(*field, *value);
        update = joined(&update, &one);
    }
    update
}

// The first update, with the values of the second.
fn joined(first: &SolverConfigUpdate, second: &SolverConfigUpdate) -> SolverConfigUpdate {
    SolverConfigUpdate {
        vsids_decay: second.vsids_decay.or(first.vsids_decay),
        clause_activity_decay: second.clause_activity_decay.or(first.clause_activity_decay),
        reduce_locals_interval: second
            .reduce_locals_interval
            .or(first.reduce_locals_interval),
        reduce_mids_interval: second.reduce_mids_interval.or(first.reduce_mids_interval),
        luby_restart_interval_scale: second
            .luby_restart_interval_scale
            .or(first.luby_restart_interval_scale),
        restart_glue: second.restart_glue.or(first.restart_glue),
        max_steps: second.max_steps.or(first.max_steps),
    }
}

use ConfigField::{
    ClauseActivityDecay, LubyRestartIntervalScale, MaxSteps, ReduceLocalsInterval,
    ReduceMidsInterval, RestartGlue, VsidsDecay,
};

/// The values of an update, the setting that it is refused for, and the settings after it.
type Row = (&'static [(ConfigField, u64)], Option<ConfigField>, Values);

const ROWS: [Row; 13] = [
    (&[(VsidsDecay, 499)], Some(VsidsDecay), DEFAULTS),
    (&[(VsidsDecay, 1000)], Some(VsidsDecay), DEFAULTS),
    (
        &[(VsidsDecay, 500)],
        None,
        [500, 999, 15000, 10000, 128, 0, u64::MAX],
    ),
    (
        &[(VsidsDecay, 999)],
        None,
        [999, 999, 15000, 10000, 128, 0, u64::MAX],
    ),
    (
        &[(ClauseActivityDecay, 1000)],
        Some(ClauseActivityDecay),
        DEFAULTS,
    ),
    (
        &[(ReduceLocalsInterval, 0)],
        Some(ReduceLocalsInterval),
        DEFAULTS,
    ),
    (
        &[(ReduceMidsInterval, 0)],
        Some(ReduceMidsInterval),
        DEFAULTS,
    ),
    (
        &[(LubyRestartIntervalScale, 0)],
        Some(LubyRestartIntervalScale),
        DEFAULTS,
    ),
    (&[(RestartGlue, 1001)], Some(RestartGlue), DEFAULTS),
    // Of two values out of range the first in the order of the fields is named.
    (
        &[(LubyRestartIntervalScale, 0), (VsidsDecay, 1000)],
        Some(VsidsDecay),
        DEFAULTS,
    ),
    // A value in range stays out beside one that is not.
    (
        &[(VsidsDecay, 600), (ReduceMidsInterval, 0), (MaxSteps, 7)],
        Some(ReduceMidsInterval),
        DEFAULTS,
    ),
    (
        &[(VsidsDecay, 600), (ReduceMidsInterval, 1), (MaxSteps, 7)],
        None,
        [600, 999, 15000, 1, 128, 0, 7],
    ),
    (&[], None, DEFAULTS),
];

#[test]
fn updates_are_taken_whole_or_not(rt: HostRuntime) {
    for (place, (fields, refused, wanted)) in ROWS.iter().enumerate() {
        let mut config = SolverConfig::default();
        let error = update(*fields).apply(&mut config).err();
        let is_right = error == refused.map(|field| ConfigError { field });
        assert!(rt; is_right & (values(&config) == *wanted), "row {place}");
    }
}
