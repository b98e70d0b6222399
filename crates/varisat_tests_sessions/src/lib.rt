//! Sessions, each with the answers that it gets, for tests.
#![tactic(auto)]

mod calls;
mod modes;

pub use calls::{
    AMPLE_SESSIONS, ASSUMING_SESSIONS, PROOF_SESSIONS, SELF_CHECKING, SESSIONS, SETTINGS,
    WIDE_SESSIONS,
};
pub use modes::{Exchange, MODE_SESSIONS, OBSERVING_SESSIONS};

/// The sessions that take little memory.
pub const SWEPT_SESSIONS: [&[Exchange]; 6] = [
    &SESSIONS,
    &PROOF_SESSIONS,
    &AMPLE_SESSIONS,
    &ASSUMING_SESSIONS,
    &MODE_SESSIONS,
    &OBSERVING_SESSIONS,
];

/// All sessions.
pub const ALL_SESSIONS: [&[Exchange]; 7] = [
    &SESSIONS,
    &PROOF_SESSIONS,
    &AMPLE_SESSIONS,
    &WIDE_SESSIONS,
    &ASSUMING_SESSIONS,
    &MODE_SESSIONS,
    &OBSERVING_SESSIONS,
];
