//! Sessions with their answers, and readers and writers that fail.
use super::calls::in_pieces;
use std::alloc::Global;
use std::io::{Cursor, Read};
use varisat::program::session_lines;
use varisat_tests_sessions::{ALL_SESSIONS, Exchange, SETTINGS};

// What a command prints, what it reports of a fault, and its status.
type Printed = (&'static str, &'static str, u8);

fn are_printed(out: &[u8], err: &[u8], status: u8, wanted: Printed) -> bool {
    let (printed, told, wanted_status) = wanted;
    (out == printed.as_bytes()) & (err == told.as_bytes()) & (status == wanted_status)
}

// Whether the answers of both are printed in turn, with no fault.
fn are_answers(out: &[u8], err: &[u8], status: u8, settings: Exchange, session: Exchange) -> bool {
    match out.strip_prefix(settings.1.as_bytes()) {
        Some(rest) => are_printed(rest, err, status, (session.1, "", 0)),
        None => false,
    }
}

// Whether the settings and the session behind them are answered so.
fn is_answered(alloc: Global, settings: Exchange, session: Exchange) -> bool {
    let mut out = Vec::new(alloc);
    let mut err = Vec::new(alloc);
    let input = Cursor::new(settings.0).chain(Cursor::new(session.0));
    let status = session_lines(alloc, input, &mut out, &mut err);
    are_answers(&out, &err, status, settings, session)
}

fn is_fault(err: &[u8], status: u8) -> bool {
    (status == 2) & err.starts_with(b"error: ")
}

// Whether a fault is reported where the writer has room for so many bytes.
fn is_reported_with(alloc: Global, room: usize) -> bool {
    let mut bytes = [0; 5];
    let mut out = &mut bytes[..room.min(5)];
    let mut err = Vec::new(alloc);
    let status = session_lines(alloc, in_pieces(b"new\n", 100, false), &mut out, &mut err);
    is_fault(&err, status)
}

#[test]
fn streams_that_fail_are_told(rt: HostRuntime) {
    let alloc = rt.alloc();
    let (mut out, mut err) = (Vec::new(alloc), Vec::new(alloc));
    let input = in_pieces(b"new\nadd 1", 100, true);
    let status = session_lines(alloc, input, &mut out, &mut err);
    let told = ("ok 1\n", "error: the reader failed\n", 2);
    assert!(rt; are_printed(&out, &err, status, told));
    assert!(rt; (0..5).all(|room| is_reported_with(alloc, room)));
}

#[test]
fn sessions_are_answered(rt: HostRuntime) {
    for settings in SETTINGS {
        for table in ALL_SESSIONS {
            for session in table {
                assert!(rt;
                    is_answered(rt.alloc(), settings, *session),
                    "{}{}",
                    settings.0,
                    session.0
                );
            }
        }
    }
}
