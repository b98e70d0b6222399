//! A target over a writer.
ghost use Rattle.std.specs.Prelude.{◌≡◌, ℕ, List, Option, None, Some, [], ◌++◌, ◌+◌, ◌-◌, ◌<◌, ◌≤◌, ◌^◌, length, take, OnOk, OnErr};
ghost use Rattle.std.specs.Io.KnownBytes.{Appends, Keeps};

use crate::io::ProofTarget;
use crate::io::history::{History, Part};
use std::io;
use std::io::{ErrorKind, Write};
use std::marker::Model;

/// A target over a writer. A write that fails is a fault; the bytes that the writer took before it count as written.
#[derive(Drop)]
pub struct IoTarget<W: Write + Drop> {
    writer: W,
    history: History,
    faults: u64,
}

impl<W: Write + Drop> Model for IoTarget<W> {
    ghost use Rattle.varisat_formula.specs.promises.Streams.{Output};

    ghost Value = { Output };

    ghost view = { λ t. record { bytes = t.history.bytes; faults = t.faults; contents = W.contents t.writer } };
}

/// Writes until all is written or a write fails, and returns how many bytes were written.
fn write_bytes<W: Write>(writer: &mut W, bytes: &[u8]) -> (usize, io::Result<()>)
    ensures bound { result.0 ≤ length bytes.now }
    ensures whole { OnOk result.1 (result.0 ≡ length bytes.now) }
    ensures grows { Appends (W.contents writer.old) (W.contents writer.new) (take result.0 bytes.now) }
{
    let mut done = 0;
    'tries: for _ in 0..u64::MAX {
        if done == bytes.len() {
            return (done, Ok(()));
        }
        match writer.write(&bytes[done..]) {
            Ok(0) => return (done, Err(io::Error::from(ErrorKind::WriteZero))),
            Ok(count) => done += count,
            Err(error) => {
                if error.kind() != ErrorKind::Interrupted {
                    return (done, Err(error));
                }
            }
        }
    }
    (done, Err(io::Error::from(ErrorKind::TimedOut)))
}

impl<W: Write + Drop> IoTarget<W> {
    /// A target over the writer, which has taken no bytes. It takes no memory.
    pub fn new(writer: W) -> IoTarget<W>
        ensures { result ≡ record { bytes = []; faults = 0; contents = W.contents writer } }
    {
        IoTarget {
            writer,
            history: History::new(),
            faults: 0,
        }
    }

    /// The writer.
    pub fn into_inner(self) -> W
        ensures { W.contents result ≡ self.contents }
    {
        let IoTarget { writer, .. } = self;
        writer
    }
}

impl<W: Write + Drop> ProofTarget for IoTarget<W> {
    ghost taken = { λ t. record { bytes = t.bytes; faults = t.faults } };

    /// What the writer holds, where that is known, grows by the bytes that are taken.
    fn put(&mut self, bytes: &[u8]) -> io::Result<()>
        requires { self.old.faults < 2 ^ 64 - 1 }
        ensures whole { OnOk result (self.new.bytes ≡ self.old.bytes ++ bytes.now) }
        ensures begun { OnErr result ((n : ℕ) × (self.new.bytes ≡ self.old.bytes ++ take n bytes.now)) }
        ensures quiet { OnOk result (self.new.faults ≡ self.old.faults) }
        ensures fault { OnErr result (self.new.faults ≡ self.old.faults + 1) }
        ensures writes { (n : ℕ) × (self.new.bytes ≡ self.old.bytes ++ take n bytes.now)
            × Appends self.old.contents self.new.contents (take n bytes.now) }
    {
        let (done, outcome) = write_bytes(&mut self.writer, bytes);
        self.history = self.history.then(&Part {
            bytes: &bytes[..done],
        });
        match outcome {
            Ok(()) => Ok(()),
            Err(error) => {
                self.faults += 1;
                Err(error)
            }
        }
    }

    /// Flushes the writer.
    fn flush(&mut self) -> io::Result<()>
        requires { self.old.faults < 2 ^ 64 - 1 }
        ensures same { self.new.bytes ≡ self.old.bytes }
        ensures quiet { OnOk result (self.new.faults ≡ self.old.faults) }
        ensures fault { OnErr result (self.new.faults ≡ self.old.faults + 1) }
        ensures keeps { Keeps self.old.contents self.new.contents }
    {
        match self.writer.flush() {
            Ok(()) => Ok(()),
            Err(error) => {
                self.faults += 1;
                Err(error)
            }
        }
    }

    fn faults(&self) -> u64 {
        self.faults
    }
}
