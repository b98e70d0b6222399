//! Where bytes are read from.
ghost use Rattle.std.specs.Prelude.{◌≡◌, ℕ, List, [], Option, Some, ◌+◌, ◌-◌, ◌<◌, ◌≤◌, ◌^◌, min, length, false, OnOk, OnErr, IfOk};
ghost use Rattle.std.specs.Io.KnownBytes.{ReadConsumes};
ghost use Rattle.varisat_formula.specs.promises.Streams.{Input, FillsFrom, ended_after, Reads, HasEnded};

use crate::io::history::{History, Part};
use std::io;
use std::io::{ErrorKind, Read};
use std::marker::Model;

/// How many bytes of a source are asked for at a time.
pub const PIECE: usize = 0x2000;

/// Gives bytes in pieces, and counts its faults.
pub trait ByteSource: Drop {
    /// The bytes that it gave and those that are left, the pieces that may come, the faults, and whether it told its
    /// end.
    ghost input: { Self → Input };

    /// Writes the next bytes into the buffer from its front on, and returns how many: 0 for a buffer that is not empty
    /// is the end.
    fn fill(&mut self, buffer: &mut [u8]) -> io::Result<usize>
        requires { (input self.old).faults < 2 ^ 64 - 1 }
        ensures bound { IfOk result (λ n. n ≤ length buffer.new) }
        ensures bytes { ReadConsumes (input self.old).left (input self.new).left result buffer.new }
        ensures gives { FillsFrom (input self.old).given (input self.new).given result buffer.new }
        ensures ends { (input self.new).ended ≡ ended_after (input self.old).ended result buffer.new }
        ensures pieces { IfOk result (λ n. 0 < n → (input self.new).pieces < (input self.old).pieces) }
        ensures no_more { (input self.new).pieces ≤ (input self.old).pieces }
        ensures quiet { OnOk result ((input self.new).faults ≡ (input self.old).faults) }
        ensures fault { OnErr result ((input self.new).faults ≡ (input self.old).faults + 1) };

    /// How many calls returned Err.
    fn faults(&self) -> u64
        ensures { result ≡ (input self.now).faults };
}

/// A law for proofs: what a source over known bytes gave until it gave its end is all of them.
pub fn known_bytes_are_read()
    ensures { (s t : Input) (text known : List ℕ) → s.left ≡ Some known → Reads s text t → HasEnded t → text ≡ known }
{}

/// A source over a reader. A read that fails, also one that is interrupted, is a fault, and so is each call after
/// 2^64-1 pieces.
#[derive(Drop)]
pub struct ReadSource<R: Read + Drop> {
    reader: R,
    history: History,
    pieces: u64,
    faults: u64,
    ended: bool,
}

impl<R: Read + Drop> Model for ReadSource<R> {
    ghost Value = { Input };

    ghost view = { λ s. record { given = s.history.bytes; left = R.remaining s.reader; pieces = s.pieces; faults = s.faults; ended = s.ended } };
}

impl<R: Read + Drop> ReadSource<R> {
    /// The source of what the reader still has. It takes no memory.
    pub fn new(reader: R) -> ReadSource<R>
        ensures { result
            ≡ record { given = []; left = R.remaining reader; pieces = 2 ^ 64 - 1; faults = 0; ended = false } }
    {
        ReadSource {
            reader,
            history: History::new(),
            pieces: u64::MAX,
            faults: 0,
            ended: false,
        }
    }

    /// Whether the reader's end came, and no byte came since.
    pub fn has_ended(&self) -> bool
        ensures { result ≡ self.now.ended }
    {
        self.ended
    }
}

impl<R: Read + Drop> ByteSource for ReadSource<R> {
    ghost input = { λ s. s };

    /// A piece that has bytes lowers the pieces left by one, and no other call changes them. With none left the call
    /// returns Err.
    fn fill(&mut self, buffer: &mut [u8]) -> io::Result<usize>
        requires { self.old.faults < 2 ^ 64 - 1 }
        ensures bound { IfOk result (λ n. n ≤ length buffer.new) }
        ensures bytes { ReadConsumes self.old.left self.new.left result buffer.new }
        ensures gives { FillsFrom self.old.given self.new.given result buffer.new }
        ensures ends { self.new.ended ≡ ended_after self.old.ended result buffer.new }
        ensures pieces { IfOk result (λ n. 0 < n → self.new.pieces < self.old.pieces) }
        ensures no_more { self.new.pieces ≤ self.old.pieces }
        ensures counts { IfOk result (λ n. self.new.pieces + min n 1 ≡ self.old.pieces) }
        ensures stays { OnErr result (self.new.pieces ≡ self.old.pieces) }
        ensures spent { OnOk result (0 < self.old.pieces) }
        ensures quiet { OnOk result (self.new.faults ≡ self.old.faults) }
        ensures fault { OnErr result (self.new.faults ≡ self.old.faults + 1) }
    {
        if self.pieces == 0 {
            self.faults += 1;
            return Err(io::Error::from(ErrorKind::Other));
        }
        match self.reader.read(buffer) {
            Ok(count) => {
                self.history = self.history.then(&Part {
                    bytes: &buffer[..count],
                });
                // A terminal may go on behind its end, so bytes take the end back.
                if count > 0 {
                    self.pieces -= 1;
                    self.ended = false;
                } else if !buffer.is_empty() {
                    self.ended = true;
                }
                Ok(count)
            }
            Err(error) => {
                self.faults += 1;
                Err(error)
            }
        }
    }

    fn faults(&self) -> u64 {
        self.faults
    }
}
