//! A target and a source of which a chosen call fails, for tests of what comes of a fault.
ghost use Rattle.std.specs.Prelude.{◌≡◌, ◌≢◌, ℕ, List, [], Some, ◌++◌, ◌+◌, ◌-◌, ◌<◌, ◌≤◌, ◌^◌, length, take, drop, min, false, OnOk, OnErr, IfOk};
ghost use Rattle.std.specs.Io.KnownBytes.{ReadConsumes};
ghost use Rattle.varisat_formula.specs.promises.Streams.{FillsFrom, TakesPart, cut_input, ended_after, ended_at, counted, piece_count, piece_size};

use crate::io::{ByteSource, ProofTarget};
use std::alloc::Allocator;
use std::io::{self, ErrorKind, Read};
use std::marker::Model;

/// A target in memory that counts its calls. A chosen `put` fails and takes none or some of its bytes, a chosen `flush`
/// fails. Calls are counted from 1 on, so that none fails where 0 is chosen.
#[derive(Drop)]
pub struct CutTarget<A: Allocator + Copy> {
    bytes: Vec<u8, A>,
    faults: u64,
    puts: u64,
    flushes: u64,
    failing_put: u64,
    failing_flush: u64,
    part: usize,
}

impl<A: Allocator + Copy> Model for CutTarget<A> {
    ghost use Rattle.varisat_formula.specs.promises.Streams.{CutTaken};

    ghost Value = { CutTaken };

    ghost view = { λ t. record {
      bytes = t.bytes.items;
      faults = t.faults;
      puts = t.puts;
      flushes = t.flushes;
      failing_put = t.failing_put;
      failing_flush = t.failing_flush;
      part = t.part;
    } };
}

impl<A: Allocator + Copy> CutTarget<A> {
    /// An empty target of which no call fails. It takes no memory.
    pub fn new_in(alloc: A) -> CutTarget<A>
        ensures { result
            ≡ record { bytes = []; faults = 0; puts = 0; flushes = 0; failing_put = 0; failing_flush = 0; part = 0 } }
    {
        CutTarget {
            bytes: Vec::new(alloc),
            faults: 0,
            puts: 0,
            flushes: 0,
            failing_put: 0,
            failing_flush: 0,
            part: 0,
        }
    }

    /// The same target, of which the `put` of this number fails and takes at most so many bytes.
    pub fn failing_at_put(mut self, number: u64, part: usize) -> CutTarget<A>
        ensures { result ≡ record self { failing_put = number; part = part } }
    {
        self.failing_put = number;
        self.part = part;
        self
    }

    /// The same target, of which the `flush` of this number fails.
    pub fn failing_at_flush(mut self, number: u64) -> CutTarget<A>
        ensures { result ≡ record self { failing_flush = number } }
    {
        self.failing_flush = number;
        self
    }

    /// All the bytes that it holds.
    pub fn bytes(&self) -> &[u8]
        ensures { result.now ≡ self.now.bytes }
    {
        self.bytes.as_slice()
    }

    /// How often `put` was called.
    pub fn puts(&self) -> u64
        ensures { result ≡ self.now.puts }
    {
        self.puts
    }

    /// How often `flush` was called.
    pub fn flushes(&self) -> u64
        ensures { result ≡ self.now.flushes }
    {
        self.flushes
    }

    /// Appends these bytes, or none of them.
    fn append(&mut self, bytes: &[u8]) -> io::Result<()>
        ensures ok { OnOk result (self.new ≡ record self.old { bytes = self.old.bytes ++ bytes.now }) }
        ensures refused { OnErr result (self.new ≡ self.old) }
    {
        match self.bytes.extend_from_slice(bytes) {
            Ok(()) => Ok(()),
            Err(error) => Err(io::Error::from(error)),
        }
    }

    /// Appends the part that the failing `put` takes, or no byte.
    fn append_part(&mut self, bytes: &[u8])
        ensures bytes { TakesPart self.old bytes.now self.new }
        ensures frame { self.new ≡ record self.old { bytes = self.new.bytes } }
    {
        let _ = self.append(&bytes[..self.part.min(bytes.len())]);
    }
}

impl<A: Allocator + Copy> ProofTarget for CutTarget<A> {
    ghost taken = { λ t. record { bytes = t.bytes; faults = t.faults } };

    /// Fails where it is the chosen call, or where memory is refused. The chosen one takes at most the part.
    fn put(&mut self, bytes: &[u8]) -> io::Result<()>
        requires { self.old.faults < 2 ^ 64 - 1 }
        ensures whole { OnOk result (self.new.bytes ≡ self.old.bytes ++ bytes.now) }
        ensures begun { OnErr result ((n : ℕ) × (self.new.bytes ≡ self.old.bytes ++ take n bytes.now)) }
        ensures quiet { OnOk result (self.new.faults ≡ self.old.faults) }
        ensures fault { OnErr result (self.new.faults ≡ self.old.faults + 1) }
        ensures counts { self.new
            ≡ record self.old { bytes = self.new.bytes; faults = self.new.faults; puts = counted self.old.puts } }
        ensures cut { OnOk result (counted self.old.puts ≢ self.old.failing_put) }
        ensures part { counted self.old.puts ≡ self.old.failing_put → TakesPart self.old bytes.now self.new }
        ensures none { OnErr result (counted self.old.puts ≢ self.old.failing_put → self.new.bytes ≡ self.old.bytes) }
    {
        self.puts = self.puts.saturating_add(1);
        if self.puts == self.failing_put {
            self.append_part(bytes);
            self.faults += 1;
            return Err(io::Error::from(ErrorKind::Other));
        }
        match self.append(bytes) {
            Ok(()) => Ok(()),
            Err(error) => {
                self.faults += 1;
                Err(error)
            }
        }
    }

    /// Fails where it is the chosen call.
    fn flush(&mut self) -> io::Result<()>
        requires { self.old.faults < 2 ^ 64 - 1 }
        ensures same { self.new.bytes ≡ self.old.bytes }
        ensures quiet { OnOk result (self.new.faults ≡ self.old.faults) }
        ensures fault { OnErr result (self.new.faults ≡ self.old.faults + 1) }
        ensures counts { self.new ≡ record self.old { faults = self.new.faults; flushes = counted self.old.flushes } }
        ensures cut { OnOk result (counted self.old.flushes ≢ self.old.failing_flush) }
        ensures chosen { OnErr result (counted self.old.flushes ≡ self.old.failing_flush) }
    {
        self.flushes = self.flushes.saturating_add(1);
        if self.flushes == self.failing_flush {
            self.faults += 1;
            return Err(io::Error::from(ErrorKind::Other));
        }
        Ok(())
    }

    fn faults(&self) -> u64 {
        self.faults
    }
}

/// A text as a source, and as a reader, that counts its calls. It comes in pieces of chosen sizes, and a chosen call
/// fails; the calls behind that one go on. Calls are counted from 1 on, so that none fails where 0 is chosen.
#[derive(Drop)]
pub struct CutSource<'a> {
    text: &'a [u8],
    place: usize,
    first: usize,
    size: usize,
    fills: u64,
    failing_fill: u64,
    faults: u64,
    ended: bool,
}

impl<'a> Model for CutSource<'a> {
    ghost use Rattle.varisat_formula.specs.promises.Streams.{CutText};

    ghost Value = { CutText };

    ghost view = { λ s. record {
      text = s.text.now;
      place = s.place;
      first = s.first;
      size = s.size;
      fills = s.fills;
      failing_fill = s.failing_fill;
      faults = s.faults;
      ended = s.ended;
    } };
}

impl<'a> CutSource<'a> {
    /// The source of the text, in pieces that fill each buffer, of which no call fails.
    pub fn new(text: &'a [u8]) -> CutSource<'a>
        ensures { result
            ≡ record {
              text = text.now;
              place = 0;
              first = 0;
              size = 2 ^ 64 - 1;
              fills = 0;
              failing_fill = 0;
              faults =
                  0;
              ended = false;
            } }
    {
        CutSource {
            text,
            place: 0,
            first: 0,
            size: usize::MAX,
            fills: 0,
            failing_fill: 0,
            faults: 0,
            ended: false,
        }
    }

    /// The same source, with a first piece of at most `first` bytes and others of at most `size`. A first piece of 0 is
    /// one like the others, and a size of 0 is one byte.
    pub fn in_pieces(mut self, first: usize, size: usize) -> CutSource<'a>
        ensures { result ≡ record self.entry { first = first; size = size } }
    {
        self.first = first;
        self.size = size;
        self
    }

    /// The same source, of which the call of this number fails.
    pub fn failing_at(mut self, number: u64) -> CutSource<'a>
        ensures { result ≡ record self.entry { failing_fill = number } }
    {
        self.failing_fill = number;
        self
    }

    /// How often it was asked for bytes.
    pub fn fills(&self) -> u64
        ensures { result ≡ self.now.fills }
    {
        self.fills
    }

    /// How many bytes the next piece has at most.
    fn piece_size(&self) -> usize
        ensures { result ≡ piece_size self.now.place self.now.first self.now.size }
    {
        if self.place == 0 && self.first > 0 {
            self.first
        } else {
            self.size.max(1)
        }
    }

    /// Writes the next piece into the buffer, and returns how many bytes it has.
    fn give(&mut self, buffer: &mut [u8]) -> usize
        ensures bound { result ≤ length buffer.new }
        ensures len { length buffer.new ≡ length buffer.old }
        ensures count { result ≡ piece_count self.old (length buffer.new) }
        ensures bytes { take result buffer.new ≡ take result (drop self.old.place self.old.text) }
        ensures moves { self.new ≡ record self.old { place = self.new.place; ended = self.new.ended } }
        ensures ended { self.new.ended ≡ ended_at self.old.ended result buffer.new }
        ensures place { self.new.place ≡ min self.old.place (length self.old.text) + result }
    {
        let start = self.place.min(self.text.len());
        let (_, rest) = self.text.split_at(start);
        let count = rest.len().min(buffer.len()).min(self.piece_size());
        let (piece, _) = rest.split_at(count);
        buffer[..count].copy_from_slice(piece);
        self.place = start + count;
        if count > 0 {
            self.ended = false;
        } else if !buffer.is_empty() {
            self.ended = true;
        }
        count
    }
}

impl<'a> ByteSource for CutSource<'a> {
    ghost input = { cut_input };

    /// Fails where it is the chosen call, and else gives the next piece.
    fn fill(&mut self, buffer: &mut [u8]) -> io::Result<usize>
        requires { self.old.faults < 2 ^ 64 - 1 }
        ensures bound { IfOk result (λ n. n ≤ length buffer.new) }
        ensures bytes { ReadConsumes (cut_input self.old).left (cut_input self.new).left result buffer.new }
        ensures gives { FillsFrom (cut_input self.old).given (cut_input self.new).given result buffer.new }
        ensures ends { self.new.ended ≡ ended_after self.old.ended result buffer.new }
        ensures pieces { IfOk result (λ n. 0 < n → (cut_input self.new).pieces < (cut_input self.old).pieces) }
        ensures no_more { (cut_input self.new).pieces ≤ (cut_input self.old).pieces }
        ensures quiet { OnOk result (self.new.faults ≡ self.old.faults) }
        ensures fault { OnErr result (self.new.faults ≡ self.old.faults + 1) }
        ensures counts { self.new ≡
            record self.old { place = self.new.place; fills = counted self.old.fills; faults = self.new.faults; ended = self.new.ended } }
        ensures cut { OnOk result (counted self.old.fills ≢ self.old.failing_fill) }
        ensures chosen { OnErr result (counted self.old.fills ≡ self.old.failing_fill) }
        ensures stays { OnErr result (self.new.place ≡ self.old.place) }
        ensures count { IfOk result (λ n. n ≡ piece_count self.old (length buffer.new)) }
    {
        self.fills = self.fills.saturating_add(1);
        if self.fills == self.failing_fill {
            self.faults += 1;
            return Err(io::Error::from(ErrorKind::Other));
        }
        Ok(self.give(buffer))
    }

    fn faults(&self) -> u64 {
        self.faults
    }
}

impl<'a> Read for CutSource<'a> {
    ghost remaining = { λ s. Some (drop s.place s.text) };

    /// Fails where it is the chosen call, and else gives the next piece. Faults of a reader are not counted.
    fn read(&mut self, buf: &mut [u8]) -> io::Result<usize> {
        self.fills = self.fills.saturating_add(1);
        if self.fills == self.failing_fill {
            return Err(io::Error::other("the reader failed"));
        }
        Ok(self.give(buf))
    }
}
