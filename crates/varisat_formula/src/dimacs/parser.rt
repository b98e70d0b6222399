//! A reader of DIMACS CNF text.
ghost use Rattle.std.specs.Prelude.{◌≡◌, ℕ, List, [], ◌∷◌, ◌++◌, ◌⊎◌, ◌≢◌, true, false, IsTrue, MatchBool, Option, None, Some, Result, Ok, Err, OnOk, OnErr, IfOk, IfErr};
ghost use Rattle.varisat_formula.specs.declared.dimacs.parser.ParserState.TheVariants.{Start};
ghost use Rattle.varisat_formula.specs.declared.dimacs.error.DimacsErrorKind.TheVariants.{Io, OutOfMemory};
ghost use Rattle.varisat_formula.specs.promises.Dimacs.{Reading, failed, next, read, is_line_feed, is_blank, gives, Ending, BreaksOff};
ghost use Rattle.varisat_formula.specs.inside.Machine.{no_word};
ghost use Rattle.varisat_formula.specs.promises.Rest.{begin, word_items, line_ended, start_place, gives_from, dimacs_from, AdvancesBy, IsBetween, IsReading, ReadsOn, KeepsToken, WantsRoom, IsEnding, RunsOut, RunsOutIn, failing, fault_of, with_front};

use crate::dimacs::error::{DimacsError, DimacsErrorKind};
use crate::dimacs::header::HeaderPart;
use crate::dimacs::reading::Reader;
use crate::dimacs::token::{Word, is_blank_byte, literal_at};
use crate::formula::CnfFormula;
use std::alloc::{AllocError, Allocator};
use std::marker::Model;

/// Where the reader stands in its line.
#[derive(Clone, Copy)]
pub enum ParserState {
    /// Before its first byte.
    Start,
    /// In a comment.
    Comment,
    /// In a header.
    Header(HeaderPart),
    /// In another line.
    Plain(Word),
}

/// A reader of DIMACS CNF text, which may come in any pieces. Beside the clauses that ended and the open clause it
/// takes no memory.
#[derive(Drop)]
pub struct DimacsParser<A: Allocator + Copy> {
    line: u64,
    place: ParserState,
    over: bool,
    reader: Reader<A>,
}

impl<A: Allocator + Copy> Model for DimacsParser<A> {
    ghost use Rattle.varisat_formula.specs.promises.Rest.{Progress};

    ghost Value = { Progress };

    ghost view = { λ p. record { line = p.line; place = p.place; over = p.over; reading = p.reader } };
}

impl<A: Allocator + Copy> DimacsParser<A> {
    /// A reader before the first byte of a text. It takes no memory.
    pub fn new_in(alloc: A) -> DimacsParser<A>
        ensures begins { result ≡ begin }
        ensures gives { (ending : Ending) (text : List ℕ) → gives_from ending result text ≡ gives ending text }
    {
        DimacsParser {
            line: 1,
            place: ParserState::Start,
            over: false,
            reader: Reader::new_in(alloc),
        }
    }

    /// Reads the token that ends here, if there is one.
    fn end_token(&mut self, word: Word) -> Result<(), AllocError>
        requires { self.old.reading.fault ≡ None }
        ensures ok { OnOk result
            (self.new ≡ record self.old { reading = read self.old.reading (word_items self.old.line word) }) }
        ensures refused { OnErr result (self.new ≡ self.old) }
        ensures wants { OnErr result
            (KeepsToken self.old.reading (read self.old.reading (word_items self.old.line word))) }
    {
        if !word.is_none() {
            self.reader.token(self.line, word.meaning())?;
        }
        Ok(())
    }

    /// Reads what the end of the line ends.
    fn end_place(&mut self) -> Result<(), AllocError>
        requires { self.old.reading.fault ≡ None }
        ensures ok { OnOk result (self.new ≡ record self.old { reading = line_ended self.old }) }
        ensures refused { OnErr result (self.new ≡ self.old) }
        ensures wants { OnErr result (WantsRoom self.old) }
    {
        match self.place {
            ParserState::Start | ParserState::Comment => {}
            ParserState::Header(part) => self.reader.header(self.line, part.heading()),
            ParserState::Plain(word) => self.end_token(word)?,
        }
        Ok(())
    }

    /// Ends the line.
    fn end_line(&mut self) -> Result<(), AllocError>
        requires { self.old.reading.fault ≡ None }
        ensures ok { OnOk result
            (self.new ≡ record self.old { line = next self.old.line; place = Start; reading = line_ended self.old }) }
        ensures refused { OnErr result (self.new ≡ self.old) }
        ensures wants { OnErr result (WantsRoom self.old) }
    {
        self.end_place()?;
        self.place = ParserState::Start;
        self.line = self.line.saturating_add(1);
        Ok(())
    }

    /// Reads a byte that is no line feed.
    fn add(&mut self, b: u8) -> Result<(), AllocError>
        requires reads_on { IsReading self.old }
        requires inside { is_line_feed b ≡ false }
        ensures ok { OnOk result (AdvancesBy self.old (b ∷ []) self.new) }
        ensures open { self.new.over ≡ false }
        ensures refused { OnErr result (self.new ≡ self.old) }
        ensures wants { OnErr result (WantsRoom self.old × (is_blank b ≡ true)) }
    {
        match self.place {
            ParserState::Start => self.place = start_place(b),
            ParserState::Comment => {}
            ParserState::Header(part) => self.place = ParserState::Header(part.after(b)),
            ParserState::Plain(word) => {
                if is_blank_byte(b) {
                    self.end_token(word)?;
                    self.place = ParserState::Plain(Word::new());
                } else {
                    self.place = ParserState::Plain(word.after(b));
                }
            }
        }
        Ok(())
    }

    /// Reads a byte, unless memory runs out: then nothing changes.
    fn byte(&mut self, b: u8) -> Result<(), AllocError>
        requires reads_on { IsReading self.old }
        ensures ok { OnOk result (AdvancesBy self.old (b ∷ []) self.new) }
        ensures open { self.new.over ≡ false }
        ensures refused { OnErr result (self.new ≡ self.old) }
        ensures wants { OnErr result (WantsRoom self.old × (is_blank b ≡ true)) }
    {
        if b == b'\n' {
            self.end_line()?;
        } else {
            self.add(b)?;
        }
        Ok(())
    }

    /// The first fault.
    fn reported(&self) -> Option<DimacsError>
        ensures { result ≡ self.now.reading.fault }
    {
        self.reader.fault()
    }

    fn run_out(&mut self) -> DimacsError
        ensures reading { self.new ≡ record self.old { reading = failed self.old.reading self.old.line OutOfMemory } }
        ensures reported { self.new.reading.fault ≡ Some result }
    {
        let line = self.line;
        self.reader.fail(line, DimacsErrorKind::OutOfMemory);
        DimacsError {
            line,
            kind: DimacsErrorKind::OutOfMemory,
        }
    }

    /// Whether the reader stands at the start of a line or behind a token and its blank.
    fn is_between(&self) -> bool
        ensures { IsTrue result → IsBetween self.now.place }
    {
        match self.place {
            ParserState::Start => true,
            ParserState::Plain(word) => word.is_none(),
            ParserState::Comment | ParserState::Header(_) => false,
        }
    }

    /// Between two tokens, reads the literals in front of the bytes of which each has a space behind it, up to the first
    /// that is a fault or needs memory. Returns how many bytes these are.
    // Most bytes of a text are read here. The place is written only at the end.
    #[inline(always)]
    fn read_literals(&mut self, bytes: &[u8]) -> usize
        requires { IsReading self.old }
        ensures { ReadsOn self.old bytes.now result self.new }
    {
        if !self.is_between() {
            return 0;
        }
        let allowed = self.reader.highest_allowed();
        let mut count = 0;
        'literals: while let Some(token) = literal_at(bytes, count) {
            if !self.reader.literal_with_room(allowed, token) {
                break;
            }
            count = token.end + 1;
        }
        if count > 0 {
            self.place = ParserState::Plain(Word::new());
        }
        count
    }

    /// Between two tokens, where the bytes begin with the end of a clause and of its line, reads both, unless that is a
    /// fault or needs memory. Returns whether it did; else nothing changes.
    fn read_end(&mut self, bytes: &[u8]) -> bool
        requires { IsReading self.old }
        ensures { MatchBool result (ReadsOn self.old bytes.now 2 self.new) (self.new ≡ self.old) }
    {
        if bytes.len() < 2 || bytes[0] != b'0' || bytes[1] != b'\n' {
            return false;
        }
        if !self.is_between() || !self.reader.end_with_room() {
            return false;
        }
        self.place = ParserState::Start;
        self.line = self.line.saturating_add(1);
        true
    }

    /// Reads literals and the ends of clauses' lines, as far as `read_literals` and `read_end` do. Returns how many bytes
    /// these are.
    fn read_lines(&mut self, bytes: &[u8]) -> usize
        requires { IsReading self.old }
        ensures { ReadsOn self.old bytes.now result self.new }
    {
        let mut count = 0;
        'lines: loop {
            count += self.read_literals(&bytes[count..]);
            if !self.read_end(&bytes[count..]) {
                return count;
            }
            count += 2;
        }
    }

    /// Reads the bytes of a token up to the blank behind it. Returns how many these are, none where the reader does not
    /// stand in a line of tokens.
    fn read_word(&mut self, bytes: &[u8]) -> usize
        requires { IsReading self.old }
        ensures { ReadsOn self.old bytes.now result self.new }
    {
        let ParserState::Plain(word) = self.place else {
            return 0;
        };
        let (longer, count) = word.with_bytes(bytes);
        self.place = ParserState::Plain(longer);
        count
    }

    /// The bytes of the piece in turn.
    fn read_piece(&mut self, piece: &[u8]) -> Result<(), DimacsError>
        requires { IsReading self.old }
        ensures reads { AdvancesBy self.old piece.now self.new ⊎ RunsOutIn self.old piece.now self.new }
        ensures answer { fault_of result ≡ self.new.reading.fault }
        ensures open { self.new.over ≡ false }
    {
        let mut at = 0;
        'bytes: while at < piece.len() {
            at += self.read_lines(&piece[at..]);
            at += self.read_word(&piece[at..]);
            if at == piece.len() {
                return Ok(());
            }
            match self.byte(piece[at]) {
                Ok(()) => at += 1,
                Err(_) => return Err(self.run_out()),
            }
            if let Some(fault) = self.reported() {
                return Err(fault);
            }
        }
        Ok(())
    }

    /// Reads the next piece of the text, and returns its first fault, from then on always the same. After `finish` the
    /// text is over, and no bytes are taken. `OutOfMemory` is returned where a growth was refused, with the line of the
    /// token that could not be kept.
    pub fn feed(&mut self, piece: &[u8]) -> Result<(), DimacsError>
        ensures reads { AdvancesBy self.old piece.now self.new ⊎ RunsOutIn self.old piece.now self.new }
        ensures answer { fault_of result ≡ self.new.reading.fault }
        ensures same { (e : DimacsError) → self.old.reading.fault ≡ Some e → self.new ≡ self.old }
        ensures over { self.old.over ≡ true → self.new ≡ self.old }
        ensures open { self.new.over ≡ self.old.over }
    {
        if let Some(fault) = self.reported() {
            return Err(fault);
        }
        if self.over {
            return Ok(());
        }
        self.read_piece(piece)
    }

    /// Ends the text, and returns its first fault.
    pub fn finish(&mut self) -> Result<(), DimacsError>
        ensures reads { IsEnding self.old self.new }
        ensures answer { fault_of result ≡ self.new.reading.fault }
        ensures frame { self.new ≡ record self.old { over = true; reading = self.new.reading } }
        ensures over { self.new.over ≡ true }
    {
        if self.reported().is_none() && !self.over {
            self.end_text();
        }
        self.over = true;
        match self.reported() {
            Some(fault) => Err(fault),
            None => Ok(()),
        }
    }

    /// The text breaks off, since its source failed: the fault `Io` in the line that was reached. A text that has a
    /// fault or is over stays as it is. Returns the first fault, or this one.
    pub fn break_off(&mut self) -> DimacsError
        ensures reading { self.new.reading ≡ gives_from (BreaksOff Io) self.old [] }
        ensures answer { result ≡ failing self.old }
        ensures reported { self.old.over ≡ false → self.new.reading.fault ≡ Some result }
        ensures same { (e : DimacsError) → self.old.reading.fault ≡ Some e → self.new ≡ self.old }
        ensures over { self.old.over ≡ true → self.new ≡ self.old }
        ensures frame { self.new ≡ record self.old { reading = self.new.reading } }
        ensures open { self.new.over ≡ self.old.over }
    {
        if let Some(fault) = self.reported() {
            return fault;
        }
        let line = self.line;
        if !self.over {
            self.reader.fail(line, DimacsErrorKind::Io);
        }
        DimacsError {
            line,
            kind: DimacsErrorKind::Io,
        }
    }

    /// What the end of the text ends.
    fn end_text(&mut self)
        requires reads_on { IsReading self.old }
        ensures reads { IsEnding self.old self.new }
        ensures frame { self.new ≡ record self.old { reading = self.new.reading } }
    {
        match self.end_place() {
            Ok(()) => {
                if self.reported().is_none() {
                    self.reader.end(self.line);
                }
            }
            Err(_) => {
                self.run_out();
            }
        }
    }

    /// Takes the clauses that ended since the last call, also after a fault. The formula's count of variables is
    /// `var_count`.
    pub fn take_formula(&mut self) -> CnfFormula<A>
        ensures formula { result ≡ record { var_count = self.old.reading.highest; clauses = self.old.reading.clauses } }
        ensures frame { self.new ≡ record self.old { reading = record self.old.reading { clauses = [] } } }
        ensures later { (ending : Ending) (text : List ℕ) →
            gives_from ending self.old text ≡ with_front result.clauses (gives_from ending self.new text) }
    {
        self.reader.take()
    }

    /// How many clauses ended. The count stays at 2^64-1.
    pub fn clause_count(&self) -> u64
        ensures { result ≡ self.now.reading.count }
    {
        self.reader.clause_count()
    }

    /// The larger of the header's count of variables and the highest number of a literal so far.
    pub fn var_count(&self) -> usize
        ensures { result ≡ self.now.reading.highest }
    {
        self.reader.var_count()
    }
}

/// Where the first byte of a line leaves the reader.
fn start_place(b: u8) -> ParserState
    ensures { result ≡ start_place b }
{
    match b {
        b'c' => ParserState::Comment,
        b'p' => ParserState::Header(HeaderPart::Name),
        _ => {
            if is_blank_byte(b) {
                ParserState::Plain(Word::new())
            } else {
                ParserState::Plain(Word::new().after(b))
            }
        }
    }
}
