//! Reads the lines of a proof, a byte at a time.
ghost use Rattle.std.specs.Prelude.{◌≡◌, ℕ, List, [], ◌∷◌, ◌++◌, ◌+◌, ◌*◌, ◌<◌, ◌≤◌, ◌^◌, OnOk, OnErr, IfOk, true, false, ◌==◌, if◌then◌else◌};
ghost use Rattle.varisat_formula.specs.promises.Dimacs.{next};
ghost use Rattle.varisat_lines.specs.declared.format.Encoding.TheVariants.{Text, Binary};
ghost use Rattle.varisat_lines.specs.promises.Grammar.{tag_kind};
ghost use Rattle.varisat_lines.specs.promises.Lines.{letter_kind};
ghost use Rattle.varisat_lines.specs.inside.Machine.{IsSmall, no_part, ends, symbol_of, is_between, grown, event, number_event, begin_event, begin_place, moved, after_number, begin_line, begin, happens, after, went_on, ended_token, last_symbol, last_event, last_place, last_offset, fault_offset};

use crate::format::{Encoding, LineKind, letter_kind};
use crate::token::{Event, Part, Symbol};
use std::alloc::{AllocError, Allocator};
use std::marker::Model;
use varisat_formula::dimacs::token::is_blank_byte;
use varisat_literals::Lit;

/// The kind of binary line that a tag begins.
fn tag_kind(tag: u64) -> Option<LineKind>
    ensures { result ≡ tag_kind tag }
{
    if tag == 0x61 {
        Some(LineKind::Adds)
    } else if tag == 0x64 {
        Some(LineKind::Deletes)
    } else {
        None
    }
}

/// A reader of the lines of a proof, which may come in any pieces. Beside the literals of one line it takes no memory.
#[derive(Drop)]
pub struct ProofReader<A: Allocator + Copy> {
    encoding: Encoding,
    at: u64,
    start: u64,
    part: Part,
    inside: bool,
    kind: LineKind,
    clause: Vec<Lit, A>,
}

impl<A: Allocator + Copy> Model for ProofReader<A> {
    ghost use Rattle.std.specs.Prelude.{◌≤◌, ◌*◌, ◌^◌};
    ghost use Rattle.varisat_lines.specs.inside.Machine.{IsSmall, ReaderState};

    ghost Value = { ReaderState };

    ghost view = { λ r. record {
      encoding = r.encoding;
      at = r.at;
      start = r.start;
      part = r.part;
      place = record { inside = r.inside; kind = r.kind; clause = r.clause.items };
    } };

    ghost invariant = { λ r. (r.part.count ≤ 4) × (r.part.value ≤ r.part.count * 2 ^ 35) };
}

impl<A: Allocator + Copy> ProofReader<A> {
    /// A reader before the first byte. It takes no memory.
    pub fn new_in(alloc: A, encoding: Encoding) -> ProofReader<A>
        ensures { result ≡ begin encoding }
    {
        ProofReader {
            encoding,
            at: 0,
            start: 0,
            part: Part::new(),
            inside: false,
            kind: LineKind::Adds,
            clause: Vec::new(alloc),
        }
    }

    /// The kind of the line that ended last, or is open.
    pub fn kind(&self) -> LineKind
        ensures { result ≡ self.now.place.kind }
    {
        self.kind
    }

    /// Its literals.
    pub fn clause(&self) -> &[Lit]
        ensures { result.now ≡ self.now.place.clause }
    {
        self.clause.as_slice()
    }

    /// Whether a line is open.
    pub fn is_inside(&self) -> bool
        ensures { result ≡ self.now.place.inside }
    {
        self.inside
    }

    /// The offset of the next byte.
    pub fn offset(&self) -> u64
        ensures { result ≡ self.now.at }
    {
        self.at
    }

    /// The offset of the token that was begun.
    pub fn start(&self) -> u64
        ensures { result ≡ self.now.start }
    {
        self.start
    }

    fn begin_line(&mut self, kind: LineKind)
        ensures { self.new ≡ record self.old { place = begin_line kind } }
    {
        self.inside = true;
        self.kind = kind;
        self.clause.clear();
    }

    /// A number inside a line.
    fn take_number(&mut self, number: u64) -> Result<Event, AllocError>
        requires small { number < 2 ^ 32 + 2 }
        requires inside { self.old.place.inside ≡ true }
        ensures event { IfOk result (λ e. e ≡ number_event number) }
        ensures place { OnOk result (self.new ≡ record self.old { place = after_number self.old.place number }) }
    {
        if number == 0 {
            self.inside = false;
            return Ok(Event::Ended);
        }
        if number == 1 {
            return Ok(Event::Fault);
        }
        self.clause.push(Lit::from_code((number - 2) as usize))?;
        Ok(Event::More)
    }

    /// A symbol in front of a line that begins the kind, or none.
    fn begin(&mut self, kind: Option<LineKind>) -> Event
        ensures event { result ≡ begin_event kind }
        ensures place { self.new ≡ record self.old { place = begin_place kind self.old.place } }
    {
        match kind {
            None => Event::Fault,
            Some(kind) => {
                self.begin_line(kind);
                Event::More
            }
        }
    }

    /// A symbol of text.
    fn take_token(&mut self, marked: bool, symbol: Symbol) -> Result<Event, AllocError>
        requires small { IsSmall symbol }
        ensures event { IfOk result (λ e. e ≡ event (Text marked) self.old.place.inside symbol) }
        ensures place { OnOk result (self.new ≡ record self.old { place = moved (Text marked) self.old.place symbol }) }
    {
        match symbol {
            Symbol::Mark(letter) => {
                if self.inside {
                    return Ok(Event::Fault);
                }
                Ok(self.begin(letter_kind(marked, letter)))
            }
            Symbol::Number(number) => {
                if !self.inside {
                    self.begin_line(LineKind::Adds);
                }
                let event = self.take_number(number)?;
                Ok(event)
            }
            Symbol::Cut | Symbol::Bad => Ok(Event::Fault),
        }
    }

    /// A symbol of a binary proof.
    fn take_number_or_tag(&mut self, symbol: Symbol) -> Result<Event, AllocError>
        requires small { IsSmall symbol }
        ensures event { IfOk result (λ e. e ≡ event Binary self.old.place.inside symbol) }
        ensures place { OnOk result (self.new ≡ record self.old { place = moved Binary self.old.place symbol }) }
    {
        match symbol {
            Symbol::Number(number) => {
                if self.inside {
                    let event = self.take_number(number)?;
                    return Ok(event);
                }
                Ok(self.begin(tag_kind(number)))
            }
            Symbol::Mark(_) | Symbol::Cut | Symbol::Bad => Ok(Event::Fault),
        }
    }

    /// What a token says.
    fn take(&mut self, symbol: Symbol) -> Result<Event, AllocError>
        requires small { IsSmall symbol }
        ensures event { IfOk result (λ e. e ≡ event self.old.encoding self.old.place.inside symbol) }
        ensures place { OnOk result
            (self.new ≡ record self.old { place = moved self.old.encoding self.old.place symbol }) }
    {
        match self.encoding {
            Encoding::Text { marked } => {
                let event = self.take_token(marked, symbol)?;
                Ok(event)
            }
            Encoding::Binary => {
                let event = self.take_number_or_tag(symbol)?;
                Ok(event)
            }
        }
    }

    /// Takes what a token says that ends at this byte.
    fn end_token(&mut self, symbol: Symbol) -> Result<Event, AllocError>
        requires small { IsSmall symbol }
        ensures event { IfOk result (λ e. e ≡ event self.old.encoding self.old.place.inside symbol) }
        ensures ok { OnOk result (self.new ≡ ended_token self.old (moved self.old.encoding self.old.place symbol)) }
    {
        let event = self.take(symbol)?;
        self.at = self.at.saturating_add(1);
        self.start = self.at;
        self.part = Part::new();
        Ok(event)
    }

    fn text_byte(&mut self, marked: bool, b: u8) -> Result<Event, AllocError>
        requires text { self.old.encoding ≡ Text marked }
        ensures event { IfOk result (λ e. e ≡ happens self.old b) }
        ensures ok { OnOk result (self.new ≡ after self.old b) }
    {
        if is_blank_byte(b) {
            if self.part.count == 0 {
                self.at = self.at.saturating_add(1);
                self.start = self.at;
                self.part = Part::new();
                return Ok(Event::More);
            }
            let event = self.end_token(self.part.symbol(marked))?;
            return Ok(event);
        }
        self.part = self.part.after_text(b);
        self.at = self.at.saturating_add(1);
        Ok(Event::More)
    }

    fn binary_byte(&mut self, b: u8) -> Result<Event, AllocError>
        requires binary { self.old.encoding ≡ Binary }
        ensures event { IfOk result (λ e. e ≡ happens self.old b) }
        ensures ok { OnOk result (self.new ≡ after self.old b) }
    {
        if b < 128 || self.part.count == 4 {
            let event = self.end_token(self.part.number_symbol(b))?;
            return Ok(event);
        }
        self.part = self.part.after_binary(b);
        self.at = self.at.saturating_add(1);
        Ok(Event::More)
    }

    /// Reads the next byte. `Ended`: a line ended, which `kind` and `clause` return until the next byte is read.
    /// `Fault`: the token from `start` on does not fit; nothing is said of what is read behind it.
    pub fn byte(&mut self, b: u8) -> Result<Event, AllocError>
        ensures event { IfOk result (λ e. e ≡ happens self.old b) }
        ensures ok { OnOk result (self.new ≡ after self.old b) }
    {
        match self.encoding {
            Encoding::Text { marked } => {
                let event = self.text_byte(marked, b)?;
                Ok(event)
            }
            Encoding::Binary => {
                let event = self.binary_byte(b)?;
                Ok(event)
            }
        }
    }

    /// The end of the bytes. `Ended`: a line ended. `Fault`: the fault is at `last_fault`. Else the bytes ended inside
    /// a line where `is_inside` says so.
    pub fn finish(&mut self) -> Result<Event, AllocError>
        ensures event { IfOk result (λ e. e ≡ last_event self.old) }
        ensures ok { OnOk result (self.new ≡ record self.old { place = last_place self.old }) }
    {
        if self.part.count == 0 {
            return Ok(Event::More);
        }
        match self.encoding {
            Encoding::Text { marked } => {
                let event = self.take_token(marked, self.part.symbol(marked))?;
                Ok(event)
            }
            Encoding::Binary => Ok(Event::Fault),
        }
    }

    /// The offset of a fault that `finish` parsed.
    pub fn last_fault(&self) -> u64
        ensures { result ≡ last_offset self.now }
    {
        match self.encoding {
            Encoding::Text { .. } => self.start,
            Encoding::Binary => { if self.inside { self.at } else { self.start } }
        }
    }
}
