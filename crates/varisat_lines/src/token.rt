//! Tokens of a proof, a byte at a time.
ghost use Rattle.std.specs.Prelude.{◌≡◌, ℕ, List, [], ◌∷◌, ◌++◌, ◌+◌, ◌*◌, ◌<◌, ◌≤◌, ◌^◌, true, false, ◌==◌, if◌then◌else◌};
ghost use Rattle.varisat_lines.specs.promises.Lines.{letter_kind};
ghost use Rattle.varisat_lines.specs.promises.Grammar.{is_kind, meant};
ghost use Rattle.varisat_lines.specs.inside.Machine.{IsSmall, scale, no_part, after_text, part_symbol, grown_value, after_binary, number_symbol};

use crate::format::letter_kind;
use varisat_formula::dimacs::token::{Meaning, Word};

/// What a token, a number or a tag byte says.
#[derive(Clone, Copy)]
pub enum Symbol {
    /// A letter that marks a line.
    Mark(u8),
    /// 0 ends a line, and a literal's code is the number less 2. In the binary format a tag byte is a number too.
    Number(u64),
    /// A number that is cut off by the end of the bytes.
    Cut,
    /// Anything else.
    Bad,
}

/// What a byte, or the end, brought.
#[derive(Clone, Copy)]
pub enum Event {
    /// Nothing, or a part of a line.
    More,
    /// A line ended.
    Ended,
    /// A token does not fit.
    Fault,
}

/// A token as far as it was read: how many bytes, of which a token of text counts two at most; the first byte and the
/// word of a token of text; the value of a binary number.
#[derive(Clone, Copy)]
pub struct Part {
    pub count: u8,
    pub first: u8,
    pub word: Word,
    pub value: u64,
}

/// 128 to the power of the count.
fn scale(count: u8) -> u64
    requires { count ≤ 4 }
    ensures is { result ≡ scale count }
    ensures small { result ≤ 0x1000_0000 }
{
    if count == 0 {
        1
    } else if count == 1 {
        0x80
    } else if count == 2 {
        0x4000
    } else if count == 3 {
        0x20_0000
    } else {
        0x1000_0000
    }
}

/// What a token says.
fn meant(meaning: Meaning) -> Symbol
    ensures symbol { result ≡ meant meaning }
    ensures small { IsSmall result }
{
    match meaning {
        Meaning::End => Symbol::Number(0),
        Meaning::Literal(literal) => Symbol::Number(literal.code() as u64 + 2),
        Meaning::TooLarge => Symbol::Bad,
        Meaning::Wrong => Symbol::Bad,
    }
}

/// Whether the letter marks a line of text.
fn is_mark(marked: bool, letter: u8) -> bool
    ensures { result ≡ is_kind (letter_kind marked letter) }
{
    letter_kind(marked, letter).is_some()
}

impl Part {
    /// No byte.
    pub fn new() -> Part
        ensures { result ≡ no_part }
    {
        Part {
            count: 0,
            first: 0,
            word: Word::new(),
            value: 0,
        }
    }

    /// A token of text with one byte more.
    pub fn after_text(self, b: u8) -> Part
        ensures is { result ≡ after_text self b }
        ensures small { (result.count ≤ 4) × (result.value ≡ 0) }
    {
        let empty = self.count == 0;
        Part {
            count: if empty { 1 } else { 2 },
            first: if empty { b } else { self.first },
            word: self.word.after(b),
            value: 0,
        }
    }

    /// What a token of text says, if it ends here.
    pub fn symbol(self, marked: bool) -> Symbol
        ensures symbol { result ≡ part_symbol marked self }
        ensures small { IsSmall result }
    {
        if self.count == 1 && is_mark(marked, self.first) {
            Symbol::Mark(self.first)
        } else {
            meant(self.word.meaning())
        }
    }

    /// The value of a binary number with one byte more.
    fn grown_value(self, b: u8) -> u64
        requires few { self.count ≤ 4 }
        requires small { self.value ≤ self.count * 2 ^ 35 }
        ensures is { result ≡ grown_value self b }
        ensures small { result ≤ (self.count + 1) * 2 ^ 35 }
    {
        let low = u64::from(b % 128);
        let scale = scale(self.count);
        self.value + scale * low
    }

    /// A binary number with one byte more.
    pub fn after_binary(self, b: u8) -> Part
        requires few { self.count < 4 }
        requires small { self.value ≤ self.count * 2 ^ 35 }
        ensures is { result ≡ after_binary self b }
        ensures small { result.value ≤ result.count * 2 ^ 35 }
    {
        let value = self.grown_value(b);
        Part {
            count: self.count + 1,
            first: self.first,
            word: self.word,
            value,
        }
    }

    /// What a binary number says that ends with this byte.
    pub fn number_symbol(self, b: u8) -> Symbol
        requires few { self.count ≤ 4 }
        requires small { self.value ≤ self.count * 2 ^ 35 }
        ensures symbol { result ≡ number_symbol self b }
        ensures small { IsSmall result }
    {
        let value = self.grown_value(b);
        if b < 128 && (b > 0 || self.count == 0) && value <= 0x2000_0001 {
            Symbol::Number(value)
        } else {
            Symbol::Bad
        }
    }
}
