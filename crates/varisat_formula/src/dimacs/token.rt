//! Tokens, a whole literal at once or byte by byte. A piece may end inside a token; what its bytes say so far is kept in
//! place of the bytes, so that a token of any length takes no memory, also one with a fault.
ghost use Rattle.std.specs.Prelude.{◌≡◌, ◌<◌, ◌≤◌, ◌^◌, ℕ, Bool, true, Some, ◌-◌, length, take, drop, slice_index, IfSome};
ghost use Rattle.varisat_formula.specs.promises.Dimacs.{positive, negative, in_range, is_digit, is_blank};
ghost use Rattle.varisat_formula.specs.inside.Machine.{after_digit, grown, after_byte, is_none, is_empty, word_says, no_word, a_number, GoesOnTo};

use crate::formula::Lit;
use varisat_literals::VARIABLE_LIMIT;

/// What digits write.
#[derive(Clone, Copy)]
pub enum Digits {
    /// There is none yet.
    Empty,
    Number(u64),
    /// A number from 2^64 on.
    Large,
    /// Other bytes, or a leading zero.
    NoNumber,
}

/// A token as far as it was read: whether it begins with a minus sign, and its digits.
#[derive(Clone, Copy)]
pub struct Word {
    pub minus: bool,
    pub digits: Digits,
}

/// What a token says.
#[derive(Clone, Copy)]
pub enum Meaning {
    /// The end of a clause.
    End,
    Literal(Lit),
    /// A literal whose number is above the limit of variables.
    TooLarge,
    Wrong,
}

/// Whether it is a space, a tab, a carriage return or a line feed.
pub fn is_blank_byte(b: u8) -> bool
    ensures { result ≡ is_blank b }
{
    b == b' ' || b == b'\t' || b == b'\r' || b == b'\n'
}

fn is_digit_byte(b: u8) -> bool
    ensures { result ≡ is_digit b }
{
    b >= b'0' && b <= b'9'
}

/// The digits and one more, at most 9.
fn grown(number: u64, digit: u64) -> Digits
    requires { digit < 10 }
    ensures { result ≡ grown number digit }
{
    if number == 0 {
        return Digits::NoNumber;
    }
    // Each number that names a variable is below 2^32, where the product fits. Only longer ones, which are faults, pay for a
    // product of 128 bits.
    if number < 0x1_0000_0000 {
        return Digits::Number(number * 10 + digit);
    }
    let next = u128::from(number) * 10 + u128::from(digit);
    if next < 0x1_0000_0000_0000_0000 {
        Digits::Number(next as u64)
    } else {
        Digits::Large
    }
}

/// A literal of a text: whether it has a minus sign, its number, and where it ends.
#[derive(Clone, Copy)]
pub struct LiteralToken {
    pub minus: bool,
    pub number: u64,
    pub end: usize,
}

/// As many bytes as the longest literal has with a space behind it: a minus sign, nine digits and the space.
const LONGEST: usize = 11;

/// The literal that begins at this place, where a space stands behind it. None near the end of the bytes and for each
/// other token: these are read byte by byte.
// The limit of numbers bounds their digits, so that no digit needs a look whether the bytes end.
#[inline(always)]
pub fn literal_at(bytes: &[u8], at: usize) -> Option<LiteralToken>
    requires { at ≤ length bytes.now }
    ensures within { IfSome result (λ t. (at < t.end) × (t.end < length bytes.now)) }
    ensures word { IfSome result
        (λ t. GoesOnTo no_word (take (t.end - at) (drop at bytes.now)) (a_number t.minus t.number)) }
    ensures some { IfSome result (λ t. 0 < t.number) }
    ensures first { IfSome result (λ t. slice_index bytes.now at ≤ 57) }
    ensures space { IfSome result (λ t. slice_index bytes.now t.end ≡ 32) }
{
    if bytes.len() - at < LONGEST {
        return None;
    }
    // As many literals have a sign as have none, so that a branch for either would be guessed wrong too often.
    let minus = bytes[at] == b'-';
    let start = at + usize::from(minus);
    let first = bytes[start];
    if first < b'1' || first > b'9' {
        return None;
    }
    let mut number = u64::from(first - b'0');
    let mut end = start + 1;
    'digits: while is_digit_byte(bytes[end]) {
        number = number * 10 + u64::from(bytes[end] - b'0');
        if number > VARIABLE_LIMIT as u64 {
            return None;
        }
        end += 1;
    }
    if bytes[end] != b' ' {
        return None;
    }
    Some(LiteralToken { minus, number, end })
}

impl Digits {
    /// With one byte more.
    pub fn after(self, b: u8) -> Digits
        ensures { result ≡ after_digit self b }
    {
        if !is_digit_byte(b) {
            return Digits::NoNumber;
        }
        let digit = u64::from(b - b'0');
        match self {
            Digits::Empty => Digits::Number(digit),
            Digits::Number(number) => grown(number, digit),
            Digits::Large => Digits::Large,
            Digits::NoNumber => Digits::NoNumber,
        }
    }

    fn is_empty(self) -> bool
        ensures { result ≡ is_empty self }
    {
        matches!(&self, Digits::Empty)
    }
}

/// The literal with the number, unless that is too large.
fn in_range(polarity: bool, number: u64) -> Meaning
    requires { 0 < number }
    ensures { result ≡ in_range polarity number }
{
    if number > VARIABLE_LIMIT as u64 {
        Meaning::TooLarge
    } else {
        Meaning::Literal(Lit::from_index((number - 1) as usize, polarity))
    }
}

impl Word {
    /// No byte.
    pub fn new() -> Word
        ensures { result ≡ no_word }
    {
        Word {
            minus: false,
            digits: Digits::Empty,
        }
    }

    /// Whether there is no byte.
    pub fn is_none(self) -> bool
        ensures { result ≡ is_none self }
    {
        self.digits.is_empty() && !self.minus
    }

    /// With one byte more.
    pub fn after(self, b: u8) -> Word
        ensures { result ≡ after_byte self b }
    {
        if b == b'-' && self.is_none() {
            Word {
                minus: true,
                digits: Digits::Empty,
            }
        } else {
            Word {
                minus: self.minus,
                digits: self.digits.after(b),
            }
        }
    }

    /// With the bytes up to the next blank, and how many these are.
    pub fn with_bytes(self, bytes: &[u8]) -> (Word, usize)
        ensures within { result.1 ≤ length bytes.now }
        ensures word { GoesOnTo self (take result.1 bytes.now) result.0 }
        ensures stops { result.1 < length bytes.now → is_blank (slice_index bytes.now result.1) ≡ true }
    {
        let mut word = self;
        let mut count = 0;
        for b in bytes {
            if is_blank_byte(*b) {
                return (word, count);
            }
            word = word.after(*b);
            count += 1;
        }
        (word, count)
    }

    /// What the token says, if it ends here.
    pub fn meaning(self) -> Meaning
        ensures { result ≡ word_says self }
    {
        match self.digits {
            Digits::Number(number) => {
                if number > 0 {
                    in_range(!self.minus, number)
                } else if self.minus {
                    Meaning::Wrong
                } else {
                    Meaning::End
                }
            }
            Digits::Large => Meaning::TooLarge,
            _ => Meaning::Wrong,
        }
    }
}
