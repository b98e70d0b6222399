//! Header lines, a byte at a time. Only the end of the line decides whether it is a header, so that the line is read by
//! a machine of its own in place of the tokens: a header line of any length takes no memory.
ghost use Rattle.std.specs.Prelude.{◌≡◌, ◌<◌, ◌^◌};
ghost use Rattle.varisat_formula.specs.promises.Dimacs.{sized, FitsLimit};
ghost use Rattle.varisat_formula.specs.inside.Machine.{vars_ended, clauses_ended, header_blank, header_more, after_header_byte, clauses_says, header_says};

use crate::dimacs::token::{Digits, is_blank_byte};
use varisat_literals::VARIABLE_LIMIT;

/// What a header says: at most how many variables, and how many clauses.
#[derive(Clone, Copy)]
pub struct Sizes {
    pub vars: u64,
    pub clauses: u64,
}

/// What a header line says.
#[derive(Clone, Copy)]
pub enum Heading {
    Malformed,
    /// More variables than the limit.
    Oversized,
    Sized(Sizes),
}

/// A header line as far as it was read, behind its `p`.
#[derive(Clone, Copy)]
pub enum HeaderPart {
    /// Behind the `p`.
    Name,
    /// Behind the blanks after it.
    Gap,
    /// In the word `cnf`.
    C,
    Cn,
    Cnf,
    /// In the count of variables, or in the blanks before it.
    Vars(Digits),
    /// In the count of clauses, or in the blanks before it. The count of variables stays at 2^64-1.
    Clauses(u64, Digits),
    /// Behind both.
    Last(u64, u64),
    Bad,
}

/// What a header with these counts says.
fn sized(vars: u64, clauses: u64) -> Heading
    ensures says { result ≡ sized vars clauses }
    ensures small { FitsLimit result }
{
    if vars > VARIABLE_LIMIT as u64 {
        Heading::Oversized
    } else {
        Heading::Sized(Sizes { vars, clauses })
    }
}

impl HeaderPart {
    /// Behind a blank more.
    fn blank(self) -> HeaderPart
        ensures { result ≡ header_blank self }
    {
        match self {
            HeaderPart::Name | HeaderPart::Gap => HeaderPart::Gap,
            HeaderPart::Cnf => HeaderPart::Vars(Digits::Empty),
            HeaderPart::C | HeaderPart::Cn | HeaderPart::Bad => HeaderPart::Bad,
            HeaderPart::Vars(digits) => match digits {
                Digits::Empty => HeaderPart::Vars(Digits::Empty),
                Digits::Number(vars) => HeaderPart::Clauses(vars, Digits::Empty),
                Digits::Large => HeaderPart::Clauses(u64::MAX, Digits::Empty),
                Digits::NoNumber => HeaderPart::Bad,
            },
            HeaderPart::Clauses(vars, digits) => match digits {
                Digits::Empty => HeaderPart::Clauses(vars, Digits::Empty),
                Digits::Number(clauses) => HeaderPart::Last(vars, clauses),
                Digits::Large | Digits::NoNumber => HeaderPart::Bad,
            },
            HeaderPart::Last(vars, clauses) => HeaderPart::Last(vars, clauses),
        }
    }

    /// Behind another byte more.
    fn more(self, b: u8) -> HeaderPart
        ensures { result ≡ header_more self b }
    {
        match self {
            HeaderPart::Gap => if b == b'c' {
                HeaderPart::C
            } else {
                HeaderPart::Bad
            },
            HeaderPart::C => if b == b'n' {
                HeaderPart::Cn
            } else {
                HeaderPart::Bad
            },
            HeaderPart::Cn => if b == b'f' {
                HeaderPart::Cnf
            } else {
                HeaderPart::Bad
            },
            HeaderPart::Vars(digits) => HeaderPart::Vars(digits.after(b)),
            HeaderPart::Clauses(vars, digits) => HeaderPart::Clauses(vars, digits.after(b)),
            HeaderPart::Name | HeaderPart::Cnf | HeaderPart::Last(_, _) | HeaderPart::Bad =>
                HeaderPart::Bad,
        }
    }

    /// With one byte more.
    pub fn after(self, b: u8) -> HeaderPart
        ensures { result ≡ after_header_byte self b }
    {
        if is_blank_byte(b) {
            self.blank()
        } else {
            self.more(b)
        }
    }

    /// What the line says, if it ends here.
    pub fn heading(self) -> Heading
        ensures says { result ≡ header_says self }
        ensures small { FitsLimit result }
    {
        match self {
            HeaderPart::Clauses(vars, Digits::Number(clauses)) => sized(vars, clauses),
            HeaderPart::Last(vars, clauses) => sized(vars, clauses),
            _ => Heading::Malformed,
        }
    }
}
