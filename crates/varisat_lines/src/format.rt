//! The formats of proofs, and the kinds of their lines.
ghost use Rattle.std.specs.Prelude.{◌≡◌, Option};
ghost use Rattle.varisat_lines.specs.promises.Lines.{encoding_of, plain_encoding, has_marks, letter_kind};

/// How the lines of a proof are written.
#[derive(Clone, Copy, Debug, PartialEq, Eq)]
pub enum ProofFormat {
    /// DRAT text: decimal numbers.
    Drat,
    /// Binary DRAT: tag bytes and variable-length numbers.
    BinaryDrat,
    /// DRAT text, in which marked lines also have the clauses, the assumptions and the cores.
    Marked,
}

/// How the bytes of a format are read and written.
#[derive(Clone, Copy, Debug, PartialEq, Eq)]
pub enum Encoding {
    /// Text, with all kinds of lines or those of DRAT alone.
    Text { marked: bool },
    /// Binary DRAT.
    Binary,
}

impl ProofFormat {
    /// How the format is written.
    pub fn encoding(self) -> Encoding
        ensures { result ≡ encoding_of self }
    {
        match self {
            ProofFormat::Drat => Encoding::Text { marked: false },
            ProofFormat::BinaryDrat => Encoding::Binary,
            ProofFormat::Marked => Encoding::Text { marked: true },
        }
    }

    /// How it is read where marks are no lines.
    pub fn plain_encoding(self) -> Encoding
        ensures { result ≡ plain_encoding self }
    {
        match self {
            ProofFormat::Drat | ProofFormat::Marked => Encoding::Text { marked: false },
            ProofFormat::BinaryDrat => Encoding::Binary,
        }
    }

    /// Whether it also has lines for what was given: clauses, assumptions and cores.
    pub fn has_marks(self) -> bool
        ensures { result ≡ has_marks self }
    {
        match self {
            ProofFormat::Drat | ProofFormat::BinaryDrat => false,
            ProofFormat::Marked => true,
        }
    }
}

/// What a line does with its literals.
#[derive(Clone, Copy, Debug, PartialEq, Eq)]
pub enum LineKind {
    /// The clause follows from those that are present, and joins them.
    Adds,
    /// One present clause that is equal as a set leaves.
    Deletes,
    /// The clause was given, and joins those that are present.
    Accepts,
    /// The literals are the list of assumptions from here on.
    Assumes,
    /// The literals are assumed, and propagation from them conflicts.
    Fails,
}

/// The kind of line that a letter of text marks.
pub fn letter_kind(marked: bool, letter: u8) -> Option<LineKind>
    ensures { result ≡ letter_kind marked letter }
{
    if letter == b'd' {
        Some(LineKind::Deletes)
    } else if !marked {
        None
    } else if letter == b'i' {
        Some(LineKind::Accepts)
    } else if letter == b'q' {
        Some(LineKind::Assumes)
    } else if letter == b'f' {
        Some(LineKind::Fails)
    } else {
        None
    }
}
