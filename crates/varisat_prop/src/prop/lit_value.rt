//! The value of a literal, in one byte.
ghost use Rattle.std.specs.Prelude.{◌≡◌, ◌↔◌, IsTrue};
ghost use Rattle.varisat_prop.specs.Parts.{literal_value, negated};

/// The value of a literal.
#[derive(Clone, Copy, Debug)]
pub enum LitValue {
    Unknown,
    True,
    False,
}

impl LitValue {
    /// The value of a literal whose variable makes this of it.
    pub fn from_option(value: Option<bool>) -> LitValue
        ensures { result ≡ literal_value value }
    {
        match value {
            None => LitValue::Unknown,
            Some(true) => LitValue::True,
            Some(false) => LitValue::False,
        }
    }

    /// The value of the opposite literal.
    pub fn negated(self) -> LitValue
        ensures { result ≡ negated self }
    {
        match self {
            LitValue::Unknown => LitValue::Unknown,
            LitValue::True => LitValue::False,
            LitValue::False => LitValue::True,
        }
    }

    /// Whether the literal's variable has no value.
    pub fn is_unknown(self) -> bool
        ensures { IsTrue result ↔ (self ≡ LitValue.Unknown) }
    {
        matches!(self, LitValue::Unknown)
    }

    /// Whether the literal is true.
    pub fn is_true(self) -> bool
        ensures { IsTrue result ↔ (self ≡ LitValue.True) }
    {
        matches!(self, LitValue::True)
    }

    /// Whether the literal is false.
    pub fn is_false(self) -> bool
        ensures { IsTrue result ↔ (self ≡ LitValue.False) }
    {
        matches!(self, LitValue::False)
    }
}
