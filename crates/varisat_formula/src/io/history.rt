//! The bytes that were handed on, for proofs alone. A history takes no memory, and its methods do nothing at run time.
ghost use Rattle.std.specs.Prelude.{◌≡◌, ℕ, List, [], ◌++◌};
ghost use Rattle.std.specs.Borrow.{ftrue};

use std::marker::Model;

/// A clause reads the bytes as `bytes`.
#[derive(Drop)]
pub struct History {
    pub ghost bytes: { List ℕ },
}

impl Model for History {
    ghost also_owns = { λ _. ftrue };
}

/// Bytes that a history grows by.
#[derive(Clone, Copy)]
pub struct Part<'a> {
    pub bytes: &'a [u8],
}

impl History {
    /// No bytes.
    pub fn new() -> History
        ensures { result.bytes ≡ [] }
    {
        History {}
    }

    /// With these bytes behind its own.
    pub fn then(&self, _part: &Part<'_>) -> History
        ensures { result.bytes ≡ self.now.bytes ++ _part.now.bytes.now }
    {
        History {}
    }
}
