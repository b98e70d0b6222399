//! What holds of each simplification.
ghost use Rattle.varisat_simplify.specs.promises.Simplified.{DerivesBehind, RefutesBehind, KeepsOthers};

/// Behind the lines of a simplification each derivation from what it made is one from what it was made of.
pub fn derives_behind()
    ensures { DerivesBehind }
{}

/// Behind the lines of a simplification each refutation of what it made is one of what it was made of.
pub fn refutes_behind()
    ensures { RefutesBehind }
{}

/// An extension of a model changes no variable that the given formula does not name.
pub fn keeps_others()
    ensures { KeepsOthers }
{}
