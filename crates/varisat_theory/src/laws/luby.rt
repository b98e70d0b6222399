//! The Luby sequence and the restart points.

ghost use Rattle.varisat_theory.specs.inside.Laws.{CallPoints, LubyIsDetermined, LubyRules, LubyStarts, RestartPoints, RestartsStart, SmallTermsSum, WalkIsLuby};

/// The two rules of the sequence.
pub fn luby_rules()
    ensures { LubyRules }
{}

/// There is no other sequence with these rules.
pub fn luby_is_determined()
    ensures { LubyIsDetermined }
{}

/// The first terms, by computation.
pub fn luby_starts()
    ensures { LubyStarts }
{}

/// A run of terms below 2^k sums to at most k * 2^k.
pub fn small_terms_sum()
    ensures { SmallTermsSum }
{}

/// The restart points are sums that saturate, and rise until they do.
pub fn restart_points()
    ensures { RestartPoints }
{}

/// From any first point they go on in the same way.
pub fn call_points()
    ensures { CallPoints }
{}

/// The first points at scale 128, by computation.
pub fn restarts_start()
    ensures { RestartsStart }
{}

/// Knuth's walk gives the terms.
pub fn walk_is_luby()
    ensures { WalkIsLuby }
{}
