//! What is noted of a stored clause, in three words: its activity, its flags and its length.
//!
//! The flags are, from the lowest bit: two bits for the tier, one bit each for deleted and for the mark, six bits for
//! the glue, and one bit for active.
ghost use Rattle.std.specs.Prelude.{◌≡◌, ℕ, ◌<◌, ◌^◌, min, nat_eq, not, IfSome, IfNone, ◌≤◌, ◌∷◌, []};
ghost use Rattle.varisat_clause.specs.Tiers.{tier_index, is_tier};
ghost use Rattle.varisat_clause.specs.Headers.{Header, no_header, header_of_words, flags_of};

use std::marker::Model;

/// How long a clause is kept. Clauses of the user are `Irred` and stay.
#[derive(Clone, Copy, Debug, PartialEq, Eq)]
pub enum Tier {
    Irred,
    Core,
    Mid,
    Local,
}

impl Tier {
    /// How many tiers there are.
    pub const fn count() -> usize
        ensures { result ≡ 4 }
    {
        4
    }

    /// The number of the tier, from 0.
    pub fn index(self) -> usize
        ensures { result ≡ tier_index self }
    {
        self as usize
    }

    /// The tier with the number. `None` from 4 on.
    pub fn from_index(index: usize) -> Option<Tier>
        ensures tier { IfSome result (λ tier. tier_index tier ≡ index) }
        ensures none { IfNone result (4 ≤ index) }
    {
        match index {
            0 => Some(Tier::Irred),
            1 => Some(Tier::Core),
            2 => Some(Tier::Mid),
            3 => Some(Tier::Local),
            _ => None,
        }
    }
}

/// The highest glue that a header keeps.
const MOST_GLUE: usize = 63;

/// What is noted of a clause. A contract sees the notes.
#[derive(Clone, Copy)]
pub struct ClauseHeader {
    activity: u32,
    flags: u32,
    len: u32,
}

impl Model for ClauseHeader {
    ghost use Rattle.std.specs.Prelude.{◌<◌, ◌^◌};
    ghost use Rattle.varisat_clause.specs.Headers.{Header, header_of_words, flags_of};
    ghost use Rattle.varisat_clause.specs.HeaderFlags.{flags-back};

    ghost Value = { Header };

    ghost view = { λ h. header_of_words h.activity h.flags h.len };

    ghost invariant = { λ h. h.flags < 2 ^ 11 };

    ghost inverse = { λ h. record { activity = h.activity; flags = flags_of h; len = h.len } };

    ghost inverse_ok = { λ h small. flags-back h small };
}

impl Default for ClauseHeader {
    ghost use Rattle.std.specs.Prelude.{◌≡◌};
    ghost use Rattle.varisat_clause.specs.Headers.{no_header};

    ghost is_default = { λ h. h ≡ no_header };

    /// As `new`.
    fn default() -> ClauseHeader {
        ClauseHeader::new()
    }
}

impl ClauseHeader {
    /// The header of an `Irred` clause that is neither deleted, marked nor active, with activity, glue and length 0.
    pub fn new() -> ClauseHeader
        ensures { result ≡ no_header }
    {
        ClauseHeader {
            activity: 0,
            flags: 0,
            len: 0,
        }
    }

    /// The header that stands in three words.
    pub(crate) fn from_words(activity: u32, flags: u32, len: u32) -> ClauseHeader
        requires { flags < 2 ^ 11 }
        ensures { result ≡ header_of_words activity flags len }
    {
        ClauseHeader {
            activity,
            flags,
            len,
        }
    }

    /// The three words in which the header stands: the activity, the flags and the length.
    pub fn words(&self) -> [u32; 3]
        ensures words { result ≡ self.now.activity ∷ flags_of self.now ∷ self.now.len ∷ [] }
        ensures small { flags_of self.now < 2 ^ 11 }
        ensures back { header_of_words self.now.activity (flags_of self.now) self.now.len ≡ self.now }
    {
        [self.activity, self.flags, self.len]
    }

    /// How many literals the clause has.
    pub fn len(&self) -> usize
        ensures len { result ≡ self.now.len }
        ensures small { result < 2 ^ 32 }
    {
        self.len as usize
    }

    /// Whether the clause is deleted.
    pub fn deleted(&self) -> bool
        ensures { result ≡ self.now.deleted }
    {
        self.flags / 4 % 2 == 1
    }

    /// The tier.
    pub fn tier(&self) -> Tier
        ensures { result ≡ self.now.tier }
    {
        match self.flags % 4 {
            0 => Tier::Irred,
            1 => Tier::Core,
            2 => Tier::Mid,
            _ => Tier::Local,
        }
    }

    /// Whether the clause is redundant, so that the others imply it.
    pub fn redundant(&self) -> bool
        ensures { result ≡ not (is_tier self.now.tier Tier.Irred) }
    {
        self.tier() != Tier::Irred
    }

    /// Whether the clause is marked. Who sets the mark clears it after use.
    pub fn mark(&self) -> bool
        ensures { result ≡ self.now.mark }
    {
        self.flags / 8 % 2 == 1
    }

    /// Whether the clause took part in a conflict since its flag was last cleared.
    pub fn active(&self) -> bool
        ensures { result ≡ self.now.active }
    {
        self.flags / 1024 == 1
    }

    /// The glue, at most 63.
    pub fn glue(&self) -> usize
        ensures glue { result ≡ self.now.glue }
        ensures small { result ≤ 63 }
    {
        (self.flags / 16 % 64) as usize
    }

    /// The activity.
    pub fn activity(&self) -> u32
        ensures { result ≡ self.now.activity }
    {
        self.activity
    }

    /// Sets the length, which is below 2^32.
    pub fn set_len(&mut self, length: usize)
        requires { length < 2 ^ 32 }
        ensures { self.new ≡ record self.old { len = length } }
    {
        self.len = length as u32;
    }

    /// Says whether the clause is deleted.
    pub fn set_deleted(&mut self, deleted: bool)
        ensures { self.new ≡ record self.old { deleted = deleted } }
    {
        self.flags = self.flags - self.flags / 4 % 2 * 4 + deleted as u32 * 4;
    }

    /// Sets the tier.
    pub fn set_tier(&mut self, tier: Tier)
        ensures { self.new ≡ record self.old { tier = tier } }
    {
        self.flags = self.flags - self.flags % 4 + tier.index() as u32;
    }

    /// Marks or unmarks the clause.
    pub fn set_mark(&mut self, mark: bool)
        ensures { self.new ≡ record self.old { mark = mark } }
    {
        self.flags = self.flags - self.flags / 8 % 2 * 8 + mark as u32 * 8;
    }

    /// Sets or clears the flag active.
    pub fn set_active(&mut self, active: bool)
        ensures { self.new ≡ record self.old { active = active } }
    {
        self.flags = self.flags % 1024 + active as u32 * 1024;
    }

    /// Sets the glue to the number, or to 63 where that is less.
    pub fn set_glue(&mut self, glue: usize)
        ensures { self.new ≡ record self.old { glue = min glue 63 } }
    {
        self.flags = self.flags - self.flags / 16 % 64 * 16 + glue.min(MOST_GLUE) as u32 * 16;
    }

    /// Sets the activity.
    pub fn set_activity(&mut self, activity: u32)
        ensures { self.new ≡ record self.old { activity = activity } }
    {
        self.activity = activity;
    }
}
