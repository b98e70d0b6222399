//! What a proof logs, entry by entry.

ghost use Rattle.varisat_theory.specs.inside.JournalLaws.{JournalAddsNew, JournalDerives, JournalIsDetermined, JournalIsRenamed, JournalIsSound, JournalsJoin};

/// Journals join and are cut, and what counts adds up.
pub fn journals_join()
    ensures { JournalsJoin }
{}

/// What is held is determined, but for order and spelling.
pub fn journal_is_determined()
    ensures { JournalIsDetermined }
{}

/// New clauses add up.
pub fn journal_adds_new()
    ensures { JournalAddsNew }
{}

/// Where no variable leaves, the lines are a derivation from all clauses that are accepted.
pub fn journal_derives()
    ensures { JournalDerives }
{}

/// What satisfies the accepted clauses satisfies what is held.
pub fn journal_is_sound()
    ensures { JournalIsSound }
{}

/// A journal stays one under one-to-one names, and was one before.
pub fn journal_is_renamed()
    ensures { JournalIsRenamed }
{}
