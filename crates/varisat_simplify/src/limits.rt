//! How much work a simplification may take, counted in literals, so that it takes no longer than a constant times the
//! given ones, and which eliminations are worth it.
use std::alloc::Allocator;
use varisat_database::database::Database;

/// In a longer formula no equal or failed literals are looked for: simplifying one of three million literals took half as
/// long again.
const MOST_LOOKED_THROUGH: u64 = 2_000_000;

/// How much work a simplification may take, and which variables it eliminates. What is done is taken off; what comes
/// too late stays as it is.
#[derive(Clone, Copy)]
pub struct Limits {
    /// How many literals are looked at, at most, to compare clauses. Each place where a clause is passed over counts as
    /// one.
    pub comparisons: u64,
    /// How many pairs of literals are looked at, at most, to resolve clauses.
    pub resolvents: u64,
    /// How many places of clauses are looked at, at most, to find equal literals. If it is 0, neither these nor failed
    /// ones are looked for.
    pub visits: u64,
    /// How many places of clauses are looked at, at most, to find failed literals.
    pub probes: u64,
    /// How many literals the clauses may have in all that there ever were. Where they have as many, none is added.
    pub literals: u64,
    /// How many literals eliminations may add in all to those of the live clauses, beside as many as eliminations took
    /// away.
    pub room: u64,
    /// How many literals a resolvent has at most by which a variable is eliminated.
    pub resolvent_literals: usize,
    /// How many clauses fewer each elimination leaves at least.
    pub fewer_clauses: usize,
    /// Whether the simplification ends once it eliminates variables and no literal less is left.
    pub ends_without_gain: bool,
    /// How much work the part may still take that is being done, counted as comparisons and resolvents are.
    pub part: u64,
}

impl Limits {
    /// The limits for a formula of so many literals that is searched once.
    pub fn of_formula(literals: usize) -> Limits {
        let size = literals as u64;
        Limits {
            comparisons: size.saturating_mul(4).saturating_add(20_000_000),
            resolvents: size.saturating_mul(100).saturating_add(50_000_000),
            visits: if size <= MOST_LOOKED_THROUGH {
                size.saturating_add(1_000_000)
            } else {
                0
            },
            probes: (size / 8).saturating_add(100_000),
            literals: size.saturating_mul(3).saturating_add(1_000_000),
            room: u64::MAX,
            resolvent_literals: 20,
            fewer_clauses: 0,
            ends_without_gain: false,
            part: 0,
        }
    }

    /// The limits for a batch of so many literals, of which many may come: all simplifications together take no longer
    /// than the literals of all batches allow. An eliminated variable leaves fewer clauses, and short ones: with the
    /// limits of a formula searches of circuits that grow came to twice as many conflicts.
    pub fn of_batch(literals: usize) -> Limits {
        let size = literals as u64;
        Limits {
            comparisons: size.saturating_mul(16).saturating_add(20_000),
            resolvents: size.saturating_mul(100).saturating_add(200_000),
            visits: 0,
            probes: 0,
            literals: size.saturating_mul(3).saturating_add(10_000),
            room: u64::MAX,
            resolvent_literals: 4,
            fewer_clauses: 1,
            ends_without_gain: true,
            part: 0,
        }
    }

    /// Whether the clauses have as many literals as they may.
    pub fn are_reached<A: Allocator + Copy>(&self, db: &Database<A>) -> bool {
        db.literal_count() as u64 >= self.literals
    }

    /// Begins a part that may take so much work.
    pub fn begin_part(&mut self, work: u64) {
        self.part = work;
    }

    /// Whether the work of the part is done.
    pub fn is_part_done(&self) -> bool {
        self.part == 0
    }

    /// Takes work off the part alone.
    pub fn spend(&mut self, work: u64) {
        self.part = self.part.saturating_sub(work);
    }

    /// Takes off so many literals that are looked at to compare clauses.
    pub fn compare(&mut self, literals: usize) {
        self.comparisons = self.comparisons.saturating_sub(literals as u64);
        self.spend(literals as u64);
    }

    /// Takes off so many pairs of literals, if as many are left. Returns whether they were.
    pub fn resolve(&mut self, pairs: u64) -> bool {
        if pairs > self.resolvents {
            return false;
        }
        self.resolvents -= pairs;
        self.spend(pairs);
        true
    }

    /// Takes off so many places that are looked at, if any are left. Returns whether they were.
    pub fn visit(&mut self, places: usize) -> bool {
        if self.visits == 0 {
            return false;
        }
        self.visits = self.visits.saturating_sub(places as u64);
        true
    }

    /// Takes off so many places that are looked at to find failed literals.
    pub fn probe(&mut self, places: usize) {
        self.probes = self.probes.saturating_sub(places as u64);
    }

    /// Whether clauses with so many literals may replace some with so many.
    pub fn has_room(&self, before: u64, after: u64) -> bool {
        after <= before.saturating_add(self.room)
    }

    /// Takes off the room the literals that clauses have more than those that they replaced, or adds those that they
    /// have less.
    pub fn replace(&mut self, before: u64, after: u64) {
        self.room = self.room.saturating_add(before).saturating_sub(after);
    }
}
