//! What is counted of a search. Contracts read `removed_units` alone, so that any other number costs a field and the
//! line that counts.
ghost use Rattle.std.specs.Prelude.{◌≡◌, ◌+◌, ◌-◌, ◌^◌, ◌<◌, min};

/// How often a search did what, and the glue of what it learned. A number stays at 2^64-1 once it is there. It takes no
/// memory.
#[derive(Clone, Copy, Debug, Default, PartialEq, Eq)]
pub struct Counters {
    /// Conflicts that were analysed.
    pub conflicts: u64,
    /// Literals that were decided, those of assumptions too.
    pub decisions: u64,
    /// Literals that were taken from the queue and propagated.
    pub propagations: u64,
    /// Restarts that were made, also where there was no level to undo.
    pub restarts: u64,
    /// Literals of the clauses that were learned, of which each conflict teaches one.
    pub learned_literals: u64,
    /// Learned clauses that reductions deleted.
    pub deleted_clauses: u64,
    /// Collections of garbage.
    pub collections: u64,
    /// Literals of level 0 that left the trail with their variables.
    pub removed_units: u64,
    /// The moving average of the glue of the clauses that were learned in focused mode, over the last 32 of them or so, in
    /// parts of 2^20.
    pub recent_glue: u64,
    /// The same over the last 50,000 or so.
    pub usual_glue: u64,
    /// The same of the levels that a conflict in focused mode undid.
    pub usual_jump: u64,
    /// Conflicts in focused mode, which the averages are over.
    pub focused_conflicts: u64,
    /// How many conflicts had been analysed as the last restart was made.
    pub restarted_at: u64,
}

/// Counts so many more.
pub fn count(counter: &mut u64, more: u64)
    ensures { counter.new ≡ min (counter.old + more) (2 ^ 64 - 1) }
{
    *counter = counter.saturating_add(more);
}

// Over how many learned clauses each average is, about, and in what parts of a glue.
const RECENT: u64 = 32;

const USUAL: u64 = 50000;

const PARTS: u64 = 1 << 20;

// In what units the lengths of modes are. A search is in stable mode for so many conflicts at first.
const MODE_CONFLICTS: u64 = 1024;

// Where a conflict undoes more than so many quarters of a level in the mean, the search jumps between parts of the formula.
// Formulas whose conflicts undo 2.0 to 6.3 levels are searched as fast or faster by what conflicts met last: orders, caches,
// register files, counters. Those of 1.1 to 1.6 are not: random clauses, colourings, products, puzzles.
const FAR_QUARTERS: u64 = 7;

/// The moving average over so many numbers, in parts, once another number came.
fn average_with(average: u64, number: u64, over: u64) -> u64
    requires { 0 < over }
{
    let left = average.saturating_sub(average / over);
    left.saturating_add(number.saturating_mul(PARTS) / over)
}

impl Counters {
    /// Whether the search is in focused mode, where it restarts often, or else in stable mode, where it seldom does. It
    /// begins stable, and changes its mode whenever it has had about 1.4 times as many conflicts. So both have their share
    /// in a search of any length: some formulas take far fewer conflicts in the one, and some in the other.
    pub fn is_focused(&self) -> bool {
        let units = self.conflicts / MODE_CONFLICTS;
        units.saturating_mul(units).leading_zeros() % 2 == 1
    }

    /// Takes the glue of a clause that was learned, and how many levels its conflict undid, into the averages, which are over
    /// all conflicts at first. Those in stable mode are passed over: their glue is another, and the averages are what focused
    /// mode goes by.
    pub fn count_learned(&mut self, glue: usize, undone: usize)
        ensures { self.new ≡ record self.old {
          recent_glue = self.new.recent_glue;
          usual_glue = self.new.usual_glue;
          usual_jump = self.new.usual_jump;
          focused_conflicts = self.new.focused_conflicts;
        } }
    {
        if !self.is_focused() {
            return;
        }
        count(&mut self.focused_conflicts, 1);
        let learned = self.focused_conflicts.max(1);
        self.recent_glue = average_with(self.recent_glue, glue as u64, learned.min(RECENT));
        self.usual_glue = average_with(self.usual_glue, glue as u64, learned.min(USUAL));
        self.usual_jump = average_with(self.usual_jump, undone as u64, learned.min(USUAL));
    }

    /// Whether conflicts in focused mode undo many levels in the mean.
    pub fn jumps_far(&self) -> bool {
        self.usual_jump > PARTS * FAR_QUARTERS / 4
    }

    /// Counts a restart.
    pub fn count_restart(&mut self)
        ensures { self.new ≡ record self.old {
          restarts = min (self.old.restarts + 1) (2 ^ 64 - 1);
          restarted_at = self.old.conflicts;
        } }
    {
        count(&mut self.restarts, 1);
        self.restarted_at = self.conflicts;
    }

    /// How many conflicts were analysed since the last restart.
    pub fn conflicts_since_restart(&self) -> u64
        ensures { result ≡ self.now.conflicts - self.now.restarted_at }
    {
        self.conflicts.saturating_sub(self.restarted_at)
    }

    /// Whether the recent glue is above so many hundredths of the usual one.
    pub fn is_glue_high(&self, hundredths: u64) -> bool {
        self.recent_glue.saturating_mul(100) > self.usual_glue.saturating_mul(hundredths)
    }
}
