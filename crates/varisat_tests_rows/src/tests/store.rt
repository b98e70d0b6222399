//! The clause store: the bits of a header, the tiers and their counts, the reductions of learned clauses, and the collector.
ghost use Rattle.std.specs.Prelude.{◌≡◌, ◌≤◌, false};
ghost use Rattle.varisat_clause.specs.Databases.{Tracks};
ghost use Rattle.varisat_clause.specs.Stores.{IsSound};

use Tier::{Core, Irred, Local, Mid};
use std::alloc::{AllocError, Global};
use varisat_clause::activity::{ClauseActivity, bump_clause_activity, decay_clause_activities};
use varisat_clause::alloc::ClauseAlloc;
use varisat_clause::collect::collect_garbage;
use varisat_clause::db::{ClauseDb, add_clause, delete_clause, set_clause_tier};
use varisat_clause::header::{ClauseHeader, Tier};
use varisat_clause::reduce::{reduce_locals, reduce_mids};
use varisat_literals::lits;

/// A tier, a glue, and whether a clause is deleted, marked and active; the word of a header with these.
const FLAGS: [(Tier, usize, [bool; 3], u32); 8] = [
    (Irred, 0, [false; 3], 0),
    (Core, 0, [false; 3], 1),
    (Mid, 0, [true, false, false], 6),
    (Irred, 0, [false, true, false], 8),
    (Irred, 1, [false; 3], 16),
    (Irred, 63, [false; 3], 1008),
    (Irred, 0, [false, false, true], 1024),
    // The glue is kept as 63.
    (Local, 100, [false, false, true], 2035),
];

// Whether the header of these has the word, a length of 5, and gives all of them back.
fn has_flags(tier: Tier, glue: usize, set: [bool; 3], word: u32) -> bool {
    let [deleted, mark, active] = set;
    let mut header = ClauseHeader::new();
    header.set_tier(tier);
    header.set_glue(glue);
    header.set_deleted(deleted);
    header.set_mark(mark);
    header.set_active(active);
    header.set_len(5);
    let back = [header.deleted(), header.mark(), header.active()];
    (header.words() == [0, word, 5])
        & (header.tier() == tier)
        & (header.glue() == glue.min(63))
        & (back == set)
        & (header.redundant() == (tier != Irred))
}

#[test]
fn headers_have_their_bits(rt: HostRuntime) {
    for (place, (tier, glue, set, word)) in FLAGS.iter().enumerate() {
        assert!(rt; has_flags(*tier, *glue, *set, *word), "row {place}");
    }
    let tiers = [0, 1, 2, 3, 4].map(Tier::from_index);
    let wanted = [Some(Irred), Some(Core), Some(Mid), Some(Local), None];
    assert!(rt; (tiers == wanted) & (Tier::count() == 4));
}

/// A call of the store and its database. An index is that of a clause in the order of places.
#[derive(Clone, Copy)]
enum Act {
    /// Adds a clause of the tier with the activity, active or not, of 3 to 5 literals.
    Add(Tier, u32, bool, usize),
    SetTier(usize, Tier),
    Shorten(usize, usize),
    Delete(usize),
    Mark(usize),
    ReduceLocals,
    ReduceMids,
    /// Collects garbage, which must be due or not.
    Collect(bool),
}

use Act::{Add, Collect, Delete, Mark, ReduceLocals, ReduceMids, SetTier, Shorten};

/// The place of a clause, its tier, and whether it is deleted and active.
type Seen = (usize, Tier, bool, bool);

/// Calls, how many clauses are then of each tier, how many words there are, and the clauses.
type Row = (&'static [Act], [usize; 4], usize, &'static [Seen]);

const ROWS: [Row; 10] = [
    // The tiers of four clauses are set, the last one first, and two are deleted.
    (
        &[
            Add(Irred, 0, false, 3),
            Add(Core, 0, false, 3),
            Add(Mid, 0, false, 3),
            Add(Local, 0, false, 3),
            SetTier(3, Core),
            SetTier(2, Local),
            SetTier(1, Local),
            SetTier(0, Irred),
        ],
        [1, 1, 0, 2],
        24,
        &[
            (0, Irred, false, false),
            (6, Local, false, false),
            (12, Local, false, false),
            (18, Core, false, false),
        ],
    ),
    (
        &[
            Add(Irred, 0, false, 3),
            Add(Core, 0, false, 3),
            Add(Mid, 0, false, 3),
            Add(Local, 0, false, 3),
            SetTier(3, Core),
            SetTier(2, Local),
            SetTier(1, Local),
            SetTier(0, Irred),
            Delete(0),
            Delete(2),
        ],
        [0, 1, 0, 1],
        24,
        &[
            (0, Irred, true, false),
            (6, Local, false, false),
            (12, Local, true, false),
            (18, Core, false, false),
        ],
    ),
    // Clauses of 3, 5 and 4 literals; the second is shortened and deleted; and the first is deleted too.
    (
        &[
            Add(Irred, 0, false, 3),
            Add(Irred, 0, false, 5),
            Add(Irred, 0, false, 4),
        ],
        [3, 0, 0, 0],
        21,
        &[
            (0, Irred, false, false),
            (6, Irred, false, false),
            (14, Irred, false, false),
        ],
    ),
    (
        &[
            Add(Irred, 0, false, 3),
            Add(Irred, 0, false, 5),
            Add(Irred, 0, false, 4),
            Shorten(1, 3),
            Delete(1),
            Collect(false),
        ],
        [2, 0, 0, 0],
        21,
        &[
            (0, Irred, false, false),
            (6, Irred, true, false),
            (14, Irred, false, false),
        ],
    ),
    (
        &[
            Add(Irred, 0, false, 3),
            Add(Irred, 0, false, 5),
            Add(Irred, 0, false, 4),
            Shorten(1, 3),
            Delete(1),
            Delete(0),
            Collect(true),
        ],
        [1, 0, 0, 0],
        7,
        &[(0, Irred, false, false)],
    ),
    // Three clauses of 18 words: one that is deleted is not half of them, and two are more.
    (
        &[
            Add(Irred, 0, false, 3),
            Add(Irred, 0, false, 3),
            Add(Irred, 0, false, 3),
            Delete(0),
            Collect(false),
        ],
        [2, 0, 0, 0],
        18,
        &[
            (0, Irred, true, false),
            (6, Irred, false, false),
            (12, Irred, false, false),
        ],
    ),
    (
        &[
            Add(Irred, 0, false, 3),
            Add(Irred, 0, false, 3),
            Add(Irred, 0, false, 3),
            Delete(0),
            Delete(1),
            Collect(true),
        ],
        [1, 0, 0, 0],
        6,
        &[(0, Irred, false, false)],
    ),
    // Half of five clauses, rounded down, is deleted, the least active first, and of equal ones the first.
    (
        &[
            Add(Local, 5, false, 3),
            Add(Local, 1, false, 3),
            Add(Local, 1, false, 3),
            Add(Local, 3, false, 3),
            Add(Local, 2, false, 3),
            ReduceLocals,
        ],
        [0, 0, 0, 3],
        30,
        &[
            (0, Local, false, false),
            (6, Local, true, false),
            (12, Local, true, false),
            (18, Local, false, false),
            (24, Local, false, false),
        ],
    ),
    // A marked clause, which is one that is a reason, is passed over.
    (
        &[
            Add(Local, 5, false, 3),
            Add(Local, 1, false, 3),
            Add(Local, 1, false, 3),
            Add(Local, 3, false, 3),
            Add(Local, 2, false, 3),
            Mark(1),
            ReduceLocals,
        ],
        [0, 0, 0, 3],
        30,
        &[
            (0, Local, false, false),
            (6, Local, false, false),
            (12, Local, true, false),
            (18, Local, false, false),
            (24, Local, true, false),
        ],
    ),
    (
        &[Add(Mid, 0, true, 3), Add(Mid, 0, false, 3), ReduceMids],
        [0, 0, 1, 1],
        12,
        &[(0, Mid, false, false), (6, Local, false, false)],
    ),
];

fn header(tier: Tier, activity: u32, active: bool) -> ClauseHeader
    ensures { result.deleted ≡ false }
{
    let mut header = ClauseHeader::new();
    header.set_tier(tier);
    header.set_activity(activity);
    header.set_active(active);
    header
}

fn add(
    alloc: &mut ClauseAlloc<Global>,
    db: &mut ClauseDb<Global>,
    header: ClauseHeader,
    count: usize,
) -> bool
    requires live { header.deleted ≡ false }
    requires tracks { Tracks db.old alloc.old }
    ensures { Tracks db.new alloc.new }
{
    let lits = lits![1, 2, 3, 4, 5];
    add_clause(alloc, db, header, &lits[..count.clamp(3, 5)]).is_ok()
}

fn set_tier(
    alloc: &mut ClauseAlloc<Global>,
    db: &mut ClauseDb<Global>,
    index: usize,
    tier: Tier,
) -> bool
    requires { Tracks db.old alloc.old }
    ensures { Tracks db.new alloc.new }
{
    if index < alloc.len() {
        let cref = alloc.place(index);
        if !alloc.header(cref).deleted() {
            return set_clause_tier(alloc, db, cref, tier).is_ok();
        }
    }
    false
}

fn delete(alloc: &mut ClauseAlloc<Global>, db: &mut ClauseDb<Global>, index: usize)
    requires { Tracks db.old alloc.old }
    ensures { Tracks db.new alloc.new }
{
    if index < alloc.len() {
        let cref = alloc.place(index);
        if !alloc.header(cref).deleted() {
            delete_clause(alloc, db, cref);
        }
    }
}

fn shorten(alloc: &mut ClauseAlloc<Global>, db: &mut ClauseDb<Global>, index: usize, count: usize)
    requires { Tracks db.old alloc.old }
    ensures { Tracks db.new alloc.new }
{
    if index < alloc.len() && 3 <= count {
        let cref = alloc.place(index);
        let header = alloc.header(cref);
        if !header.deleted() && count <= header.len() {
            alloc.shorten(cref, count);
        }
    }
}

fn mark(alloc: &mut ClauseAlloc<Global>, db: &mut ClauseDb<Global>, index: usize)
    requires { Tracks db.old alloc.old }
    ensures { Tracks db.new alloc.new }
{
    if index < alloc.len() {
        let cref = alloc.place(index);
        let mut header = alloc.header(cref);
        header.set_mark(true);
        alloc.set_header(cref, header);
    }
}

fn collect(alloc: &mut ClauseAlloc<Global>, db: &mut ClauseDb<Global>) -> Result<bool, AllocError>
    requires { Tracks db.old alloc.old }
    ensures { Tracks db.new alloc.new }
{
    let done = collect_garbage(alloc, db)?;
    Ok(done)
}

// Makes the call. Whether memory sufficed, and garbage was collected as it must be.
fn make(alloc: &mut ClauseAlloc<Global>, db: &mut ClauseDb<Global>, act: Act) -> bool
    requires { Tracks db.old alloc.old }
    ensures { Tracks db.new alloc.new }
{
    match act {
        Add(tier, activity, active, count) => return add(
            alloc,
            db,
            header(tier, activity, active),
            count,
        ),
        SetTier(index, tier) => return set_tier(alloc, db, index, tier),
        Shorten(index, count) => shorten(alloc, db, index, count),
        Delete(index) => delete(alloc, db, index),
        Mark(index) => mark(alloc, db, index),
        ReduceLocals => return reduce_locals(alloc, db).is_ok(),
        ReduceMids => return reduce_mids(alloc, db).is_ok(),
        Collect(is_due) => return collect(alloc, db).ok() == Some(is_due),
    }
    true
}

fn make_all(alloc: &mut ClauseAlloc<Global>, db: &mut ClauseDb<Global>, acts: &[Act]) -> bool
    requires { Tracks db.old alloc.old }
    ensures { Tracks db.new alloc.new }
{
    let mut are_made = true;
    'acts: for act in acts {
        are_made &= make(alloc, db, *act);
    }
    are_made
}

fn seen(alloc: &ClauseAlloc<Global>, index: usize) -> Option<Seen>
    requires { IsSound alloc.now }
{
    if index >= alloc.len() {
        return None;
    }
    let cref = alloc.place(index);
    let header = alloc.header(cref);
    Some((
        cref.offset(),
        header.tier(),
        header.deleted(),
        header.active(),
    ))
}

fn are_seen(alloc: &ClauseAlloc<Global>, wanted: &[Seen]) -> bool
    requires { IsSound alloc.now }
{
    for (index, clause) in wanted.iter().enumerate() {
        if seen(alloc, index) != Some(*clause) {
            return false;
        }
    }
    alloc.len() == wanted.len()
}

fn has_counts(db: &ClauseDb<Global>, counts: [usize; 4]) -> bool {
    [Irred, Core, Mid, Local].map(|tier| db.count_by_tier(tier)) == counts
}

fn is_right(alloc: &mut ClauseAlloc<Global>, db: &mut ClauseDb<Global>, row: &Row) -> bool
    requires { Tracks db.old alloc.old }
{
    let (acts, counts, words, clauses) = *row;
    make_all(alloc, db, acts)
        & has_counts(db, counts)
        & (alloc.buffer_size() == words)
        & are_seen(alloc, clauses)
}

fn is_right_in_new(rt_alloc: Global, row: &Row) -> bool {
    let mut alloc = ClauseAlloc::new_in(rt_alloc);
    let mut db = ClauseDb::new_in(rt_alloc);
    let is_right = is_right(&mut alloc, &mut db, row);
    drop(alloc);
    drop(db);
    is_right
}

#[test]
fn the_store_has_its_clauses(rt: HostRuntime) {
    for (place, row) in ROWS.iter().enumerate() {
        assert!(rt; is_right_in_new(rt.alloc(), row), "row {place}");
    }
}

/// A change of a clause through its header that is lent.
#[derive(Clone, Copy)]
enum Change {
    Length(usize),
    Deleted,
    Marked,
    OfTier(Tier),
    Glue(usize),
    Activity(u32),
}

// Makes the change in the first clause, if there is one.
fn change_first(alloc: &mut ClauseAlloc<Global>, change: Change)
    requires { IsSound alloc.old }
    ensures { IsSound alloc.new }
{
    if alloc.len() == 0 {
        return;
    }
    let cref = alloc.place(0);
    let len = alloc.header(cref).len();
    let mut header = alloc.header_mut(cref);
    match change {
        Change::Length(count) => if 3 <= count && count <= len {
            header.set_len(count);
        },
        Change::Deleted => header.set_deleted(true),
        Change::Marked => header.set_mark(true),
        Change::OfTier(tier) => header.set_tier(tier),
        Change::Glue(glue) => header.set_glue(glue),
        Change::Activity(activity) => header.set_activity(activity),
    }
}

const CHANGES: [Change; 6] = [
    Change::OfTier(Local),
    Change::Glue(100),
    Change::Marked,
    Change::Activity(7),
    Change::Length(3),
    Change::Deleted,
];

// The header's words of a clause of five literals once all of it is changed.
fn changed_words(alloc: &mut ClauseAlloc<Global>) -> Option<[u32; 3]>
    requires { IsSound alloc.old }
{
    let _ = alloc.add_clause(ClauseHeader::new(), &lits![1, 2, 3, 4, 5]);
    'changes: for row in CHANGES {
        change_first(alloc, row);
    }
    words(alloc)
}

fn words(alloc: &ClauseAlloc<Global>) -> Option<[u32; 3]>
    requires { IsSound alloc.now }
{
    if alloc.len() == 0 {
        return None;
    }
    Some(alloc.header(alloc.place(0)).words())
}

// Bumps the first clause, if there is one.
fn bump(alloc: &mut ClauseAlloc<Global>, activity: &mut ClauseActivity)
    requires { IsSound alloc.old }
    ensures { IsSound alloc.new }
{
    if alloc.len() > 0 {
        let cref = alloc.place(0);
        bump_clause_activity(alloc, activity, cref);
    }
}

// The activity of a clause after a bump, that after one that reaches the limit, and the increment after a decay.
fn activities(alloc: &mut ClauseAlloc<Global>) -> ([Option<[u32; 3]>; 2], u32)
    requires { IsSound alloc.old }
{
    let mut activity = ClauseActivity::new();
    bump(alloc, &mut activity);
    let first = words(alloc);
    change_first(alloc, Change::Activity((1 << 28) - 1));
    bump(alloc, &mut activity);
    let second = words(alloc);
    decay_clause_activities(alloc, &mut activity);
    ([first, second], activity.increment())
}

fn activities_of_one(alloc: &mut ClauseAlloc<Global>) -> ([Option<[u32; 3]>; 2], u32)
    requires { IsSound alloc.old }
{
    let _ = alloc.add_clause(ClauseHeader::new(), &lits![1, 2, 3]);
    activities(alloc)
}

#[test]
fn a_clause_is_changed_in_the_store(rt: HostRuntime) {
    let mut changed = ClauseAlloc::new_in(rt.alloc());
    assert!(rt; changed_words(&mut changed) == Some([7, 1023, 3]));
    let mut bumped = ClauseAlloc::new_in(rt.alloc());
    // All activities and the increment are shifted right by 16, and the increment is 1024 at least.
    let wanted = ([Some([1024, 0, 3]), Some([4096, 0, 3])], 1025);
    assert!(rt; activities_of_one(&mut bumped) == wanted);
}

// Whether a new store has room for a clause of 2^32 - 1 words with its header, and for none of more.
#[test]
fn the_store_has_room_up_to_its_limit(rt: HostRuntime) {
    let store = ClauseAlloc::new_in(rt.alloc());
    assert!(rt; store.has_room(0xffff_fffc) & !store.has_room(0xffff_fffd));
}
