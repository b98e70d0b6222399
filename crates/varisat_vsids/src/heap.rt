//! A binary heap of variables in two slices: the variables, of which the first `len` are the heap, and the position of
//! each.
//!
//! A variable moves through the heap as a hole does: others take its place one after another, and it is written once, where
//! it comes to.
ghost use Rattle.std.specs.Prelude.{◌≡◌, ◌≢◌, ℕ, ◌+◌, ◌-◌, ◌<◌, ◌≤◌, length, slice_index, slice_set, IfSome, IfNone, true, false};
ghost use Rattle.varisat_literals.specs.promises.Numbers.{variable_limit};
ghost use Rattle.varisat_vsids.specs.Heaps.{IsLinked, IsHeap, IsHeapBut, IsHeapUnder, IsNoChildGreater, IsGreaterChild, availability, parent, key};

use varisat_literals::Var;

/// The activity of the variable at the place.
fn activity_at(activity: &[u64], heap: &[Var], place: usize) -> u64
    requires place { place < length heap.now }
    requires known { slice_index heap.now place < length activity.now }
    ensures { result ≡ key activity.now heap.now place }
{
    activity[heap[place].index()]
}

/// Exchanges two places.
fn exchange(heap: &mut [Var], position: &mut [u32], i: usize, j: usize)
    requires linked { IsLinked heap.old position.old }
    requires first { i < length heap.old }
    requires second { j < length heap.old }
    ensures linked { IsLinked heap.new position.new }
    ensures count { length heap.new ≡ length heap.old }
    ensures at_first { slice_index heap.new i ≡ slice_index heap.old j }
    ensures at_second { slice_index heap.new j ≡ slice_index heap.old i }
    ensures elsewhere { (k : ℕ) → k ≢ i → k ≢ j → slice_index heap.new k ≡ slice_index heap.old k }
    ensures position { position.new
        ≡ slice_set (slice_set position.old (slice_index heap.old i) j) (slice_index heap.old j) i }
{
    position[heap[i].index()] = j as u32;
    position[heap[j].index()] = i as u32;
    heap.swap(i, j);
}

/// Writes the variable to the place, and the place to its position.
fn fill(heap: &mut [Var], position: &mut [u32], place: usize, var: Var)
    requires place { place < length heap.old }
    requires small { length heap.old ≤ variable_limit }
    requires known { var < length position.old }
    ensures heap { heap.new ≡ slice_set heap.old place var }
    ensures position { position.new ≡ slice_set position.old var place }
{
    heap[place] = var;
    position[var.index()] = place as u32;
}

/// The parent of the place, where its activity is less than the value.
fn lesser_parent(activity: &[u64], heap: &[Var], value: u64, place: usize) -> Option<usize>
    requires known { (k : ℕ) → k < length heap.now → k ≢ place → slice_index heap.now k < length activity.now }
    requires place { place < length heap.now }
    ensures lesser { IfSome result (λ p. (p ≡ parent place) × (0 < place) × (key activity.now heap.now p < value)) }
    ensures none { IfNone result (0 < place → value ≤ key activity.now heap.now (parent place)) }
{
    if place == 0 {
        return None;
    }
    let above = (place - 1) / 2;
    if activity_at(activity, heap, above) < value {
        Some(above)
    } else {
        None
    }
}

/// The child of the place whose activity is greater than the value, and no less than that of the other child.
fn greater_child(
    activity: &[u64],
    heap: &[Var],
    len: usize,
    value: u64,
    place: usize,
) -> Option<usize>
    requires known { (k : ℕ) → k < length heap.now → k ≢ place → slice_index heap.now k < length activity.now }
    requires part { len ≤ length heap.now }
    requires place { place < len }
    ensures greater { IfSome result (λ c. IsGreaterChild (key activity.now heap.now) len place value c) }
    ensures none { IfNone result ((j : ℕ) → 0 < j → j < len → parent j ≡ place → key activity.now heap.now j ≤ value) }
{
    let left = 2 * place + 1;
    let right = 2 * place + 2;
    if left >= len {
        return None;
    }
    let mut child = left;
    if right < len && activity_at(activity, heap, right) > activity_at(activity, heap, left) {
        child = right;
    }
    if activity_at(activity, heap, child) > value {
        Some(child)
    } else {
        None
    }
}

/// Moves the variable at the place towards the root, until its parent is no less. Returns the place that it comes to.
fn rise(activity: &[u64], heap: &mut [Var], position: &mut [u32], len: usize, at: usize) -> usize
    requires heap { IsHeapBut activity.now heap.old position.old len at }
    requires at { at < len }
    ensures at { result < len }
    ensures heap { IsHeapUnder activity.now heap.new position.new len result }
    ensures children { IsNoChildGreater (key activity.now heap.old) len at →
        IsNoChildGreater (key activity.now heap.new) len result }
    ensures available { availability len position.new ≡ availability len position.old }
{
    let var = heap[at];
    let value = activity_at(activity, heap, at);
    let mut place = at;
    'up: while let Some(above) = lesser_parent(activity, heap, value, place) {
        let other = heap[above];
        fill(heap, position, place, other);
        place = above;
    }
    fill(heap, position, place, var);
    place
}

/// Moves the variable at the place away from the root, until no child is greater.
fn sink(activity: &[u64], heap: &mut [Var], position: &mut [u32], len: usize, at: usize)
    requires heap { IsHeapUnder activity.now heap.old position.old len at }
    requires at { at < len }
    ensures heap { IsHeap activity.now heap.new position.new len }
    ensures available { availability len position.new ≡ availability len position.old }
{
    let var = heap[at];
    let value = activity_at(activity, heap, at);
    let mut place = at;
    'down: while let Some(child) = greater_child(activity, heap, len, value, place) {
        let other = heap[child];
        fill(heap, position, place, other);
        place = child;
    }
    fill(heap, position, place, var);
}

/// Puts the heap in order after the activity of one variable has risen, which comes into it where that is asked. Returns
/// how many variables the heap has then.
// A conflict bumps dozens of variables, most of which stay where they are, so that it is compiled in place.
#[inline(always)]
pub fn enter_risen(
    activity: &[u64],
    heap: &mut [Var],
    position: &mut [u32],
    len: usize,
    var: Var,
    enters: bool,
) -> usize
    requires known { var < length position.old }
    requires heap { IsHeapBut activity.now heap.old position.old len (slice_index position.old var) }
    requires children { IsNoChildGreater (key activity.now heap.old) len (slice_index position.old var) }
    ensures heap { IsHeap activity.now heap.new position.new result }
    ensures enters { enters ≡ true →
        availability result position.new ≡ slice_set (availability len position.old) var true }
    ensures stays { enters ≡ false → availability result position.new ≡ availability len position.old }
{
    let place = position[var.index()] as usize;
    if place < len {
        rise(activity, heap, position, len, place);
        return len;
    }
    if !enters {
        return len;
    }
    put_in(activity, heap, position, len, place);
    len + 1
}

/// Puts the heap in order after the activity of one variable has fallen.
pub fn reorder_fallen(
    activity: &[u64],
    heap: &mut [Var],
    position: &mut [u32],
    len: usize,
    var: Var,
)
    requires known { var < length position.old }
    requires heap { IsHeapUnder activity.now heap.old position.old len (slice_index position.old var) }
    ensures heap { IsHeap activity.now heap.new position.new len }
    ensures available { availability len position.new ≡ availability len position.old }
{
    let place = position[var.index()] as usize;
    if place < len {
        sink(activity, heap, position, len, place);
    }
}

/// Takes the variable at the place out of the heap, which has one less then.
pub fn take_out(activity: &[u64], heap: &mut [Var], position: &mut [u32], len: usize, place: usize)
    requires heap { IsHeap activity.now heap.old position.old len }
    requires place { place < len }
    ensures heap { IsHeap activity.now heap.new position.new (len - 1) }
    ensures available { availability (len - 1) position.new
        ≡ slice_set (availability len position.old) (slice_index heap.old place) false }
{
    // The last one takes its place. As it comes from another branch it may belong above that place as well as below it.
    let last = len - 1;
    exchange(heap, position, place, last);
    if place < last {
        let risen = rise(activity, heap, position, last, place);
        sink(activity, heap, position, last, risen);
    }
}

/// Puts the variable at the place, which is behind the heap, into the heap, which has one more then.
pub fn put_in(activity: &[u64], heap: &mut [Var], position: &mut [u32], len: usize, place: usize)
    requires heap { IsHeap activity.now heap.old position.old len }
    requires behind { len ≤ place }
    requires place { place < length heap.old }
    ensures heap { IsHeap activity.now heap.new position.new (len + 1) }
    ensures available { availability (len + 1) position.new
        ≡ slice_set (availability len position.old) (slice_index heap.old place) true }
{
    exchange(heap, position, place, len);
    rise(activity, heap, position, len + 1, len);
}
