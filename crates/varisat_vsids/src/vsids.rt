//! The VSIDS heuristic (variable state independent decaying sum) in whole numbers. A contract sees `Activities`.
//!
//! A conflict bumps variables, which raises their activity by the increment, and then all activities decay. In place
//! of lowering each activity, a decay raises the increment. Before numbers come too near to 2^64 all are shifted, so
//! that their order stays.
ghost use Rattle.std.specs.Prelude.{◌≡◌, ℕ, ◌+◌, ◌/◌, ◌<◌, ◌≤◌, ◌^◌, ◌∷◌, length, map, max, slice_index, slice_set, true, false, OnOk, OnErr, IfSome, IfNone};
ghost use Rattle.varisat_literals.specs.promises.Numbers.{variable_limit};
ghost use Rattle.varisat_vsids.specs.Activities.{Activities, no_activities, activity_limit, least_increment, is_available, rescaled, bumped, decayed, with_available, raised_to, IsGreatest, TakesGreatest, available_count, AreWithinLimits};

use crate::heap::{enter_risen, put_in, reorder_fallen, take_out};
use crate::idle::{first_available, note_block};
use std::alloc::{AllocError, Allocator};
use std::marker::Model;
use varisat_literals::Var;

/// What a bump adds at first, and never less.
const LEAST_INCREMENT: u64 = 1 << 20;

/// Where an activity or the increment reaches it, all are shifted.
const ACTIVITY_LIMIT: u64 = 1 << 60;

/// The variables by activity, of which some are available.
///
/// As an iterator it takes out an available variable of greatest activity at each call. No call but `set_var_count`
/// takes memory: all variables stand in `heap`, of which the first `len` are the heap. They are available. Other available
/// variables are idle: their activity is 0, and they are taken out once the heap is empty, that of the least number first.
#[derive(Drop)]
pub struct Vsids<A: Allocator + Copy> {
    activity: Vec<u64, A>,
    heap: Vec<Var, A>,
    position: Vec<u32, A>,
    len: usize,
    available: Vec<bool, A>,
    // No variable of a lesser number is idle.
    cursor: usize,
    // Whether one of each 64 variables may be idle. The list is as long as the others.
    blocks: Vec<bool, A>,
    increment: u64,
    decay: u64,
}

impl<A: Allocator + Copy> Model for Vsids<A> {
    ghost use Rattle.varisat_vsids.specs.Heaps.{IsHeap, availability};
    ghost use Rattle.varisat_vsids.specs.Idle.{AreIdleOutside};
    ghost use Rattle.varisat_vsids.specs.Activities.{Activities, AreWithinLimits};

    ghost Value = { Activities };

    ghost view = { λ s. record { activity = s.activity.items; available = s.available.items; increment = s.increment; decay = s.decay } };

    ghost invariant = { λ s. IsHeap s.activity.items s.heap.items s.position.items s.len × AreWithinLimits s.activity.items s.increment s.decay
        × AreIdleOutside s.activity.items (availability s.len s.position.items) s.available.items s.blocks.items s.cursor };
}

/// Shifts all activities right by 40, and returns the increment shifted, but no less than the least.
fn rescale(activity: &mut [u64], increment: u64) -> u64
    ensures activity { activity.new ≡ map (λ x. x / 2 ^ 40) activity.old }
    ensures increment { result ≡ max least_increment (increment / 2 ^ 40) }
{
    for value in activity.iter_mut() {
        *value >>= 40;
    }
    LEAST_INCREMENT.max(increment >> 40)
}

impl<A: Allocator + Copy> Vsids<A> {
    /// No variables, and a decay of 950 thousandths. It takes no memory.
    pub fn new_in(alloc: A) -> Vsids<A>
        ensures { result ≡ no_activities }
    {
        Vsids {
            activity: Vec::new(alloc),
            heap: Vec::new(alloc),
            position: Vec::new(alloc),
            len: 0,
            available: Vec::new(alloc),
            cursor: 0,
            blocks: Vec::new(alloc),
            increment: LEAST_INCREMENT,
            decay: 950,
        }
    }

    /// How many variables there are. The clauses say what holds between calls.
    pub fn var_count(&self) -> usize
        ensures count { result ≡ length self.now.activity }
        ensures available { length self.now.available ≡ length self.now.activity }
        ensures small { length self.now.activity ≤ variable_limit }
        ensures limits { AreWithinLimits self.now.activity self.now.increment self.now.decay }
    {
        self.activity.len()
    }

    /// Raises the count of variables. The new ones have activity 0 and are not available. A refused growth changes
    /// nothing.
    pub fn set_var_count(&mut self, count: usize) -> Result<(), AllocError>
        requires raised { length self.old.activity ≤ count }
        requires small { count ≤ variable_limit }
        ensures raised { OnOk result (self.new ≡ raised_to count self.old) }
        ensures refused { OnErr result (self.new ≡ self.old) }
    {
        // All lists get their room before the first one grows, so that a refusal leaves them equally long.
        let more = count - self.activity.len();
        self.activity.reserve(more)?;
        self.heap.reserve(more)?;
        self.position.reserve(more)?;
        self.available.reserve(more)?;
        self.blocks.reserve(more)?;
        for index in self.heap.len()..count {
            self.activity.push_reserved(0);
            self.heap.push_reserved(Var::from_index(index));
            self.position.push_reserved(index as u32);
            self.available.push_reserved(false);
            self.blocks.push_reserved(false);
        }
        Ok(())
    }

    /// Sets what each decay leaves of the activities, in thousandths. It says nothing of earlier decays.
    pub fn set_decay(&mut self, decay: u64)
        requires least { 500 ≤ decay }
        requires most { decay ≤ 999 }
        ensures { self.new ≡ record self.old { decay = decay } }
    {
        self.decay = decay;
    }

    /// Raises the activity of the variable by the increment.
    pub fn bump(&mut self, var: Var)
        requires { var < length self.old.activity }
        ensures bumped { self.new ≡ bumped var self.old }
        ensures count { length self.new.activity ≡ length self.old.activity }
    {
        let index = var.index();
        let value = self.activity[index] + self.increment;
        self.activity[index] = value;
        let is_available = self.available[index];
        self.len = enter_risen(
            &self.activity,
            &mut self.heap,
            &mut self.position,
            self.len,
            var,
            is_available,
        );
        if value >= ACTIVITY_LIMIT {
            self.increment = rescale(&mut self.activity, self.increment);
        }
    }

    /// Makes what later bumps add greater in proportion to what earlier ones have added.
    pub fn decay(&mut self)
        ensures decayed { self.new ≡ decayed self.old }
        ensures count { length self.new.activity ≡ length self.old.activity }
    {
        // The product may be 2^64 or more, the quotient is not: the increment is below 2^60, and the decay at least 500.
        self.increment = (self.increment as u128 * 1000 / self.decay as u128) as u64;
        if self.increment >= ACTIVITY_LIMIT {
            self.increment = rescale(&mut self.activity, self.increment);
        }
    }

    /// Makes the activity of the variable 0.
    pub fn reset(&mut self, var: Var)
        requires { var < length self.old.activity }
        ensures { self.new ≡ record self.old { activity = slice_set self.old.activity var 0 } }
    {
        self.activity[var.index()] = 0;
        reorder_fallen(
            &self.activity,
            &mut self.heap,
            &mut self.position,
            self.len,
            var,
        );
    }

    /// Makes the variable unavailable.
    pub fn make_unavailable(&mut self, var: Var)
        requires { var < length self.old.activity }
        ensures { self.new ≡ with_available var false self.old }
    {
        let index = var.index();
        self.available[index] = false;
        if self.len == 0 {
            return;
        }
        let place = self.position[index] as usize;
        if place < self.len {
            take_out(
                &self.activity,
                &mut self.heap,
                &mut self.position,
                self.len,
                place,
            );
            self.len -= 1;
        }
    }

    /// Makes the variable available.
    pub fn make_available(&mut self, var: Var)
        requires { var < length self.old.activity }
        ensures { self.new ≡ with_available var true self.old }
    {
        self.release(var, false);
    }

    /// Makes the variable available. One of activity 0 may wait outside the heap, so that those that wait are taken in the
    /// order of their numbers; else that which came last is taken first of equally active ones.
    pub fn release(&mut self, var: Var, waits: bool)
        requires { var < length self.old.activity }
        ensures { self.new ≡ with_available var true self.old }
    {
        let index = var.index();
        let place = self.position[index] as usize;
        // What stands in the heap is available already, as most is that a search undoes.
        if place < self.len {
            return;
        }
        self.available[index] = true;
        if waits && self.activity[index] == 0 {
            note_block(&mut self.blocks, index);
            self.cursor = self.cursor.min(index);
            return;
        }
        put_in(
            &self.activity,
            &mut self.heap,
            &mut self.position,
            self.len,
            place,
        );
        self.len += 1;
    }

    /// An available variable of greatest activity, if one is available.
    fn greatest(&mut self) -> Option<Var>
        ensures frame { self.new ≡ self.old }
        ensures none { IfNone result ((v : ℕ) → is_available self.old v ≡ false) }
        ensures greatest { IfSome result (IsGreatest self.old) }
    {
        if self.len > 0 {
            return Some(self.heap[0]);
        }
        self.cursor = first_available(&self.available, &mut self.blocks, self.cursor);
        if self.cursor == self.available.len() {
            return None;
        }
        Some(Var::from_index(self.cursor))
    }
}

impl<A: Allocator + Copy> Iterator for Vsids<A> {
    type Item = Var;

    ghost next_gives = { TakesGreatest };

    ghost remaining = { available_count };

    /// Takes out an available variable of greatest activity. Which of several of equal activity it is stays open.
    fn next(&mut self) -> Option<Var> {
        let var = self.greatest()?;
        self.make_unavailable(var);
        Some(var)
    }
}
