//! The trail: what was decided and propagated, in that order.
ghost use Rattle.std.specs.Prelude.{◌≡◌, ◌<◌, ◌≤◌, ◌+◌, ◌++◌, ◌∷◌, ◌↔◌, IsTrue, [], length, slice_index, slice_get, Option, Some, None, MatchOption, OnOk, not};
ghost use Rattle.varisat_theory.specs.promises.Literals.{variable_of};
ghost use Rattle.varisat_prop.specs.Parts.{empty_trail, backtracked, top_level_count};
ghost use Rattle.varisat_prop.specs.Leaving.{leaves, staying};

use std::alloc::{AllocError, Allocator};
use std::marker::Model;
use varisat_literals::Lit;

/// The true literals, oldest first, the places of the decisions among them, and how far they were propagated.
#[derive(Drop)]
pub struct Trail<A: Allocator + Copy> {
    trail: Vec<Lit, A>,
    queue_head_pos: usize,
    decisions: Vec<usize, A>,
}

impl<A: Allocator + Copy> Model for Trail<A> {
    ghost use Rattle.std.specs.Prelude.{◌≤◌, length};
    ghost use Rattle.varisat_prop.specs.Parts.{TrailParts};

    ghost Value = { TrailParts };

    ghost view = { λ t. record { literals = t.trail.items; queue_head = t.queue_head_pos; decisions = t.decisions.items } };

    ghost invariant = { λ t. t.queue_head_pos ≤ length t.trail.items };
}

/// Whether the literal's variable stays.
fn stays(gone: &[bool], lit: Lit) -> bool
    ensures { result ≡ not (leaves gone.now (variable_of lit)) }
{
    !matches!(gone.get(lit.index()), Some(true))
}

impl<A: Allocator + Copy> Trail<A> {
    /// An empty trail. It takes no memory.
    pub fn new_in(alloc: A) -> Trail<A>
        ensures { result ≡ empty_trail }
    {
        Trail {
            trail: Vec::new(alloc),
            queue_head_pos: 0,
            decisions: Vec::new(alloc),
        }
    }

    /// The first literal that was not propagated yet.
    pub fn queue_head(&self) -> Option<Lit>
        ensures { result ≡ slice_get self.now.literals self.now.queue_head }
    {
        self.trail.get(self.queue_head_pos).copied()
    }

    /// The first literal that was not propagated yet, which is taken as propagated from now on.
    pub fn pop_queue(&mut self) -> Option<Lit>
        ensures head { result ≡ slice_get self.old.literals self.old.queue_head }
        ensures taken { MatchOption result (self.new ≡ self.old)
            (λ l. self.new ≡ record self.old { queue_head = self.old.queue_head + 1 }) }
    {
        let head = self.queue_head()?;
        self.queue_head_pos += 1;
        Some(head)
    }

    /// Takes no literal as propagated.
    pub fn reset_queue(&mut self)
        ensures { self.new ≡ record self.old { queue_head = 0 } }
    {
        self.queue_head_pos = 0;
    }

    /// The true literals, oldest first.
    pub fn trail(&self) -> &[Lit]
        ensures { result.now ≡ self.now.literals }
    {
        self.trail.as_slice()
    }

    /// Takes all literals off. No decision may stand.
    pub fn clear(&mut self)
        requires { self.old.decisions ≡ [] }
        ensures { self.new ≡ empty_trail }
    {
        self.reset_queue();
        self.trail.clear();
    }

    /// Takes off the literals of the variables that leave. No decision may stand. All that is left counts as propagated.
    pub fn remove_units(&mut self, gone: &[bool])
        requires { self.old.decisions ≡ [] }
        ensures { self.new ≡ record self.old {
          literals = staying gone.now self.old.literals;
          queue_head = length (staying gone.now self.old.literals);
        } }
    {
        self.trail.retain(|lit| stays(gone, *lit));
        self.queue_head_pos = self.trail.len();
    }

    /// Begins a level. Its decision is the next literal.
    pub fn new_decision_level(&mut self) -> Result<(), AllocError>
        ensures { OnOk result
            (self.new ≡ record self.old { decisions = self.old.decisions ++ length self.old.literals ∷ [] }) }
    {
        self.decisions.push(self.trail.len())?;
        Ok(())
    }

    /// The current level, which is the number of decisions.
    pub fn current_level(&self) -> usize
        ensures { result ≡ length self.now.decisions }
    {
        self.decisions.len()
    }

    /// How many of the literals are true at level 0. Those that were taken off are not counted.
    pub fn top_level_assignment_count(&self) -> usize
        ensures { result ≡ top_level_count self.now }
    {
        match self.decisions.first() {
            Some(place) => *place,
            None => self.trail.len(),
        }
    }

    /// How many literals were propagated.
    pub fn propagated_count(&self) -> usize
        ensures { result ≡ self.now.queue_head }
    {
        self.queue_head_pos
    }

    /// Whether each literal was propagated.
    pub fn fully_propagated(&self) -> bool
        ensures { IsTrue result ↔ (self.now.queue_head ≡ length self.now.literals) }
    {
        self.queue_head_pos == self.trail.len()
    }

    /// Puts a literal at the end.
    pub fn push(&mut self, lit: Lit) -> Result<(), AllocError>
        ensures { OnOk result (self.new ≡ record self.old { literals = self.old.literals ++ lit ∷ [] }) }
    {
        if self.trail.len() < self.trail.capacity() {
            self.trail.push_reserved(lit);
            return Ok(());
        }
        self.push_growing(lit)
    }

    /// Puts a literal at the end, for which more memory may be needed.
    // It is kept out of the function that makes literals true, which would save registers for it each time.
    #[cold]
    #[inline(never)]
    fn push_growing(&mut self, lit: Lit) -> Result<(), AllocError>
        ensures { OnOk result (self.new ≡ record self.old { literals = self.old.literals ++ lit ∷ [] }) }
    {
        self.trail.push(lit)?;
        Ok(())
    }

    /// The place of the decision that ends the level.
    pub fn level_end(&self, level: usize) -> usize
        requires { level < length self.now.decisions }
        ensures { result ≡ slice_index self.now.decisions level }
    {
        self.decisions[level]
    }

    /// Takes off what stands behind the level. It was propagated up to there.
    pub fn truncate(&mut self, level: usize)
        requires level { level < length self.old.decisions }
        requires place { slice_index self.old.decisions level ≤ length self.old.literals }
        ensures { self.new ≡ backtracked self.old level }
    {
        let end = self.level_end(level);
        self.trail.truncate(end);
        self.decisions.truncate(level);
        self.queue_head_pos = end;
    }
}
