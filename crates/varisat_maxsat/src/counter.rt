//! Literals that count what charges cost.
ghost use Rattle.std.specs.Prelude.{◌≡◌, ◌≤◌, ◌+◌, ◌↔◌, IfSome, IsTrue};
ghost use Rattle.varisat_maxsat.specs.inside.Charges.{CountsCharge};

use crate::charge::Charge;
use varisat_literals::Lit;
use varisat_sums::Sum;

/// A literal that is true where the charges from the first on, up to the end, cost at least so much, and only there.
#[derive(Clone, Copy)]
pub(crate) struct Counter {
    pub literal: Lit,
    pub at_least: u64,
    pub first: usize,
    pub end: usize,
}

/// Whether the effect is true wherever the cause is, since it counts all that this one does, and not more.
pub(crate) fn is_within(cause: &Counter, effect: &Counter) -> bool
    ensures { IsTrue result
        ↔ ((effect.now.first ≤ cause.now.first) × (cause.now.end ≤ effect.now.end)
        × (effect.now.at_least ≤ cause.now.at_least)) }
{
    effect.first <= cause.first && cause.end <= effect.end && effect.at_least <= cause.at_least
}

/// Whether the effect is true wherever both others are, which count neighbouring charges.
pub(crate) fn adds_up(left: &Counter, right: &Counter, effect: &Counter) -> bool
    ensures { IsTrue result
        ↔ ((effect.now.first ≡ left.now.first) × (left.now.end ≡ right.now.first) × (right.now.end ≡ effect.now.end)
        × (effect.now.at_least ≤ left.now.at_least + right.now.at_least)) }
{
    effect.first == left.first
        && left.end == right.first
        && right.end == effect.end
        && effect.at_least.saturating_sub(left.at_least) <= right.at_least
}

/// The charge's literal, where the sum is that of one charge.
pub(crate) fn counter_of_charge(charges: &[Charge], sum: Sum) -> Option<Counter>
    ensures counts { IfSome result (λ k. CountsCharge charges.now k) }
    ensures sum { IfSome result
        (λ k. (k.at_least ≡ sum.at_least) × (k.first ≡ sum.first) × (k.end ≡ sum.end)) }
{
    if sum.first >= charges.len() || sum.end <= sum.first || sum.end - sum.first != 1 {
        return None;
    }
    let charge = charges[sum.first];
    if charge.weight == 0 || charge.weight != sum.at_least {
        return None;
    }
    Some(Counter {
        literal: charge.literal,
        at_least: charge.weight,
        first: sum.first,
        end: sum.first + 1,
    })
}
