//! What best schedules of a net and of the net at its recorded pace cost, beside what was sent.

ghost use Rattle.std.specs.Prelude.{◌≡◌, ℕ, ◌≤◌};
ghost use Rattle.round_net.specs.Pace.{instance_at_pace};
ghost use Rattle.price_check.specs.Words.{instance_of_rows, live_of_rows, cost, Pricing, ProvesBest};

use round_net::Net;

/// What was sent costs no less than a best schedule at the recorded pace, and that one no less than a best schedule of the net.
/// So the cost of what was sent is the sum of three: by order, by idle slots, and needed.
pub fn costs_are_in_order(net: &Net)
    ensures by_order { (f : ℕ → ℕ) (p : Pricing) → ProvesBest (instance_at_pace net.now) f p → cost (instance_of_rows net.now) f ≤ cost (instance_of_rows net.now) (live_of_rows net.now) }
    ensures by_slots { (f g : ℕ → ℕ) (p q : Pricing) → ProvesBest (instance_at_pace net.now) f p → ProvesBest (instance_of_rows net.now) g q → cost (instance_of_rows net.now) g ≤ cost (instance_of_rows net.now) f }
{
    let _rounds = net.rounds();
}
