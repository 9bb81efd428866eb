//! Pairwise interchange: pairs of stays exchange their rounds until all are in turn.

ghost use Rattle.std.specs.Prelude.{◌≡◌, ℕ, ◌+◌, ◌<◌, ◌≤◌, true, false, length, slice_index};
ghost use Rattle.std.specs.List.Sorted.{IsPermutation};
ghost use Rattle.cost_plan.specs.Turns.{HaveWindows, AreInTurnWithin};
ghost use Rattle.cost_plan.specs.Exchanges.{ArePairInTurn, IsInTurn, Exchanges};

/// Up to that many stays can be brought in turn in pairs.
pub const FEW_STAYS: usize = 4096;

/// Lets pairs change rounds, as long as one stay has a round past that of a later one and each could have the other's.
pub fn exchange(arrivals: &[u32], lasts: &[u32], rounds: &mut Vec<u32>)
    requires long { length arrivals.now ≡ length rounds.old.items }
    requires lasts { length arrivals.now ≡ length lasts.now }
    requires windows { HaveWindows arrivals.now lasts.now rounds.old.items }
    ensures permutation { IsPermutation rounds.old.items rounds.new.items }
    ensures windows { HaveWindows arrivals.now lasts.now rounds.new.items }
    ensures in_turn { AreInTurnWithin arrivals.now lasts.now rounds.new.items }
{
    'passes: while exchange_all(arrivals, lasts, rounds) {}
}

// Lets each pair change rounds once, if it should. Whether one did.
fn exchange_all(arrivals: &[u32], lasts: &[u32], rounds: &mut Vec<u32>) -> bool
    requires long { length arrivals.now ≡ length rounds.old.items }
    requires lasts { length arrivals.now ≡ length lasts.now }
    requires windows { HaveWindows arrivals.now lasts.now rounds.old.items }
    ensures { Exchanges arrivals.now lasts.now (IsInTurn arrivals.now lasts.now) 0 rounds.old.items rounds.new.items result (length arrivals.now) }
{
    let mut changed = false;
    for first in 0..arrivals.len() {
        if exchange_with(arrivals, lasts, rounds, first) {
            changed = true;
        }
    }
    changed
}

// Lets a stay change rounds with each later one, if it should. Whether it did.
fn exchange_with(arrivals: &[u32], lasts: &[u32], rounds: &mut Vec<u32>, first: usize) -> bool
    requires long { length arrivals.now ≡ length rounds.old.items }
    requires lasts { length arrivals.now ≡ length lasts.now }
    requires windows { HaveWindows arrivals.now lasts.now rounds.old.items }
    requires within { first < length arrivals.now }
    ensures { Exchanges arrivals.now lasts.now (ArePairInTurn arrivals.now lasts.now first) (first + 1) rounds.old.items rounds.new.items result (length arrivals.now) }
{
    let mut changed = false;
    for later in first + 1..arrivals.len() {
        if should_change(arrivals, lasts, rounds, first, later) {
            rounds.swap(first, later);
            changed = true;
        }
    }
    changed
}

// Whether a stay has a round past that of a later one, and each could have the other's.
fn should_change(
    arrivals: &[u32],
    lasts: &[u32],
    rounds: &[u32],
    first: usize,
    later: usize,
) -> bool
    requires long { length arrivals.now ≡ length rounds.now }
    requires lasts { length arrivals.now ≡ length lasts.now }
    requires first { first < length arrivals.now }
    requires later { later < length arrivals.now }
    ensures yes { result ≡ true → (slice_index rounds.now later < slice_index rounds.now first) × (slice_index arrivals.now first ≤ slice_index rounds.now later) × (slice_index rounds.now first ≤ slice_index lasts.now later) }
    ensures no { result ≡ false → ArePairInTurn arrivals.now lasts.now first rounds.now later }
{
    rounds[later] < rounds[first]
        && arrivals[first] <= rounds[later]
        && rounds[first] <= lasts[later]
}
