//! The first free slot from one on, by links over taken slots that are shortened as they are followed (union and find).

ghost use Rattle.std.specs.Prelude.{◌≡◌, ℕ, ◌<◌, ◌≤◌, length};
ghost use Rattle.cost_plan.specs.Slots.{IsFree, AreGiven, Skips};

/// The first free slot from this one on, if those of the stays before a turn are given. `next` has a slot after each one:
/// slots that are passed get later ones.
pub fn free_slot(holders: &[usize], turn: usize, next: &mut Vec<usize>, from: usize) -> usize
    requires some { (free : ℕ) × (from ≤ free) × IsFree holders.now turn free }
    requires skips { Skips holders.now turn next.old.items }
    ensures skips { Skips holders.now turn next.new.items }
    ensures free { IsFree holders.now turn result }
    ensures later { from ≤ result }
    ensures first { AreGiven holders.now turn from result }
{
    let mut slot = from;
    while holders[slot] < turn {
        let after = next[slot];
        if holders[after] < turn {
            next[slot] = next[after];
        }
        slot = after;
    }
    slot
}
