//! Nearest ranks of numbers.

ghost use Rattle.std.specs.Prelude.{◌≡◌, ◌≤◌, length, count_by, nat_le};
ghost use Rattle.std.specs.List.Sorted.{IsNonDecreasing};
ghost use Rattle.wait_causes.specs.Words.{MAX_NET_STAYS};
ghost use Rattle.wait_causes.specs.Ranks.{rank_below};

/// The least number below `most` that is enough: at least `thousandths` in a thousand of these ascending numbers are no more
/// than it. 0 if there is none.
pub(crate) fn nearest_rank(numbers: &[u32], most: u32, thousandths: usize) -> u32
    requires ascending { IsNonDecreasing numbers.now }
    requires few { length numbers.now ≤ MAX_NET_STAYS }
    requires thousandths { thousandths ≤ 1000 }
    ensures { result ≡ rank_below most thousandths numbers.now }
{
    // No number below `low` is enough, and `high` is, unless it is beyond all.
    let mut low = 0;
    let mut high = most;
    while low < high {
        let middle = low + (high - low) / 2;
        if thousandths * numbers.len() <= 1000 * within(numbers, middle) {
            high = middle;
        } else {
            low = middle + 1;
        }
    }
    if low < most { low } else { 0 }
}

// How many of these ascending numbers are no more than this.
fn within(numbers: &[u32], most: u32) -> usize
    requires { IsNonDecreasing numbers.now }
    ensures same { result ≡ count_by (λ number. nat_le number most) numbers.now }
    ensures few { result ≤ length numbers.now }
{
    numbers.partition_point(
        |number: &u32| -> bool
            ensures { result ≡ nat_le number.now most }
        { *number <= most },
    )
}
