//! Times in their order, and how many of them are up to a time.

ghost use Rattle.std.specs.Prelude.{◌≡◌, ◌≤◌};
ghost use Rattle.std.specs.List.Sorted.{IsPermutation, IsNonDecreasing};
ghost use Rattle.slots.specs.Bounds.{up_to};

/// The times in their order.
pub fn sorted(mut times: Vec<u64>) -> Vec<u64>
    ensures moved { IsPermutation times.items result.items }
    ensures sorted { IsNonDecreasing result.items }
{
    times.sort_unstable();
    times
}

/// How many of the times, which are in their order, are up to one.
pub fn count_up_to(times: &[u64], last: u64) -> usize
    requires { IsNonDecreasing times.now }
    ensures { result ≡ up_to times.now last }
{
    times.partition_point(|time| *time <= last)
}

/// The same, if at least the given number of them are.
pub fn count_from(times: &[u64], least: usize, last: u64) -> usize
    requires order { IsNonDecreasing times.now }
    requires least { least ≤ up_to times.now last }
    ensures { result ≡ up_to times.now last }
{
    let mut count = least;
    while count < times.len() && times[count] <= last {
        count += 1;
    }
    count
}
