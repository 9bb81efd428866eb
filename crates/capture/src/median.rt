//! What a device usually starts.

ghost use Rattle.std.specs.Prelude.{◌≡◌, ◌≤◌, ◌<◌, ◌^◌, ◌-◌, IfOk, filter, map, length, nat_lt, slice_index, count_by, nat_le};
ghost use Rattle.std.specs.List.{range_with_len};
ghost use Rattle.cam_types.specs.declared.limits.TheConstants.{MAX_OPENINGS};
ghost use Rattle.capture.specs.Usual.{middle, reaches_half};

use cam_types::MAX_OPENINGS;
use std::alloc::{AllocError, Global};

/// The numbers of the rounds, from 1 on, that aren't 0 in the other row.
pub fn numbers_where(alloc: Global, row: &[u32], tests: &[u32]) -> Result<Vec<u32>, AllocError>
    requires same { length row.now ≡ length tests.now }
    requires some { 1 ≤ length row.now }
    ensures { IfOk result (λ numbers. numbers.items ≡ map (slice_index row.now) (filter (λ round. nat_lt 0 (slice_index tests.now round)) (range_with_len 1 (length row.now - 1)))) }
{
    let mut numbers = Vec::new(alloc);
    for round in 1..row.len() {
        if tests[round] > 0 {
            numbers.push(row[round])?;
        }
    }
    Ok(numbers)
}

/// The least number from 1 to 255 that at least half of the numbers don't exceed, and 255 where there is none.
pub fn middle(numbers: &[u32]) -> u32
    requires { length numbers.now < 2 ^ 32 }
    ensures same { result ≡ middle numbers.now }
    ensures some { 1 ≤ result }
    ensures most { result ≤ MAX_OPENINGS }
{
    for number in 1..MAX_OPENINGS {
        if reaches_half(numbers, number) {
            return number;
        }
    }
    MAX_OPENINGS
}

// Whether at least half of the numbers are at most that one.
fn reaches_half(numbers: &[u32], most: u32) -> bool
    requires { length numbers.now < 2 ^ 32 }
    ensures { result ≡ reaches_half numbers.now most }
{
    numbers.len() <= 2 * count_most(numbers, most)
}

// How many of the numbers are at most that one.
fn count_most(numbers: &[u32], most: u32) -> usize
    ensures { result ≡ count_by (λ n. nat_le n most) numbers.now }
{
    numbers.iter().filter(|number| **number <= most).count()
}
