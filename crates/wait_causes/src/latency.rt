//! How long requests took, from their arrival to their completion.

ghost use Rattle.std.specs.Prelude.{◌≡◌, ◌≤◌, ℕ, length, IfOk};
ghost use Rattle.std.specs.List.Sorted.{IsNonDecreasing};
ghost use Rattle.wait_causes.specs.Words.{MAX_NET_STAYS};
ghost use Rattle.wait_causes.specs.Latencies.{latencies, latency_of};
ghost use Rattle.wait_causes.specs.Ranks.{rank_below};

use crate::explained_stay::ExplainedStay;
use crate::ranks::nearest_rank;
use std::alloc::{AllocError, Global};

/// Every latency is below this: no request arrives before round 1, and none is completed after this round.
pub const MAX_LATENCY: u32 = 4_294_967_295;

/// How long some stays took, in rounds from the one of the arrival to that of the completion.
#[derive(Clone, Copy)]
pub struct Latency {
    /// How many of them have a completion. The other numbers are of these alone.
    pub stays: u32,
    /// By nearest rank, the least number that 50 in a hundred didn't pass; 0 of no stays.
    pub p50: u32,
    /// The least number that 90 in a hundred didn't pass.
    pub p90: u32,
    /// The least number that 99 in a hundred didn't pass.
    pub p99: u32,
    /// The least number that 999 in a thousand didn't pass.
    pub p999: u32,
    /// The least number that none of them passed.
    pub max: u32,
}

/// How long these stays took.
#[tactic(auto, unfolding(crate::specs::Latencies::latency_of))]
pub(crate) fn latency_of(alloc: Global, stays: &[ExplainedStay]) -> Result<Latency, AllocError>
    requires few { length stays.now ≤ MAX_NET_STAYS }
    ensures { IfOk result (λ latency. latency ≡ latency_of stays.now) }
{
    let latencies = latencies_of(alloc, stays)?;
    Ok(Latency {
        stays: latencies.len() as u32,
        p50: nearest_rank(&latencies, MAX_LATENCY, 500),
        p90: nearest_rank(&latencies, MAX_LATENCY, 900),
        p99: nearest_rank(&latencies, MAX_LATENCY, 990),
        p999: nearest_rank(&latencies, MAX_LATENCY, 999),
        max: nearest_rank(&latencies, MAX_LATENCY, 1000),
    })
}

/// The latencies of these stays, of those that have one, in ascending order.
pub(crate) fn latencies_of(alloc: Global, stays: &[ExplainedStay]) -> Result<Vec<u32>, AllocError>
    requires few { length stays.now ≤ MAX_NET_STAYS }
    ensures count { IfOk result (λ numbers. length numbers.items ≡ length (latencies stays.now)) }
    ensures few { IfOk result (λ numbers. length numbers.items ≤ MAX_NET_STAYS) }
    ensures ascending { IfOk result (λ numbers. IsNonDecreasing numbers.items) }
    ensures ranks { IfOk result (λ numbers. (most thousandths : ℕ) → rank_below most thousandths numbers.items ≡ rank_below most thousandths (latencies stays.now)) }
{
    let mut numbers = unsorted_latencies(alloc, stays)?;
    numbers.sort_unstable();
    Ok(numbers)
}

// The latencies of these stays, in their order.
fn unsorted_latencies(alloc: Global, stays: &[ExplainedStay]) -> Result<Vec<u32>, AllocError>
    ensures { IfOk result (λ numbers. numbers.items ≡ latencies stays.now) }
{
    stays
        .iter()
        .filter_map(|stay| stay.latency())
        .collect(alloc)
}
