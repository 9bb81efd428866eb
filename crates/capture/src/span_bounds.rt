//! Spans near a number of nanoseconds.

ghost use Rattle.std.specs.Prelude.{◌≡◌, ◌<◌, ◌≤◌, ◌+◌, ◌*◌, ◌^◌, IfSome, IfNone, min};
ghost use Rattle.capture.specs.Rounds.{Span, span_nanoseconds};
ghost use Rattle.capture.specs.Spans.{MAX_COUNT, most_in, most_within, span_within, count_from, span_up_in, span_from, longest_span, unit_for, short_within, short_from};

use crate::span_time::{span_of, unit_nanoseconds};
use recording_file::{Span, TimeUnit};

/// The longest span of at most that many nanoseconds, in the coarsest unit that has it. None for 0.
pub fn span_within(nanoseconds: u64) -> Option<Span>
    ensures same { result ≡ span_within nanoseconds }
    ensures within { IfSome result (λ s. span_nanoseconds s ≤ nanoseconds) }
    ensures longest { IfSome result (λ s. (t : Span) → t.count ≤ MAX_COUNT → span_nanoseconds t ≤ nanoseconds → span_nanoseconds t ≤ span_nanoseconds s) }
    ensures some { IfSome result (λ s. 1 ≤ s.count) }
    ensures none { IfNone result (nanoseconds ≡ 0) }
{
    span_of(most_within(nanoseconds))
}

// The most nanoseconds, up to so many, that a span has.
#[tactic(auto, unfolding(crate::specs::Spans::most_within))]
fn most_within(nanoseconds: u64) -> u64
    ensures { result ≡ most_within nanoseconds }
{
    let fine = most_in(nanoseconds, TimeUnit::Nanosecond).max(most_in(
        nanoseconds,
        TimeUnit::Microsecond,
    ));
    let coarse = most_in(nanoseconds, TimeUnit::Millisecond).max(most_in(
        nanoseconds,
        TimeUnit::Second,
    ));
    fine.max(coarse)
}

// The most of them that whole numbers of a unit make.
fn most_in(nanoseconds: u64, unit: TimeUnit) -> u64
    ensures { result ≡ most_in nanoseconds unit }
{
    let size = unit_nanoseconds(unit);
    (nanoseconds / size).min(u64::from(u32::MAX)) * size
}

/// A span of at least that many nanoseconds, by the finest unit that has one; 4,294,967,295 seconds if there is none.
pub fn span_from(nanoseconds: u64) -> Span
    requires { 1 ≤ nanoseconds }
    ensures same { result ≡ span_from nanoseconds }
    ensures from { min nanoseconds (span_nanoseconds longest_span) ≤ span_nanoseconds result }
    ensures some { 1 ≤ result.count }
{
    span_up_in(nanoseconds, TimeUnit::Nanosecond)
        .or(span_up_in(nanoseconds, TimeUnit::Microsecond))
        .or(span_up_in(nanoseconds, TimeUnit::Millisecond))
        .or(span_up_in(nanoseconds, TimeUnit::Second))
        .unwrap_or(Span {
            count: u32::MAX,
            unit: TimeUnit::Second,
        })
}

// A whole number of a unit that is at least so many nanoseconds, if a count says it.
#[tactic(auto, unfolding(crate::specs::Spans::span_up_in))]
fn span_up_in(nanoseconds: u64, unit: TimeUnit) -> Option<Span>
    requires { 1 ≤ nanoseconds }
    ensures same { result ≡ span_up_in nanoseconds unit }
    ensures from { IfSome result (λ s. nanoseconds ≤ span_nanoseconds s) }
    ensures some { IfSome result (λ s. 1 ≤ s.count) }
{
    let count = count_from(nanoseconds, unit);
    if count <= u64::from(u32::MAX) {
        span_of(count * unit_nanoseconds(unit))
    } else {
        None
    }
}

// How many of a unit are at least so many nanoseconds.
fn count_from(nanoseconds: u64, unit: TimeUnit) -> u64
    ensures { result ≡ count_from nanoseconds unit }
{
    let size = u128::from(unit_nanoseconds(unit));
    ((u128::from(nanoseconds) + size - 1) / size) as u64
}

/// A span of at most that many nanoseconds, and less than a hundredth shorter, of few digits where it is long: 1,145 microseconds
/// for 1,145,338 nanoseconds. None for 0, and for more than 4,294,967,295 seconds.
pub fn short_within(nanoseconds: u64) -> Option<Span>
    ensures same { result ≡ short_within nanoseconds }
    ensures within { IfSome result (λ s. span_nanoseconds s ≤ nanoseconds) }
    ensures near { IfSome result (λ s. 100 * nanoseconds < 101 * span_nanoseconds s) }
{
    let size = unit_nanoseconds(unit_for(nanoseconds));
    span_of(nanoseconds / size * size)
}

/// The same of at least that many, and less than a hundredth longer: 1,146 microseconds for 1,145,338 nanoseconds. None also where
/// the next such number is 2^64 or more.
pub fn short_from(nanoseconds: u64) -> Option<Span>
    requires { nanoseconds < 2 ^ 63 }
    ensures same { result ≡ short_from nanoseconds }
    ensures from { IfSome result (λ s. nanoseconds ≤ span_nanoseconds s) }
    ensures near { IfSome result (λ s. 100 * span_nanoseconds s < 101 * nanoseconds) }
{
    let unit = unit_for(nanoseconds);
    span_of(count_from(nanoseconds, unit) * unit_nanoseconds(unit))
}

// The coarsest unit of which so many nanoseconds are at least a hundred.
fn unit_for(nanoseconds: u64) -> TimeUnit
    ensures { result ≡ unit_for nanoseconds }
{
    if nanoseconds >= 100_000_000_000 {
        TimeUnit::Second
    } else if nanoseconds >= 100_000_000 {
        TimeUnit::Millisecond
    } else if nanoseconds >= 100_000 {
        TimeUnit::Microsecond
    } else {
        TimeUnit::Nanosecond
    }
}
