//! Spans in nanoseconds.

ghost use Rattle.std.specs.Prelude.{◌≡◌, ◌≢◌, ◌≤◌, IfSome, IfNone};
ghost use Rattle.capture.specs.Rounds.{Span, span_nanoseconds, unit_nanoseconds, span_in, span_of};

use recording_file::{Span, TimeUnit};

/// How many nanoseconds a span has: at most 4,294,967,295 seconds of them.
pub fn span_nanoseconds(span: Span) -> u64
    ensures same { result ≡ span_nanoseconds span }
    ensures some { 1 ≤ span.count → 1 ≤ result }
{
    u64::from(span.count) * unit_nanoseconds(span.unit)
}

/// The span of that many nanoseconds, in the coarsest unit in which it is a whole number from 1 to 4,294,967,295. None if there
/// is no such unit: for 0, for more than 4,294,967,295 seconds, and for what is too many of each unit in which it is whole.
pub fn span_of(nanoseconds: u64) -> Option<Span>
    ensures span { result ≡ span_of nanoseconds }
    ensures same { IfSome result (λ s. span_nanoseconds s ≡ nanoseconds) }
    ensures some { IfSome result (λ s. 1 ≤ s.count) }
    ensures none { IfNone result ((s : Span) → 1 ≤ s.count → s.count ≤ 4294967295 → span_nanoseconds s ≢ nanoseconds) }
{
    span_in(nanoseconds, TimeUnit::Second)
        .or(span_in(nanoseconds, TimeUnit::Millisecond))
        .or(span_in(nanoseconds, TimeUnit::Microsecond))
        .or(span_in(nanoseconds, TimeUnit::Nanosecond))
}

// That many nanoseconds in a unit, if it is a whole number of them that a count says.
#[tactic(auto, unfolding(crate::specs::Rounds::span_in))]
fn span_in(nanoseconds: u64, unit: TimeUnit) -> Option<Span>
    ensures span { result ≡ span_in nanoseconds unit }
    ensures same { IfSome result (λ s. span_nanoseconds s ≡ nanoseconds) }
    ensures some { IfSome result (λ s. 1 ≤ s.count) }
{
    let size = unit_nanoseconds(unit);
    let count = nanoseconds / size;
    if count * size == nanoseconds && 0 < count && count <= u64::from(u32::MAX) {
        Some(Span {
            count: count as u32,
            unit,
        })
    } else {
        None
    }
}

/// How many nanoseconds a unit has.
pub fn unit_nanoseconds(unit: TimeUnit) -> u64
    ensures same { result ≡ unit_nanoseconds unit }
    ensures some { 1 ≤ result }
    ensures most { result ≤ 1000000000 }
{
    match unit {
        TimeUnit::Nanosecond => 1,
        TimeUnit::Microsecond => 1_000,
        TimeUnit::Millisecond => 1_000_000,
        TimeUnit::Second => 1_000_000_000,
    }
}
