//! Spans and times as `import` writes them.

use recording_file::{Span, TimeUnit};
use std::fmt;

/// A span as `--round` takes it: `1145us`.
#[derive(Clone, Copy)]
pub struct Typed(pub Span);

impl fmt::Display for Typed {
    fn fmt<W: fmt::Write>(&self, f: &mut fmt::Formatter<W>) -> fmt::Result {
        write!(f, "{}{}", self.0.count, unit_word(self.0.unit))
    }
}

/// Nanoseconds as seconds, which `--from-time` and `--to-time` take, down to milliseconds: `12.450`.
#[derive(Clone, Copy)]
pub struct Seconds(pub u128);

impl fmt::Display for Seconds {
    fn fmt<W: fmt::Write>(&self, f: &mut fmt::Formatter<W>) -> fmt::Result {
        let thousandths = self.0 / 1_000_000;
        write!(
            f,
            "{}.{}{}{}",
            thousandths / 1000,
            thousandths / 100 % 10,
            thousandths / 10 % 10,
            thousandths % 10
        )
    }
}

/// The word of a unit.
pub fn unit_word(unit: TimeUnit) -> &'static str {
    match unit {
        TimeUnit::Nanosecond => "ns",
        TimeUnit::Microsecond => "us",
        TimeUnit::Millisecond => "ms",
        TimeUnit::Second => "s",
    }
}
