//! The least, the median and the greatest of some numbers.

ghost use Rattle.std.specs.Prelude.{◌<◌, length};
ghost use Rattle.sweep.specs.Rows.{IsSpread};

use crate::row::Spread;

/// The spread of these numbers.
pub(crate) fn spread_of(numbers: Vec<u64>) -> Spread
    requires { 0 < length numbers.items }
    ensures { IsSpread numbers.items result }
{
    let mut sorted = numbers;
    sorted.sort_unstable();
    let count = sorted.len();
    Spread {
        least: sorted[0],
        median: sorted[(count + 1) / 2 - 1],
        greatest: sorted[count - 1],
    }
}
