//! How large the numbers and the text of a report may be.

ghost use Rattle.std.specs.Prelude.{◌≡◌, ◌≤◌};
ghost use Rattle.report_text.specs.Words.{instance_of_rows};
ghost use Rattle.report_text.specs.Limits.{max_number, max_bytes};

use cam_types::MAX_BYTES;
use round_net::{MAX_PRICE, Net};

/// The largest cost that a report may state: 18 digits.
pub(crate) const MAX_STATED: u64 = 999_999_999_999_999_999;

/// The most that a stay's line may say in the report of a history.
const MAX_HISTORY_NUMBER: u64 = 65_535;

/// The most that it may say in that of a recording.
const MAX_RECORDING_NUMBER: u64 = 1_048_576;

/// How many bytes the report of a recording may have. That of a history may have `MAX_BYTES`.
pub(crate) const MAX_REPORT_BYTES: usize = 268_435_456;

/// The most that a stay's line may say. A net whose largest price is above that of a history is a recording's.
pub(crate) fn max_number(net: &Net) -> u64
    ensures same { result ≡ max_number (instance_of_rows net.now) }
    ensures few { result ≤ 1048576 }
{
    if net.max_price() <= MAX_PRICE {
        MAX_HISTORY_NUMBER
    } else {
        MAX_RECORDING_NUMBER
    }
}

/// How many bytes a report on the net may have: the net is a history's or a recording's, as `max_number` tells them apart.
pub(crate) fn max_bytes(net: &Net) -> usize
    ensures same { result ≡ max_bytes (instance_of_rows net.now) }
    ensures few { result ≤ MAX_REPORT_BYTES }
{
    if net.max_price() <= MAX_PRICE {
        MAX_BYTES
    } else {
        MAX_REPORT_BYTES
    }
}
