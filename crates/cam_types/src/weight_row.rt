//! What a round of waiting costs, by ranges of priorities.

ghost use Rattle.std.specs.Prelude.{◌≡◌, ℕ, ◌≤◌};
ghost use Rattle.cam_types.specs.Priority.{run_level, level_weight};
ghost use Rattle.cam_types.specs.Weights.{standard_weights, are_standard, weight_in};
ghost use Rattle.cam_types.specs.Topology.{MAX_PRIORITY};

/// A row of a table of weights: a range of priorities, and what a round of waiting costs there. The first row's range begins
/// at priority 0, and each next one's after that of the row before it.
#[derive(Clone, Copy, Debug, PartialEq, Eq)]
pub struct WeightRow {
    /// The last priority of the range, at most 1279.
    pub last: u32,
    /// What a round of waiting costs, 1 to 1,000.
    pub weight: u32,
}

/// The standard table, a rule of this project: 16, 8, 4, 2 and 1 for the run levels HOST, BUS, XPT, DEV and NORMAL.
pub fn standard_weights() -> [WeightRow; 5]
    ensures { result ≡ standard_weights }
{
    [
        WeightRow {
            last: 255,
            weight: 16,
        },
        WeightRow {
            last: 511,
            weight: 8,
        },
        WeightRow {
            last: 767,
            weight: 4,
        },
        WeightRow {
            last: 1023,
            weight: 2,
        },
        WeightRow {
            last: 1279,
            weight: 1,
        },
    ]
}

/// By the standard table, what a round of waiting costs goes by the run level alone.
pub fn standard_weights_go_by_run_level()
    ensures { (priority : ℕ) → priority ≤ MAX_PRIORITY → weight_in standard_weights priority ≡ level_weight (run_level priority) }
{}

/// The weight of the first row whose range isn't over before a priority, and 1 where there is none.
pub(crate) fn weight_in(rows: &[WeightRow], priority: u32) -> u32
    ensures { result ≡ weight_in rows.now priority }
{
    for row in rows {
        if priority <= row.last {
            return row.weight;
        }
    }
    1
}

/// Whether a table is the standard one, row by row.
pub(crate) fn are_standard(rows: &[WeightRow]) -> bool
    ensures { result ≡ are_standard rows.now }
{
    rows == standard_weights().as_slice()
}
