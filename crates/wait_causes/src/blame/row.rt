//! A row of a table of blame.

ghost use Rattle.std.specs.Prelude.{◌≡◌};
ghost use Rattle.wait_causes.specs.BlameRows.{row_key};

/// How long the stays of one number waited for those of another. A number is that of a driver or of a run level.
#[derive(Clone, Copy)]
pub struct BlameRow {
    /// The number of those that waited.
    pub waiting: u32,
    /// The number of those in the way; none if that was nobody.
    pub by: Option<u32>,
    /// The rounds that they waited so.
    pub waited: u64,
    /// Those of these rounds in which the best schedule at the recorded pace, or of a trace the best one, had sent the stay.
    pub avoidable: u64,
    /// The weighted rounds of `waited`.
    pub cost: u64,
}

// What decides where a row stands: its cost, the greatest first, who waited, and who was in the way, nobody last.
pub(crate) fn row_key(row: &BlameRow) -> [u64; 3]
    ensures { result ≡ row_key row.now }
{
    let by = match row.by {
        Some(by) => u64::from(by),
        None => 4_294_967_296,
    };
    [u64::MAX - row.cost, u64::from(row.waiting), by]
}
