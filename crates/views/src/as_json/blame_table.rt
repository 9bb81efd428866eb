//! Who was in the way, by drivers or by run levels.

use crate::as_json::members::{begin_list, put_members};
use serde::Serializer;
use wait_causes::BlameRow;

/// Writes a table of blame as a member of the object that is open.
pub(crate) fn put_blame<S: Serializer>(
    out: &mut S,
    key: &str,
    rows: &[BlameRow],
) -> Result<(), S::Error> {
    begin_list(out, key, rows.len())?;
    for row in rows {
        put_row(out, row)?;
    }
    out.end_seq()
}

// Writes who waited, for whom, how long, and what that cost.
fn put_row<S: Serializer>(out: &mut S, row: &BlameRow) -> Result<(), S::Error> {
    out.begin_map(Some(5))?;
    put_members(out, &[("waiting", Some(row.waiting)), ("by", row.by)])?;
    put_members(
        out,
        &[
            ("waited", row.waited),
            ("avoidable", row.avoidable),
            ("cost", row.cost),
        ],
    )?;
    out.end_map()
}
