//! The tables of an explanation.

use std::alloc::{AllocError, Global};
use wait_causes::{Explanation, Grouping, Row};

/// What a table is of, in the order in which tables stand, each with a word for its rows and its key in JSON.
pub(crate) const GROUPINGS: [(Grouping, &str, &str); 4] = [
    (Grouping::Adapter, "adapters", "adapters"),
    (Grouping::Device, "devices", "devices"),
    (Grouping::Driver, "drivers", "drivers"),
    (Grouping::Level, "run levels", "levels"),
];

/// The rows of each table, in the order of `GROUPINGS`.
pub(crate) fn tables_of(
    alloc: Global,
    explanation: &Explanation,
) -> Result<Vec<Vec<Row>>, AllocError> {
    let mut tables = Vec::with_capacity(alloc, GROUPINGS.len())?;
    for (by, _, _) in &GROUPINGS {
        tables.push(explanation.table(alloc, *by)?)?;
    }
    Ok(tables)
}
