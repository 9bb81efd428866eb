//! The rows of tables.

use crate::as_json::members::{begin_list, put_member, put_members, put_path};
use crate::as_json::part::{put_costs, waits_of};
use crate::compared::Compared;
use crate::tables::GROUPINGS;
use serde::Serializer;
use std::alloc::Global;
use wait_causes::{Grouping, Row};

/// Writes the rows of each table as a member of the object that is open, in the order of `GROUPINGS`.
pub(crate) fn put_tables<S: Serializer>(
    out: &mut S,
    alloc: Global,
    input: Compared<'_>,
    tables: &[Vec<Row>],
) -> Result<(), S::Error> {
    for ((by, _, key), rows) in GROUPINGS.iter().zip(tables) {
        put_table(out, alloc, input, key, *by, rows)?;
    }
    Ok(())
}

fn put_table<S: Serializer>(
    out: &mut S,
    alloc: Global,
    input: Compared<'_>,
    key: &str,
    by: Grouping,
    rows: &[Row],
) -> Result<(), S::Error> {
    begin_list(out, key, rows.len())?;
    for row in rows {
        put_row(out, alloc, input, by, row)?;
    }
    out.end_seq()
}

/// Writes the row of a table by this: a device has its path too, and what has a name has that.
pub(crate) fn put_row<S: Serializer>(
    out: &mut S,
    alloc: Global,
    input: Compared<'_>,
    by: Grouping,
    row: &Row,
) -> Result<(), S::Error> {
    out.begin_map(None)?;
    put_names(out, alloc, input, by, row.number)?;
    put_member(out, "stays", &row.part.stays)?;
    put_members(out, &waits_of(&row.part))?;
    put_costs(out, input, &row.part)?;
    out.end_map()
}

// Writes members of the object that is open: the number of a row, its path, and its name.
fn put_names<S: Serializer>(
    out: &mut S,
    alloc: Global,
    input: Compared<'_>,
    by: Grouping,
    number: u32,
) -> Result<(), S::Error> {
    put_member(out, "number", &number)?;
    if by == Grouping::Device {
        put_path(out, alloc, input.net.config(), number)?;
    }
    match input.captions().name_by(by, number) {
        Some(name) => put_member(out, "name", &name),
        None => Ok(()),
    }
}
