//! The object of a comparison.

ghost use Rattle.std.specs.Prelude.{◌≡◌, string_bytes, IfOk};
ghost use Rattle.json.specs.Lex.{tokens};
ghost use Rattle.json.specs.Print.{print};

use crate::as_json::counts::put_input;
use crate::as_json::line::line;
use crate::as_json::members::{Value, begin_list, put_inner, put_members, put_values};
use crate::as_json::part::{put_costs, put_shifts, waits_of};
use crate::as_json::row::put_row;
use crate::compared::Compared;
use crate::pair::Pair;
use crate::pairing::Pairing;
use crate::tables::GROUPINGS;
use serde::{Described, Serialize, Serializer};
use std::alloc::{AllocError, Global};
use wait_causes::{Differences, Grouping, PairBy, PairedRow, Part, Row};

// Two inputs, what the stays of each waited, and the rows of their tables in pairs.
#[derive(Drop)]
struct Comparison<'a> {
    alloc: Global,
    pair: Pair<'a>,
    was: Part,
    is: Part,
    tables: Vec<Vec<PairedRow>>,
}

impl Described for Comparison<'_> {}

impl Serialize for Comparison<'_> {
    fn serialize<S: Serializer>(&self, out: &mut S) -> Result<(), S::Error> {
        let pair = &self.pair;
        out.begin_map(None)?;
        put_sides(out, pair, &self.was, &self.is)?;
        put_differ(out, &pair.differences())?;
        put_pairings(out, pair)?;
        for ((by, _, key), rows) in GROUPINGS.iter().zip(&self.tables) {
            put_table(out, self.alloc, pair, key, *by, rows)?;
        }
        out.end_map()
    }
}

// Writes what is counted of each input and what all its stays waited, and the difference, as members of the object that is open.
fn put_sides<S: Serializer>(
    out: &mut S,
    pair: &Pair<'_>,
    was: &Part,
    is: &Part,
) -> Result<(), S::Error> {
    put_side(out, "before", pair.before, was)?;
    put_side(out, "after", pair.after, is)?;
    put_shifts(out, was, is)
}

// Writes what is counted of an input and what all its stays waited, as a member of the object that is open.
fn put_side<S: Serializer>(
    out: &mut S,
    key: &str,
    input: Compared<'_>,
    whole: &Part,
) -> Result<(), S::Error> {
    out.key(key)?;
    out.begin_map(None)?;
    put_input(out, input)?;
    put_members(out, &waits_of(whole))?;
    put_costs(out, input, whole)?;
    out.end_map()
}

// Writes in what the inputs differ beside their requests, as a member of the object that is open.
fn put_differ<S: Serializer>(out: &mut S, differences: &Differences) -> Result<(), S::Error> {
    put_inner(
        out,
        "differ",
        &[
            ("weights", differences.weights),
            ("links", differences.links),
            ("adapters", differences.adapters),
            ("devices", differences.devices),
            ("round", differences.round),
        ],
    )
}

// Writes how the rows of devices and of drivers are paired, as a member of the object that is open.
fn put_pairings<S: Serializer>(out: &mut S, pair: &Pair<'_>) -> Result<(), S::Error> {
    out.key("pairing")?;
    out.begin_map(Some(2))?;
    put_pairing(out, "devices", pair.pairing(Grouping::Device))?;
    put_pairing(out, "drivers", pair.pairing(Grouping::Driver))?;
    out.end_map()
}

fn put_pairing<S: Serializer>(out: &mut S, key: &str, pairing: Pairing) -> Result<(), S::Error> {
    let unnamed = match pairing.unnamed {
        Some(input) => Value::Text(input),
        None => Value::Absent,
    };
    out.key(key)?;
    out.begin_map(None)?;
    put_values(
        out,
        &[
            ("by", Value::Text(pairing.by)),
            ("unnamed", unnamed),
            ("namesakes", Value::Truth(pairing.namesakes)),
        ],
    )?;
    out.end_map()
}

// Writes the pairs of rows of a table by this as a member of the object that is open.
fn put_table<S: Serializer>(
    out: &mut S,
    alloc: Global,
    pair: &Pair<'_>,
    key: &str,
    by: Grouping,
    rows: &[PairedRow],
) -> Result<(), S::Error> {
    begin_list(out, key, rows.len())?;
    for row in rows {
        put_pair(out, alloc, pair, by, row)?;
    }
    out.end_seq()
}

// Writes a pair of rows of a table by this.
fn put_pair<S: Serializer>(
    out: &mut S,
    alloc: Global,
    pair: &Pair<'_>,
    by: Grouping,
    row: &PairedRow,
) -> Result<(), S::Error> {
    out.begin_map(None)?;
    put_row_of(out, alloc, "before", pair.before, by, &row.before)?;
    put_row_of(out, alloc, "after", pair.after, by, &row.after)?;
    if let (Some(before), Some(after)) = (&row.before, &row.after) {
        put_shifts(out, &before.part, &after.part)?;
    }
    out.end_map()
}

// Writes a row of an input, if there is one, as a member of the object that is open.
fn put_row_of<S: Serializer>(
    out: &mut S,
    alloc: Global,
    key: &str,
    input: Compared<'_>,
    by: Grouping,
    row: &Option<Row>,
) -> Result<(), S::Error> {
    out.key(key)?;
    match row {
        Some(row) => put_row(out, alloc, input, by, row),
        None => out.unit(),
    }
}

/// A line without its line feed: of each input its counts, how many nanoseconds a round has where that is known, and what its
/// stays waited and what that cost; the differences, in what the inputs differ beside their requests, and how devices and
/// drivers are paired; and the same by adapter, device, driver and run level, whose rows are paired so.
pub fn compare_json(
    alloc: Global,
    asked: PairBy,
    before: Compared<'_>,
    after: Compared<'_>,
) -> Result<String, AllocError>
    ensures { IfOk result (λ s. string_bytes s ≡ print (tokens (string_bytes s))) }
{
    let pair = Pair {
        asked,
        before,
        after,
    };
    let comparison = Comparison {
        alloc,
        pair,
        was: before.explanation.whole(alloc)?,
        is: after.explanation.whole(alloc)?,
        tables: pair.tables(alloc)?,
    };
    line(alloc, &comparison)
}
