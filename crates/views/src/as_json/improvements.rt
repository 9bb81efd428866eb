//! The object of a what-if table.

ghost use Rattle.std.specs.Prelude.{◌≡◌, string_bytes, IfOk};
ghost use Rattle.json.specs.Lex.{tokens};
ghost use Rattle.json.specs.Print.{print};

use crate::as_json::line::line;
use crate::as_json::members::{begin_list, put_member, put_members, put_object};
use crate::improvements::{WhatIfRow, WhatIfTable};
use serde::{Described, Serialize, Serializer};
use std::alloc::{AllocError, Global};
use wording::{LevelWaits, WaitRanks};

// A table with what was recorded.
#[derive(Clone, Copy)]
struct Table<'a> {
    table: WhatIfTable<'a>,
    live: u64,
}

impl Described for Table<'_> {}

impl Serialize for Table<'_> {
    fn serialize<S: Serializer>(&self, out: &mut S) -> Result<(), S::Error> {
        out.begin_map(None)?;
        put_member(out, "trace", &self.table.name)?;
        put_member(out, "live", &self.live)?;
        put_rows(out, self.table.rows)?;
        put_levels(out, self.table.waits)?;
        out.end_map()
    }
}

fn put_rows<S: Serializer>(out: &mut S, rows: &[WhatIfRow]) -> Result<(), S::Error> {
    begin_list(out, "rows", rows.len())?;
    for row in rows {
        put_row(out, row)?;
    }
    out.end_seq()
}

fn put_levels<S: Serializer>(out: &mut S, levels: &[LevelWaits]) -> Result<(), S::Error> {
    begin_list(out, "classes", levels.len())?;
    for level in levels {
        put_level(out, level)?;
    }
    out.end_seq()
}

// Writes the percentiles of the waits of a run level.
fn put_level<S: Serializer>(out: &mut S, level: &LevelWaits) -> Result<(), S::Error> {
    out.begin_map(None)?;
    put_member(out, "level", &level.level)?;
    put_ranks(out, "recorded", Some(level.recorded))?;
    put_ranks(out, "by_weight", level.by_weight)?;
    put_ranks(out, "best", Some(level.best))?;
    out.end_map()
}

// Writes percentiles, if there are some, as a member of the object that is open.
fn put_ranks<S: Serializer>(
    out: &mut S,
    key: &str,
    ranks: Option<WaitRanks>,
) -> Result<(), S::Error> {
    out.key(key)?;
    match ranks {
        Some(ranks) => put_object(
            out,
            &[("p50", ranks.p50), ("p99", ranks.p99), ("p999", ranks.p999)],
        ),
        None => out.unit(),
    }
}

// Writes a row: the words of its option, and its costs, of which those of orders may be none.
fn put_row<S: Serializer>(out: &mut S, row: &WhatIfRow) -> Result<(), S::Error> {
    let costs = row.costs;
    out.begin_map(Some(4))?;
    put_member(out, "change", &row.option)?;
    put_members(
        out,
        &[
            ("first_come", costs.first_come),
            ("by_weight", costs.by_weight),
            ("best", Some(costs.best)),
        ],
    )?;
    out.end_map()
}

/// A line without its line feed: the input's name, what was recorded, the rows with their changes and costs, and for each run level
/// the ranks of its waits in rounds, as recorded, by weight and in a best schedule.
pub fn what_if_json(alloc: Global, table: WhatIfTable<'_>) -> Result<String, AllocError>
    ensures { IfOk result (λ s. string_bytes s ≡ print (tokens (string_bytes s))) }
{
    let live = table.explanation.whole(alloc)?.live;
    line(alloc, &Table { table, live })
}
