//! The object of a sweep.

ghost use Rattle.std.specs.Prelude.{◌≡◌, string_bytes, IfOk};
ghost use Rattle.json.specs.Lex.{tokens};
ghost use Rattle.json.specs.Print.{print};

use crate::as_json::line::line;
use crate::as_json::members::{begin_list, put_inner, put_member, put_path};
use crate::swept::Swept;
use cam_types::Config;
use serde::{Described, Serialize, Serializer};
use std::alloc::{AllocError, Global};
use sweep::{Change, Place, Row, Setting, Spread};

// What was run, and each setting with its row.
#[derive(Clone, Copy)]
struct Sweep<'a> {
    alloc: Global,
    swept: Swept<'a>,
}

impl Described for Sweep<'_> {}

impl Serialize for Sweep<'_> {
    fn serialize<S: Serializer>(&self, out: &mut S) -> Result<(), S::Error> {
        let (swept, settings) = (self.swept, self.swept.plan.settings());
        out.begin_map(Some(3))?;
        put_member(out, "script", &swept.name)?;
        put_member(out, "seeds", &swept.plan.seeds())?;
        begin_list(out, "settings", settings.len())?;
        for (setting, row) in settings.iter().zip(swept.rows) {
            put_setting(out, self.alloc, swept.config, setting, row)?;
        }
        out.end_seq()?;
        out.end_map()
    }
}

// Writes a setting with its row.
fn put_setting<S: Serializer>(
    out: &mut S,
    alloc: Global,
    config: &Config,
    setting: &Setting,
    row: &Row,
) -> Result<(), S::Error> {
    out.begin_map(None)?;
    put_openings(out, alloc, config, setting)?;
    put_figures(out, row)?;
    out.end_map()
}

// Writes the openings of a setting: each with its device, which has its path too, or its adapter.
fn put_openings<S: Serializer>(
    out: &mut S,
    alloc: Global,
    config: &Config,
    setting: &Setting,
) -> Result<(), S::Error> {
    begin_list(out, "openings", setting.changes.len())?;
    for change in &setting.changes {
        put_change(out, alloc, config, change)?;
    }
    out.end_seq()
}

fn put_change<S: Serializer>(
    out: &mut S,
    alloc: Global,
    config: &Config,
    change: &Change,
) -> Result<(), S::Error> {
    out.begin_map(None)?;
    put_place(out, alloc, config, change)?;
    put_member(out, "openings", &change.openings)?;
    out.end_map()
}

fn put_place<S: Serializer>(
    out: &mut S,
    alloc: Global,
    config: &Config,
    change: &Change,
) -> Result<(), S::Error> {
    match change.place {
        Place::Device(device) => {
            put_member(out, "device", &device)?;
            put_path(out, alloc, config, device)
        }
        Place::Adapter(adapter) => put_member(out, "adapter", &adapter),
    }
}

// Writes what the runs of a setting came to: the costs if all drained, and else how many didn't and what was left.
fn put_figures<S: Serializer>(out: &mut S, row: &Row) -> Result<(), S::Error> {
    match row {
        Row::Drained(figures) => {
            put_member(out, "drained", &true)?;
            put_spread(out, "live", &figures.live)?;
            put_spread(out, "best", &figures.best)?;
            put_spread(out, "excess", &figures.excess)?;
            put_spread(out, "p99", &figures.p99)
        }
        Row::Undrained { runs, left } => {
            put_member(out, "drained", &false)?;
            put_member(out, "undrained", runs)?;
            put_spread(out, "left", left)
        }
    }
}

fn put_spread<S: Serializer>(out: &mut S, key: &str, spread: &Spread) -> Result<(), S::Error> {
    put_inner(
        out,
        key,
        &[
            ("least", spread.least),
            ("median", spread.median),
            ("greatest", spread.greatest),
        ],
    )
}

/// A line without its line feed: the script's name, the number of seeds, and for each setting its openings and the least, the
/// median and the greatest of its runs' costs, or how many of them didn't drain and what these left.
pub fn sweep_json(alloc: Global, swept: Swept<'_>) -> Result<String, AllocError>
    ensures { IfOk result (λ s. string_bytes s ≡ print (tokens (string_bytes s))) }
{
    line(alloc, &Sweep { alloc, swept })
}
