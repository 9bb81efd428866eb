//! A line of JSON for each window.

use crate::as_json::line::line as line_of;
use crate::as_json::members::{Value, put_members, put_values};
use crate::watched::costs::Costs;
use crate::watched::sums::{LEVELS, Sums};
use crate::watched::window::Window;
use recording_file::NameKind;
use serde::{Described, Serialize, Serializer};
use std::alloc::{AllocError, Global};
use std::collections::BTreeMap;
use wording::nanoseconds;

// A window and its sums, with those of each device and driver.
#[derive(Drop)]
struct Line<'a> {
    window: Window<'a>,
    sums: &'a Sums,
    devices: BTreeMap<String, Costs>,
    drivers: BTreeMap<String, Costs>,
    ranks: Vec<[u32; 3]>,
}

impl Described for Line<'_> {}

impl Serialize for Line<'_> {
    fn serialize<S: Serializer>(&self, out: &mut S) -> Result<(), S::Error> {
        let window = self.window;
        let number = if window.is_all { "windows" } else { "window" };
        out.begin_map(None)?;
        put_members(out, &[(number, window.number)])?;
        if let Some(host) = window.host {
            put_values(out, &[("host", Value::Text(host))])?;
        }
        put_members(
            out,
            &[
                ("from_ns", window.from),
                ("to_ns", window.until),
                ("round_ns", nanoseconds(window.round)),
                ("rounds", window.rounds),
                ("refused_lines", window.refused),
                ("carried", window.carried),
            ],
        )?;
        put_members(out, &self.sums.whole().named())?;
        put_by_name(out, "devices", &self.devices)?;
        put_by_name(out, "drivers", &self.drivers)?;
        self.put_levels(out)?;
        self.put_blame(out)?;
        out.end_map()
    }
}

impl Line<'_> {
    // The costs of each run level that has requests, and what 50 and 99 of a hundred and 999 of a thousand of its waits don't pass.
    fn put_levels<S: Serializer>(&self, out: &mut S) -> Result<(), S::Error> {
        out.key("levels")?;
        out.begin_seq(None)?;
        for level in 0..LEVELS {
            let costs = self.sums.of_level(level);
            if costs.requests > 0
                && let Some([p50, p99, p999]) = self.ranks.get(level as usize)
            {
                out.begin_map(None)?;
                put_members(out, &[("level", u64::from(level))])?;
                put_members(out, &costs.named())?;
                let (p50, p99, p999) = (u64::from(*p50), u64::from(*p99), u64::from(*p999));
                put_members(out, &[("p50", p50), ("p99", p99), ("p999", p999)])?;
                out.end_map()?;
            }
        }
        out.end_seq()
    }

    fn put_blame<S: Serializer>(&self, out: &mut S) -> Result<(), S::Error> {
        out.key("blame")?;
        out.begin_seq(None)?;
        for (pair, blame) in self.sums.pairs() {
            out.begin_map(None)?;
            put_values(out, &[("waiting", Value::Text(&pair.waiting))])?;
            out.key("by")?;
            match &pair.by {
                Some(by) => out.str(by)?,
                None => out.unit()?,
            }
            put_members(
                out,
                &[
                    ("waited", blame.waited),
                    ("avoidable", blame.avoidable),
                    ("cost", blame.cost),
                ],
            )?;
            out.end_map()?;
        }
        out.end_seq()
    }
}

// Writes a list of what each name cost as a member of the object that is open.
fn put_by_name<S: Serializer>(
    out: &mut S,
    key: &str,
    list: &BTreeMap<String, Costs>,
) -> Result<(), S::Error> {
    out.key(key)?;
    out.begin_seq(None)?;
    for (name, costs) in list {
        out.begin_map(None)?;
        put_values(out, &[("name", Value::Text(name))])?;
        put_members(out, &costs.named())?;
        out.end_map()?;
    }
    out.end_seq()
}

/// A line without its line feed: the number of the window, or how many there are; the host; from when to when it is; how long a round is,
/// and how many there are; what was left out; what its requests waited before it, in weighted rounds; and what they waited in it: all, by
/// device, by driver, by run level with ranks of the waits in rounds, and who waited for whom.
pub fn window_json(alloc: Global, window: Window<'_>, sums: &Sums) -> Result<String, AllocError> {
    let mut ranks = Vec::new(alloc);
    for level in 0..LEVELS {
        let of = Some(level);
        ranks.push([sums.rank(of, 500), sums.rank(of, 990), sums.rank(of, 999)])?;
    }
    let line = Line {
        window,
        sums,
        devices: sums.by_name(NameKind::Device)?,
        drivers: sums.by_name(NameKind::Driver)?,
        ranks,
    };
    line_of(alloc, &line)
}
