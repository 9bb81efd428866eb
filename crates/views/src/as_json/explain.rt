//! The object of an explanation.

ghost use Rattle.std.specs.Prelude.{◌≡◌, string_bytes, IfOk};
ghost use Rattle.json.specs.Lex.{tokens};
ghost use Rattle.json.specs.Print.{print};

use crate::as_json::blame_table::put_blame;
use crate::as_json::counts::put_input;
use crate::as_json::freezes::put_freezes;
use crate::as_json::limits::put_limits;
use crate::as_json::line::line;
use crate::as_json::part::put_costs;
use crate::as_json::row::put_tables;
use crate::as_json::stays::put_stays;
use crate::capture_facts::{CaptureFacts, put_facts};
use crate::compared::Compared;
use crate::limited::Limited;
use crate::tables::tables_of;
use round_net::Net;
use serde::{Described, Serialize, Serializer};
use std::alloc::{AllocError, Global};
use wait_causes::{BlameRow, Explanation, Freeze, Grouping, Part, Row, blame_of};

// An input with what its stays waited: all, by the tables, and one by one, each with at most so many of its waits, if they are
// listed; and how its capture was read, if that is known.
#[derive(Drop)]
struct Explained<'a> {
    alloc: Global,
    input: Compared<'a>,
    whole: Part,
    tables: Vec<Vec<Row>>,
    freezes: Vec<Freeze>,
    limits: &'a [Limited<'a>],
    blame: Option<(Vec<BlameRow>, Vec<BlameRow>)>,
    max_waits: Option<usize>,
    facts: Option<&'a CaptureFacts>,
}

impl Described for Explained<'_> {}

impl Serialize for Explained<'_> {
    fn serialize<S: Serializer>(&self, out: &mut S) -> Result<(), S::Error> {
        out.begin_map(None)?;
        put_input(out, self.input)?;
        put_costs(out, self.input, &self.whole)?;
        put_tables(out, self.alloc, self.input, &self.tables)?;
        put_freezes(out, &self.freezes)?;
        put_limits(out, self.limits)?;
        if let Some((drivers, levels)) = &self.blame {
            put_blame(out, "blame", drivers)?;
            put_blame(out, "level_blame", levels)?;
        }
        if let Some(most) = self.max_waits {
            put_stays(out, self.alloc, self.input, most)?;
        }
        if let Some(facts) = self.facts {
            put_facts(out, facts)?;
        }
        out.end_map()
    }
}

/// A line without its line feed: the counts of the net, how many nanoseconds a round has where that is known, what its live
/// schedule and the other one cost in weighted rounds, the difference, and the live cost by cause and by what full rows sent; the
/// tables by adapter, device, driver and run level; the freezes; how the limits were kept, if there are some; who waited for whom, if
/// that is asked for; if they are asked for, all stays in creation order, each with
/// its first waits, at most so many, and what the others cost together; and how the capture was read, if that is known. Any text may
/// be the name.
pub fn explain_json(
    alloc: Global,
    trace: &str,
    net: &Net,
    explanation: &Explanation,
    limits: &[Limited<'_>],
    max_waits: Option<usize>,
    has_blame: bool,
    facts: Option<&CaptureFacts>,
) -> Result<String, AllocError>
    ensures { IfOk result (λ s. string_bytes s ≡ print (tokens (string_bytes s))) }
{
    let input = Compared {
        name: trace,
        net,
        explanation,
    };
    let blame = if has_blame {
        Some((
            blame_of(alloc, explanation, Grouping::Driver)?,
            blame_of(alloc, explanation, Grouping::Level)?,
        ))
    } else {
        None
    };
    let explained = Explained {
        alloc,
        input,
        whole: explanation.whole(alloc)?,
        tables: tables_of(alloc, explanation)?,
        freezes: explanation.freezes(alloc)?,
        limits,
        blame,
        max_waits,
        facts,
    };
    line(alloc, &explained)
}
