//! The object of an audit.

ghost use Rattle.std.specs.Prelude.{◌≡◌, length, string_bytes, IfOk};
ghost use Rattle.json.specs.Lex.{tokens};
ghost use Rattle.json.specs.Print.{print};
ghost use Rattle.round_net.specs.Rows.{instance_of_rows};
ghost use Rattle.round_net.specs.PriceRows.{IsPricingFor};

use crate::as_json::counts::put_counts;
use crate::as_json::line::line;
use crate::as_json::members::{put_member, put_object};
use crate::as_json::prices::{Price, price_list};
use round_net::{Net, Prices, Schedule, cost, live_cost};
use serde::{Described, Serialize, Serializer};
use std::alloc::{AllocError, Global};
use wording::shift;

// A net, what its schedules cost, and all their stays and the prices, if they are listed.
#[derive(Drop)]
struct Audited<'a> {
    trace: &'a str,
    net: &'a Net,
    live: u64,
    best: Option<u64>,
    excess: Option<i128>,
    lists: Option<(Vec<Scheduled>, Vec<Price>)>,
}

impl Described for Audited<'_> {}

impl Serialize for Audited<'_> {
    fn serialize<S: Serializer>(&self, out: &mut S) -> Result<(), S::Error> {
        out.begin_map(None)?;
        put_counts(out, self.trace, self.net, None)?;
        put_member(out, "live", &self.live)?;
        put_member(out, "best", &self.best)?;
        put_member(out, "excess", &self.excess)?;
        if let Some((schedule, prices)) = &self.lists {
            put_member(out, "schedule", schedule)?;
            put_member(out, "prices", prices)?;
        }
        out.end_map()
    }
}

// A stay of the two schedules.
#[derive(Drop)]
struct Scheduled {
    ccb: u32,
    attempt: u32,
    arrival: u32,
    live: u32,
    best: u32,
    weight: u32,
}

impl Described for Scheduled {}

impl Serialize for Scheduled {
    fn serialize<S: Serializer>(&self, out: &mut S) -> Result<(), S::Error> {
        put_object(
            out,
            &[
                ("ccb", self.ccb),
                ("try", self.attempt),
                ("arrival", self.arrival),
                ("live", self.live),
                ("best", self.best),
                ("weight", self.weight),
            ],
        )
    }
}

/// A line without its line feed: the counts of the net, what its live schedule and this one cost in weighted rounds, and
/// the difference; and unless a summary is asked for, all stays in creation order and the prices that aren't 0. Any text may
/// be the name.
pub fn audit_json(
    alloc: Global,
    trace: &str,
    net: &Net,
    schedule: &Schedule,
    prices: &Prices,
    summary: bool,
) -> Result<String, AllocError>
    requires stays { length schedule.now ≡ (instance_of_rows net.now).stays }
    requires cells { IsPricingFor (instance_of_rows net.now) prices.now }
    ensures { IfOk result (λ s. string_bytes s ≡ print (tokens (string_bytes s))) }
{
    let lists = if summary {
        None
    } else {
        Some((
            stay_list(alloc, net, schedule)?,
            price_list(alloc, net, prices)?,
        ))
    };
    let (live, best) = (live_cost(net), cost(net, schedule));
    let audited = Audited {
        trace,
        net,
        live,
        best,
        excess: best.map(|best| shift(best, live)),
        lists,
    };
    line(alloc, &audited)
}

// The stays of the net, in creation order.
fn stay_list(alloc: Global, net: &Net, schedule: &Schedule) -> Result<Vec<Scheduled>, AllocError>
    requires { length schedule.now ≡ (instance_of_rows net.now).stays }
{
    let mut list = Vec::with_capacity(alloc, schedule.len())?;
    for stay in 0..net.stays() {
        let name = net.stay(stay);
        list.push(Scheduled {
            ccb: name.ccb,
            attempt: name.attempt,
            arrival: net.arrival(stay),
            live: net.live(stay),
            best: schedule.round(stay),
            weight: net.weight(stay),
        })?;
    }
    Ok(list)
}
