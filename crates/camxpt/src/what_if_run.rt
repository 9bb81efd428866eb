//! What the waiting of a trace or a recording would have cost by other orders, and with more openings.

use crate::change_texts::{options_of, words_of};
use crate::change_words::{AskedRow, changes_of_row, names_nothing};
use crate::failure::Failure;
use crate::output::closed;
use crate::progress::{CountedRows, ProgressLine};
use orders::{Order, ordered};
use round_net::{Net, cost};
use std::alloc::{AllocError, Global};
use std::thread::Threads;
use views::{WhatIfRow, WhatIfTable, what_if_json, what_if_page};
use wait_causes::{Explanation, InputKind};
use what_if::{Change, Costs, costs_of, is_change_of, lists_of_net, what_if, worth_trying};
use wording::{ByWeight, Captions, LevelWaits, items_at, level_waits, places_by};

const AS_IT_WAS: &str = "as it was";

const NO_IDLE_SLOTS: &str = "no idle slots";

const ALL_OF_THESE: &str = "all of these";

/// What is asked of a table.
#[derive(Clone, Copy)]
pub struct WhatIfRun<'a> {
    /// The rows that are wanted; if there is none, those of the changes that are worth a try.
    pub rows: &'a [AskedRow<'a>],
    /// How many of these are listed at most.
    pub top: usize,
    /// Whether the table is one line of JSON.
    pub as_json: bool,
}

// Lists of changes, and what the waiting costs with each. The first has no change.
#[derive(Drop)]
struct Tried {
    lists: Vec<Vec<Change>>,
    costs: Vec<Costs>,
}

impl WhatIfRun<'_> {
    /// The table for the input of this name. The line says how many rows are made.
    pub fn text<T: Threads + Sync>(
        self,
        threads: &T,
        alloc: Global,
        line: &ProgressLine<'_>,
        name: &str,
        net: &Net,
        explanation: &Explanation,
    ) -> Result<String, Failure> {
        let wanted = self.wanted(alloc, net, explanation)?;
        let tried = try_all(threads, alloc, line, net, &wanted)?;
        let rows = self.rows(threads, alloc, line, net, explanation, &tried)?;
        let waits = level_waits(alloc, explanation, by_weight(alloc, net)?.as_ref())?;
        let table = table(name, explanation, &waits, &rows);
        Ok(if self.as_json {
            closed(what_if_json(alloc, table))?
        } else {
            what_if_page(alloc, table)?
        })
    }

    // The lists of changes that are tried.
    fn wanted(
        self,
        alloc: Global,
        net: &Net,
        explanation: &Explanation,
    ) -> Result<Vec<Vec<Change>>, Failure> {
        if self.rows.is_empty() {
            return Ok(each_alone(alloc, &worth_trying(alloc, net)?)?);
        }
        let mut lists = Vec::with_capacity(alloc, self.rows.len())?;
        for row in self.rows {
            let list = changes_of_row(alloc, *row, explanation.names())?;
            for change in &list {
                if !is_change_of(net, *change) {
                    return Err(names_nothing(*row));
                }
            }
            lists.push(list).map_err(|_| AllocError)?;
        }
        Ok(lists)
    }

    // The rows of the table: as it was, with no idle slots if that is another net, and those of changes.
    fn rows<T: Threads + Sync>(
        self,
        threads: &T,
        alloc: Global,
        line: &ProgressLine<'_>,
        net: &Net,
        explanation: &Explanation,
        tried: &Tried,
    ) -> Result<Vec<WhatIfRow>, AllocError> {
        let mut rows = first_rows(alloc, net, explanation, tried)?;
        let captions = Captions::of(explanation.config(), explanation);
        if !self.rows.is_empty() {
            for place in 1..tried.lists.len() {
                push_row(alloc, &mut rows, captions, tried, place)?;
            }
            return Ok(rows);
        }
        let best = best_places(alloc, &tried.costs, self.top)?;
        for place in &best {
            push_row(alloc, &mut rows, captions, tried, *place)?;
        }
        if best.len() > 1
            && let Some(first) = tried.costs.get(best[0])
        {
            push_all(
                threads,
                alloc,
                line,
                net,
                &tried.lists,
                &best,
                *first,
                &mut rows,
            )?;
        }
        Ok(rows)
    }
}

// Each change alone.
fn each_alone(alloc: Global, changes: &[Change]) -> Result<Vec<Vec<Change>>, AllocError> {
    let mut lists = Vec::with_capacity(alloc, changes.len())?;
    for change in changes {
        let mut list = Vec::new(alloc);
        list.push(*change)?;
        lists.push(list)?;
    }
    Ok(lists)
}

// What the waiting costs without a change, and with each of these lists.
fn try_all<T: Threads + Sync>(
    threads: &T,
    alloc: Global,
    line: &ProgressLine<'_>,
    net: &Net,
    wanted: &[Vec<Change>],
) -> Result<Tried, AllocError> {
    let lists = lists_of_net(alloc, net, wanted)?;
    let progress = CountedRows::new(line, lists.len());
    let costs = what_if(threads, alloc, net, &lists, &progress)?;
    Ok(Tried { lists, costs })
}

// The first rows: as it was, by the recorded pace, and, if that is another net, with no idle slots.
fn first_rows(
    alloc: Global,
    net: &Net,
    explanation: &Explanation,
    tried: &Tried,
) -> Result<Vec<WhatIfRow>, AllocError> {
    let mut rows = Vec::new(alloc);
    let mut words = AS_IT_WAS;
    let mut option = "";
    if let Some(paced) = at_other_pace(alloc, net, explanation)? {
        let costs = costs_of(alloc, &paced)?;
        rows.push(row(alloc, option, words, costs)?)?;
        words = NO_IDLE_SLOTS;
        option = NO_IDLE_SLOTS;
    }
    if let Some(costs) = tried.costs.first() {
        rows.push(row(alloc, option, words, *costs)?)?;
    }
    Ok(rows)
}

fn row(alloc: Global, option: &str, words: &str, costs: Costs) -> Result<WhatIfRow, AllocError> {
    Ok(WhatIfRow {
        option: String::from_str(alloc, option)?,
        words: String::from_str(alloc, words)?,
        costs,
    })
}

// The net at the recorded pace, if it is that of a recording and isn't the net itself.
fn at_other_pace(
    alloc: Global,
    net: &Net,
    explanation: &Explanation,
) -> Result<Option<Net>, AllocError> {
    match explanation.kind() {
        InputKind::Trace => Ok(None),
        InputKind::Recording => {
            let paced = net.at_pace(alloc)?;
            Ok(Some(paced).filter(|paced| !has_caps_of(net, paced)))
        }
    }
}

// Whether each device, adapter and link takes as many in each round as it does in the other net.
fn has_caps_of(net: &Net, other: &Net) -> bool {
    if net.rows() != other.rows() || net.rounds() != other.rounds() {
        return false;
    }
    for row in 0..net.rows() {
        for round in 1..net.rounds() + 1 {
            if net.cap(row, round) != other.cap(row, round) {
                return false;
            }
        }
    }
    true
}

// Puts the row of the list at this place after the rows.
fn push_row(
    alloc: Global,
    rows: &mut Vec<WhatIfRow>,
    captions: Captions<'_>,
    tried: &Tried,
    place: usize,
) -> Result<(), AllocError> {
    if let (Some(list), Some(costs)) = (tried.lists.get(place), tried.costs.get(place)) {
        rows.push(WhatIfRow {
            option: options_of(alloc, list)?,
            words: words_of(alloc, captions, list)?,
            costs: *costs,
        })?;
    }
    Ok(())
}

// The places of the lists that change a cost, those that save most first: by the best cost, then by that of the order by weight,
// and then in the order of trying; at most that many.
fn best_places(alloc: Global, costs: &[Costs], top: usize) -> Result<Vec<usize>, AllocError> {
    let mut places = Vec::new(alloc);
    for place in &places_by_costs(alloc, costs)? {
        if places.len() < top
            && let (Some(tried), Some(unchanged)) = (costs.get(*place), costs.first())
            && tried != unchanged
        {
            places.push(*place)?;
        }
    }
    Ok(places)
}

// All places in that order: equal ones stay as the order by weight has them.
fn places_by_costs(alloc: Global, costs: &[Costs]) -> Result<Vec<usize>, AllocError> {
    let mut by_weight = Vec::with_capacity(alloc, costs.len())?;
    for tried in costs {
        by_weight.push(tried.by_weight.unwrap_or(u64::MAX))?;
    }
    let places = places_by(alloc, &by_weight)?;
    let mut best = Vec::with_capacity(alloc, costs.len())?;
    for tried in &items_at(alloc, costs, &places)? {
        best.push(tried.best)?;
    }
    items_at(alloc, &places, &places_by(alloc, &best)?)
}

// Puts the row of the changes of all lists at these places together after the rows, unless it costs what the first does.
fn push_all<T: Threads + Sync>(
    threads: &T,
    alloc: Global,
    line: &ProgressLine<'_>,
    net: &Net,
    lists: &[Vec<Change>],
    places: &[usize],
    first: Costs,
    rows: &mut Vec<WhatIfRow>,
) -> Result<(), AllocError> {
    let mut all = Vec::new(alloc);
    for place in places {
        if let Some(list) = lists.get(*place) {
            for change in list {
                all.push(*change)?;
            }
        }
    }
    let option = options_of(alloc, &all)?;
    let mut one = Vec::new(alloc);
    one.push(all)?;
    let made = try_all(threads, alloc, line, net, &one)?;
    if let Some(costs) = made.costs.last()
        && *costs != first
    {
        rows.push(row(alloc, &option, ALL_OF_THESE, *costs)?)?;
    }
    Ok(())
}

/// What the order by weight makes of the net, if all are sent in time by it.
pub fn by_weight(alloc: Global, net: &Net) -> Result<Option<ByWeight>, AllocError> {
    let made = ordered(alloc, net, Order::ByWeight)?;
    if made.unsent > 0 || made.late > 0 {
        return Ok(None);
    }
    let schedule = made.schedule;
    match cost(net, &schedule) {
        Some(cost) => Ok(Some(ByWeight { schedule, cost })),
        None => Ok(None),
    }
}

fn table<'x>(
    name: &'x str,
    explanation: &'x Explanation,
    waits: &'x [LevelWaits],
    rows: &'x [WhatIfRow],
) -> WhatIfTable<'x> {
    WhatIfTable {
        name,
        explanation,
        waits,
        rows,
    }
}
