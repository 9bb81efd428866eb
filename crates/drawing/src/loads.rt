//! How many of their openings devices, adapters and links used in each round of a range.

use crate::round_range::RoundRange;
use crate::shades::cell_rounds;
use round_net::Net;
use std::alloc::{AllocError, Global};
use wait_causes::ExplainedStay;
use wording::{Page, push_numbers};

/// The height of a strip in pixels.
pub(crate) const STRIP: u64 = 8;

/// How many stays each of a net's rows sent in each round of a range. The rows of devices come first, then those of
/// adapters, and then those of links.
#[derive(Drop)]
pub(crate) struct Loads<'a> {
    net: &'a Net,
    range: RoundRange,
    counts: Vec<u32>,
}

// What is summed up of a row's rounds.
#[derive(Clone, Copy, Default)]
struct Sum {
    used: u64,
    openings: u64,
    // In how many rounds all openings were used.
    full: u64,
    // In how many it took nothing.
    shut: u64,
    // How full the fullest of them was, in quarters.
    quarters: u64,
}

impl<'a> Loads<'a> {
    /// Those of all stays.
    pub(crate) fn of(
        alloc: Global,
        net: &'a Net,
        stays: &[ExplainedStay],
        range: RoundRange,
    ) -> Result<Loads<'a>, AllocError> {
        let cells = (net.rows() as usize).saturating_mul(range.rounds() as usize);
        let mut loads = Loads {
            net,
            range,
            counts: vec![in alloc; 0; cells]?,
        };
        for stay in stays {
            if range.has(stay.live) {
                loads.note(stay);
            }
        }
        Ok(loads)
    }

    // Counts the stay where it was sent.
    fn note(&mut self, stay: &ExplainedStay) {
        let net = self.net;
        self.add(stay.device, stay.live);
        if stay.adapter < net.adapters() {
            self.add(net.adapter_resource(stay.adapter), stay.live);
            if let Some(link) = net.link_of(stay.adapter) {
                self.add(net.link_resource(link), stay.live);
            }
        }
    }

    // Where the count of a row and round stands.
    fn place(&self, row: u32, round: u32) -> usize {
        (row as usize)
            .saturating_mul(self.range.rounds() as usize)
            .saturating_add(self.range.offset(round) as usize)
    }

    // Counts one more.
    fn add(&mut self, row: u32, round: u32) {
        let place = self.place(row, round);
        if let Some(count) = self.counts.get_mut(place) {
            *count = count.saturating_add(1);
        }
    }

    // The sum of the row's rounds from one to another.
    fn sum(&self, row: u32, first: u32, last: u32) -> Sum {
        let mut sum = Sum::default();
        for round in first..=last {
            let place = self.place(row, round);
            let used = self.counts.get(place).copied().unwrap_or(0);
            let cap = cap(self.net, row, round);
            sum.used = sum.used.saturating_add(u64::from(used));
            sum.openings = sum.openings.saturating_add(u64::from(cap));
            sum.full = sum.full.saturating_add(u64::from(cap > 0 && used >= cap));
            sum.shut = sum.shut.saturating_add(u64::from(cap == 0));
            sum.quarters = sum.quarters.max(quarters(used, cap));
        }
        sum
    }

    /// Puts the strip of the row on the page, with its text.
    pub(crate) fn push(&self, page: &mut Page, row: u32) {
        let sum = self.sum(row, self.range.first, self.range.last);
        page.put("<path class='used' d='");
        self.push_cells(page, row, false);
        push_numbers(
            page,
            &[
                ("'><title>openings used: ", sum.used),
                (" of ", sum.openings),
                (", all of them in ", sum.full),
                (" of ", u64::from(self.range.rounds())),
            ],
            " rounds</title></path>",
        );
        if sum.shut > 0 {
            page.put("<path class='shut' d='");
            self.push_cells(page, row, true);
            page.put("'><title>takes nothing in these rounds</title></path>");
        }
    }

    // Puts the row's cells into the path that is open: as columns, or those in whose rounds nothing is taken as a line.
    fn push_cells(&self, page: &mut Page, row: u32, are_shut: bool) {
        let each = cell_rounds(&self.range);
        for first in (self.range.first..=self.range.last).step_by((each as usize).max(1)) {
            let end = first
                .saturating_add(each)
                .min(self.range.last.saturating_add(1));
            let sum = self.sum(row, first, end.saturating_sub(1));
            let (from, rounds) = (self.range.offset(first), end.saturating_sub(first));
            let height = sum.quarters.saturating_mul(STRIP / 4);
            if are_shut && sum.shut == u64::from(rounds) {
                page.show(format_args!("M{from} 6h{rounds}"));
            } else if !are_shut && height > 0 {
                page.show(format_args!("M{from} 8v-{height}h{rounds}v{height}"));
            }
        }
    }
}

/// How many the row of this number takes in the round; 0 if there is no such row or round.
pub(crate) fn cap(net: &Net, row: u32, round: u32) -> u32 {
    if row < net.rows() && 1 <= round && round <= net.rounds() {
        net.cap(row, round)
    } else {
        0
    }
}

// How many quarters of what may be taken are used, any use being one at least.
fn quarters(used: u32, cap: u32) -> u64 {
    let (used, cap) = (u64::from(used), u64::from(cap));
    if used == 0 {
        0
    } else if used >= cap {
        4
    } else {
        used.saturating_mul(4).checked_div(cap).unwrap_or(0).max(1)
    }
}
