//! The caps of units by round, lowered to what the units below and above them let through.

use crate::columns::{Column, Columns};
use crate::network::Network;
use std::alloc::{AllocError, Global};

/// The caps of one round by column. Those of rows are the most that there is.
#[derive(Drop)]
pub struct RoundCaps {
    /// As the network has them, up to the most that counts.
    pub own: Vec<u32>,
    /// Lowered to what the columns right below have together.
    pub narrowed: Vec<u32>,
    /// Lowered then to what the unit above has.
    pub tight: Vec<u32>,
    // What the columns right below have together, as far as they are done.
    sums: Vec<u32>,
    most: u32,
}

impl RoundCaps {
    /// Caps of 0. No cap counts for more than `most`.
    pub fn new(alloc: Global, columns: &Columns, most: u32) -> Result<RoundCaps, AllocError> {
        let width = columns.len() as usize;
        Ok(RoundCaps {
            own: vec![in alloc; 0; width]?,
            narrowed: vec![in alloc; 0; width]?,
            tight: vec![in alloc; 0; width]?,
            sums: vec![in alloc; 0; width]?,
            most,
        })
    }

    /// Takes the caps of a round.
    pub fn load(&mut self, network: &Network, columns: &Columns, round: u32) {
        self.take_own(network, columns, round);
        self.narrow(columns);
        self.tighten(columns);
    }

    fn take_own(&mut self, network: &Network, columns: &Columns, round: u32) {
        for number in 0..columns.len() {
            let column = columns.column(number);
            let cap = if column.is_row() {
                u32::MAX
            } else {
                network.cap(column.unit, round).min(self.most)
            };
            put(&mut self.own, number, cap);
            put(&mut self.sums, number, 0);
        }
    }

    // From the last column to the first, so that what is below a unit is done before it.
    fn narrow(&mut self, columns: &Columns) {
        for number in (0..columns.len()).rev() {
            let column = columns.column(number);
            let own = number_at(&self.own, number);
            let cap = if column.is_row() {
                own
            } else {
                own.min(number_at(&self.sums, number))
            };
            put(&mut self.narrowed, number, cap);
            if let Some(above) = column.above {
                let sum = number_at(&self.sums, above).saturating_add(cap);
                put(&mut self.sums, above, sum);
            }
        }
    }

    // From the first column to the last, so that what is above a unit is done before it.
    fn tighten(&mut self, columns: &Columns) {
        for number in 0..columns.len() {
            let column = columns.column(number);
            let cap = number_at(&self.narrowed, number);
            let tight = match column.above {
                Some(above) if !column.is_row() => cap.min(number_at(&self.tight, above)),
                _ => cap,
            };
            put(&mut self.tight, number, tight);
        }
    }

    /// Whether a cap was lowered to what the columns right below have together.
    pub fn is_narrowed(&self, number: u32) -> bool {
        number_at(&self.narrowed, number) < number_at(&self.own, number)
    }

    /// Whether a cap was lowered to what the unit above has.
    pub fn is_tightened(&self, number: u32) -> bool {
        number_at(&self.tight, number) < number_at(&self.narrowed, number)
    }
}

/// The lowered caps of all rounds, round by round; in each round of each unit.
pub fn tight_caps(
    alloc: Global,
    network: &Network,
    columns: &Columns,
) -> Result<Vec<u32>, AllocError> {
    let places = network.above.len().saturating_mul(network.rounds as usize);
    let mut caps = vec![in alloc; 0; places]?;
    let mut of_round = RoundCaps::new(alloc, columns, u32::MAX)?;
    for round in 0..network.rounds {
        of_round.load(network, columns, round);
        let first = (round as usize).saturating_mul(network.above.len());
        take_tight(&of_round, columns, first, &mut caps);
    }
    Ok(caps)
}

// Writes the lowered caps of a round from this place on.
fn take_tight(of_round: &RoundCaps, columns: &Columns, first: usize, caps: &mut [u32]) {
    for number in 0..columns.len() {
        let column = columns.column(number);
        if !column.is_row() {
            take_one(of_round, &column, number, first, caps);
        }
    }
}

fn take_one(of_round: &RoundCaps, column: &Column, number: u32, first: usize, caps: &mut [u32]) {
    if let Some(cap) = caps.get_mut(first.saturating_add(column.unit as usize)) {
        *cap = number_at(&of_round.tight, number);
    }
}

/// A number in a list, and 0 past all.
#[inline]
pub fn number_at(numbers: &[u32], place: u32) -> u32 {
    numbers.get(place as usize).copied().unwrap_or(0)
}

#[inline]
fn put(caps: &mut [u32], place: u32, cap: u32) {
    if let Some(old) = caps.get_mut(place as usize) {
        *old = cap;
    }
}
