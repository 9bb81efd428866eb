//! Prices of units in rounds, from the potentials of their nodes: what it would save if a unit could send one request more.

use crate::caps::RoundCaps;
use crate::columns::Columns;
use crate::network::Network;
use std::alloc::{AllocError, Global};

/// The potentials and prices of one round by column.
#[derive(Drop)]
pub struct RoundPrices {
    potentials: Vec<i64>,
    prices: Vec<u64>,
    caps: RoundCaps,
}

impl RoundPrices {
    /// Potentials and prices of 0. No cap counts for more than `most`.
    pub fn new(alloc: Global, columns: &Columns, most: u32) -> Result<RoundPrices, AllocError> {
        let width = columns.len() as usize;
        Ok(RoundPrices {
            potentials: vec![in alloc; 0; width]?,
            prices: vec![in alloc; 0; width]?,
            caps: RoundCaps::new(alloc, columns, most)?,
        })
    }

    /// Sets the potential of a column's node.
    pub fn set_potential(&mut self, number: u32, potential: i64) {
        if let Some(old) = self.potentials.get_mut(number as usize) {
            *old = potential;
        }
    }

    /// Writes the prices of a round's units into a list that has all rounds of one unit after all rounds of another.
    pub fn write(&mut self, network: &Network, columns: &Columns, round: u32, prices: &mut [u64]) {
        self.caps.load(network, columns, round);
        self.take(columns);
        self.move_up(columns);
        self.move_down(columns);
        for number in 0..columns.len() {
            let column = columns.column(number);
            let place = network.place(column.unit, round);
            if !column.is_row()
                && !self.caps.is_narrowed(number)
                && let Some(price) = prices.get_mut(place)
            {
                *price = self.price(number);
            }
        }
    }

    // By how much more a request costs from a unit on than from the unit above it.
    fn take(&mut self, columns: &Columns) {
        for number in 0..columns.len() {
            let column = columns.column(number);
            let above = match column.above {
                Some(above) => self.potential(above),
                None => 0,
            };
            let more = self.potential(number).saturating_sub(above);
            let price = u64::try_from(more).unwrap_or(0);
            self.put(number, if column.is_row() { 0 } else { price });
        }
    }

    // Where a cap was lowered to that of the unit above, the price is of that.
    fn move_up(&mut self, columns: &Columns) {
        for number in (0..columns.len()).rev() {
            if let Some(above) = columns.column(number).above
                && self.caps.is_tightened(number)
            {
                let price = self.price(number).saturating_add(self.price(above));
                self.put(above, price);
                self.put(number, 0);
            }
        }
    }

    // Where a cap was lowered to those of the units right below, the price is of each of those.
    fn move_down(&mut self, columns: &Columns) {
        for number in 0..columns.len() {
            if let Some(above) = columns.column(number).above
                && self.caps.is_narrowed(above)
            {
                let price = self.price(number).saturating_add(self.price(above));
                self.put(number, price);
            }
        }
    }

    fn potential(&self, number: u32) -> i64 {
        self.potentials.get(number as usize).copied().unwrap_or(0)
    }

    fn price(&self, number: u32) -> u64 {
        self.prices.get(number as usize).copied().unwrap_or(0)
    }

    fn put(&mut self, number: u32, price: u64) {
        if let Some(old) = self.prices.get_mut(number as usize) {
            *old = price;
        }
    }
}
