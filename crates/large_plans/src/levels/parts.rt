//! The parts of a network. Nothing that is sent in one of them takes room in another.

use crate::columns::{Column, Columns};
use crate::network::Network;
use std::alloc::{AllocError, Global};
use std::cmp::Reverse;

/// A stay that comes in a row of a part.
#[derive(Clone, Copy)]
pub struct Coming {
    /// The number of the stay.
    pub stay: u32,
    /// The column of the row.
    pub column: u32,
    /// The round, which there is.
    pub round: u32,
}

/// A part: a unit with none above it, and all that is below.
#[derive(Drop)]
pub struct Part {
    /// Its units and rows.
    pub columns: Columns,
    /// The columns of its rows, of which the heaviest come first.
    pub heaviest: Vec<u32>,
    /// What comes in its rows.
    pub comings: Vec<Coming>,
    // How many columns the network has before its own.
    first: u32,
}

impl Part {
    // The columns from one on and before another, into which nothing comes yet.
    fn of(alloc: Global, columns: &Columns, first: u32, end: u32) -> Result<Part, AllocError> {
        let columns = columns.among(alloc, first, end)?;
        Ok(Part {
            heaviest: heaviest(alloc, &columns)?,
            columns,
            comings: Vec::new(alloc),
            first,
        })
    }

    /// One more than the requests that come in all, or the most that there is.
    pub fn most(&self) -> u32 {
        u32::try_from(self.comings.len())
            .unwrap_or(u32::MAX)
            .saturating_add(1)
    }
}

/// The parts of a network, unless a stay has no row or no round in it.
pub fn parts(alloc: Global, network: &Network) -> Result<Option<Vec<Part>>, AllocError> {
    let columns = Columns::of(alloc, network)?;
    let mut parts = Vec::new(alloc);
    let mut part_of = Vec::new(alloc);
    let mut first = 0u32;
    for number in 0..columns.len() {
        part_of.push(parts.len())?;
        let end = number.saturating_add(1);
        if columns.column(end).above.is_none() {
            parts.push(Part::of(alloc, &columns, first, end)?)?;
            first = end;
        }
    }
    for number in 0..u32::try_from(network.stays.len()).unwrap_or(u32::MAX) {
        if !add_coming(network, &columns, &part_of, &mut parts, number)? {
            return Ok(None);
        }
    }
    Ok(Some(parts))
}

// Adds what comes of a stay to its part, if it has one.
fn add_coming(
    network: &Network,
    columns: &Columns,
    part_of: &[usize],
    parts: &mut [Part],
    number: u32,
) -> Result<bool, AllocError> {
    if let Some(stay) = network.stays.get(number as usize)
        && stay.arrival < network.rounds
        && let Some(column) = columns.row_of(stay)
        && let Some(part) = part_of.get(column as usize)
        && let Some(part) = parts.get_mut(*part)
    {
        part.comings.push(Coming {
            stay: number,
            column: column.saturating_sub(part.first),
            round: stay.arrival,
        })?;
        return Ok(true);
    }
    Ok(false)
}

// The columns of rows, by weight and then in order.
fn heaviest(alloc: Global, columns: &Columns) -> Result<Vec<u32>, AllocError> {
    let mut rows = Vec::new(alloc);
    for number in 0..columns.len() {
        let column: Column = columns.column(number);
        if column.is_row() {
            rows.push((Reverse(column.weight), number))?;
        }
    }
    rows.sort_unstable();
    rows.iter().map(|(_weight, number)| *number).collect(alloc)
}
