//! The units of a network and their rows, in the order in which a round's nodes lie: after each unit its rows, and then the units
//! below it.

use crate::layout::Layout;
use crate::network::{MAX_WEIGHT, Network, NetworkStay};
use std::alloc::{AllocError, Global};

/// What a column stands for.
#[derive(Clone, Copy)]
pub enum Role {
    /// A unit.
    Unit,
    /// The stays of one unit that have one weight.
    Row,
}

/// A unit or a row over all rounds.
#[derive(Clone, Copy)]
pub struct Column {
    /// Which of the two it is.
    pub role: Role,
    /// The unit, or the one that sends the row's stays.
    pub unit: u32,
    /// What a round of waiting costs in a row, and 0 for a unit.
    pub weight: u32,
    /// The column of the unit above, if there is one.
    pub above: Option<u32>,
    /// Where the columns right below it begin in the list of these.
    pub first: u32,
    /// Where they end.
    pub end: u32,
}

impl Column {
    /// The column past all.
    pub const NONE: Column = Column {
        role: Role::Unit,
        unit: u32::MAX,
        weight: 0,
        above: None,
        first: 0,
        end: 0,
    };

    /// Whether it stands for a row.
    #[inline]
    pub fn is_row(&self) -> bool {
        match self.role {
            Role::Row => true,
            Role::Unit => false,
        }
    }
}

/// The columns of a network. A unit comes before what is below it.
#[derive(Drop)]
pub struct Columns {
    columns: Vec<Column>,
    below: Vec<u32>,
    // The column of each row by unit and weight.
    rows: Vec<Option<u32>>,
}

impl Columns {
    /// Those of a network.
    pub fn of(alloc: Global, network: &Network) -> Result<Columns, AllocError> {
        let layout = Layout::of(alloc, network)?;
        let mut columns = Columns {
            columns: Vec::new(alloc),
            below: Vec::new(alloc),
            rows: Vec::new(alloc),
        };
        for number in 0..layout.len() {
            columns.add(&layout, number)?;
        }
        columns.rows = layout.into_rows();
        Ok(columns)
    }

    // Adds the column of this number, and lists those right below it.
    fn add(&mut self, layout: &Layout, number: u32) -> Result<(), AllocError> {
        let first = count(&self.below);
        for below in layout.below(number) {
            self.below.push(*below)?;
        }
        self.columns.push(Column {
            first,
            end: count(&self.below),
            ..layout.column(number)
        })?;
        Ok(())
    }

    /// Those from one on and before another, as if there were no others. It doesn't know which rows they have.
    pub fn among(&self, alloc: Global, first: u32, end: u32) -> Result<Columns, AllocError> {
        let mut columns = Columns {
            columns: Vec::new(alloc),
            below: Vec::new(alloc),
            rows: Vec::new(alloc),
        };
        for number in first..end {
            let column = self.column(number);
            let begin = count(&columns.below);
            for below in self.below(&column) {
                columns.below.push(below.saturating_sub(first))?;
            }
            columns.columns.push(Column {
                above: column.above.map(|above| above.saturating_sub(first)),
                first: begin,
                end: count(&columns.below),
                ..column
            })?;
        }
        Ok(columns)
    }

    /// How many there are.
    pub fn len(&self) -> u32 {
        count_columns(&self.columns)
    }

    /// A column, in order.
    #[inline]
    pub fn column(&self, number: u32) -> Column {
        match self.columns.get(number as usize) {
            Some(column) => *column,
            None => Column::NONE,
        }
    }

    /// The columns right below one.
    #[inline]
    pub fn below(&self, column: &Column) -> &[u32] {
        self.below
            .get(column.first as usize..column.end as usize)
            .unwrap_or(&[])
    }

    /// The column of a stay's row, if it has one.
    pub fn row_of(&self, stay: &NetworkStay) -> Option<u32> {
        self.rows.get(row_place(stay.unit, stay.weight)?).copied()?
    }
}

/// The place of a unit and a weight in a list that has all weights of one unit after all weights of another, if there may be such
/// a weight.
pub fn row_place(unit: u32, weight: u32) -> Option<usize> {
    if weight == 0 || weight > MAX_WEIGHT {
        return None;
    }
    (unit as usize)
        .checked_mul(MAX_WEIGHT as usize)?
        .checked_add(weight as usize - 1)
}

/// How many columns there are, as a number of one of them.
pub fn count_columns(columns: &[Column]) -> u32 {
    u32::try_from(columns.len()).unwrap_or(u32::MAX)
}

// How many numbers are in a list, as a number of one of them.
fn count(list: &[u32]) -> u32 {
    u32::try_from(list.len()).unwrap_or(u32::MAX)
}
