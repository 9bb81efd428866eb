//! The order of columns: a walk from the units with none above down to the rows.

use crate::columns::{Column, Role, count_columns, row_place};
use crate::network::{MAX_WEIGHT, Network};
use std::alloc::{AllocError, Global};

// A unit whose column comes later, and the column above it.
#[derive(Clone, Copy)]
struct Turn {
    unit: u32,
    above: Option<u32>,
}

/// All columns of a network in order, and for each those right below it. A unit that has itself above it has none, and neither
/// has what is below that.
#[derive(Drop)]
pub struct Layout {
    columns: Vec<Column>,
    below: Vec<Vec<u32>>,
    // The column of each row by unit and weight.
    rows: Vec<Option<u32>>,
    turns: Vec<Turn>,
}

impl Layout {
    /// The columns of a network.
    pub fn of(alloc: Global, network: &Network) -> Result<Layout, AllocError> {
        let mut layout = Layout {
            columns: Vec::new(alloc),
            below: Vec::new(alloc),
            rows: vec![in alloc; None; row_places(network)]?,
            turns: Vec::new(alloc),
        };
        layout.begin(network)?;
        let units = units_below(alloc, network)?;
        let rows = row_marks(alloc, network)?;
        layout.walk(alloc, network, &units, &rows)?;
        Ok(layout)
    }

    /// How many columns there are.
    pub fn len(&self) -> u32 {
        count_columns(&self.columns)
    }

    /// A column.
    pub fn column(&self, number: u32) -> Column {
        match self.columns.get(number as usize) {
            Some(column) => *column,
            None => Column::NONE,
        }
    }

    /// The columns right below one.
    pub fn below(&self, number: u32) -> &[u32] {
        match self.below.get(number as usize) {
            Some(list) => list,
            None => &[],
        }
    }

    /// The columns of rows by unit and weight.
    pub fn into_rows(self) -> Vec<Option<u32>> {
        self.rows
    }

    // The units with none above come last, so that the first of them is taken first.
    fn begin(&mut self, network: &Network) -> Result<(), AllocError> {
        for unit in (0..network.units()).rev() {
            if network.unit_above(unit).is_none() {
                self.turns.push(Turn { unit, above: None })?;
            }
        }
        Ok(())
    }

    // Takes one unit after another, each at most once.
    fn walk(
        &mut self,
        alloc: Global,
        network: &Network,
        units: &[Vec<u32>],
        rows: &[bool],
    ) -> Result<(), AllocError> {
        for _ in 0..network.units() {
            let Some(turn) = self.turns.pop() else {
                break;
            };
            let column = self.add(alloc, Role::Unit, turn.unit, 0, turn.above)?;
            self.add_rows(alloc, rows, turn.unit, column)?;
            if let Some(list) = units.get(turn.unit as usize) {
                self.add_turns(list, column)?;
            }
        }
        Ok(())
    }

    // Adds a column, and answers its place.
    fn add(
        &mut self,
        alloc: Global,
        role: Role,
        unit: u32,
        weight: u32,
        above: Option<u32>,
    ) -> Result<u32, AllocError> {
        let place = self.len();
        self.columns.push(Column {
            role,
            unit,
            weight,
            above,
            ..Column::NONE
        })?;
        self.below.push(Vec::new(alloc))?;
        if let Some(above) = above
            && let Some(list) = self.below.get_mut(above as usize)
        {
            list.push(place)?;
        }
        Ok(place)
    }

    // Adds the columns of a unit's rows, the heaviest first.
    fn add_rows(
        &mut self,
        alloc: Global,
        rows: &[bool],
        unit: u32,
        above: u32,
    ) -> Result<(), AllocError> {
        for weight in (1..MAX_WEIGHT + 1).rev() {
            if let Some(place) = row_place(unit, weight)
                && rows.get(place).copied() == Some(true)
            {
                let column = self.add(alloc, Role::Row, unit, weight, Some(above))?;
                if let Some(row) = self.rows.get_mut(place) {
                    *row = Some(column);
                }
            }
        }
        Ok(())
    }

    // Units below a column come next, the first of them first.
    fn add_turns(&mut self, list: &[u32], above: u32) -> Result<(), AllocError> {
        for unit in list.iter().rev() {
            self.turns.push(Turn {
                unit: *unit,
                above: Some(above),
            })?;
        }
        Ok(())
    }
}

// For each unit those right below it.
fn units_below(alloc: Global, network: &Network) -> Result<Vec<Vec<u32>>, AllocError> {
    let mut lists = Vec::with_capacity(alloc, network.above.len())?;
    for _ in 0..network.units() {
        lists.push(Vec::new(alloc))?;
    }
    list_units_below(network, &mut lists)?;
    Ok(lists)
}

fn list_units_below(network: &Network, lists: &mut [Vec<u32>]) -> Result<(), AllocError> {
    for unit in 0..network.units() {
        if let Some(above) = network.unit_above(unit)
            && let Some(list) = lists.get_mut(above as usize)
        {
            list.push(unit)?;
        }
    }
    Ok(())
}

// How many rows there may be: one of each weight for each unit.
fn row_places(network: &Network) -> usize {
    network.above.len().saturating_mul(MAX_WEIGHT as usize)
}

// Which rows there are, by unit and weight.
fn row_marks(alloc: Global, network: &Network) -> Result<Vec<bool>, AllocError> {
    let mut rows = vec![in alloc; false; row_places(network)]?;
    for stay in &network.stays {
        if let Some(place) = row_place(stay.unit, stay.weight)
            && let Some(row) = rows.get_mut(place)
        {
            *row = true;
        }
    }
    Ok(rows)
}
