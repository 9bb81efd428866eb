//! Stays by adapter, device, driver or run level.

ghost use Rattle.std.specs.Prelude.{◌≡◌, ◌<◌, ◌≤◌, ◌++◌, [], All, length, IfOk};
ghost use Rattle.wait_causes.specs.Words.{MAX_NET_STAYS};
ghost use Rattle.wait_causes.specs.Parts.{AreLight};
ghost use Rattle.wait_causes.specs.Tables.{number, stays_of, row_for, greatest, table_of, AreGroups};
ghost use Rattle.wait_causes.specs.declared.table.Grouping.{Grouping as Groupings};

use crate::explained_stay::ExplainedStay;
use crate::known::Known;
use crate::part::{Part, part_of};
use std::alloc::{AllocError, Global};

/// What the rows of a table are made by.
#[derive(Clone, Copy)]
pub enum Grouping {
    /// The adapter of the stay's device.
    Adapter,
    /// The stay's device.
    Device,
    /// The driver that submitted its CCB.
    Driver,
    /// The run level of its priority.
    Level,
}

impl Grouping {
    /// The number by which the stay is grouped.
    pub fn number(self, stay: &ExplainedStay) -> u32
        ensures { result ≡ number self stay.now }
    {
        match self {
            Grouping::Adapter => stay.adapter,
            Grouping::Device => stay.device,
            Grouping::Driver => u32::from(stay.driver),
            Grouping::Level => stay.level,
        }
    }
}

/// A row of a table.
#[derive(Clone, Copy)]
pub struct Row {
    /// The number of the adapter, device, driver or run level.
    pub number: u32,
    /// What its stays waited.
    pub part: Part,
}

/// A row for each number that has a stay, in ascending order.
pub(crate) fn table_of(
    alloc: Global,
    known: Known,
    stays: &[ExplainedStay],
    by: Grouping,
) -> Result<Vec<Row>, AllocError>
    requires few { length stays.now ≤ MAX_NET_STAYS }
    requires light { AreLight stays.now }
    ensures { IfOk result (λ rows. rows.items ≡ table_of known by stays.now) }
{
    let groups = groups_of(alloc, stays, by, greatest(stays, by) as usize + 1)?;
    let mut rows = Vec::new(alloc);
    for number in 0..groups.len() {
        push_part(alloc, known, &mut rows, number as u32, &groups[number])?;
    }
    Ok(rows)
}

/// The stays of each of so many numbers, in the order given. It fails only if there is no memory.
pub fn groups_of(
    alloc: Global,
    stays: &[ExplainedStay],
    by: Grouping,
    count: usize,
) -> Result<Vec<Vec<ExplainedStay>>, AllocError>
    requires { All (λ s. number by s < count) stays.now }
    ensures { IfOk result (λ groups. AreGroups by count stays.now groups.items) }
{
    let mut groups = no_groups(alloc, count)?;
    for stay in stays {
        groups[by.number(stay) as usize].push(*stay)?;
    }
    Ok(groups)
}

// That many groups without a stay.
fn no_groups(alloc: Global, count: usize) -> Result<Vec<Vec<ExplainedStay>>, AllocError>
    ensures { IfOk result (λ groups. (by : Groupings) → AreGroups by count [] groups.items) }
{
    let mut groups = Vec::with_capacity(alloc, count)?;
    for _number in 0..count {
        groups.push(Vec::new(alloc))?;
    }
    Ok(groups)
}

/// The greatest number of these stays, and 0 of none.
#[tactic(auto, unfolding(crate::specs::Tables::greatest))]
pub fn greatest(stays: &[ExplainedStay], by: Grouping) -> u32
    ensures { result ≡ greatest by stays.now }
{
    let mut most = 0;
    for stay in stays {
        most = most.max(by.number(stay));
    }
    most
}

// Puts the row of these stays after the others, if there are some.
fn push_part(
    alloc: Global,
    known: Known,
    rows: &mut Vec<Row>,
    number: u32,
    part: &[ExplainedStay],
) -> Result<(), AllocError>
    requires few { length part.now ≤ MAX_NET_STAYS }
    requires light { AreLight part.now }
    ensures { IfOk result (λ _. rows.new.items ≡ rows.old.items ++ row_for known number part.now) }
{
    if part.is_empty() {
        return Ok(());
    }
    let waited = part_of(alloc, known, part)?;
    rows.push(Row {
        number,
        part: waited,
    })?;
    Ok(())
}

/// The stays of this number.
pub(crate) fn stays_of(
    alloc: Global,
    stays: &[ExplainedStay],
    by: Grouping,
    number: u32,
) -> Result<Vec<ExplainedStay>, AllocError>
    ensures { IfOk result (λ part. part.items ≡ stays_of by stays.now number) }
{
    stays
        .iter()
        .filter(|stay| by.number(stay) == number)
        .copied()
        .collect(alloc)
}
