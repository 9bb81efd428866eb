//! The rows of two tables side by side.

ghost use Rattle.std.specs.Prelude.{◌≡◌, ◌≤◌, ◌^◌, ◌++◌, find, IfOk};
ghost use Rattle.std.specs.List.{list_any};
ghost use Rattle.wait_causes.specs.Changes.{live_of, change, change_of, more_changed, IsMostChanged};
ghost use Rattle.wait_causes.specs.Keys.{is_pair};
ghost use Rattle.wait_causes.specs.Pairs.{numbers, row_at, pair_of, alone, paired};
ghost use Rattle.wait_causes.specs.declared.table.Row.{Row as TableRow};

use crate::Row;
use crate::keys::is_pair;
use recording_file::{Name, NameKind};
use std::alloc::{AllocError, Global};

/// What the stays of an adapter, device, driver or run level waited before a change, and after it.
#[derive(Clone, Copy)]
pub struct PairedRow {
    /// Its row before; none if it had no stay, or nothing before is called so.
    pub before: Option<Row>,
    /// Its row after; none if it had no stay, or nothing after is called so.
    pub after: Option<Row>,
}

impl PairedRow {
    /// How much less or more weighted rounds its stays waited after the change.
    pub fn change(&self) -> u64
        ensures { result ≡ change self.now }
    {
        let (before, after) = (live_of(&self.before), live_of(&self.after));
        if before < after {
            after - before
        } else {
            before - after
        }
    }
}

// The weighted rounds of a row, and 0 of none.
fn live_of(row: &Option<Row>) -> u64
    ensures { result ≡ live_of row.now }
{
    match row {
        Some(row) => row.part.live,
        None => 0,
    }
}

/// The rows of the table before and of the one after, each in one pair, by ascending number: that before, and where it stands
/// alone that after; of one number that before first. Rows are a pair if they are called the same by the names of this kind, of
/// several that are called so in the order of their numbers; or if neither has a name and they have one number. Without a kind
/// they are a pair if they have one number.
pub fn paired(
    alloc: Global,
    by: Option<NameKind>,
    names_before: &[Name],
    names_after: &[Name],
    before: &[Row],
    after: &[Row],
) -> Result<Vec<PairedRow>, AllocError>
    ensures { IfOk result (λ rows. rows.items ≡ paired (is_pair by names_before.now names_after.now) before.now after.now) }
{
    let count = numbers(before).max(numbers(after));
    let mut rows = Vec::new(alloc);
    for number in 0..count {
        let number = number as u32;
        let (row, other) = (row_at(before, number), row_at(after, number));
        push_pair(&mut rows, by, names_before, names_after, row, after)?;
        push_alone(&mut rows, by, names_before, names_after, before, other)?;
    }
    Ok(rows)
}

// Puts a row before after the others, beside the row after that is a pair with it.
fn push_pair(
    rows: &mut Vec<PairedRow>,
    by: Option<NameKind>,
    names_before: &[Name],
    names_after: &[Name],
    row: Option<Row>,
    after: &[Row],
) -> Result<(), AllocError>
    ensures { IfOk result (λ _. rows.new.items ≡ rows.old.items ++ pair_of (is_pair by names_before.now names_after.now) after.now row) }
{
    if let Some(row) = row {
        let after = partner_of(by, names_before, names_after, &row, after);
        rows.push(PairedRow {
            before: Some(row),
            after,
        })?;
    }
    Ok(())
}

// Puts a row after after the others, if no row before is a pair with it.
fn push_alone(
    rows: &mut Vec<PairedRow>,
    by: Option<NameKind>,
    names_before: &[Name],
    names_after: &[Name],
    before: &[Row],
    row: Option<Row>,
) -> Result<(), AllocError>
    ensures { IfOk result (λ _. rows.new.items ≡ rows.old.items ++ alone (is_pair by names_before.now names_after.now) before.now row) }
{
    if let Some(row) = row
        && !has_partner(by, names_before, names_after, before, &row)
    {
        rows.push(PairedRow {
            before: None,
            after: Some(row),
        })?;
    }
    Ok(())
}

// One more than the greatest number of these rows, and 0 of none.
#[tactic(auto, unfolding(crate::specs::Pairs::numbers))]
fn numbers(rows: &[Row]) -> usize
    ensures same { result ≡ numbers rows.now }
    ensures few { result ≤ 2 ^ 32 }
{
    let mut most = 0;
    for row in rows {
        most = most.max(row.number as usize + 1);
    }
    most
}

// The row of this number, if there is one.
fn row_at(rows: &[Row], number: u32) -> Option<Row>
    ensures { result ≡ row_at rows.now number }
{
    rows.iter().copied().find(|row| row.number == number)
}

// The row after that is a pair with this one before, if there is one.
fn partner_of(
    by: Option<NameKind>,
    names_before: &[Name],
    names_after: &[Name],
    row: &Row,
    after: &[Row],
) -> Option<Row>
    ensures { result ≡ find (λ (s : TableRow). is_pair by names_before.now names_after.now row.now.number s.number) after.now }
{
    let number = row.number;
    after.iter().copied().find(|other| is_pair(by, names_before, names_after, number, other.number))
}

// Whether a row before is a pair with this one after.
fn has_partner(
    by: Option<NameKind>,
    names_before: &[Name],
    names_after: &[Name],
    before: &[Row],
    row: &Row,
) -> bool
    ensures { result ≡ list_any (λ (r : TableRow). is_pair by names_before.now names_after.now r.number row.now.number) before.now }
{
    let number = row.number;
    before.iter().any(|other| is_pair(by, names_before, names_after, other.number, number))
}

/// The row whose stays' weighted rounds changed most, to less or to more; of equal ones the first. None if none changed.
pub fn most_changed(rows: &[PairedRow]) -> Option<PairedRow>
    ensures { IsMostChanged rows.now result }
{
    let mut most = None;
    for row in rows {
        most = more_changed(most, *row);
    }
    most
}

// The one that changed more: the first, if the second didn't.
fn more_changed(most: Option<PairedRow>, row: PairedRow) -> Option<PairedRow>
    ensures { result ≡ more_changed most row }
{
    if change_of(&most) < row.change() {
        Some(row)
    } else {
        most
    }
}

// The change of a row, and 0 of none.
fn change_of(row: &Option<PairedRow>) -> u64
    ensures { result ≡ change_of row.now }
{
    match row {
        Some(row) => row.change(),
        None => 0,
    }
}
