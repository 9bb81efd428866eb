//! The table of who waited for whom.

ghost use Rattle.std.specs.Prelude.{◌≡◌, ◌++◌, ◌+◌, ◌≤◌, ◌<◌, ◌^◌, IfOk};
ghost use Rattle.wait_causes.specs.Tables.{greatest};
ghost use Rattle.wait_causes.specs.BlameLists.{stays_in, who_in, AreWho};
ghost use Rattle.wait_causes.specs.BlameRows.{row_of, rows_for, all_rows, blame_of};

use crate::blame::amounts::{Amounts, amounts_of};
use crate::blame::row::{BlameRow, row_key};
use crate::blame::totals::{totals_of, who_of};
use crate::explanation::Explanation;
use crate::table::{Grouping, greatest};
use std::alloc::{AllocError, Global};

/// Who was in the way, by drivers, run levels or whatever stays are grouped by: a row for each pair of one whose stays waited
/// and one that was in the way, the costliest first; of equals by who waited, then by who was in the way, and nobody last.
///
/// In a round in which a device, an adapter or a link was full that is who of the stays that it sent in the round has the
/// smallest weight, of equals the one that arrived last, then the later one. In a round in which it took nothing it is, by the
/// same order, one of those that it had in service, if the input says when stays were completed. In all other rounds nobody was
/// in the way.
pub fn blame_of(
    alloc: Global,
    explanation: &Explanation,
    by: Grouping,
) -> Result<Vec<BlameRow>, AllocError>
    ensures { let e = explanation.now in IfOk result (λ rows. rows.items ≡ blame_of e.origin by (stays_in e)) }
{
    let lists = who_of(alloc, explanation, by)?;
    let mut rows = all_rows(alloc, explanation, &lists, by)?;
    rows.sort_by_key(row_key)?;
    Ok(rows)
}

// The rows in which nobody was in the way, and then those of each number.
fn all_rows(
    alloc: Global,
    explanation: &Explanation,
    lists: &[Vec<Option<u32>>],
    by: Grouping,
) -> Result<Vec<BlameRow>, AllocError>
    requires { AreWho explanation.now by lists.now }
    ensures { let e = explanation.now in IfOk result (λ rows. rows.items ≡ all_rows (who_in e by) by (stays_in e) (greatest by (stays_in e) + 1)) }
{
    let count = greatest(explanation.stays(), by) as usize + 1;
    let mut rows = Vec::new(alloc);
    push_rows(alloc, &mut rows, explanation, lists, by, None, count)?;
    for number in 0..count {
        push_rows(
            alloc,
            &mut rows,
            explanation,
            lists,
            by,
            Some(number as u32),
            count,
        )?;
    }
    Ok(rows)
}

// Puts the rows in which this number, or nobody, was in the way after the others.
fn push_rows(
    alloc: Global,
    rows: &mut Vec<BlameRow>,
    explanation: &Explanation,
    lists: &[Vec<Option<u32>>],
    by: Grouping,
    number: Option<u32>,
    count: usize,
) -> Result<(), AllocError>
    requires lists { AreWho explanation.now by lists.now }
    requires count { greatest by (stays_in explanation.now) < count }
    requires short { count ≤ 2 ^ 32 }
    ensures { let e = explanation.now in IfOk result (λ _. rows.new.items ≡ rows.old.items ++ rows_for (who_in e by) by (stays_in e) count number) }
{
    let totals = totals_of(alloc, lists, number)?;
    let amounts = amounts_of(alloc, explanation, &totals, by, count)?;
    for waiting in 0..count {
        push_row(rows, waiting as u32, number, amounts[waiting])?;
    }
    Ok(())
}

// Puts the row of these amounts after the others, if there is something in it.
#[tactic(auto, unfolding(crate::specs::BlameRows::row_of))]
fn push_row(
    rows: &mut Vec<BlameRow>,
    waiting: u32,
    by: Option<u32>,
    amounts: Amounts,
) -> Result<(), AllocError>
    ensures { IfOk result (λ _. rows.new.items ≡ rows.old.items ++ row_of waiting by amounts) }
{
    if amounts.waited == 0 {
        return Ok(());
    }
    rows.push(BlameRow {
        waiting,
        by,
        waited: amounts.waited,
        avoidable: amounts.avoidable,
        cost: amounts.cost,
    })?;
    Ok(())
}
