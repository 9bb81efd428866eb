//! In how many rounds of a device which number was in the way.

ghost use Rattle.std.specs.Prelude.{◌≡◌, ◌≤◌, ℕ, map, count_by, length, Option, IfOk};
ghost use Rattle.std.specs.Option.{option_map};
ghost use Rattle.std.specs.List.{range_with_len};
ghost use Rattle.wait_causes.specs.Explained.{Explained};
ghost use Rattle.wait_causes.specs.Tables.{number};
ghost use Rattle.wait_causes.specs.declared.table.Grouping.{Grouping as Groupings};
ghost use Rattle.wait_causes.specs.Totals.{totals_by};
ghost use Rattle.wait_causes.specs.BlameAmounts.{is_who, rounds_for};
ghost use Rattle.wait_causes.specs.BlameLists.{AreWho, AreTotals};

use crate::blame::in_way::in_way_of;
use crate::explained_stay::ExplainedStay;
use crate::explanation::Explanation;
use crate::table::{Grouping, groups_of};
use std::alloc::{AllocError, Global};

/// The number of who was in the way, for each device and each of its rounds.
pub(crate) fn who_of(
    alloc: Global,
    explanation: &Explanation,
    by: Grouping,
) -> Result<Vec<Vec<Option<u32>>>, AllocError>
    ensures { IfOk result (λ lists. AreWho explanation.now by lists.items) }
{
    let devices = explanation.devices();
    let own = groups_of(
        alloc,
        explanation.stays(),
        Grouping::Device,
        devices as usize,
    )?;
    let mut lists = Vec::with_capacity(alloc, devices as usize)?;
    for device in 0..devices {
        let ways = in_way_of(alloc, explanation, device, &own[device as usize])?;
        lists.push(numbers_of(alloc, &ways, by)?)?;
    }
    Ok(lists)
}

// The numbers of these stays.
fn numbers_of(
    alloc: Global,
    ways: &[Option<ExplainedStay>],
    by: Grouping,
) -> Result<Vec<Option<u32>>, AllocError>
    ensures { IfOk result (λ numbers. numbers.items ≡ map (option_map (number by)) ways.now) }
{
    ways.iter().map(|way| number_of(*way, by)).collect(alloc)
}

fn number_of(way: Option<ExplainedStay>, by: Grouping) -> Option<u32>
    ensures { result ≡ option_map (number by) way }
{
    match way {
        Some(stay) => Some(by.number(&stay)),
        None => None,
    }
}

/// For each device and each of its rounds in how many rounds before it this number was in the way.
pub(crate) fn totals_of(
    alloc: Global,
    lists: &[Vec<Option<u32>>],
    by: Option<u32>,
) -> Result<Vec<Vec<usize>>, AllocError>
    ensures { IfOk result (λ totals. (e : Explained) (of : Groupings) → AreWho e of lists.now → AreTotals e of by totals.items) }
{
    let mut totals = Vec::with_capacity(alloc, lists.len())?;
    for list in lists {
        totals.push(counts_of(alloc, list, by)?)?;
    }
    Ok(totals)
}

// For each number of a list how many of those before it are this one.
fn counts_of(alloc: Global, list: &[Option<u32>], by: Option<u32>) -> Result<Vec<usize>, AllocError>
    ensures { IfOk result (λ counts. (f : ℕ → Option ℕ) → list.now ≡ map f (range_with_len 1 (length list.now)) → counts.items ≡ totals_by (count_by (is_who by)) f (length list.now)) }
{
    let mut counts = Vec::with_capacity(alloc, list.len())?;
    let mut so_far = 0;
    for number in list {
        counts.push(so_far)?;
        if is_who(by, *number) {
            so_far += 1;
        }
    }
    Ok(counts)
}

// Whether the two are one number.
fn is_who(one: Option<u32>, other: Option<u32>) -> bool
    ensures { result ≡ is_who one other }
{
    match (one, other) {
        (None, None) => true,
        (Some(one), Some(other)) => one == other,
        _ => false,
    }
}

/// Of the rounds from one to the one before another how many this number was in the way in, by the totals of the device.
pub(crate) fn rounds_between(totals: &[usize], from: u32, to: u32) -> u64
    requires first { 1 ≤ from }
    requires last { to ≤ length totals.now }
    requires totals { (of : ℕ → Option ℕ) × (m : Option ℕ) × (totals.now ≡ totals_by (count_by (is_who m)) of (length totals.now)) }
    ensures found { (who : ℕ → ℕ → Option ℕ) (m : Option ℕ) (d : ℕ) → totals.now ≡ totals_by (count_by (is_who m)) (who d) (length totals.now) → result ≡ rounds_for who m d from to }
    ensures few { result ≤ to }
{
    if to <= from {
        return 0;
    }
    totals[to as usize - 1].saturating_sub(totals[from as usize - 1]) as u64
}
