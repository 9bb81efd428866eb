//! Whether the receipts of seats are those of one history.

ghost use Rattle.std.specs.Prelude.{◌≡◌, ◌≢◌, ◌↔◌, ℕ, ◌+◌, ◌<◌, ◌≤◌, true, false, Some, [], length, take, MatchBool, MatchResult, IfSome, IfNone, slice_get};
ghost use Rattle.cam_types.specs.declared.limits.TheConstants.{MAX_EVENTS};
ghost use Rattle.xpt_lock.specs.Gathers.{IsCompared, IsMisfit};
ghost use Rattle.xpt_lock.specs.Receipts.{all_receipts, marks, AreConsistent};

use crate::fault::GatherFault;
use crate::receipt::Receipt;
use crate::seat::Seat;
use std::sync::ledger::Ledger;

// Whether the seats' receipts are those of the list, each once and each seat's in its order. Marks each place that is named.
pub(crate) fn compare<L: Ledger>(
    due: &[Receipt],
    named: &mut [bool],
    seats: &[Seat<L>],
) -> Result<(), GatherFault>
    requires few { length due.now ≤ MAX_EVENTS }
    requires unmarked { named.old ≡ marks (length due.now) [] }
    ensures { IsCompared due.now seats.now result }
{
    for place in 0..seats.len() {
        if let Err(receipt) = take_seat(due, named, seats, place) {
            return Err(GatherFault::Mismatch(receipt));
        }
    }
    match first_unnamed(named) {
        Some(place) => Err(GatherFault::Unnamed(place as u32)),
        None => Ok(()),
    }
}

// Marks the places that the receipts of the seat name, up to the first that doesn't fit.
fn take_seat<L: Ledger>(
    due: &[Receipt],
    named: &mut [bool],
    seats: &[Seat<L>],
    place: usize,
) -> Result<(), Receipt>
    requires place { place < length seats.now }
    requires consistent { AreConsistent due.now (take place seats.now) }
    requires marked { named.old ≡ marks (length due.now) (all_receipts (take place seats.now)) }
    ensures { MatchResult result
        (λ _. AreConsistent due.now (take (place + 1) seats.now) × (named.new ≡ marks (length due.now) (all_receipts (take (place + 1) seats.now))))
        (λ r. IsMisfit due.now seats.now r) }
{
    let mut from = 0;
    let receipts = seats[place].receipts();
    for receipt in receipts {
        let at = receipt.at as usize;
        if !stands(due, receipt) {
            return Err(*receipt);
        }
        if at < from || named[at] {
            return Err(*receipt);
        }
        named[at] = true;
        from = at + 1;
    }
    Ok(())
}

// Whether the receipt stands in the list at the place that it names.
fn stands(due: &[Receipt], receipt: &Receipt) -> bool
    ensures { MatchBool result (slice_get due.now receipt.now.at ≡ Some receipt.now) (slice_get due.now receipt.now.at ≢ Some receipt.now) }
{
    match due.get(receipt.at as usize) {
        Some(other) => is_same(other, receipt),
        None => false,
    }
}

fn is_same(one: &Receipt, other: &Receipt) -> bool
    ensures { result ≡ true ↔ one.now ≡ other.now }
{
    *one == *other
}

// The first place without a mark.
fn first_unnamed(named: &[bool]) -> Option<usize>
    ensures some { IfSome result (λ k. (slice_get named.now k ≡ Some false) × ((j : ℕ) → j < k → slice_get named.now j ≡ Some true)) }
    ensures none { IfNone result ((j : ℕ) → j < length named.now → slice_get named.now j ≡ Some true) }
{
    for place in 0..named.len() {
        if !named[place] {
            return Some(place);
        }
    }
    None
}
