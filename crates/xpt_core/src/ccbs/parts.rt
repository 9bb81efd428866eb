//! The parts of the rows.

ghost use Rattle.std.specs.Prelude.{◌≡◌, ◌+◌, ◌-◌, ◌^◌, ◌<◌, ◌≤◌, slice_get, cond, is_some, IsSome};
ghost use Rattle.xpt_core.specs.Words.{find, held_count, Updates, ends};
ghost use Rattle.xpt_core.specs.Change.{fresh, next_row, IsSmall};
ghost use Rattle.xpt_core.specs.Rows.{is_row_in_flight};

use crate::ccbs::ccb::Ccb;
use cam_ccb::{CcbTable, Handle};
use event_rules::{Event, Submission};

/// What is known of the CCB after the event; nothing more where the event ends it.
pub fn next_row(row: Option<Ccb>, ccb: u32, event: &Event) -> Option<Ccb>
    requires { IsSmall row }
    ensures { result ≡ next_row ccb event.now row }
{
    let row = row?;
    if ends(ccb, event) {
        None
    } else {
        Some(row.next(ccb, event))
    }
}

// Whether the event ends the CCB.
fn ends(ccb: u32, event: &Event) -> bool
    ensures { result ≡ ends ccb event.now }
{
    (event.is_done_of(ccb) && !event.is_erring()) || event.is_finish_of(ccb)
}

/// One if the CCB is in flight, and otherwise 0.
pub fn flight(row: &Option<Ccb>) -> u32
    ensures same { result ≡ cond (is_row_in_flight row.now) 1 0 }
    ensures most { result ≤ 1 }
{
    match row {
        Some(ccb) => u32::from(ccb.in_flight),
        None => 0,
    }
}

/// The handle of the CCB of this number.
pub fn handle_at(handles: &[Handle], ccb: u32) -> Option<Handle>
    ensures { result ≡ slice_get handles.now ccb }
{
    handles.get(ccb as usize).copied()
}

/// Puts a CCB that was submitted just now under a new handle.
pub fn take(slots: &mut CcbTable<Ccb>, submission: Submission) -> Handle
    requires room { held_count slots.old < slots.old.capacity }
    requires taken { slots.old.taken < 2 ^ 32 - 1 }
    ensures number { result.number ≡ slots.old.taken }
    ensures updates { Updates slots.old slots.new result (Some (fresh submission)) }
    ensures held { held_count slots.new ≡ held_count slots.old + 1 }
    ensures rest { slots.new ≡ record slots.old { slots = slots.new.slots; taken = slots.old.taken + 1 } }
{
    let row = Ccb {
        submission,
        in_flight: false,
        recovering: false,
        outcome: None,
        counted: 0,
        attempt: 0,
    };
    match slots.take(row) {
        Ok(handle) => handle,
        Err(_) => unreachable!(),
    }
}

/// Puts a row under a handle that has one, or takes what it has away.
pub fn put(slots: &mut CcbTable<Ccb>, handle: Handle, row: Option<Ccb>)
    requires { IsSome row → IsSome (find slots.old handle) }
    ensures updates { Updates slots.old slots.new handle row }
    ensures held { held_count slots.new + cond (is_some (find slots.old handle)) 1 0 ≡ held_count slots.old + cond (is_some row) 1 0 }
    ensures rest { slots.new ≡ record slots.old { slots = slots.new.slots } }
{
    match row {
        Some(row) => {
            if let Some(place) = slots.get_mut(handle) {
                *place = row;
            }
        }
        None => {
            let _ = slots.give_back(handle);
        }
    }
}
