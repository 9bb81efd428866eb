//! What is known of all CCBs that are alive, by number.

use crate::ccbs::ccb::Ccb;
use crate::ccbs::parts::{flight, handle_at, next_row, put, take};
use cam_ccb::{CcbTable, Handle};
use event_rules::{Event, Submission};
use std::alloc::{AllocError, Global};
use std::marker::Model;

/// What is known of each CCB that is alive, by its number: the count of the submissions before it. Nothing grows after
/// `open`, and each call takes constant time.
#[derive(Drop)]
pub(crate) struct Rows {
    slots: CcbTable<Ccb>,
    handles: Vec<Handle>,
    in_flight: u32,
}

impl Model for Rows {
    ghost use Rattle.std.specs.Prelude.{vec_capacity};
    ghost use Rattle.xpt_core.specs.Rows.{RowTable, rows_in, IsTable};

    ghost Value = { RowTable };

    ghost view = { λ r. record { rows = rows_in r.slots r.handles.items; slots = r.slots.capacity; room = vec_capacity r.handles } };

    ghost invariant = { λ r. IsTable r.slots r.handles.items (vec_capacity r.handles) r.in_flight };
}

impl Rows {
    ghost use Rattle.std.specs.Prelude.{◌≡◌, ◌<◌, [], ◌∷◌, ◌++◌, length, Some, None, is_some, All, count_by, slice_index_or, IfOk};
    ghost use Rattle.std.specs.Option.{option_copied};
    ghost use Rattle.xpt_core.specs.Change.{fresh, updated_at, IsSmall};
    ghost use Rattle.xpt_core.specs.Rows.{updated, is_row_in_flight, CanUpdate};

    /// Knows of no CCB, and has memory for that many at once and in all.
    pub fn open(alloc: Global, slots: u32, room: u32) -> Result<Rows, AllocError>
        ensures { IfOk result (λ r. r ≡ record { rows = []; slots = slots; room = room }) }
    {
        Ok(Rows {
            slots: CcbTable::with_capacity(alloc, slots as usize)?,
            handles: Vec::with_capacity(alloc, room as usize)?,
            in_flight: 0,
        })
    }

    /// Updates the rows by one event more. It takes no memory.
    pub fn update(&mut self, event: &Event)
        requires { CanUpdate event.now self.old }
        ensures { self.new ≡ record self.old { rows = updated event.now self.old.rows } }
    {
        match (event.submission(), event.ccb()) {
            (Some(submission), _) => self.submit(submission),
            (None, Some(ccb)) => self.change(ccb, event),
            (None, None) => {}
        }
    }

    // Takes in a CCB under the next number.
    fn submit(&mut self, submission: Submission)
        requires alive { count_by is_some self.old.rows < self.old.slots }
        requires room { length self.old.rows < self.old.room }
        ensures { self.new ≡ record self.old { rows = self.old.rows ++ Some (fresh submission) ∷ [] } }
    {
        let handle = take(&mut self.slots, submission);
        self.handles.push_reserved(handle);
    }

    // Changes the row of the CCB as the event says.
    fn change(&mut self, ccb: u32, event: &Event)
        requires { All IsSmall self.old.rows }
        ensures { self.new ≡ record self.old { rows = updated_at event.now self.old.rows ccb } }
    {
        let Some(handle) = handle_at(&self.handles, ccb) else {
            return;
        };
        let old = self.slots.get(handle).copied();
        let new = next_row(old, ccb, event);
        self.in_flight = self.in_flight - flight(&old) + flight(&new);
        put(&mut self.slots, handle, new);
    }

    /// What is known of the CCB of this number.
    pub fn get(&self, ccb: u32) -> Option<&Ccb>
        ensures { option_copied result ≡ slice_index_or self.now.rows ccb None }
    {
        let handle = handle_at(&self.handles, ccb)?;
        self.slots.get(handle)
    }

    /// How many CCBs are alive.
    pub fn alive(&self) -> u32
        ensures { result ≡ count_by is_some self.now.rows }
    {
        self.slots.len() as u32
    }

    /// How many CCBs are in flight.
    pub fn in_flight(&self) -> u32
        ensures { result ≡ count_by is_row_in_flight self.now.rows }
    {
        self.in_flight
    }
}
