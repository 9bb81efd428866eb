//! How many requests each device, adapter and link takes in each round.

ghost use Rattle.std.specs.Prelude.{IfOk};
ghost use Rattle.recording_file.specs.Caps.{cap_in};
ghost use Rattle.recording_file.specs.Room.{Holds};

use crate::recording::Recording;
use crate::room::new_room;
use std::alloc::{AllocError, Global};

/// How many requests each device, adapter and link takes in each round of the recording: its openings, unless a cap says
/// otherwise. `cell_of` says where in the list.
pub fn cap_table(alloc: Global, recording: &Recording) -> Result<Vec<u32>, AllocError>
    ensures { IfOk result (λ cells. Holds recording.now.rounds (cap_in recording.now.config recording.now.caps) cells.items) }
{
    let cells = new_room(
        alloc,
        recording.rounds(),
        recording.config(),
        recording.caps(),
    )?;
    Ok(cells)
}
