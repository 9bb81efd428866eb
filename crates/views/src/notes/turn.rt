//! Whose turn it was where a send was refused.

ghost use Rattle.std.specs.Prelude.{IfSome};
ghost use Rattle.views.specs.Turn.{IsTurn};

use cam_types::Watched;
use std::alloc::Global;
use trace_file::read_trace;

/// The CCB that the lane of a send could have sent after the records before it. There is none if the lane could send nothing,
/// or no memory is left.
pub(crate) fn turn_at(alloc: Global, front: &[u8], send: &[u8]) -> Option<u32> {
    turn_after(alloc, front, lane_of(send)?)
}

// The CCB whose turn it was on a lane after the events of a trace.
fn turn_after(alloc: Global, front: &[u8], lane: u32) -> Option<u32>
    ensures { IfSome result (λ ccb. IsTurn front.now lane ccb) }
{
    match read_trace(alloc, &mut Watched::new(front)) {
        Ok(history) => history.next_ccb(lane),
        Err(_) => None,
    }
}

// The lane in the record of a send: its second field.
fn lane_of(send: &[u8]) -> Option<u32> {
    let field = send.split(|byte| *byte == b',').nth(1)?;
    std::str::from_utf8(field).ok()?.parse().ok()
}
