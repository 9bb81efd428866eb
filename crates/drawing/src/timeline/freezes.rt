//! The freezes of a timeline.

use crate::timeline::document::{adapter_process, device_process};
use crate::timeline::writer::{EventWriter, Track};
use round_net::Net;
use std::alloc::AllocError;
use wait_causes::{Explanation, Freeze, FreezeKind};

/// How many rows there are for freezes before those of requests: one by errors, and one by callers.
pub(crate) const FREEZE_ROWS: u32 = 2;

/// Puts the freezes of a trace.
pub(crate) fn put_freezes(
    writer: &mut EventWriter,
    net: &Net,
    explanation: &Explanation,
) -> Result<(), AllocError> {
    let mut latest = None;
    for freeze in &explanation.freezes(writer.alloc)? {
        let (track, name) = place_of(net, freeze);
        // They come by kind and number, so that those of a row stand together.
        if latest != Some(track) {
            writer.row(track, name)?;
        }
        latest = Some(track);
        writer.slice(
            track,
            name,
            (freeze.first, freeze.last),
            &[("cost", freeze.cost)],
        )?;
    }
    Ok(())
}

// Where a freeze stands, and what it is called.
fn place_of(net: &Net, freeze: &Freeze) -> (Track, &'static str) {
    let (process, row, name) = match freeze.kind {
        FreezeKind::Error => (device_process(freeze.number), 1, "frozen by an error"),
        FreezeKind::Caller => (device_process(freeze.number), 2, "frozen by a caller"),
        FreezeKind::Adapter => (adapter_process(net, freeze.number), 1, "frozen by a caller"),
    };
    (Track { process, row }, name)
}
