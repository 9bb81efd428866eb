//! The caps of a history's rows.

ghost use Rattle.std.specs.Prelude.{◌≡◌, ◌+◌, ◌<◌, [], OnOk};
ghost use Rattle.round_net.specs.Caps.{resource_count};
ghost use Rattle.round_net.specs.Nets.{net_of};
ghost use Rattle.conversions.specs.Recorded.{caps_of, recorded_with};

use crate::parts::{openings, part_of_resource};
use crate::runs::{begins_run, run_cap};
use cam_event::History;
use recording_file::Recorder;
use round_net::Net;
use std::alloc::AllocError;

/// Adds the caps of all rows: the devices', then the adapters', then the links'. It fails only if there is no memory.
pub fn add_caps(recorder: &mut Recorder, history: &History, net: &Net) -> Result<(), AllocError>
    requires net { net.now ≡ net_of history.now.config history.now.events }
    requires none { recorder.old ≡ recorded_with history.now [] [] }
    ensures { OnOk result (recorder.new ≡ recorded_with history.now (caps_of history.now.config history.now.events (resource_count history.now.config)) []) }
{
    for row in 0..net.rows() {
        add_resource_caps(recorder, history, net, row)?;
    }
    Ok(())
}

// Adds the caps of a row after those of the rows before it.
fn add_resource_caps(
    recorder: &mut Recorder,
    history: &History,
    net: &Net,
    row: u32,
) -> Result<(), AllocError>
    requires net { net.now ≡ net_of history.now.config history.now.events }
    requires row { row < resource_count history.now.config }
    requires before { recorder.old ≡ recorded_with history.now (caps_of history.now.config history.now.events row) [] }
    ensures { OnOk result (recorder.new ≡ recorded_with history.now (caps_of history.now.config history.now.events (row + 1)) []) }
{
    let config = history.config();
    let part = part_of_resource(config, row);
    let usual = openings(config, part);
    for before in 0..history.round() {
        let first = before + 1;
        if begins_run(history, net, row, usual, first) {
            recorder.add_cap(run_cap(history, net, part, row, first))?;
        }
    }
    Ok(())
}
