//! Makes the script of a recorded load: what its drivers asked for, to be run again under other settings.

ghost use Rattle.std.specs.Prelude.{◌≡◌, false};
ghost use Rattle.cam_types.specs.Watched.{has_failed};

use crate::failure::Failure;
use audit_report::{Input, read_input};
use cam_types::Watched;
use conversions::{Scripted, script_of, script_of_recording};
use std::alloc::Global;
use std::io::Read;

/// Says on standard error what the script of a load leaves out, and where a run of it may differ.
pub fn tell_left_out(rt: &HostRuntime, made: &Scripted) {
    for (count, before, after) in [
        (
            made.settings,
            "left out: ",
            " freezes, releases and adjustments",
        ),
        (
            made.in_flight,
            "warning: ",
            " commands in flight at the end complete plainly in the script",
        ),
        (
            made.others,
            "warning: ",
            " results that aren't plain may come to other commands in a run",
        ),
    ] {
        if count > 0 {
            let _ = rt.eprintln(format_args!("camxpt: {before}{count}{after}"));
        }
    }
}

/// The script of a trace's submits and results, or of a recording's requests, which has all of them.
pub fn scripted<D: Read>(alloc: Global, input: &mut Watched<D>) -> Result<Scripted, Failure>
    requires { has_failed input.old ≡ false }
{
    match read_input(alloc, input)? {
        Input::Trace(history) => Ok(script_of(alloc, &history)?),
        Input::Recording(recording) => Ok(Scripted {
            script: script_of_recording(alloc, &recording)?,
            others: 0,
            in_flight: 0,
            settings: 0,
        }),
    }
}
