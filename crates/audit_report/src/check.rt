//! The check of a trace or a recording: its counts, and what its live schedule cost.

ghost use Rattle.std.specs.Prelude.{◌≡◌, ◌≢◌, None, Some, false, true, Err, IfOk, IfErr, OnOk};
ghost use Rattle.audit_report.specs.Words.{device_of, has_failed, is_flushed, live_cost, unsent};
ghost use Rattle.audit_report.specs.Inputs.{Input, WhyNoNetOf};
ghost use Rattle.audit_report.specs.Check.{check_text, IsCheck, IsCounted};
ghost use Rattle.audit_report.specs.Runs.{Ended};

use crate::audit_fault::AuditFault;
use crate::input::Input;
use crate::reading::read_input;
use cam_event::History;
use cam_types::{Watched, write_whole};
use recording_file::Recording;
use report_text::push_line;
use round_net::recorded_cost;
use std::alloc::{AllocError, Global};
use std::io::{Read, Write};
use trace_file::TraceFault;

/// Reads a trace or a recording and writes five lines on it: the version of this form, how many commands, stays and rounds
/// it has, and what its live schedule cost. Before anything is written the input is read to its end, tested and found
/// complete.
pub fn run_check<R: Read, W: Write>(
    alloc: Global,
    trace: &mut Watched<R>,
    out: &mut Watched<W>,
) -> Result<(), AuditFault>
    requires trace_calm { has_failed trace.old ≡ false }
    requires out_calm { has_failed out.old ≡ false }
    ensures ended { Ended IsCheck (R.remaining (device_of trace.old)) (R.remaining (device_of trace.new)) (has_failed trace.new) (W.contents (device_of out.old)) (W.contents (device_of out.new)) (has_failed out.new) result }
    ensures flushed { OnOk result (is_flushed out.new ≡ true) }
    ensures trace_calm { result ≢ Err (AuditFault.Trace TraceFault.ReadFailed) → has_failed trace.new ≡ false }
    ensures out_calm { result ≢ Err AuditFault.WriteFailed → has_failed out.new ≡ false }
{
    let input = read_input(alloc, trace)?;
    let text = check_text(alloc, &input)?;
    match write_whole(out, &text) {
        Ok(()) => Ok(()),
        Err(_) => Err(AuditFault::WriteFailed),
    }
}

// The five lines, if each stay has a send.
fn check_text(alloc: Global, input: &Input) -> Result<Vec<u8>, AuditFault>
    ensures text { IfOk result (λ text. IsCheck input.now text.items) }
    ensures faults { IfErr result (WhyNoNetOf input.now) }
{
    let counts = Counts::of(input)?;
    Ok(counts.text(alloc)?)
}

/// What a check counts.
#[derive(Clone, Copy)]
struct Counts {
    commands: u32,
    stays: u32,
    rounds: u32,
    live: u64,
}

impl Counts {
    // Those of an input in which each stay has a send.
    fn of(input: &Input) -> Result<Counts, AuditFault>
        ensures counted { IfOk result (IsCounted input.now) }
        ensures faults { IfErr result (WhyNoNetOf input.now) }
    {
        match input {
            Input::Trace(history) => Counts::of_history(history),
            Input::Recording(recording) => Ok(Counts::of_recording(recording)),
        }
    }

    fn of_history(history: &History) -> Result<Counts, AuditFault>
        ensures counted { IfOk result (IsCounted (Input.Trace history.now)) }
        ensures faults { IfErr result (WhyNoNetOf (Input.Trace history.now)) }
    {
        if let Some(stay) = history.unsent() {
            return Err(AuditFault::Unsent(stay));
        }
        let Some(live) = history.live_cost() else {
            unreachable!()
        };
        Ok(Counts {
            commands: history.commands(),
            stays: history.stay_count(),
            rounds: history.round(),
            live,
        })
    }

    fn of_recording(recording: &Recording) -> Counts
        ensures { IsCounted (Input.Recording recording.now) result }
    {
        let requests = recording.requests().len() as u32;
        Counts {
            commands: requests,
            stays: requests,
            rounds: recording.rounds(),
            live: recorded_cost(recording),
        }
    }

    // The lines that say them.
    fn text(self, alloc: Global) -> Result<Vec<u8>, AllocError>
        ensures { IfOk result (λ text. text.items ≡ check_text self.commands self.stays self.rounds self.live) }
    {
        let mut text = Vec::new(alloc);
        push_line(&mut text, b"camcheck", 1)?;
        push_line(&mut text, b"commands", u64::from(self.commands))?;
        push_line(&mut text, b"stays", u64::from(self.stays))?;
        push_line(&mut text, b"rounds", u64::from(self.rounds))?;
        push_line(&mut text, b"live", self.live)?;
        Ok(text)
    }
}
