//! What the program says on standard error if it fails: why, and what helps to find the fault of an input, and a file that can't be
//! read or written.

use crate::failure::Failure;
use crate::source::{STANDARD_INPUT, Source};
use audit_report::AuditFault;
use capture_file::failed;
use recording_file::RecordingFault;
use report_text::ReportFault;
use std::alloc::Global;
use std::process::ExitCode;
use std::{fmt, io};
use trace_file::TraceFault;
use views::{recording_note, report_note, shown_name, trace_note, unsent_note};

/// What standard output is called in a note.
pub const STANDARD_OUTPUT: &str = "standard output";

/// Says why the program failed. Answers the status that says so.
pub fn tell(rt: &HostRuntime, failure: &Failure) -> ExitCode {
    let _ = rt.eprintln(format_args!("camxpt: {failure}"));
    failure.exit_code()
}

/// Says what the fault of a file is, with the file's name.
pub fn tell_of<F: fmt::Display>(rt: &HostRuntime, name: &str, fault: &F) {
    let _ = match shown_name(rt.alloc(), title(name)) {
        Ok(name) => rt.eprintln(format_args!("camxpt: {name}: {fault}")),
        Err(_) => rt.eprintln(format_args!("camxpt: {fault}")),
    };
}

/// Prints a note, if there is one.
pub fn tell_note(rt: &HostRuntime, note: Option<String>) {
    if let Some(note) = note {
        let _ = rt.eprint(&note);
    }
}

/// Some lines on where a failure stands in the trace, recording, script or report that it is of, and what stands there; or on why a read
/// of it failed. There are none if nothing was kept of it, or the failure is another.
pub fn note_on<D>(alloc: Global, failure: &Failure, input: &Source<'_, D>) -> Option<String> {
    let (name, text) = (title(input.name), input.kept()?);
    let Failure::Audit(fault) = failure else {
        return None;
    };
    match fault {
        AuditFault::Trace(TraceFault::ReadFailed) | AuditFault::Report(ReportFault::ReadFailed) => {
            reason_note(alloc, input.name, input.failed()?)
        }
        AuditFault::Trace(fault) => trace_note(alloc, name, text, fault).ok(),
        AuditFault::Recording(fault) => recording_note(alloc, name, text, fault).ok(),
        AuditFault::Unsent(stay) => unsent_note(alloc, name, text, *stay).ok(),
        AuditFault::Report(fault) => report_note(alloc, name, text, fault).ok(),
        AuditFault::WriteFailed | AuditFault::OutOfMemory => None,
    }
}

/// Whether a text isn't a trace or a recording by its first record.
pub fn is_bad_header(failure: &Failure) -> bool {
    matches!(
        failure,
        Failure::Audit(
            AuditFault::Trace(TraceFault::BadHeader)
                | AuditFault::Recording(RecordingFault::BadHeader)
        )
    )
}

/// What a capture is that was given in the place of a trace or a recording, and what to do with it.
pub fn capture_note<D>(alloc: Global, failure: &Failure, input: &Source<'_, D>) -> Option<String> {
    match failure {
        failure if is_bad_header(failure) => {
            let front = input.front();
            if let Some(packed) = front.packed() {
                return format!(in alloc; "camxpt: {packed}\n").ok();
            }
            let (kind, what) = front.capture()?;
            format!(in alloc;
                "camxpt: this is a capture, {what}: `camxpt import --from {kind}` makes a recording of it\n"
            ).ok()
        }
        Failure::Audit(
            AuditFault::Trace(TraceFault::ReadFailed)
            | AuditFault::Recording(RecordingFault::ReadFailed),
        ) if input
            .failed()
            .is_some_and(|error| failed(&error) != "read failed") => {
            format!(in alloc; "camxpt: {}\n", failed(&input.failed()?)).ok()
        }
        _ => None,
    }
}

/// A line with the name of a file and the system's reason.
pub fn reason_note(alloc: Global, name: &str, error: io::Error) -> Option<String> {
    let shown = shown_name(alloc, title(name)).ok()?;
    format!(in alloc; "  {shown}: {error}\n").ok()
}

/// The name of a file as a reader knows it.
pub fn title(name: &str) -> &str {
    if name == STANDARD_INPUT {
        "standard input"
    } else {
        name
    }
}
