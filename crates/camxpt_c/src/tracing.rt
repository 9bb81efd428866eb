//! The trace of a transport.

ghost use Rattle.std.specs.Prelude.{◌≡◌, ◌++◌, ◌<◌, length, drop, IfOk, MatchOption};
ghost use Rattle.trace_file.specs.Writing.{trace_text};
ghost use Rattle.camxpt_c.specs.Tracing.{IsTraceOf, IsCopy};
ghost use Rattle.camxpt_c.specs.declared.codes.TheConstants.{OK, E_CLOSED, E_SPACE};

use crate::codes::{E_CLOSED, E_MEMORY, E_SPACE, OK};
use crate::handle::CamXpt;
use cam_event::History;
use std::alloc::{AllocError, Global};
use trace_file::trace_bytes;
use xpt_state::Xpt;

/// Writes the trace of all events so far to the start of the buffer, and gives its length. If the buffer is too small, it is
/// left as it is.
#[unsafe(no_mangle)]
pub extern "C" fn camxpt_raw_trace(
    alloc: Global,
    handle: &mut CamXpt,
    buffer: &mut [u8],
    needed: &mut usize,
) -> i32
    ensures same { handle.new.body.kept ≡ handle.old.body.kept }
    ensures trace { MatchOption handle.old.body.kept
        ((result ≡ E_CLOSED) × (buffer.new ≡ buffer.old) × (needed.new ≡ needed.old))
        (λ p. IsTraceOf (record { config = p.xpt.config; events = p.xpt.events }) buffer.old needed.old buffer.new needed.new result) }
{
    let Some(port) = handle.take(alloc) else {
        return E_CLOSED;
    };
    let text = text_of(alloc, port.xpt());
    handle.put(port);
    let Ok(text) = text else {
        return E_MEMORY;
    };
    *needed = text.len();
    copy_text(&text, buffer)
}

/// Copies the text to the start of the buffer, if there is room.
pub(crate) fn copy_text(text: &[u8], buffer: &mut [u8]) -> i32
    ensures { IsCopy text.now buffer.old buffer.new result }
{
    if text.len() > buffer.len() {
        return E_SPACE;
    }
    buffer[..text.len()].copy_from_slice(text);
    OK
}

fn text_of(alloc: Global, xpt: &Xpt) -> Result<Vec<u8>, AllocError>
    ensures { IfOk result (λ text. text.items ≡ trace_text (record { config = xpt.now.config; events = xpt.now.events })) }
{
    let history = history_of(alloc, xpt)?;
    trace_bytes(alloc, &history)
}

// A history of the transport's events.
fn history_of(alloc: Global, xpt: &Xpt) -> Result<History, AllocError>
    ensures { IfOk result (λ h. h ≡ record { config = xpt.now.config; events = xpt.now.events }) }
{
    let mut history = History::new(alloc, xpt.config().copy(alloc)?)?;
    for event in xpt.events() {
        if history.push(*event).is_err() {
            return Err(AllocError);
        }
    }
    Ok(history)
}
