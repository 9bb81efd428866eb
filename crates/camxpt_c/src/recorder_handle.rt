//! A recorder as a struct of C's: open or closed.

ghost use Rattle.std.specs.Prelude.{◌≡◌, None, Some, is_some, ◌==◌, MatchOption};
ghost use Rattle.camxpt_c.specs.declared.recorder_handle.TheConstants.{RECORDING};

use crate::recorder_body::RecorderBody;
use crate::recorder_port::RecorderPort;
use std::alloc::Global;
use std::mem::replace;

/// What `state` is if the recorder is open. With any other number it is closed.
pub const RECORDING: u32 = 0x5854_5052;

/// A recorder, if it is open. If all its bytes are zero, it is closed.
#[repr(C)]
#[derive(Drop)]
pub struct CamXptRecorder {
    body: RecorderBody,
    state: u32,
    ghost tells: { (state == RECORDING) ≡ is_some body.kept },
}

impl CamXptRecorder {
    /// A closed one.
    pub fn closed(alloc: Global) -> CamXptRecorder
        ensures { result.body.kept ≡ None }
    {
        CamXptRecorder {
            body: RecorderBody::none(alloc),
            state: 0,
        }
    }

    /// An open one.
    pub fn opened(port: Box<RecorderPort>) -> CamXptRecorder
        ensures { result.body.kept ≡ Some port.value }
    {
        CamXptRecorder {
            body: RecorderBody::of(port),
            state: RECORDING,
        }
    }

    /// Takes the recorder out, if the handle is open. Then it is closed.
    pub fn take(&mut self, alloc: Global) -> Option<Box<RecorderPort>>
        ensures closed { self.new.body.kept ≡ None }
        ensures value { MatchOption result (self.old.body.kept ≡ None) (λ port. self.old.body.kept ≡ Some port.value) }
    {
        if self.state != RECORDING {
            return None;
        }
        let CamXptRecorder { body, state: _ } = replace(self, CamXptRecorder::closed(alloc));
        Some(body.into_box())
    }

    /// Puts a recorder in. One that was there is dropped.
    pub fn put(&mut self, port: Box<RecorderPort>)
        ensures { self.new.body.kept ≡ Some port.value }
    {
        *self = CamXptRecorder::opened(port);
    }
}

fn sends<T: Send>(value: T) -> T {
    value
}

/// A recorder's handle may go to another thread.
pub fn recorder_is_sent(handle: CamXptRecorder) -> CamXptRecorder {
    sends(handle)
}
