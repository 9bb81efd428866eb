//! A transport as a struct of C's: open or closed.

ghost use Rattle.std.specs.Prelude.{◌≡◌, None, Some, is_some, ◌==◌, MatchOption};
ghost use Rattle.camxpt_c.specs.declared.handle.TheConstants.{OPEN};

use crate::body::Body;
use crate::port::Port;
use std::alloc::Global;
use std::mem::replace;

/// What `state` is if the transport is open. With any other number it is closed.
pub const OPEN: u32 = 0x5854_5043;

/// A transport, if it is open. If all its bytes are zero, it is closed.
#[repr(C)]
#[derive(Drop)]
pub struct CamXpt {
    body: Body,
    state: u32,
    ghost tells: { (state == OPEN) ≡ is_some body.kept },
}

impl CamXpt {
    /// A closed one.
    pub fn closed(alloc: Global) -> CamXpt
        ensures { result.body.kept ≡ None }
    {
        CamXpt {
            body: Body::none(alloc),
            state: 0,
        }
    }

    /// An open one.
    pub fn opened(port: Box<Port>) -> CamXpt
        ensures { result.body.kept ≡ Some port.value }
    {
        CamXpt {
            body: Body::of(port),
            state: OPEN,
        }
    }

    /// Takes the transport out, if the handle is open. Then it is closed.
    pub fn take(&mut self, alloc: Global) -> Option<Box<Port>>
        ensures closed { self.new.body.kept ≡ None }
        ensures value { MatchOption result (self.old.body.kept ≡ None) (λ port. self.old.body.kept ≡ Some port.value) }
    {
        if self.state != OPEN {
            return None;
        }
        let CamXpt { body, state: _ } = replace(self, CamXpt::closed(alloc));
        Some(body.into_box())
    }

    /// Puts a transport in. One that was there is dropped.
    pub fn put(&mut self, port: Box<Port>)
        ensures { self.new.body.kept ≡ Some port.value }
    {
        *self = CamXpt::opened(port);
    }
}

fn sends<T: Send>(value: T) -> T {
    value
}

/// A handle may go to another thread.
pub fn is_sent(handle: CamXpt) -> CamXpt {
    sends(handle)
}
