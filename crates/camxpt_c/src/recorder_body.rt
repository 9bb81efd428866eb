//! A boxed recorder as a pointer whose type says nothing, or none.

ghost use Rattle.std.specs.Prelude.{◌≡◌, Option, None, Some, IsTrue, is_some};
ghost use Rattle.camxpt_c.specs.Keeping.{Keeping};

use crate::raw_box::RawBox;
use crate::recorder_port::RecorderPort;
use std::alloc::Global;
use std::marker::Model;

/// A recorder in a box, by the box's pointer; or none, by a null pointer.
#[repr(C)]
#[derive(Drop)]
pub struct RecorderBody {
    at: *mut (),
    alloc: Global,
    /// What is there.
    pub ghost kept: { Option Keeping },
}

impl Model for RecorderBody {
    ghost use Rattle.std.specs.contracts.impls.GlobalAllocator.TheImpl.{ghosts};
    ghost use Rattle.camxpt_c.specs.contracts.recorder_port.RecorderPort.{the_row};
    ghost use Rattle.camxpt_c.specs.Held.{held};

    ghost also_owns = { λ body. held (ghosts.dealloc_token body.alloc) the_row body.at body.kept };
}

impl RecorderBody {
    /// The recorder's box as its pointer.
    pub fn of(port: Box<RecorderPort>) -> RecorderBody
        ensures { result.kept ≡ Some port.value }
    {
        RecorderBody::pack(RawBox::from_box(port))
    }

    /// No recorder.
    pub fn none(alloc: Global) -> RecorderBody
        ensures { result.kept ≡ None }
    {
        RecorderBody {
            at: std::ptr::null_mut(),
            alloc,
        }
    }

    /// The box again.
    pub fn into_box(self) -> Box<RecorderPort>
        requires { IsTrue (is_some self.kept) }
        ensures { self.kept ≡ Some result.value }
    {
        self.unpack().into_box()
    }

    fn pack(raw: RawBox<RecorderPort, Global>) -> RecorderBody
        ensures { result.kept ≡ Some raw.value }
    {
        let RawBox { at, alloc } = raw;
        RecorderBody {
            at: at as *mut (),
            alloc,
        }
    }

    fn unpack(self) -> RawBox<RecorderPort, Global>
        requires { IsTrue (is_some self.kept) }
        ensures { self.kept ≡ Some result.value }
    {
        let RecorderBody { at, alloc } = self;
        RawBox {
            at: at as *mut RecorderPort,
            alloc,
        }
    }
}

// The recorder may be another thread's, as one in a `Box` may.
unsafe impl Send for RecorderBody {}
