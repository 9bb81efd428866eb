//! A boxed port as a pointer whose type says nothing, or none.

ghost use Rattle.std.specs.Prelude.{◌≡◌, Option, None, Some, IsTrue, is_some};
ghost use Rattle.camxpt_c.specs.Attached.{Attached};

use crate::port::Port;
use crate::raw_box::RawBox;
use std::alloc::Global;
use std::marker::Model;

/// A port in a box, by the box's pointer; or none, by a null pointer.
#[repr(C)]
#[derive(Drop)]
pub struct Body {
    at: *mut (),
    alloc: Global,
    /// What is there.
    pub ghost kept: { Option Attached },
}

impl Model for Body {
    ghost use Rattle.std.specs.contracts.impls.GlobalAllocator.TheImpl.{ghosts};
    ghost use Rattle.camxpt_c.specs.contracts.port.Port.{the_row};
    ghost use Rattle.camxpt_c.specs.Held.{held};

    ghost also_owns = { λ body. held (ghosts.dealloc_token body.alloc) the_row body.at body.kept };
}

impl Body {
    /// The port's box as its pointer.
    pub fn of(port: Box<Port>) -> Body
        ensures { result.kept ≡ Some port.value }
    {
        Body::pack(RawBox::from_box(port))
    }

    /// No port.
    pub fn none(alloc: Global) -> Body
        ensures { result.kept ≡ None }
    {
        Body {
            at: std::ptr::null_mut(),
            alloc,
        }
    }

    /// The box again.
    pub fn into_box(self) -> Box<Port>
        requires { IsTrue (is_some self.kept) }
        ensures { self.kept ≡ Some result.value }
    {
        self.unpack().into_box()
    }

    fn pack(raw: RawBox<Port, Global>) -> Body
        ensures { result.kept ≡ Some raw.value }
    {
        let RawBox { at, alloc } = raw;
        Body {
            at: at as *mut (),
            alloc,
        }
    }

    fn unpack(self) -> RawBox<Port, Global>
        requires { IsTrue (is_some self.kept) }
        ensures { self.kept ≡ Some result.value }
    {
        let Body { at, alloc } = self;
        RawBox {
            at: at as *mut Port,
            alloc,
        }
    }
}

// The port may be another thread's, as one in a `Box` may.
unsafe impl Send for Body {}
