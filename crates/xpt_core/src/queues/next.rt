//! What an adapter sends next.

use cam_types::Priority;
use dev_queue::Waiting;

/// Whose turn it is on an adapter: the first stay of the device that sends next.
#[derive(Clone, Copy, Debug, PartialEq, Eq)]
pub struct Next {
    /// The number of the CCB.
    pub ccb: u32,
    /// The number of its device.
    pub device: u32,
    /// The CCB's priority.
    pub priority: Priority,
}

impl Next {
    ghost use Rattle.std.specs.Prelude.{◌≡◌};

    // The turn of a device whose first stay this is.
    pub(crate) fn new(device: u32, stay: Waiting) -> Next
        ensures { result ≡ record { ccb = stay.ccb; device = device; priority = stay.priority } }
    {
        Next {
            ccb: stay.ccb,
            device,
            priority: stay.priority,
        }
    }
}
