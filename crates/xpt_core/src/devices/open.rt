//! The queues of devices to which nothing has happened.
ghost use Rattle.std.specs.Prelude.{◌≡◌, map, IfOk};
ghost use Rattle.xpt_core.specs.Device.{new_device};

use cam_types::Device;
use dev_queue::DevQueue;
use std::alloc::{AllocError, Global};

/// An empty queue for each device, with memory for that many stays.
pub(crate) fn open_queues(
    alloc: Global,
    devices: &[Device],
    stays: usize,
) -> Result<Vec<DevQueue>, AllocError>
    ensures { IfOk result (λ queues. queues.items ≡ map (new_device stays) devices.now) }
{
    let mut queues = Vec::with_capacity(alloc, devices.len())?;
    for device in devices {
        queues.push_reserved(DevQueue::open(alloc, device.openings, stays)?);
    }
    Ok(queues)
}
