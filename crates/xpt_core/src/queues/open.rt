//! The queues of adapters to which nothing has happened.
ghost use Rattle.std.specs.Prelude.{◌≡◌, IfOk};
ghost use Rattle.xpt_core.specs.Known.{nothing, devices_on, adapters_of};

use cam_types::Config;
use sim_queue::SimQueue;
use std::alloc::{AllocError, Global};

/// A queue for each adapter, with its devices, none of which is ready or was sent to.
pub(crate) fn open_queues(alloc: Global, config: &Config) -> Result<Vec<SimQueue>, AllocError>
    ensures { IfOk result (λ sims. sims.items ≡ adapters_of config.now nothing) }
{
    let adapters = config.adapters();
    let mut sims = Vec::with_capacity(alloc, adapters.len())?;
    for adapter in 0..adapters.len() {
        let devices = devices_on(alloc, config, adapter as u32)?;
        sims.push_reserved(SimQueue::open(alloc, adapters[adapter].openings, &devices)?);
    }
    Ok(sims)
}

// The devices on an adapter.
fn devices_on(alloc: Global, config: &Config, adapter: u32) -> Result<Vec<u32>, AllocError>
    ensures { IfOk result (λ numbers. numbers.items ≡ devices_on config.now adapter) }
{
    let devices = config.devices();
    let mut numbers = Vec::with_capacity(alloc, devices.len())?;
    for device in 0..devices.len() {
        if u32::from(devices[device].bus) == adapter {
            numbers.push_reserved(device as u32);
        }
    }
    Ok(numbers)
}
