//! Which devices are ready, as the adapters know it.
ghost use Rattle.std.specs.Prelude.{◌≡◌, ◌<◌, length, map};
ghost use Rattle.cam_types.specs.Questions.{device_adapter};
ghost use Rattle.xpt_core.specs.AdapterUpdates.{with_ready, all_ready, refreshed, AreAdapters, IsThere};
ghost use Rattle.xpt_core.specs.Places.{at_place};

use crate::devices::Devices;
use crate::queues::affected::Affected;
use sim_queue::SimQueue;

/// Asks the devices that were affected anew whether they are ready.
pub(crate) fn refresh(sims: &mut Vec<SimQueue>, devices: &Devices, affected: Affected)
    requires there { IsThere devices.now.config affected }
    requires adapters { AreAdapters devices.now.config sims.old.items }
    ensures { sims.new.items ≡ refreshed devices.now.config devices.now.events affected sims.old.items }
{
    match affected {
        Affected::Nothing => {}
        Affected::One(device) => refresh_one(sims, devices, device),
        Affected::All => refresh_all(sims, devices),
    }
}

// Asks a device.
fn refresh_one(sims: &mut Vec<SimQueue>, devices: &Devices, device: u32)
    requires there { device < length devices.now.config.devices }
    requires adapters { AreAdapters devices.now.config sims.old.items }
    ensures { sims.new.items ≡ at_place (device_adapter devices.now.config device) (with_ready devices.now.config devices.now.events device) sims.old.items }
{
    let adapter = devices.config().device_adapter(device).unwrap();
    let priority = devices.ready_priority(device);
    let sim = &mut sims[adapter as usize];
    sim.set_ready(device, priority);
}

// Asks all devices.
fn refresh_all(sims: &mut Vec<SimQueue>, devices: &Devices)
    requires { AreAdapters devices.now.config sims.old.items }
    ensures { sims.new.items ≡ map (all_ready devices.now.config devices.now.events) sims.old.items }
{
    for device in 0..devices.config().devices().len() {
        refresh_one(sims, devices, device as u32);
    }
}
