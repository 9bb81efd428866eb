//! The recording of a history.

ghost use Rattle.std.specs.Prelude.{◌≡◌, Err, None, IfOk, MatchOption, IsOkUnless};
ghost use Rattle.event_rules.specs.Stays.{unsent};
ghost use Rattle.round_net.specs.Nets.{net_of, instance_of, live_of};
ghost use Rattle.round_net.specs.RecordedNets.{instance_of_recording, live_of_recording};
ghost use Rattle.round_net.specs.declared.net_fault.NetFault.TheVariants as NetFault;
ghost use Rattle.round_net.specs.declared.price_range.TheConstants.{MAX_NET_PRICE};
ghost use Rattle.conversions.specs.Recorded.{recorded_of};

use crate::bare_config::without_lanes;
use crate::resource_caps::add_caps;
use crate::stay_requests::add_requests;
use cam_event::History;
use recording_file::{Recorder, Recording};
use round_net::{Net, NetFault};
use std::alloc::{AllocError, Global};

/// The recording of a complete history: its rounds, its configuration without lanes, a cap for each longest run of
/// rounds in which a device, an adapter or a link takes one number of commands that isn't its openings, and a request
/// for each stay, in creation order. There is no unit and there are no names.
///
/// # Errors
///
/// `Unsent` names the first stay in creation order that has no send. `OutOfMemory` if no memory is left.
pub fn recording_of(alloc: Global, history: &History) -> Result<Recording, NetFault>
    ensures answer { MatchOption (unsent history.now.events)
        (IsOkUnless result NetFault.OutOfMemory)
        (λ stay. result ≡ Err (NetFault.Unsent stay)) }
    ensures recording { IfOk result (λ r. r ≡ recorded_of history.now) }

    // Its net is that of the history, but for the most that an opening may be worth. Its stays were sent in the same
    // rounds.
    ensures net { IfOk result (λ r. instance_of_recording r ≡ record (instance_of history.now.config history.now.events) { max_price = MAX_NET_PRICE }) }
    ensures live { IfOk result (λ r. live_of_recording r ≡ live_of history.now.config history.now.events) }
{
    let net = Net::of(alloc, history)?;
    let recording = recording_by(alloc, history, &net)?;
    Ok(recording)
}

// The same of a complete history where its net is at hand. It fails only if there is no memory.
fn recording_by(alloc: Global, history: &History, net: &Net) -> Result<Recording, AllocError>
    requires complete { unsent history.now.events ≡ None }
    requires net { net.now ≡ net_of history.now.config history.now.events }
    ensures { IfOk result (λ r. r ≡ recorded_of history.now) }
{
    let config = without_lanes(alloc, history.config())?;
    let mut recorder = Recorder::new(alloc, None, history.round(), config, false);
    add_caps(&mut recorder, history, net)?;
    add_requests(alloc, &mut recorder, history)?;
    Ok(recorder.finish())
}
