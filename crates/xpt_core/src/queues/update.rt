//! What an event makes of the adapters' queues, apart from which devices are ready.
ghost use Rattle.std.specs.Prelude.{◌≡◌, ◌+◌, ◌<◌, ◌≤◌, true, map, is_some};
ghost use Rattle.sim_queue.specs.Adapter.{best_ready};
ghost use Rattle.xpt_core.specs.AdapterUpdates.{with_turn, with_freezes, less_freeze, in_next_round, updated, CanUpdate};
ghost use Rattle.xpt_core.specs.Places.{at_place, HasAt};

use cam_types::Config;
use event_rules::Event;
use sim_queue::SimQueue;

/// Updates the adapters' queues by an event at this place, over the adapters of this configuration.
pub(crate) fn update(sims: &mut Vec<SimQueue>, config: &Config, event: &Event, place: u32)
    requires { CanUpdate config.now place event.now sims.old.items }
    ensures { sims.new.items ≡ updated config.now place event.now sims.old.items }
{
    match *event {
        Event::Send { lane, .. } => send(sims, config.lane_adapter(lane).unwrap(), place),
        Event::FreezeSim { sim, count } => freeze(sims, sim, count),
        Event::ReleaseSim { sim } => release(sims, sim),
        Event::Tick => open_round(sims),
        _ => {}
    }
}

// Notes a send on the adapter, to the device whose turn it is.
fn send(sims: &mut Vec<SimQueue>, adapter: u32, place: u32)
    requires head { HasAt (λ s. is_some (best_ready s) ≡ true) sims.old.items adapter }
    requires place { place < 65535 }
    ensures { sims.new.items ≡ at_place adapter (with_turn place) sims.old.items }
{
    let sim = &mut sims[adapter as usize];
    send_first(sim, place);
}

fn send_first(sim: &mut SimQueue, place: u32)
    requires head { is_some (best_ready sim.old) ≡ true }
    requires place { place < 65535 }
    ensures { sim.new ≡ with_turn place sim.old }
{
    let device = sim.best_ready().unwrap();
    sim.send(device, place);
}

// Adds freezes of the adapter.
fn freeze(sims: &mut Vec<SimQueue>, adapter: u32, count: u32)
    requires { HasAt (λ s. s.callers + count ≤ 65535) sims.old.items adapter }
    ensures { sims.new.items ≡ at_place adapter (with_freezes count) sims.old.items }
{
    let sim = &mut sims[adapter as usize];
    sim.freeze(count).unwrap();
}

// Takes a freeze of the adapter away.
fn release(sims: &mut Vec<SimQueue>, adapter: u32)
    requires { HasAt (λ s. 0 < s.callers) sims.old.items adapter }
    ensures { sims.new.items ≡ at_place adapter less_freeze sims.old.items }
{
    let sim = &mut sims[adapter as usize];
    sim.release().unwrap();
}

// Opens the next round of all adapters.
fn open_round(sims: &mut Vec<SimQueue>)
    ensures { sims.new.items ≡ map in_next_round sims.old.items }
{
    for sim in sims.iter_mut() {
        sim.next_round();
    }
}
