//! The calls that take one event and answer no more than that.

ghost use Rattle.std.specs.Prelude.{◌≡◌};
ghost use Rattle.event_rules.specs.declared.event.Event.TheVariants.{Requeue, Finish, FreezeDev, ReleaseDev, FreezeSim, ReleaseSim, Adjust};
ghost use Rattle.camxpt_c.specs.CallTerms.{IsCall};

use crate::codes::{E_CLOSED, OK, code_of};
use crate::handle::CamXpt;
use event_rules::Event;
use std::alloc::Global;

/// Takes an event of any kind, without a pointer.
pub(crate) fn push(alloc: Global, handle: &mut CamXpt, event: Event) -> i32
    ensures { IsCall event 0 handle.old.body.kept handle.new.body.kept result }
{
    let Some(mut port) = handle.take(alloc) else {
        return E_CLOSED;
    };
    let code = match port.take(event, 0) {
        Ok(_) => OK,
        Err(why) => code_of(why),
    };
    handle.put(port);
    code
}

/// Puts a CCB that failed back into its device's queue.
#[unsafe(no_mangle)]
pub extern "C" fn camxpt_raw_requeue(alloc: Global, handle: &mut CamXpt, ccb: u32) -> i32
    ensures { IsCall (Requeue ccb) 0 handle.old.body.kept handle.new.body.kept result }
{
    push(alloc, handle, Event::Requeue { ccb })
}

/// Gives a CCB that failed back to its driver.
#[unsafe(no_mangle)]
pub extern "C" fn camxpt_raw_finish(alloc: Global, handle: &mut CamXpt, ccb: u32) -> i32
    ensures { IsCall (Finish ccb) 0 handle.old.body.kept handle.new.body.kept result }
{
    push(alloc, handle, Event::Finish { ccb })
}

/// Freezes the device's queue that many times.
#[unsafe(no_mangle)]
pub extern "C" fn camxpt_raw_freeze_dev(
    alloc: Global,
    handle: &mut CamXpt,
    device: u32,
    count: u32,
) -> i32
    ensures { IsCall (FreezeDev device count) 0 handle.old.body.kept handle.new.body.kept result }
{
    push(alloc, handle, Event::FreezeDev { device, count })
}

/// Takes that many freezes of the device away.
#[unsafe(no_mangle)]
pub extern "C" fn camxpt_raw_release_dev(
    alloc: Global,
    handle: &mut CamXpt,
    device: u32,
    count: u32,
) -> i32
    ensures { IsCall (ReleaseDev device count) 0 handle.old.body.kept handle.new.body.kept result }
{
    push(alloc, handle, Event::ReleaseDev { device, count })
}

/// Freezes the adapter that many times.
#[unsafe(no_mangle)]
pub extern "C" fn camxpt_raw_freeze_sim(
    alloc: Global,
    handle: &mut CamXpt,
    sim: u32,
    count: u32,
) -> i32
    ensures { IsCall (FreezeSim sim count) 0 handle.old.body.kept handle.new.body.kept result }
{
    push(alloc, handle, Event::FreezeSim { sim, count })
}

/// Takes one freeze of the adapter away.
#[unsafe(no_mangle)]
pub extern "C" fn camxpt_raw_release_sim(alloc: Global, handle: &mut CamXpt, sim: u32) -> i32
    ensures { IsCall (ReleaseSim sim) 0 handle.old.body.kept handle.new.body.kept result }
{
    push(alloc, handle, Event::ReleaseSim { sim })
}

/// Gives the device that many openings from the next round on.
#[unsafe(no_mangle)]
pub extern "C" fn camxpt_raw_adjust(
    alloc: Global,
    handle: &mut CamXpt,
    device: u32,
    openings: u32,
) -> i32
    ensures { IsCall (Adjust device openings) 0 handle.old.body.kept handle.new.body.kept result }
{
    push(alloc, handle, Event::Adjust { device, openings })
}
