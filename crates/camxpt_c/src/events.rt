//! The events: any one to be taken or asked about, and all so far.

ghost use Rattle.std.specs.Prelude.{◌≡◌, Some, None, MatchOption, drop};
ghost use Rattle.xpt_core.specs.Takes.{refused};
ghost use Rattle.camxpt_c.specs.Codes.{code_of};
ghost use Rattle.camxpt_c.specs.EventShapes.{event_of};
ghost use Rattle.camxpt_c.specs.Events.{IsTake, IsAnswer, TakesNumber, TakesDone, AreCopied, refusal_code};
ghost use Rattle.camxpt_c.specs.declared.codes.TheConstants.{OK, E_CLOSED, E_KIND};

use crate::calls::push;
use crate::codes::{E_CLOSED, E_KIND, OK, code_of};
use crate::event_shapes::{CamxptEvent, event_of, event_shape};
use crate::handle::CamXpt;
use crate::sending::{complete, submit};
use crate::shapes::CamxptDone;
use event_rules::{Event, Refusal, Submission};
use std::alloc::Global;

/// Takes an event of any kind, by the rules of the call of that kind, and a submit without a pointer. Gives the number of a CCB
/// that it submits, and what a completion comes to. A send is refused unless it is of the next command of its lane's adapter.
#[unsafe(no_mangle)]
pub extern "C" fn camxpt_raw_take(
    alloc: Global,
    handle: &mut CamXpt,
    event: &CamxptEvent,
    ccb: &mut u32,
    done: &mut CamxptDone,
) -> i32
    ensures take { IsTake (event_of event.now) handle.old.body.kept handle.new.body.kept result }
    ensures number { TakesNumber (event_of event.now) handle.old.body.kept ccb.old ccb.new }
    ensures done { TakesDone (event_of event.now) handle.old.body.kept done.old done.new }
{
    match event_of(event) {
        Some(event) => take_event(alloc, handle, event, ccb, done),
        None => unknown(alloc, handle),
    }
}

fn take_event(
    alloc: Global,
    handle: &mut CamXpt,
    event: Event,
    ccb: &mut u32,
    done: &mut CamxptDone,
) -> i32
    ensures take { IsTake (Some event) handle.old.body.kept handle.new.body.kept result }
    ensures number { TakesNumber (Some event) handle.old.body.kept ccb.old ccb.new }
    ensures done { TakesDone (Some event) handle.old.body.kept done.old done.new }
{
    match event {
        Event::Submit {
            driver,
            device,
            priority,
            retries,
            flags,
        } => {
            let submission = Submission {
                driver,
                device,
                priority,
                retries,
                flags,
            };
            submit(alloc, handle, submission, 0, ccb)
        }
        Event::Done { ccb, outcome } => complete(alloc, handle, ccb, outcome, done),
        other => push(alloc, handle, other),
    }
}

/// Why the event would be refused now: `OK` if it would be taken.
#[unsafe(no_mangle)]
pub extern "C" fn camxpt_raw_refusal(alloc: Global, handle: &mut CamXpt, event: &CamxptEvent) -> i32
    ensures same { handle.new.body.kept ≡ handle.old.body.kept }
    ensures answer { IsAnswer (event_of event.now) handle.old.body.kept result }
{
    let Some(event) = event_of(event) else {
        return unknown(alloc, handle);
    };
    let Some(port) = handle.take(alloc) else {
        return E_CLOSED;
    };
    let code = refusal_code(port.xpt().refusal(&event));
    handle.put(port);
    code
}

fn refusal_code(refusal: Option<Refusal>) -> i32
    ensures { result ≡ refusal_code refusal }
{
    match refusal {
        Some(why) => code_of(why),
        None => OK,
    }
}

// What an event of no kind is answered with.
fn unknown(alloc: Global, handle: &mut CamXpt) -> i32
    ensures same { handle.new.body.kept ≡ handle.old.body.kept }
    ensures code { MatchOption handle.old.body.kept (result ≡ E_CLOSED) (λ _. result ≡ E_KIND) }
{
    let Some(port) = handle.take(alloc) else {
        return E_CLOSED;
    };
    handle.put(port);
    E_KIND
}

/// Copies the events from this number on, numbered from 0, as many as there are and as there is room for, and gives how many
/// these are.
#[unsafe(no_mangle)]
pub extern "C" fn camxpt_raw_events(
    alloc: Global,
    handle: &mut CamXpt,
    first: u32,
    events: &mut [CamxptEvent],
    copied: &mut usize,
) -> i32
    ensures same { handle.new.body.kept ≡ handle.old.body.kept }
    ensures events { MatchOption handle.old.body.kept
        ((result ≡ E_CLOSED) × (events.new ≡ events.old) × (copied.new ≡ copied.old))
        (λ p. (result ≡ OK) × AreCopied (drop first p.xpt.events) events.old events.new copied.new) }
{
    let Some(port) = handle.take(alloc) else {
        return E_CLOSED;
    };
    *copied = copy_from(port.xpt().events(), first as usize, events);
    handle.put(port);
    OK
}

fn copy_from(all: &[Event], first: usize, shapes: &mut [CamxptEvent]) -> usize
    ensures { AreCopied (drop first all.now) shapes.old shapes.new result }
{
    let first = first.min(all.len());
    copy(&all[first..], shapes)
}

fn copy(events: &[Event], shapes: &mut [CamxptEvent]) -> usize
    ensures { AreCopied events.now shapes.old shapes.new result }
{
    let count = events.len().min(shapes.len());
    for k in 0..count {
        shapes[k] = event_shape(events[k]);
    }
    count
}
