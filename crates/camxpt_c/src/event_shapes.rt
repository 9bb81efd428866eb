//! An event as a struct of C's.

ghost use Rattle.std.specs.Prelude.{◌≡◌, Some};
ghost use Rattle.event_rules.specs.declared.event.Event.TheVariants as events;
ghost use Rattle.camxpt_c.specs.EventShapes.{event_of, flags_of, outcome_of, sense_of, byte_of};

use cam_types::{Flags, Outcome, SenseBytes};
use event_rules::Event;

/// The kinds of events.
pub const SUBMIT: u32 = 1;

pub const SEND: u32 = 2;

pub const DONE: u32 = 3;

pub const REQUEUE: u32 = 4;

pub const FINISH: u32 = 5;

pub const FREEZE_DEV: u32 = 6;

pub const RELEASE_DEV: u32 = 7;

pub const FREEZE_SIM: u32 = 8;

pub const RELEASE_SIM: u32 = 9;

pub const ADJUST: u32 = 10;

pub const TICK: u32 = 11;

/// An event: its kind, and all that an event of some kind says. What its own kind doesn't say isn't read.
#[repr(C)]
#[derive(Clone, Copy)]
pub struct CamxptEvent {
    pub kind: u32,
    pub ccb: u32,
    pub lane: u32,
    pub device: u32,
    pub sim: u32,
    pub priority: u32,
    pub retries: u32,
    pub count: u32,
    pub openings: u32,
    pub driver: u8,
    pub qfreeze: u8,
    pub qfrzdis: u8,
    pub status: u8,
    pub scsi: u8,
    pub sense_len: u8,
    pub sense: [u8; 18],
}

/// The event that the struct says, if its kind is one.
pub(crate) fn event_of(shape: &CamxptEvent) -> Option<Event>
    ensures { result ≡ event_of shape.now }
{
    let (ccb, device, sim) = (shape.ccb, shape.device, shape.sim);
    match shape.kind {
        SUBMIT => Some(Event::Submit {
            driver: shape.driver,
            device,
            priority: shape.priority,
            retries: shape.retries,
            flags: flags_of(shape),
        }),
        SEND => Some(Event::Send {
            lane: shape.lane,
            ccb,
        }),
        DONE => Some(Event::Done {
            ccb,
            outcome: outcome_of(shape),
        }),
        REQUEUE => Some(Event::Requeue { ccb }),
        FINISH => Some(Event::Finish { ccb }),
        FREEZE_DEV => Some(Event::FreezeDev {
            device,
            count: shape.count,
        }),
        RELEASE_DEV => Some(Event::ReleaseDev {
            device,
            count: shape.count,
        }),
        FREEZE_SIM => Some(Event::FreezeSim {
            sim,
            count: shape.count,
        }),
        RELEASE_SIM => Some(Event::ReleaseSim { sim }),
        ADJUST => Some(Event::Adjust {
            device,
            openings: shape.openings,
        }),
        TICK => Some(Event::Tick),
        _ => None,
    }
}

fn flags_of(shape: &CamxptEvent) -> Flags
    ensures { result ≡ flags_of shape.now }
{
    Flags {
        qfreeze: shape.qfreeze != 0,
        qfrzdis: shape.qfrzdis != 0,
    }
}

fn outcome_of(shape: &CamxptEvent) -> Outcome
    ensures { result ≡ outcome_of shape.now }
{
    Outcome {
        status: shape.status,
        scsi: shape.scsi,
        sense: sense_of(shape),
    }
}

// The first of the bytes, as many as the length says.
#[tactic(auto, using(crate::proofs::SenseLemmas::sense_kept))]
fn sense_of(shape: &CamxptEvent) -> SenseBytes
    ensures { result ≡ sense_of shape.now }
{
    let len = usize::from(shape.sense_len).min(shape.sense.len());
    SenseBytes::first(&shape.sense[..len])
}

// Says nothing yet but the kind.
fn blank(kind: u32) -> CamxptEvent
    ensures { result.kind ≡ kind }
{
    CamxptEvent {
        kind,
        ccb: 0,
        lane: 0,
        device: 0,
        sim: 0,
        priority: 0,
        retries: 0,
        count: 0,
        openings: 0,
        driver: 0,
        qfreeze: 0,
        qfrzdis: 0,
        status: 0,
        scsi: 0,
        sense_len: 0,
        sense: [0; 18],
    }
}

/// The struct that says the event.
pub(crate) fn event_shape(event: Event) -> CamxptEvent
    ensures { event_of result ≡ Some event }
{
    match event {
        Event::Submit {
            driver,
            device,
            priority,
            retries,
            flags,
        } => CamxptEvent {
            device,
            priority,
            retries,
            driver,
            qfreeze: byte_of(flags.qfreeze),
            qfrzdis: byte_of(flags.qfrzdis),
            ..blank(SUBMIT)
        },
        Event::Send { lane, ccb } => CamxptEvent {
            ccb,
            lane,
            ..blank(SEND)
        },
        Event::Done { ccb, outcome } => done_shape(ccb, outcome),
        Event::Requeue { ccb } => CamxptEvent {
            ccb,
            ..blank(REQUEUE)
        },
        Event::Finish { ccb } => CamxptEvent {
            ccb,
            ..blank(FINISH)
        },
        Event::FreezeDev { device, count } => CamxptEvent {
            device,
            count,
            ..blank(FREEZE_DEV)
        },
        Event::ReleaseDev { device, count } => CamxptEvent {
            device,
            count,
            ..blank(RELEASE_DEV)
        },
        Event::FreezeSim { sim, count } => CamxptEvent {
            sim,
            count,
            ..blank(FREEZE_SIM)
        },
        Event::ReleaseSim { sim } => CamxptEvent {
            sim,
            ..blank(RELEASE_SIM)
        },
        Event::Adjust { device, openings } => CamxptEvent {
            device,
            openings,
            ..blank(ADJUST)
        },
        Event::Tick => blank(TICK),
    }
}

fn byte_of(flag: bool) -> u8
    ensures { result ≡ byte_of flag }
{
    if flag { 1 } else { 0 }
}

fn done_shape(ccb: u32, outcome: Outcome) -> CamxptEvent
    ensures { event_of result ≡ Some (events.Done ccb outcome) }
{
    let bytes = outcome.sense.bytes();
    let mut sense = [0; 18];
    sense[..bytes.len()].copy_from_slice(bytes);
    CamxptEvent {
        ccb,
        status: outcome.status,
        scsi: outcome.scsi,
        sense_len: bytes.len() as u8,
        sense,
        ..blank(DONE)
    }
}
