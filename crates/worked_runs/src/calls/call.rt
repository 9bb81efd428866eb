//! The calls that a line may ask for.

use crate::calls::line::Words;
use cam_types::{Flags, Outcome, SenseBytes};
use event_rules::Event;

/// What a driver or an adapter does on a transport, or what is to be seen of it.
#[derive(Clone, Copy)]
pub enum Call {
    /// The call by which the event comes about. A lane's next command is sent, whichever CCB the event names.
    Event(Event),
    /// The lane's next command is sent and completed.
    Serve { lane: u32, outcome: Outcome },
    /// The CCB that failed first is requeued or finished, as its class asks.
    Decide,
    /// The CCB that failed first, and its class.
    Case,
    /// What there is to see of the transport.
    Look,
    /// What there is to see of its layers.
    Layer(Layer),
}

/// A part of what the layers below a transport keep.
#[derive(Clone, Copy)]
pub enum Layer {
    /// The queue of this device.
    Queue(u32),
    /// Whose turn it is at this adapter.
    Turn(u32),
    /// The CCB of this number.
    Ccb(u32),
    /// The counts over all devices and CCBs.
    Counts,
    /// What a history says of the events.
    History,
}

impl Call {
    /// The call that a line asks for.
    pub fn read(words: &Words<'_>) -> Option<Call> {
        let [first, second, third, fourth, ..] = words.numbers;
        Some(match words.word {
            "serve" => Call::Serve {
                lane: first,
                outcome: outcome(second, third, fourth)?,
            },
            "decide" => Call::Decide,
            "case" => Call::Case,
            "look" => Call::Look,
            "queue" => Call::Layer(Layer::Queue(first)),
            "turn" => Call::Layer(Layer::Turn(first)),
            "ccb" => Call::Layer(Layer::Ccb(first)),
            "counts" => Call::Layer(Layer::Counts),
            "history" => Call::Layer(Layer::History),
            _ => Call::Event(event(words)?),
        })
    }
}

fn event(words: &Words<'_>) -> Option<Event> {
    let [first, second, third, fourth, ..] = words.numbers;
    Some(match words.word {
        "submit" => submit(words)?,
        "send" => Event::Send {
            lane: first,
            ccb: second,
        },
        "done" => Event::Done {
            ccb: first,
            outcome: outcome(second, third, fourth)?,
        },
        "requeue" => Event::Requeue { ccb: first },
        "finish" => Event::Finish { ccb: first },
        "freeze" => Event::FreezeDev {
            device: first,
            count: second,
        },
        "release" => Event::ReleaseDev {
            device: first,
            count: second,
        },
        "sfreeze" => Event::FreezeSim {
            sim: first,
            count: second,
        },
        "srelease" => Event::ReleaseSim { sim: first },
        "adjust" => Event::Adjust {
            device: first,
            openings: second,
        },
        "tick" => Event::Tick,
        _ => return None,
    })
}

// A submit of a command for a device: its priority, its retries, both flags and its driver.
fn submit(words: &Words<'_>) -> Option<Event> {
    let [device, priority, retries, qfreeze, qfrzdis, driver] = words.numbers;
    Some(Event::Submit {
        driver: u8::try_from(driver).ok()?,
        device,
        priority,
        retries,
        flags: Flags {
            qfreeze: qfreeze != 0,
            qfrzdis: qfrzdis != 0,
        },
    })
}

// A result with a CAM status, a SCSI status and fixed sense data of the key, or none where that is 0.
fn outcome(status: u32, scsi: u32, key: u32) -> Option<Outcome> {
    let sense = [0x70, 0, u8::try_from(key).ok()?, 0, 0, 0, 0, 0];
    let kept = if key == 0 { 0 } else { sense.len() };
    Some(Outcome {
        status: u8::try_from(status).ok()?,
        scsi: u8::try_from(scsi).ok()?,
        sense: SenseBytes::first(&sense[..kept]),
    })
}
