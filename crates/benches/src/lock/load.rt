//! The events that the threads push.

use cam_types::Flags;
use event_rules::Event;

/// How many threads push events, each at an adapter with four devices of its own.
pub const THREADS: u32 = 4;

/// How many events each thread pushes.
pub const EVENTS: u32 = 15_000;

/// How many devices each thread has.
pub const DEVICES: u32 = 4;

// How many events of a thread are submits: all threads' together are as many as there may be stays.
const SUBMITS: u32 = 256;

/// The event of this number of a thread. After its submits a thread freezes, adjusts and releases its devices in turn.
pub fn event(thread: u32, number: u32) -> Event {
    if number < SUBMITS {
        Event::Submit {
            driver: (thread % THREADS) as u8,
            device: device(thread, number),
            priority: number * 5,
            retries: 4,
            flags: Flags {
                qfreeze: false,
                qfrzdis: false,
            },
        }
    } else {
        let turn = number - SUBMITS;
        at_device(device(thread, turn / 3), turn % 3)
    }
}

// A device of the thread.
fn device(thread: u32, number: u32) -> u32 {
    DEVICES * (thread % THREADS) + number % DEVICES
}

fn at_device(device: u32, turn: u32) -> Event {
    match turn {
        0 => Event::FreezeDev { device, count: 1 },
        1 => Event::Adjust {
            device,
            openings: 255,
        },
        _ => Event::ReleaseDev { device, count: 1 },
    }
}
