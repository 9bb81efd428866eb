//! Epochs, by which a worker that sleeps notices a notification.

use crate::wait_event::WaitEvent;

/// An epoch of a wait event of a shared transport: each notification begins another one.
#[derive(Clone, Copy, Debug, PartialEq, Eq)]
pub struct Epoch {
    /// The wait event.
    pub wait_event: WaitEvent,
    /// How often it was notified so far, modulo 2^64.
    pub notifications: u64,
}
