//! An input of which two are put side by side.

use round_net::Net;
use wait_causes::Explanation;
use wording::Captions;

/// An input before a change, or after it: what it is called, its net, and its explanation beside a best schedule.
#[derive(Clone, Copy)]
pub struct Compared<'a> {
    /// Any text.
    pub name: &'a str,
    pub net: &'a Net,
    pub explanation: &'a Explanation,
}

impl<'a> Compared<'a> {
    /// What its parts are called.
    pub(crate) fn captions(self) -> Captions<'a> {
        Captions::of(self.net.config(), self.explanation)
    }
}
