//! What lies under the lock.

ghost use Rattle.std.specs.Prelude.{◌≡◌, ◌<◌, ◌+◌, [], length, OnOk, OnErr, IfOk, MatchResult, Ok, Err};
ghost use Rattle.std.specs.Option.{option_to_list};
ghost use Rattle.xpt_state.specs.Looks.{look, next_case};
ghost use Rattle.xpt_state.specs.Steps.{IsStep, IsLaneStep};
ghost use Rattle.xpt_lock.specs.WaitEvents.{is_notified_by, is_wait_event};
ghost use Rattle.xpt_lock.specs.Calls.{sent_receipt, IsSound};
ghost use Rattle.xpt_lock.specs.Notifications.{no_notifications, notifications_of, notified_by};

use crate::epoch::Epoch;
use crate::fault::SeatsFull;
use crate::notifications::Notifications;
use crate::receipt::Receipt;
use crate::seat::{Seat, SeatName};
use crate::wait_event::WaitEvent;
use event_rules::{Event, Refusal};
use std::alloc::Global;
use std::sync::ledger::{Blank, Book, Ledger, Share};
use xpt_state::{Case, Look, Sent, Xpt};

// How many seats there may be: one part of the ledger less than it has.
const MAX_SEATS: u32 = 64;

// A transport, the book that counts its events, the parts of the ledger for the seats that are left, and how often each wait event
// was notified.
#[derive(Drop)]
pub(crate) struct Kept<L: Ledger> {
    xpt: Xpt,
    book: Book<L>,
    spare: Share<L>,
    left: u32,
    notifications: Notifications,
    ghost counted: { book.total ≡ length xpt.events },
    ghost parts: { spare.parts ≡ left + 1 },
    ghost unused: { spare.amount ≡ 0 },
}

impl<L: Ledger> Kept<L> {
    // A transport without events, and all its seats.
    pub(crate) fn new(xpt: Xpt, blank: Blank) -> Kept<L>
        requires empty { xpt.events ≡ [] }
        requires name { blank.name ≡ L.name }
        requires parts { (blank.parts ≡ L.parts) × (blank.parts ≡ 65) }
        ensures xpt { result.xpt ≡ xpt }
        ensures left { result.left ≡ 64 }
        ensures notifications { result.notifications ≡ no_notifications }
    {
        let (book, spare) = blank.open::<L>();
        Kept {
            xpt,
            book,
            spare,
            left: MAX_SEATS,
            notifications: Notifications::none(),
        }
    }

    // A seat without receipts, if one is left.
    pub(crate) fn seat(&mut self, alloc: Global, name: SeatName) -> Result<Seat<L>, SeatsFull>
        ensures answer { MatchResult result (λ s. (s ≡ record { name = name; receipts = [] }) × (self.new.left + 1 ≡ self.old.left)) (λ _. self.old.left ≡ 0) }
        ensures xpt { self.new.xpt ≡ self.old.xpt }
        ensures notifications { self.new.notifications ≡ self.old.notifications }
    {
        let Kept {
            xpt: _,
            book: _,
            spare,
            left,
            notifications: _,
        } = self;
        if *left == 0 {
            return Err(SeatsFull);
        }
        *left -= 1;
        Ok(Seat::new(alloc, name, spare.split_off(1, 0)))
    }

    // Takes the event, counts it, in the book and in the share, and notifies its wait events.
    pub(crate) fn take(&mut self, event: Event, share: &mut Share<L>) -> Result<Receipt, Refusal>
        requires { share.old.parts ≡ 1 }
        ensures sound { IsSound self.old.xpt }
        ensures step { IsStep (λ (r : Receipt). r.reply) self.old.xpt event self.new.xpt result }
        ensures place { IfOk result (λ r. (r.at ≡ length self.old.xpt.events) × (r.event ≡ event)) }
        ensures parts { share.new.parts ≡ 1 }
        ensures counted { OnOk result (share.new.amount ≡ share.old.amount + 1) }
        ensures uncounted { OnErr result (share.new.amount ≡ share.old.amount) }
        ensures notified { IfOk result (λ r. self.new.notifications ≡ notified_by (is_notified_by event r.reply) self.old.notifications) }
        ensures silent { OnErr result (self.new.notifications ≡ self.old.notifications) }
    {
        let Kept {
            xpt,
            book,
            spare: _,
            left: _,
            notifications,
        } = self;
        let at = xpt.events().len() as u32;
        let asked = &event;
        let reply = xpt.take(*asked)?;
        book.add(share, 1);
        notifications.count(asked, &reply);
        Ok(Receipt { at, event, reply })
    }

    // Sends the lane's next command, if there is one, and counts the send, in the book and in the share. A send notifies nobody.
    pub(crate) fn send_next(
        &mut self,
        lane: u32,
        share: &mut Share<L>,
    ) -> Result<(Sent, Option<Receipt>), Refusal>
        requires { share.old.parts ≡ 1 }
        ensures sound { IsSound self.old.xpt }
        ensures step { MatchResult result (λ r. IsLaneStep self.old.xpt lane self.new.xpt (Ok r.0)) (λ why. IsLaneStep self.old.xpt lane self.new.xpt (Err why)) }
        ensures receipt { IfOk result (λ r. r.1 ≡ sent_receipt (length self.old.xpt.events) lane r.0) }
        ensures parts { share.new.parts ≡ 1 }
        ensures counted { IfOk result (λ r. share.new.amount ≡ share.old.amount + length (option_to_list r.1)) }
        ensures uncounted { OnErr result (share.new.amount ≡ share.old.amount) }
        ensures silent { self.new.notifications ≡ self.old.notifications }
    {
        let Kept {
            xpt,
            book,
            spare: _,
            left: _,
            notifications: _,
        } = self;
        let at = xpt.events().len() as u32;
        let sent = xpt.send_next(lane)?;
        let receipt = Receipt::of_sent(at, lane, sent);
        if receipt.is_some() {
            book.add(share, 1);
        }
        Ok((sent, receipt))
    }

    // The case that stands first.
    pub(crate) fn next_case(&self) -> Option<Case>
        ensures sound { IsSound self.now.xpt }
        ensures first { result ≡ next_case self.now.xpt.events }
    {
        let _events = self.xpt.events();
        self.xpt.next_case()
    }

    // What there is to see.
    pub(crate) fn look(&self) -> Look
        ensures sound { IsSound self.now.xpt }
        ensures seen { result ≡ look self.now.xpt.config self.now.xpt.events }
    {
        let _events = self.xpt.events();
        self.xpt.look()
    }

    // The transport.
    pub(crate) fn into_xpt(self) -> Xpt
        ensures { result ≡ self.xpt }
    {
        self.xpt
    }

    // The epoch of the wait event.
    pub(crate) fn epoch(&self, wait_event: WaitEvent) -> Epoch
        ensures wait_event { result.wait_event ≡ wait_event }
        ensures notifications { result.notifications ≡ notifications_of self.now.notifications wait_event }
    {
        self.notifications.epoch(wait_event)
    }

    // Notifies the wait event, though nothing happened to the transport. Answers the epoch after that.
    pub(crate) fn notify(&mut self, wait_event: WaitEvent) -> Epoch
        ensures notified { self.new.notifications ≡ notified_by (is_wait_event wait_event) self.old.notifications }
        ensures xpt { self.new.xpt ≡ self.old.xpt }
        ensures wait_event { result.wait_event ≡ wait_event }
        ensures notifications { result.notifications ≡ notifications_of self.new.notifications wait_event }
    {
        self.notifications.notify(wait_event);
        self.notifications.epoch(wait_event)
    }
}
