//! The transport under its lock, and the calls of seats.

ghost use Rattle.std.specs.Prelude.{◌≡◌, ◌≢◌, [], IfOk, MatchResult};
ghost use Rattle.event_rules.specs.declared.event.Event.TheVariants as Event;
ghost use Rattle.xpt_lock.specs.Calls.{IsCall, IsTurn, IsAnswer, IsLaneAnswer, IsLook, IsNextCase, receipt_of, receipt_alone, answered};
ghost use Rattle.xpt_lock.specs.Receipts.{Receipt};
ghost use Rattle.xpt_state.specs.Replies.{nothing};
ghost use Rattle.xpt_state.specs.declared.reply.Reply.TheVariants as replies;

use crate::epoch::Epoch;
use crate::fault::{SeatsFull, SharedFault};
use crate::kept::Kept;
use crate::receipt::Receipt;
use crate::seat::{Seat, SeatName};
use crate::sleepers::Sleepers;
use crate::wait_event::WaitEvent;
use cam_types::{Flags, Outcome};
use event_rules::Event;
use std::alloc::Global;
use std::sync::ledger::{Blank, Ledger};
use std::sync::{Mutex, MutexGuard, Wait};
use std::thread::yield_now;
use xpt_state::{Case, Done, Look, Reply, Sent, Xpt};

// How often a thread tries for the lock before it sleeps for it. After each try it lets others run, twice as often as after
// the one before. A call holds the lock for less time than a sleep and a wake take, and a thread makes its next call fastest
// while what lies under the lock is in its processor's cache.
const TRIES: u32 = 8;

/// A transport that threads share.
#[derive(Drop)]
pub struct SharedXpt<L: Ledger> {
    kept: Mutex<Kept<L>>,
    sleepers: Sleepers,
}

impl<L: Ledger> SharedXpt<L> {
    /// Shares a transport to which nothing has happened. The ledger has a part for each of 64 seats, and one more.
    pub fn new(xpt: Xpt, blank: Blank) -> SharedXpt<L>
        requires empty { xpt.events ≡ [] }
        requires name { blank.name ≡ L.name }
        requires parts { (blank.parts ≡ L.parts) × (blank.parts ≡ 65) }
    {
        SharedXpt {
            kept: Mutex::new(Kept::new(xpt, blank)),
            sleepers: Sleepers::none(),
        }
    }

    /// A seat of that name without receipts, or `SeatsFull` after 64 seats. It takes no memory yet.
    pub fn seat<R: Wait>(&self, rt: &R, alloc: Global, name: SeatName) -> Result<Seat<L>, SeatsFull>
        ensures { IfOk result (λ s. s ≡ record { name = name; receipts = [] }) }
    {
        self.lock(rt).seat(alloc, name)
    }

    // The transport under its lock.
    fn lock<R: Wait>(&self, rt: &R) -> MutexGuard<'_, Kept<L>> {
        for tries in 0..TRIES {
            if let Some(kept) = self.kept.try_lock() {
                return kept;
            }
            for _ in 0..1u32 << tries {
                yield_now();
            }
        }
        self.kept.lock(rt)
    }

    // The transport, without its lock.
    pub(crate) fn into_xpt(self) -> Xpt {
        let SharedXpt { kept, sleepers: _ } = self;
        kept.into_inner().into_xpt()
    }

    // Takes an event of any kind but a send.
    fn take<R: Wait>(
        &self,
        rt: &R,
        seat: &mut Seat<L>,
        event: Event,
    ) -> Result<Receipt, SharedFault>
        ensures call { IsCall receipt_alone (λ (r : Receipt). r.reply) event seat.old seat.new result }
        ensures answer { IsAnswer (λ (r : Receipt). r.reply) event result }
    {
        let Seat {
            name: _,
            receipts,
            share,
        } = seat;
        receipts.reserve(1)?;
        let receipt = self.lock(rt).take(event, share)?;
        receipts.push_reserved(receipt);
        self.sleepers.wake(&event, &receipt.reply);
        Ok(receipt)
    }

    /// Submits a CCB: `Xpt::submit`, with its answer and its refusals, and the receipt that the seat keeps of it.
    pub fn submit<R: Wait>(
        &self,
        rt: &R,
        seat: &mut Seat<L>,
        driver: u8,
        device: u32,
        priority: u32,
        retries: u32,
        flags: Flags,
    ) -> Result<(u32, Receipt), SharedFault>
        ensures call { IsCall receipt_of (answered replies.Ccb) (Event.Submit driver device priority retries flags) seat.old seat.new result }
        ensures answer { IsAnswer (answered replies.Ccb) (Event.Submit driver device priority retries flags) result }
    {
        let event = Event::Submit {
            driver,
            device,
            priority,
            retries,
            flags,
        };
        let receipt = self.take(rt, seat, event)?;
        let Reply::Ccb(number) = receipt.reply else {
            unreachable!()
        };
        Ok((number, receipt))
    }

    /// Sends the lane's next command: `Xpt::send_next`, with its answer and its refusals, and the receipt that the seat keeps of
    /// it. An idle lane gets no receipt.
    pub fn send_next<R: Wait>(
        &self,
        rt: &R,
        seat: &mut Seat<L>,
        lane: u32,
    ) -> Result<(Sent, Option<Receipt>), SharedFault>
        ensures turn { MatchResult result (λ given. IsTurn lane seat.old seat.new given) (λ _. seat.new ≡ seat.old) }
        ensures answer { IsLaneAnswer lane result }
    {
        let Seat {
            name: _,
            receipts,
            share,
        } = seat;
        receipts.reserve(1)?;
        match self.lock(rt).send_next(lane, share)? {
            (sent, Some(receipt)) => {
                let kept = &receipt;
                receipts.push_reserved(*kept);
                Ok((sent, Some(receipt)))
            }
            (sent, None) => Ok((sent, None)),
        }
    }

    /// The CCB's command has completed with this result: `Xpt::done`, with its answer and its refusals.
    pub fn done<R: Wait>(
        &self,
        rt: &R,
        seat: &mut Seat<L>,
        ccb: u32,
        outcome: Outcome,
    ) -> Result<(Done, Receipt), SharedFault>
        ensures call { IsCall receipt_of (answered replies.Done) (Event.Done ccb outcome) seat.old seat.new result }
        ensures answer { IsAnswer (answered replies.Done) (Event.Done ccb outcome) result }
    {
        let receipt = self.take(rt, seat, Event::Done { ccb, outcome })?;
        let Reply::Done(done) = receipt.reply else {
            unreachable!()
        };
        Ok((done, receipt))
    }

    /// Puts a CCB that failed back into its queue: `Xpt::requeue`, with its refusals.
    pub fn requeue<R: Wait>(
        &self,
        rt: &R,
        seat: &mut Seat<L>,
        ccb: u32,
    ) -> Result<Receipt, SharedFault>
        ensures call { IsCall receipt_alone nothing (Event.Requeue ccb) seat.old seat.new result }
        ensures answer { IsAnswer nothing (Event.Requeue ccb) result }
    {
        self.take(rt, seat, Event::Requeue { ccb })
    }

    /// Gives a CCB that failed back to its driver: `Xpt::finish`, with its refusals.
    pub fn finish<R: Wait>(
        &self,
        rt: &R,
        seat: &mut Seat<L>,
        ccb: u32,
    ) -> Result<Receipt, SharedFault>
        ensures call { IsCall receipt_alone nothing (Event.Finish ccb) seat.old seat.new result }
        ensures answer { IsAnswer nothing (Event.Finish ccb) result }
    {
        self.take(rt, seat, Event::Finish { ccb })
    }

    /// Freezes a device that many times: `Xpt::freeze_dev`, with its refusals.
    pub fn freeze_dev<R: Wait>(
        &self,
        rt: &R,
        seat: &mut Seat<L>,
        device: u32,
        count: u32,
    ) -> Result<Receipt, SharedFault>
        ensures call { IsCall receipt_alone nothing (Event.FreezeDev device count) seat.old seat.new result }
        ensures answer { IsAnswer nothing (Event.FreezeDev device count) result }
    {
        self.take(rt, seat, Event::FreezeDev { device, count })
    }

    /// Takes that many freezes of a device away: `Xpt::release_dev`, with its refusals.
    pub fn release_dev<R: Wait>(
        &self,
        rt: &R,
        seat: &mut Seat<L>,
        device: u32,
        count: u32,
    ) -> Result<Receipt, SharedFault>
        ensures call { IsCall receipt_alone nothing (Event.ReleaseDev device count) seat.old seat.new result }
        ensures answer { IsAnswer nothing (Event.ReleaseDev device count) result }
    {
        self.take(rt, seat, Event::ReleaseDev { device, count })
    }

    /// Freezes an adapter that many times: `Xpt::freeze_sim`, with its refusals.
    pub fn freeze_sim<R: Wait>(
        &self,
        rt: &R,
        seat: &mut Seat<L>,
        sim: u32,
        count: u32,
    ) -> Result<Receipt, SharedFault>
        ensures call { IsCall receipt_alone nothing (Event.FreezeSim sim count) seat.old seat.new result }
        ensures answer { IsAnswer nothing (Event.FreezeSim sim count) result }
    {
        self.take(rt, seat, Event::FreezeSim { sim, count })
    }

    /// Takes one freeze of an adapter away: `Xpt::release_sim`, with its refusals.
    pub fn release_sim<R: Wait>(
        &self,
        rt: &R,
        seat: &mut Seat<L>,
        sim: u32,
    ) -> Result<Receipt, SharedFault>
        ensures call { IsCall receipt_alone nothing (Event.ReleaseSim sim) seat.old seat.new result }
        ensures answer { IsAnswer nothing (Event.ReleaseSim sim) result }
    {
        self.take(rt, seat, Event::ReleaseSim { sim })
    }

    /// Gives a device that many openings from the next round on: `Xpt::adjust`, with its refusals.
    pub fn adjust<R: Wait>(
        &self,
        rt: &R,
        seat: &mut Seat<L>,
        device: u32,
        openings: u32,
    ) -> Result<Receipt, SharedFault>
        ensures call { IsCall receipt_alone nothing (Event.Adjust device openings) seat.old seat.new result }
        ensures answer { IsAnswer nothing (Event.Adjust device openings) result }
    {
        self.take(rt, seat, Event::Adjust { device, openings })
    }

    /// Opens the next round, which is the answer: `Xpt::tick`, with its refusals.
    pub fn tick<R: Wait>(&self, rt: &R, seat: &mut Seat<L>) -> Result<(u32, Receipt), SharedFault>
        ensures call { IsCall receipt_of (answered replies.Round) Event.Tick seat.old seat.new result }
        ensures answer { IsAnswer (answered replies.Round) Event.Tick result }
    {
        let receipt = self.take(rt, seat, Event::Tick)?;
        let Reply::Round(round) = receipt.reply else {
            unreachable!()
        };
        Ok((round, receipt))
    }

    /// Of the CCBs that wait for a decision on their error, the one that completed first: `Xpt::next_case`.
    pub fn next_case<R: Wait>(&self, rt: &R) -> Option<Case>
        ensures { IsNextCase result }
    {
        self.lock(rt).next_case()
    }

    /// What there is to see, all in counts: `Xpt::look`.
    pub fn look<R: Wait>(&self, rt: &R) -> Look
        ensures { IsLook result }
    {
        self.lock(rt).look()
    }

    /// The epoch of the wait event. A worker takes it before it looks for something to do, and finds nothing.
    pub fn epoch<R: Wait>(&self, rt: &R, wait_event: WaitEvent) -> Epoch
        ensures { result.wait_event ≡ wait_event }
    {
        self.lock(rt).epoch(wait_event)
    }

    /// Sleeps until the epoch of the wait event is another one than was seen, and answers it: until there was a notification
    /// since then. If there was one already, it returns at once.
    pub fn wait_past<R: Wait>(&self, rt: &R, seen: Epoch) -> Epoch
        ensures wait_event { result.wait_event ≡ seen.wait_event }
        ensures notified { result.notifications ≢ seen.notifications }
    {
        let mut kept = self.lock(rt);
        for _ in rt.forever() {
            let now = kept.epoch(seen.wait_event);
            if now.notifications != seen.notifications {
                return now;
            }
            kept = self.sleepers.at(seen.wait_event).wait(rt, kept);
        }
        unreachable!()
    }

    /// Notifies the wait event, so that whoever sleeps for it looks again, as if a worker rests or all are to stop. The transport
    /// stays as it is. Answers the epoch that the notification begins.
    pub fn notify<R: Wait>(&self, rt: &R, wait_event: WaitEvent) -> Epoch
        ensures { result.wait_event ≡ wait_event }
    {
        let notified = self.lock(rt).notify(wait_event);
        self.sleepers.at(wait_event).notify_all();
        notified
    }
}
