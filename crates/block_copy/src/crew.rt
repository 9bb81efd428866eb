//! Who makes calls of the transport: two drivers, two lanes, recovery and the keeper of the rounds.

use crate::blocks::{BLOCKS, Blocks};
use crate::fault::Fault;
use cam_types::{Flags, Outcome};
use sense_class::Class;
use std::alloc::{AllocError, Global};
use std::sync::Wait;
use std::sync::ledger::Ledger;
use std::thread::{Threads, join};
use xpt_lock::{Seat, SeatName, SeatsFull, SharedXpt};
use xpt_state::{Case, Sent};

// How many blocks a driver submits in a round.
const BATCH: u32 = 8;

/// A driver: its seat, its number, and the block that it submits next. It submits each second block.
#[derive(Drop)]
struct Driver<L: Ledger> {
    seat: Seat<L>,
    number: u8,
    next: usize,
}

/// Two seats.
#[derive(Drop)]
struct Pair<L: Ledger> {
    first: Seat<L>,
    second: Seat<L>,
}

impl<L: Ledger> Pair<L> {
    fn new<R: Wait>(
        rt: &R,
        alloc: Global,
        shared: &SharedXpt<L>,
        first: SeatName,
        second: SeatName,
    ) -> Result<Pair<L>, SeatsFull> {
        let first = shared.seat(rt, alloc, first)?;
        let second = shared.seat(rt, alloc, second)?;
        Ok(Pair { first, second })
    }
}

/// All that make calls, each with a seat of its own.
#[derive(Drop)]
pub struct Crew<L: Ledger> {
    even: Driver<L>,
    odd: Driver<L>,
    lanes: Pair<L>,
    // Recovery, and the keeper of the rounds.
    others: Pair<L>,
}

impl<L: Ledger + Send + Sync> Crew<L> {
    pub fn new<R: Wait>(
        rt: &R,
        alloc: Global,
        shared: &SharedXpt<L>,
    ) -> Result<Crew<L>, SeatsFull> {
        let drivers = Pair::new(rt, alloc, shared, SeatName::Driver(0), SeatName::Driver(1))?;
        let lanes = Pair::new(rt, alloc, shared, SeatName::Lane(0), SeatName::Lane(1))?;
        let others = Pair::new(rt, alloc, shared, SeatName::Recovery, SeatName::Keeper)?;
        let Pair { first, second } = drivers;
        Ok(Crew {
            even: Driver {
                seat: first,
                number: 0,
                next: 0,
            },
            odd: Driver {
                seat: second,
                number: 1,
                next: 1,
            },
            lanes,
            others,
        })
    }

    /// Does a round's work. The drivers submit while the lanes send, on four threads, of which this is one. When all four have
    /// ended, nothing is in flight: this thread decides on what failed, and opens the next round.
    pub fn work<R: Threads + Wait + Sync>(
        &mut self,
        rt: &R,
        shared: &SharedXpt<L>,
        blocks: &Blocks,
    ) -> Result<(), Fault> {
        let (even, odd) = (&mut self.even, &mut self.odd);
        let (lane_0, lane_1) = (&mut self.lanes.first, &mut self.lanes.second);
        let (drivers, lanes) = join(
            rt,
            move || {
                join(
                    rt,
                    move || submit(rt, shared, blocks, even),
                    move || submit(rt, shared, blocks, odd),
                )
            },
            move || {
                join(
                    rt,
                    move || send(rt, shared, blocks, 0, lane_0),
                    move || send(rt, shared, blocks, 1, lane_1),
                )
            },
        );
        drivers.0?;
        drivers.1?;
        lanes.0?;
        lanes.1?;
        decide(rt, shared, &mut self.others.first)?;
        shared.tick(rt, &mut self.others.second)?;
        Ok(())
    }

    /// Whether each block is submitted, sent and done with.
    pub fn is_through<R: Wait>(&self, rt: &R, shared: &SharedXpt<L>) -> bool {
        let look = shared.look(rt);
        self.even.next >= BLOCKS && self.odd.next >= BLOCKS && look.waiting == 0
    }

    /// The seats, for one history to be gathered from.
    pub fn into_seats(self, alloc: Global) -> Result<Vec<Seat<L>>, AllocError> {
        let Crew {
            even,
            odd,
            lanes,
            others,
        } = self;
        Ok(vec![in alloc;
            even.seat,
            odd.seat,
            lanes.first,
            lanes.second,
            others.first,
            others.second,
        ]?)
    }
}

// A driver's thread: it submits a CCB for each of its next blocks. It holds the table's lock over a submit, so that the lane
// that is asked to send the CCB finds its block there. A lane holds no lock while it asks for the table's.
fn submit<L: Ledger, R: Wait>(
    rt: &R,
    shared: &SharedXpt<L>,
    blocks: &Blocks,
    driver: &mut Driver<L>,
) -> Result<(), Fault> {
    for _ in 0..BATCH {
        if driver.next >= BLOCKS {
            return Ok(());
        }
        let mut table = blocks.table.lock(rt);
        let (ccb, _) = shared.submit(
            rt,
            &mut driver.seat,
            driver.number,
            0,
            1152,
            4,
            Flags::none(),
        )?;
        let Some(entry) = table.get_mut(ccb as usize) else {
            return Err(Fault::NoBlock(ccb));
        };
        *entry = Some(driver.next);
        driver.next += 2;
    }
    Ok(())
}

// A lane's thread: it sends until it is idle, serves each command without the transport's lock, and completes it.
fn send<L: Ledger, R: Wait>(
    rt: &R,
    shared: &SharedXpt<L>,
    blocks: &Blocks,
    lane: u32,
    seat: &mut Seat<L>,
) -> Result<(), Fault> {
    for _ in rt.forever() {
        let (sent, _) = shared.send_next(rt, seat, lane)?;
        let Sent::Command(command) = sent else {
            return Ok(());
        };
        let Some(status) = blocks.serve(rt, &command) else {
            return Err(Fault::NoBlock(command.ccb));
        };
        shared.done(rt, seat, command.ccb, Outcome::of_status(status))?;
    }
    unreachable!()
}

// Each CCB that failed is sent again or given back, as its class asks.
fn decide<L: Ledger, R: Wait>(
    rt: &R,
    shared: &SharedXpt<L>,
    seat: &mut Seat<L>,
) -> Result<(), Fault> {
    for _ in 0..shared.look(rt).cases {
        if let Some(Case { ccb, class }) = shared.next_case(rt) {
            let _receipt = match class {
                Class::FreeRequeue | Class::CountedRequeue => shared.requeue(rt, seat, ccb)?,
                Class::Complete | Class::Fail(_) => shared.finish(rt, seat, ccb)?,
            };
        }
    }
    Ok(())
}
