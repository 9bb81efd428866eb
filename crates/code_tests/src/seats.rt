//! Two seats, and which of them are gathered.

ghost use Rattle.std.specs.Prelude.{◌≡◌};

use crate::frame::shared;
use cam_event::History;
use cam_types::{Command, Flags, Limits, Outcome};
use event_rules::Event;
use sense_class::Class;
use std::alloc::Global;
use std::marker::Brand;
use std::process::Abort;
use std::sync::Wait;
use std::sync::ledger::{Blank, Ledger};
use std::test::Fail;
use xpt_lock::{GatherFault, Receipt, Seat, SeatName, SharedXpt};
use xpt_state::{Done, Reply, Sent};

// Which of the two seats are gathered, and in which order.
#[derive(Clone, Copy)]
enum Given {
    DriverAndLane,
    LaneAndDriver,
    DriverAlone,
    LaneAlone,
    Neither,
}

// What was gathered.
#[derive(Clone, Copy, Debug, PartialEq, Eq)]
enum Ended {
    OneCommand,
    Unnamed(u32),
    Otherwise,
}

fn end_of(gathered: Result<History, GatherFault>) -> Ended {
    match gathered {
        Ok(history) if is_one_command(history.events()) => Ended::OneCommand,
        Err(GatherFault::Unnamed(place)) => Ended::Unnamed(place),
        _ => Ended::Otherwise,
    }
}

// Whether the events are those of one command that is done.
fn is_one_command(events: &[Event]) -> bool {
    let due = [
        Event::Submit {
            driver: 0,
            device: 0,
            priority: 1152,
            retries: 4,
            flags: Flags::default(),
        },
        Event::Send { lane: 0, ccb: 0 },
        Event::Done {
            ccb: 0,
            outcome: Outcome::of_status(0x01),
        },
    ];
    events == due.as_slice()
}

// The driver submits, and the lane sends and completes. Answers what was gathered.
fn two_seats<L: Ledger, R: Wait + Abort>(
    rt: &R,
    alloc: Global,
    blank: Blank,
    which: Given,
) -> Result<Ended, Fail>
    requires name { blank.name ≡ L.name }
    requires parts { (blank.parts ≡ L.parts) × (blank.parts ≡ 65) }
{
    let shared: SharedXpt<L> = shared(alloc, Limits::most(), blank)?;
    let mut driver = shared.seat(rt, alloc, SeatName::Driver(0))?;
    let mut lane = shared.seat(rt, alloc, SeatName::Lane(0))?;
    one_command(rt, &shared, &mut driver, &mut lane)?;
    Ok(end_of(shared.gather(alloc, taken(alloc, which, driver, lane))))
}

fn one_command<L: Ledger, R: Wait + Abort>(
    rt: &R,
    shared: &SharedXpt<L>,
    driver: &mut Seat<L>,
    lane: &mut Seat<L>,
) -> Result<(), Fail> {
    submits(rt, shared, driver)?;
    serves(rt, shared, lane)
}

fn submits<L: Ledger, R: Wait + Abort>(
    rt: &R,
    shared: &SharedXpt<L>,
    driver: &mut Seat<L>,
) -> Result<(), Fail> {
    let (number, receipt) = shared.submit(rt, driver, 0, 0, 1152, 4, Flags::default())?;
    assert!(rt; number == 0 && receipt.at == 0 && receipt.reply == Reply::Ccb(0));
    assert!(rt; driver.name() == SeatName::Driver(0));
    assert!(rt; driver.receipts() == [receipt].as_slice());
    Ok(())
}

fn serves<L: Ledger, R: Wait + Abort>(
    rt: &R,
    shared: &SharedXpt<L>,
    lane: &mut Seat<L>,
) -> Result<(), Fail> {
    let command = Command {
        ccb: 0,
        attempt: 0,
        driver: 0,
        device: 0,
        priority: 1152,
    };
    let (sent, receipt) = shared.send_next(rt, lane, 0)?;
    assert!(rt; sent == Sent::Command(command));
    assert!(rt; is_placed(&receipt, 1, Reply::Command(command)));
    let done = Done {
        class: Class::Complete,
        value: 0x01,
    };
    let (given, receipt) = shared.done(rt, lane, 0, Outcome::of_status(0x01))?;
    assert!(rt; given == done && receipt.at == 2 && receipt.reply == Reply::Done(done));
    assert!(rt; lane.receipts().len() == 2 && lane.receipts().last() == Some(&receipt));
    Ok(())
}

// Whether there is a receipt of an event at this place, with this reply.
fn is_placed(receipt: &Option<Receipt>, at: u32, reply: Reply) -> bool {
    match receipt {
        Some(receipt) => receipt.at == at && receipt.reply == reply,
        None => false,
    }
}

// The seats that are gathered, in order.
fn taken<L: Ledger>(alloc: Global, which: Given, driver: Seat<L>, lane: Seat<L>) -> Vec<Seat<L>> {
    let mut seats = Vec::new(alloc);
    match which {
        Given::DriverAndLane => {
            let _ = seats.push(driver);
            let _ = seats.push(lane);
        }
        Given::LaneAndDriver => {
            let _ = seats.push(lane);
            let _ = seats.push(driver);
        }
        Given::DriverAlone => {
            let _ = seats.push(driver);
        }
        Given::LaneAlone => {
            let _ = seats.push(lane);
        }
        Given::Neither => {}
    }
    seats
}

// What was gathered of the two seats.
fn gathered<R: Wait + Abort>(rt: &R, alloc: Global, which: Given) -> Result<Ended, Fail> {
    two_seats::<Brand, R>(rt, alloc, Blank::new(65), which)
}

#[test]
fn both_seats_make_one_history(rt: HostRuntime) -> Result<(), Fail> {
    for which in [Given::DriverAndLane, Given::LaneAndDriver] {
        assert_eq!(&rt; gathered(&rt, rt.alloc(), which)?, Ended::OneCommand);
    }
    Ok(())
}

#[test]
fn the_first_place_that_no_receipt_names(rt: HostRuntime) -> Result<(), Fail> {
    for (which, place) in [
        (Given::DriverAlone, 1),
        (Given::LaneAlone, 0),
        (Given::Neither, 0),
    ] {
        assert_eq!(&rt; gathered(&rt, rt.alloc(), which)?, Ended::Unnamed(place));
    }
    Ok(())
}

// Answers how many seats there were before one was refused.
fn takes_all_seats<L: Ledger, R: Wait>(rt: &R, alloc: Global, blank: Blank) -> Result<u32, Fail>
    requires name { blank.name ≡ L.name }
    requires parts { (blank.parts ≡ L.parts) × (blank.parts ≡ 65) }
{
    let shared: SharedXpt<L> = shared(alloc, Limits::most(), blank)?;
    Ok(seats_of(rt, alloc, &shared))
}

// How many seats are taken before one is refused or has another name, 65 at most.
fn seats_of<L: Ledger, R: Wait>(rt: &R, alloc: Global, shared: &SharedXpt<L>) -> u32 {
    for number in 0u8..65 {
        let name = name_of(number);
        match shared.seat(rt, alloc, name) {
            Ok(seat) if seat.name() == name => {}
            _ => return u32::from(number),
        }
    }
    65
}

// A lane's or a driver's name, of any number: a seat doesn't ask whether the transport has them.
fn name_of(number: u8) -> SeatName {
    if number % 2 == 0 {
        SeatName::Lane(u32::from(number))
    } else {
        SeatName::Driver(number)
    }
}

fn all_seats<R: Wait>(rt: &R, alloc: Global) -> Result<u32, Fail> {
    takes_all_seats::<Brand, R>(rt, alloc, Blank::new(65))
}

#[test]
fn there_are_64_seats(rt: HostRuntime) -> Result<(), Fail> {
    assert_eq!(&rt; all_seats(&rt, rt.alloc())?, 64);
    Ok(())
}
