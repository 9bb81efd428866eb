//! Which wait events each call notifies.

ghost use Rattle.std.specs.Prelude.{◌≡◌};

use crate::frame::shared;
use cam_types::{Flags, Limits, Outcome};
use std::alloc::Global;
use std::marker::Brand;
use std::process::Abort;
use std::sync::Wait;
use std::sync::ledger::{Blank, Ledger};
use std::test::Fail;
use xpt_lock::{Epoch, Seat, SeatName, SharedXpt, WaitEvent};

// Rounds, work, cases and rest were notified this often.
fn expect<L: Ledger, R: Wait + Abort>(rt: &R, shared: &SharedXpt<L>, due: [u64; 4]) {
    let notifications = [
        shared.epoch(rt, WaitEvent::Round).notifications,
        shared.epoch(rt, WaitEvent::Work).notifications,
        shared.epoch(rt, WaitEvent::Case).notifications,
        shared.epoch(rt, WaitEvent::Rest).notifications,
    ];
    assert_eq!(rt; notifications, due);
}

// A submit and releases notify work; freezes notify nobody.
fn notifies_work<L: Ledger, R: Wait + Abort>(
    rt: &R,
    shared: &SharedXpt<L>,
    seat: &mut Seat<L>,
) -> Result<(), Fail> {
    shared.submit(rt, seat, 0, 0, 1152, 1, Flags::default())?;
    expect(rt, shared, [0, 1, 0, 0]);
    shared.freeze_dev(rt, seat, 0, 1)?;
    shared.freeze_sim(rt, seat, 0, 1)?;
    expect(rt, shared, [0, 1, 0, 0]);
    shared.release_dev(rt, seat, 0, 1)?;
    expect(rt, shared, [0, 2, 0, 0]);
    shared.release_sim(rt, seat, 0)?;
    expect(rt, shared, [0, 3, 0, 0]);
    Ok(())
}

// An adjust and a send notify nobody. The command is busy and requeued.
fn notifies_case<L: Ledger, R: Wait + Abort>(
    rt: &R,
    shared: &SharedXpt<L>,
    seat: &mut Seat<L>,
) -> Result<(), Fail> {
    shared.adjust(rt, seat, 0, 1)?;
    shared.send_next(rt, seat, 0)?;
    expect(rt, shared, [0, 3, 0, 0]);
    shared.done(rt, seat, 0, Outcome::of_status(0x05))?;
    expect(rt, shared, [0, 3, 1, 0]);
    shared.requeue(rt, seat, 0)?;
    expect(rt, shared, [0, 4, 1, 0]);
    Ok(())
}

// A command that is done notifies nobody, and neither does a refused call. `notify` notifies what it names.
fn notifies_rest<L: Ledger, R: Wait + Abort>(
    rt: &R,
    shared: &SharedXpt<L>,
    seat: &mut Seat<L>,
) -> Result<(), Fail> {
    shared.tick(rt, seat)?;
    expect(rt, shared, [1, 5, 1, 0]);
    shared.send_next(rt, seat, 0)?;
    shared.done(rt, seat, 0, Outcome::of_status(0x01))?;
    assert!(rt; shared.finish(rt, seat, 0).is_err());
    shared.notify(rt, WaitEvent::Rest);
    expect(rt, shared, [1, 5, 1, 1]);
    Ok(())
}

fn notifies_each<L: Ledger, R: Wait + Abort>(
    rt: &R,
    alloc: Global,
    blank: Blank,
) -> Result<(), Fail>
    requires name { blank.name ≡ L.name }
    requires parts { (blank.parts ≡ L.parts) × (blank.parts ≡ 65) }
{
    let shared: SharedXpt<L> = shared(alloc, Limits::most(), blank)?;
    let mut seat = shared.seat(rt, alloc, SeatName::Keeper)?;
    notifies_all(rt, &shared, &mut seat)
}

fn notifies_all<L: Ledger, R: Wait + Abort>(
    rt: &R,
    shared: &SharedXpt<L>,
    seat: &mut Seat<L>,
) -> Result<(), Fail> {
    notifies_work(rt, shared, seat)?;
    notifies_case(rt, shared, seat)?;
    notifies_rest(rt, shared, seat)
}

fn notify_each<R: Wait + Abort>(rt: &R, alloc: Global) -> Result<(), Fail> {
    notifies_each::<Brand, R>(rt, alloc, Blank::new(65))
}

#[test]
fn each_call_notifies_its_wait_events(rt: HostRuntime) -> Result<(), Fail> {
    notify_each(&rt, rt.alloc())
}

// Rest is notified a thousand times. Answers how often it was, and how often rounds were when a thread would have waited for
// another epoch than that.
fn notifies_often<L: Ledger, R: Wait>(
    rt: &R,
    alloc: Global,
    blank: Blank,
) -> Result<(u64, u64), Fail>
    requires name { blank.name ≡ L.name }
    requires parts { (blank.parts ≡ L.parts) × (blank.parts ≡ 65) }
{
    let shared: SharedXpt<L> = shared(alloc, Limits::most(), blank)?;
    for _ in 0..1000 {
        shared.notify(rt, WaitEvent::Rest);
    }
    let rest = shared.epoch(rt, WaitEvent::Rest);
    let greater = Epoch {
        wait_event: WaitEvent::Round,
        ..rest
    };
    let round = shared.wait_past(rt, greater);
    Ok((rest.notifications, round.notifications))
}

fn notify_often<R: Wait>(rt: &R, alloc: Global) -> Result<(u64, u64), Fail> {
    notifies_often::<Brand, R>(rt, alloc, Blank::new(65))
}

#[test]
fn an_epoch_counts_all_notifications_and_a_greater_one_is_another(
    rt: HostRuntime,
) -> Result<(), Fail> {
    assert_eq!(rt; notify_often(&rt, rt.alloc())?, (1000, 0));
    Ok(())
}
