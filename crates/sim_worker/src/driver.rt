//! A driver of a run on threads.

ghost use Rattle.std.specs.Prelude.{◌≡◌, ℕ, true};
ghost use Rattle.std.specs.List.{AllByRecursion};
ghost use Rattle.sim_worker.specs.Words.{Topology, is_ruled};
ghost use Rattle.trace_file.specs.declared.step.Step.TheVariants as step;

use crate::workplace::{FOR_GOOD, Workplace};
use event_rules::{Event, Refusal};
use std::sync::Wait;
use std::sync::ledger::Ledger;
use trace_file::Step;
use xpt_lock::{Receipt, Seat, SharedFault, WaitEvent};

// Where a driver stands: the row that it does next, and the last round in which it rests.
#[derive(Clone, Copy)]
struct Stand {
    row: usize,
    until: u32,
}

/// Does the driver's rows in order, until all are done or all are to stop.
///
/// No round opens while it is at its rows: it rests in none until it says so, and the round that it saw before them is still
/// that of a refusal.
pub(crate) fn drive<L: Ledger, R: Wait>(
    rt: &R,
    place: &Workplace<L>,
    driver: u8,
    steps: &[Step],
    seat: &mut Seat<L>,
)
    requires { (c : Topology) × (d : ℕ) × AllByRecursion (λ one. is_ruled c d one ≡ true) steps.now }
{
    let mut stand = Stand { row: 0, until: 0 };
    for _ in rt.forever() {
        let seen = place.shared.epoch(rt, WaitEvent::Round);
        if place.is_stopped() {
            return;
        }
        let round = place.shared.look(rt).round;
        if round <= stand.until {
            place.shared.wait_past(rt, seen);
            continue;
        }
        match do_rows(rt, place, steps, stand.row, round, seat) {
            Ok(next) => stand = next,
            Err(fault) => {
                place.stop_by(rt, fault);
                return;
            }
        }
        place.rest_driver(rt, driver, stand.until);
        if stand.until == FOR_GOOD {
            return;
        }
    }
}

// Does the rows from this one on, up to the one by which the driver rests in this round.
fn do_rows<L: Ledger, R: Wait>(
    rt: &R,
    place: &Workplace<L>,
    steps: &[Step],
    from: usize,
    round: u32,
    seat: &mut Seat<L>,
) -> Result<Stand, SharedFault>
    requires { (c : Topology) × (d : ℕ) × AllByRecursion (λ one. is_ruled c d one ≡ true) steps.now }
{
    for row in from..steps.len() {
        match steps[row] {
            Step::Pause(later) => {
                if round < later {
                    let until = later - 1;
                    return Ok(Stand { row, until });
                }
            }
            Step::Act(event) => match call(rt, place, seat, event) {
                Ok(_) => {}
                Err(SharedFault::Refused(why)) if !matches!(why, Refusal::HistoryFull(_)) => {
                    return Ok(Stand { row, until: round });
                }
                Err(fault) => return Err(fault),
            },
        }
    }
    Ok(Stand {
        row: steps.len(),
        until: FOR_GOOD,
    })
}

// Makes the event's call, if it is one of drivers.
fn call<L: Ledger, R: Wait>(
    rt: &R,
    place: &Workplace<L>,
    seat: &mut Seat<L>,
    event: Event,
) -> Result<Receipt, SharedFault>
    requires { (c : Topology) × (d : ℕ) × (is_ruled c d (step.Act event) ≡ true) }
{
    let shared = &place.shared;
    match event {
        Event::Submit {
            driver,
            device,
            priority,
            retries,
            flags,
        } => {
            let (_, receipt) = shared.submit(rt, seat, driver, device, priority, retries, flags)?;
            Ok(receipt)
        }
        Event::FreezeDev { device, count } => shared.freeze_dev(rt, seat, device, count),
        Event::ReleaseDev { device, count } => shared.release_dev(rt, seat, device, count),
        Event::FreezeSim { sim, count } => shared.freeze_sim(rt, seat, sim, count),
        Event::ReleaseSim { sim } => shared.release_sim(rt, seat, sim),
        Event::Adjust { device, openings } => shared.adjust(rt, seat, device, openings),
        _ => unreachable!(),
    }
}
