//! Two lanes at work at the same time.

ghost use Rattle.std.specs.Prelude.{◌≡◌, ◌<◌, ◌-◌, [], ◌∷◌, ◌++◌, length, vec_capacity, All, IfOk, IsTrue};
ghost use Rattle.trace_file.specs.Scenarios.{is_answer};

use crate::scripts::script;
use crate::telling::Reports;
use cam_types::{Command, Outcome};
use event_rules::Event;
use sim_worker::{Ending, Port, Progress, Served, run_live, run_live_with};
use std::alloc::{AllocError, Global};
use std::sync::atomic::{AtomicBool, Ordering};
use std::test::Fail;
use std::thread;
use xpt_state::Look;

// How often a port that waits looks whether the other one has begun.
const MAX_TURNS: u32 = 1_000_000;

// A port that holds its first command until the other port has begun with one, and counts how often it was asked for room.
#[derive(Drop)]
struct Meeting<'f> {
    begun: &'f AtomicBool,
    other: &'f AtomicBool,
    served: Vec<Served>,
    gave_up: bool,
    asked: u32,
}

impl<'f> Meeting<'f> {
    fn new(alloc: Global, begun: &'f AtomicBool, other: &'f AtomicBool) -> Meeting<'f>
        ensures { result.served.items ≡ [] }
    {
        Meeting {
            begun,
            other,
            served: Vec::new(alloc),
            gave_up: false,
            asked: 0,
        }
    }
}

impl<'f> Port for Meeting<'f> {
    ghost list = { λ p. p.served.items };

    ghost room = { λ p. vec_capacity p.served - length p.served.items };

    fn make_room(&mut self) -> Result<(), AllocError>
        ensures list { self.new.served.items ≡ self.old.served.items }
        ensures room { IfOk result (λ _. 0 < vec_capacity self.new.served - length self.new.served.items) }
    {
        self.asked = self.asked.saturating_add(1);
        self.served.reserve(1)
    }

    fn serve(&mut self, command: &Command) -> Outcome
        requires { 0 < vec_capacity self.old.served - length self.old.served.items }
        ensures list { self.new.served.items ≡ self.old.served.items ++ record { command = command.now; outcome = result } ∷ [] }
        ensures status { IsTrue (is_answer result) }
    {
        self.begun.store(true, Ordering::SeqCst);
        if self.served.is_empty() && !comes(self.other) {
            self.gave_up = true;
        }
        let outcome = Outcome::of_status(0x01);
        let given = outcome;
        self.served.push_reserved(Served {
            command: *command,
            outcome,
        });
        given
    }

    fn served(&self) -> &[Served]
        ensures { result.now ≡ self.now.served.items }
    {
        &self.served
    }
}

// Waits until the flag is set, but not for ever.
fn comes(flag: &AtomicBool) -> bool {
    for _ in 0..MAX_TURNS {
        if flag.load(Ordering::SeqCst) {
            return true;
        }
        thread::yield_now();
    }
    false
}

#[test]
fn two_lanes_serve_at_the_same_time(rt: HostRuntime) -> Result<(), Fail> {
    let alloc = rt.alloc();
    let script = script(
        alloc,
        "sim,2,,,,,,\ndev,0,1,0,1,,,\ndev,0,2,0,1,,,\nlane,0,,,,,,\nlane,0,,,,,,\nsubmit,0,0:1:0,1152,4,none,,\nsubmit,0,0:2:0,1152,4,none,,\n",
    )?;
    let (one, other) = (AtomicBool::new(false), AtomicBool::new(false));
    let mut ports = Vec::new(alloc);
    ports.push(Meeting::new(alloc, &one, &other))?;
    ports.push(Meeting::new(alloc, &other, &one))?;
    assert_eq!(rt; script.config().lanes().len(), ports.len());
    let run = run_live(&rt, alloc, &script, ports)?;
    assert_eq!(rt; run.ending, Ending::Drained);
    for port in &run.ports {
        assert_eq!(rt; port.served.len(), 1);
        assert!(rt; !port.gave_up);
    }
    Ok(())
}

// While a lane serves for long, another has nothing to send, and a driver's row is refused in each round.
#[test]
fn who_has_nothing_to_do_sleeps(rt: HostRuntime) -> Result<(), Fail> {
    let alloc = rt.alloc();
    let script = script(
        alloc,
        "limits,1024,3,4096,65535,,,\nsim,2,,,,,,\nsim,1,,,,,,\ndev,0,1,0,1,,,\ndev,1,1,0,1,,,\nlane,0,,,,,,\nlane,1,,,,,,\nsubmit,0,0:1:0,1152,4,none,,\nrelease,1,1:1:0,1,,,,\n",
    )?;
    let (one, other) = (AtomicBool::new(false), AtomicBool::new(false));
    let mut ports = Vec::new(alloc);
    ports.push(Meeting::new(alloc, &one, &other))?;
    ports.push(Meeting::new(alloc, &other, &one))?;
    assert_eq!(rt; script.config().lanes().len(), ports.len());
    let reports = Reports::nothing();
    let run = run_live_with(&rt, alloc, &script, ports, &reports)?;
    let [busy, idle] = run.ports.as_slice() else {
        return Err(Fail::new("a port is missing"));
    };
    assert_eq!(rt; (run.ending, busy.gave_up), (Ending::RoundsFull, true));
    // Two rounds opened. One driver rested once, the other one in each of three rounds, and the lane once.
    assert!(rt; reports.times() <= 1 + 2 + 5, "{}", reports.times());
    // No round opened before the busy one was done.
    assert!(rt; !opens_in_flight(run.history.events()));
    // A submit and two ticks woke the idle lane.
    assert!(rt; idle.asked <= 1 + 3, "{}", idle.asked);
    Ok(())
}

// Whether a round opens while a command is in flight.
fn opens_in_flight(events: &[Event]) -> bool {
    let mut in_flight = 0u32;
    for event in events {
        match event {
            Event::Send { .. } => in_flight = in_flight.saturating_add(1),
            Event::Done { .. } => in_flight = in_flight.saturating_sub(1),
            Event::Tick if in_flight > 0 => return true,
            _ => {}
        }
    }
    false
}

// Sets a flag once a command in flight is reported.
#[derive(Clone, Copy)]
struct InFlight<'f> {
    reports: &'f AtomicBool,
}

impl Progress for InFlight<'_> {
    fn show(&self, look: Look) {
        if look.in_flight > 0 {
            self.reports.store(true, Ordering::SeqCst);
        }
    }
}

// One lane serves until that was reported. The other one is done before, and rests.
#[test]
fn a_rest_is_reported_while_a_lane_serves(rt: HostRuntime) -> Result<(), Fail> {
    let alloc = rt.alloc();
    let script = script(
        alloc,
        "sim,1,,,,,,\nsim,1,,,,,,\ndev,0,1,0,1,,,\ndev,1,1,0,1,,,\nlane,0,,,,,,\nlane,1,,,,,,\nsubmit,0,0:1:0,1152,4,none,,\nsubmit,0,1:1:0,1152,4,none,,\n",
    )?;
    let (one, other) = (AtomicBool::new(false), AtomicBool::new(false));
    let reports = AtomicBool::new(false);
    let mut ports = Vec::new(alloc);
    ports.push(Meeting::new(alloc, &one, &reports))?;
    ports.push(Meeting::new(alloc, &other, &one))?;
    assert_eq!(rt; script.config().lanes().len(), ports.len());
    let run = run_live_with(&rt, alloc, &script, ports, &InFlight { reports: &reports })?;
    assert_eq!(rt; run.ending, Ending::Drained);
    for port in &run.ports {
        assert!(rt; !port.gave_up);
    }
    Ok(())
}
