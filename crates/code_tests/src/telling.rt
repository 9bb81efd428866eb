//! What a run tells of how far it is.

use crate::scripts::script;
use sim_worker::{Ending, Progress, ScriptPort, run_live_with};
use std::sync::atomic::{AtomicU32, Ordering};
use std::test::Fail;
use xpt_state::Look;

// The command comes in round 20.
const LATE: &str =
    "sim,1,,,,,,\ndev,0,1,0,1,,,\nlane,0,,,,,,\npause,0,20,,,,,\nsubmit,0,0:1:0,1152,4,none,,\n";

// In the last of three rounds the device is frozen, and a failed command waits for a decision: there is no room for its requeue.
const STUCK: &str =
    "limits,1024,3,2,65535,,,\nsim,2,,,,,,\ndev,0,1,0,1,,,\ndev,0,2,0,1,,,\nlane,0,,,,,,\nfreeze,0,0:1:0,1,,,,\nsubmit,0,0:1:0,1152,4,none,,\nsubmit,0,0:2:0,1152,4,none,,\nanswer,0,05,00,,,,\n";

// How often something was reported, the rounds of it, a bit each, and the greatest counts of events, of CCBs that wait, and of cases.
#[derive(Drop)]
pub(crate) struct Reports {
    times: AtomicU32,
    rounds: AtomicU32,
    events: AtomicU32,
    waiting: AtomicU32,
    cases: AtomicU32,
}

impl Reports {
    pub(crate) fn nothing() -> Reports {
        Reports {
            times: AtomicU32::new(0),
            rounds: AtomicU32::new(0),
            events: AtomicU32::new(0),
            waiting: AtomicU32::new(0),
            cases: AtomicU32::new(0),
        }
    }

    // How often something was reported.
    pub(crate) fn times(&self) -> u32 {
        self.times.load(Ordering::SeqCst)
    }
}

impl Progress for Reports {
    fn show(&self, look: Look) {
        self.times.fetch_add(1, Ordering::SeqCst);
        self.rounds
            .fetch_or(1 << (look.round % 32), Ordering::SeqCst);
        self.events.fetch_max(look.length, Ordering::SeqCst);
        self.waiting.fetch_max(look.waiting, Ordering::SeqCst);
        self.cases.fetch_max(look.cases, Ordering::SeqCst);
    }
}

#[test]
fn each_round_and_all_events_are_reported(rt: HostRuntime) -> Result<(), Fail> {
    let alloc = rt.alloc();
    let script = script(alloc, LATE)?;
    let ports = ScriptPort::for_lanes(alloc, &script)?;
    let reports = Reports::nothing();
    let run = run_live_with(&rt, alloc, &script, ports, &reports)?;
    assert_eq!(rt; run.ending, Ending::Drained);
    // 19 rounds opened, and the command was submitted, sent and done.
    assert_eq!(rt; reports.events.load(Ordering::SeqCst), 22);
    assert_eq!(rt; reports.rounds.load(Ordering::SeqCst), (1 << 21) - 2);
    // The keeper looks first, after each round that it opens, and after each rest: two of the driver and one of the lane.
    assert!(rt; reports.times() <= 1 + 19 + 3, "{}", reports.times());
    Ok(())
}

#[test]
fn what_waits_is_reported(rt: HostRuntime) -> Result<(), Fail> {
    let alloc = rt.alloc();
    let script = script(alloc, STUCK)?;
    let ports = ScriptPort::for_lanes(alloc, &script)?;
    let reports = Reports::nothing();
    let run = run_live_with(&rt, alloc, &script, ports, &reports)?;
    assert_eq!(rt; run.ending, Ending::RoundsFull);
    let (waiting, cases) = (
        reports.waiting.load(Ordering::SeqCst),
        reports.cases.load(Ordering::SeqCst),
    );
    assert!(rt; waiting >= 1 && waiting <= 2 && cases == 1);
    Ok(())
}
