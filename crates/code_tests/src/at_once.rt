//! Adapters planned at once.

use crate::texts::{FROZEN, SECOND_ADAPTER, TWO_ADAPTERS};
use cam_types::Watched;
use cost_plan::{PlanProgress, plan_with};
use round_net::{Net, cost};
use std::alloc::Global;
use std::sync::atomic::{AtomicBool, Ordering};
use std::test::Fail;
use std::thread::yield_now;
use trace_file::read_trace;

const TURNS: u32 = 1_000_000;

// A progress in which each of two adapters waits for the other, but not for ever.
#[derive(Drop)]
struct Meeting {
    here: [AtomicBool; 2],
    gave_up: AtomicBool,
}

impl Meeting {
    fn new() -> Meeting {
        Meeting {
            here: [AtomicBool::new(false), AtomicBool::new(false)],
            gave_up: AtomicBool::new(false),
        }
    }

    fn are_both_here(&self) -> bool {
        self.here.iter().all(|here| here.load(Ordering::SeqCst))
    }
}

impl PlanProgress for Meeting {
    fn begun(&self, adapter: u32) {
        if let Some(here) = self.here.get(adapter as usize) {
            here.store(true, Ordering::SeqCst);
        }
        for _ in 0..TURNS {
            if self.are_both_here() {
                return;
            }
            yield_now();
        }
        self.gave_up.store(true, Ordering::SeqCst);
    }
}

fn net(alloc: Global, text: &str) -> Result<Net, Fail> {
    let mut reader = Watched::new(text.as_bytes());
    Ok(Net::of(alloc, &read_trace(alloc, &mut reader)?)?)
}

#[test]
fn each_adapter_begins_before_the_other_is_planned(rt: HostRuntime) -> Result<(), Fail> {
    let net = net(rt.alloc(), TWO_ADAPTERS)?;
    let progress = Meeting::new();
    let best = plan_with(&rt, rt.alloc(), &net, &progress)?;
    let given = (
        progress.are_both_here(),
        progress.gave_up.load(Ordering::SeqCst),
        cost(&net, &best.schedule),
    );
    assert_eq!(rt; given, (true, false, Some(3)));
    Ok(())
}

#[test]
fn progress_names_the_one_adapter_that_has_a_stay(rt: HostRuntime) -> Result<(), Fail> {
    for (trace, reports, due) in [
        (FROZEN, [true, false], 2),
        (SECOND_ADAPTER, [false, true], 2),
    ] {
        let net = net(rt.alloc(), trace)?;
        let progress = Meeting::new();
        let best = plan_with(&rt, rt.alloc(), &net, &progress)?;
        let here = [
            progress.here[0].load(Ordering::SeqCst),
            progress.here[1].load(Ordering::SeqCst),
        ];
        let given = (
            here,
            progress.gave_up.load(Ordering::SeqCst),
            cost(&net, &best.schedule),
        );
        assert_eq!(rt; given, (reports, true, Some(due)), "{trace}");
    }
    Ok(())
}
