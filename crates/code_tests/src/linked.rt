//! A script that is made of values, and has a link.

use crate::scripts::live;
use cam_types::{Adapter, Config, Device, Flags, Limits, Outcome, standard_weights};
use event_rules::Event;
use sim_worker::{Ending, sim_run};
use std::alloc::Global;
use std::test::Fail;
use trace_file::{Script, Step};

// Neither flag.
const PLAIN: Flags = Flags {
    qfreeze: false,
    qfrzdis: false,
};

// A device of the adapter, with that target and lun 0.
fn device(bus: u8, target: u16, openings: u32) -> Device {
    Device {
        bus,
        target,
        lun: 0,
        openings,
    }
}

// A submit by driver 0.
fn submit(device: u32, priority: u32, retries: u32, flags: Flags) -> Event {
    Event::Submit {
        driver: 0,
        device,
        priority,
        retries,
        flags,
    }
}

// Two adapters of one opening on a link of one opening, each with a device and a lane.
fn narrow(alloc: Global) -> Result<Config, Fail> {
    let adapter = Adapter {
        openings: 1,
        link: Some(0),
    };
    Ok(Config::with_links(
        alloc,
        &standard_weights(),
        &[1],
        &[adapter, adapter],
        &[device(0, 1, 1), device(1, 1, 1)],
        &[0, 1],
    )?)
}

// That many lists, of which the first has these items.
fn lists<T: Copy + Drop>(alloc: Global, count: usize, first: &[T]) -> Result<Vec<Vec<T>>, Fail> {
    let mut lists = Vec::new(alloc);
    for place in 0..count {
        let items = if place == 0 { first } else { &[] };
        lists.push(items.to_vec(alloc)?)?;
    }
    Ok(lists)
}

#[test]
fn a_run_over_a_narrow_link_takes_two_rounds(rt: HostRuntime) -> Result<(), Fail> {
    let steps = [
        Step::Act(submit(0, 1152, 4, PLAIN)),
        Step::Act(submit(1, 1152, 4, PLAIN)),
    ];
    let Some(script) = Script::new(
        narrow(rt.alloc())?,
        Limits::most(),
        lists(rt.alloc(), 8, &steps)?,
        lists::<Outcome>(rt.alloc(), 2, &[])?,
    ) else {
        return Err(Fail::new("no script"));
    };
    let run = live(&rt, rt.alloc(), &script)?;
    assert_eq!(rt; (run.ending, run.history.round()), (Ending::Drained, 2));
    for seed in 0..20 {
        let sim = sim_run(rt.alloc(), &script, seed)?;
        assert_eq!(rt; (sim.ending, sim.history.round()), (Ending::Drained, 2));
    }
    Ok(())
}
