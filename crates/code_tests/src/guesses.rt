//! The guesses with which plans begin.

use crate::generated::{Shape, history};
use crate::plan_progress;
use cost_plan::{NoPlanProgress, guessed_plan, guessed_plan_with};
use round_net::Net;
use std::alloc::Global;
use std::test::Fail;
use std::thread::Threads;

const LOOSE: Shape = Shape {
    devices: 16,
    dev_openings: 4,
    sim_openings: 16,
    commands: 1024,
    requeues: 0,
    rounds: 64,
    idle: 30,
    frozen: 0,
};

// Nets that are loose, tight, frozen in part, and with a quarter of the stays requeued; of stays that come at once, on one
// device and on sixteen; and overloaded.
const SHAPES: [Shape; 7] = [
    LOOSE,
    Shape {
        dev_openings: 1,
        sim_openings: 3,
        idle: 10,
        ..LOOSE
    },
    Shape {
        dev_openings: 1,
        sim_openings: 3,
        idle: 10,
        frozen: 10,
        ..LOOSE
    },
    Shape {
        dev_openings: 1,
        sim_openings: 3,
        commands: 768,
        requeues: 256,
        idle: 10,
        ..LOOSE
    },
    Shape {
        devices: 1,
        dev_openings: 9,
        rounds: 1,
        idle: 3,
        ..LOOSE
    },
    Shape {
        dev_openings: 1,
        rounds: 1,
        idle: 10,
        ..LOOSE
    },
    Shape {
        dev_openings: 1,
        sim_openings: 3,
        rounds: 32,
        idle: 0,
        ..LOOSE
    },
];

// How many stays there are, and whether the guess alone is a best plan, and the one that is made at once.
fn guessed<R: Threads + Sync>(rt: &R, alloc: Global, net: &Net) -> Result<(u32, bool, bool), Fail> {
    let alone = guessed_plan(alloc, net)?.is_some();
    let at_once = guessed_plan_with(rt, alloc, net, &NoPlanProgress)?.is_some();
    Ok((net.stays(), alone, at_once))
}

#[test]
fn a_guess_of_1024_stays_is_best(rt: HostRuntime) -> Result<(), Fail> {
    for shape in SHAPES {
        let history = history(rt.alloc(), shape)?;
        let net = Net::of(rt.alloc(), &history)?;
        assert_eq!(rt;
            guessed(&rt, rt.alloc(), &net)?,
            (1024, true, true),
            "{shape:?}"
        );
    }
    // Over a link.
    let net = plan_progress::linked_net(rt.alloc(), 1024)?;
    assert_eq!(rt; guessed(&rt, rt.alloc(), &net)?, (1024, true, true));
    Ok(())
}

// A round that takes 300.
const WIDE: &str =
    "camrecord1,a,b,c,d,e,f,g\nrounds,3,,,,,,\nsim,1,,,,,,\ndev,0,0,0,1,,,\ncap,dev,0,1,1,300,,\ncap,sim,0,1,1,300,,\n";

#[test]
fn a_guess_of_a_wide_round_is_best(rt: HostRuntime) -> Result<(), Fail> {
    let alloc = rt.alloc();
    let mut text = String::new(alloc);
    text.push_str(WIDE)?;
    for _ in 0..300 {
        text.push_str("request,0,0,128,1,,1,\n")?;
    }
    let net = plan_progress::net_of(alloc, text.as_str())?;
    assert_eq!(rt; guessed(&rt, alloc, &net)?, (300, true, true));
    Ok(())
}
