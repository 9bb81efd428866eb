//! Plans of made networks, by levels and by repair. A plan is best if it sends all, keeps the caps, and costs as much as its prices
//! are worth: no plan costs less than prices are worth.

mod generated;
mod verdict;

use generated::{Kind, Shape, network};
use large_plans::{Budget, Guess, Network, NoProgress, plan_by_levels, plan_by_repair};
use std::alloc::Global;
use std::test::Fail;
use verdict::judge;

const LOOSE: Shape = Shape {
    kind: Kind::Bursts,
    links: 0,
    adapters: 2,
    devices: 6,
    rounds: 60,
    requests: 400,
    weights: 3,
    device_cap: 2,
    adapter_cap: 4,
    closed: 0,
    seed: 1,
};

// Bursts, overload and closed loops, with and without links, closed cells, and one adapter alone.
const SHAPES: [Shape; 10] = [
    LOOSE,
    Shape {
        links: 1,
        closed: 10,
        ..LOOSE
    },
    Shape {
        links: 2,
        adapters: 5,
        devices: 17,
        requests: 1200,
        ..LOOSE
    },
    Shape {
        kind: Kind::Overload,
        closed: 5,
        ..LOOSE
    },
    Shape {
        kind: Kind::Overload,
        links: 1,
        adapters: 3,
        devices: 9,
        closed: 20,
        requests: 900,
        ..LOOSE
    },
    Shape {
        kind: Kind::Overload,
        adapters: 1,
        devices: 5,
        weights: 5,
        adapter_cap: 3,
        ..LOOSE
    },
    Shape {
        kind: Kind::Loop,
        adapters: 1,
        devices: 4,
        rounds: 200,
        ..LOOSE
    },
    Shape {
        kind: Kind::Loop,
        links: 1,
        rounds: 150,
        closed: 10,
        ..LOOSE
    },
    Shape {
        kind: Kind::Loop,
        links: 1,
        adapters: 3,
        devices: 9,
        ..LOOSE
    },
    Shape {
        rounds: 3,
        requests: 30,
        ..LOOSE
    },
];

const BUDGET: Budget = Budget {
    nodes: 8_000_000,
    nodes_per_path: 0,
};

// Whether the plans of a network of this shape by levels and by repair are best.
fn are_best(alloc: Global, shape: Shape) -> Result<(bool, bool), Fail> {
    let network = network(alloc, shape)?;
    let by_levels = plan_by_levels(alloc, &network, &NoProgress)?;
    let by_repair = plan_by_repair(alloc, &network, BUDGET, &NoProgress)?;
    Ok((
        is_best(alloc, &network, by_levels)?,
        is_best(alloc, &network, by_repair)?,
    ))
}

fn is_best(alloc: Global, network: &Network, guess: Option<Guess>) -> Result<bool, Fail> {
    match guess {
        Some(guess) => Ok(judge(alloc, network, &guess)?.is_best()),
        None => Ok(false),
    }
}

#[test]
fn small_plans_are_best(rt: HostRuntime) -> Result<(), Fail> {
    for shape in SHAPES {
        for seed in 1..4 {
            let shape = Shape { seed, ..shape };
            assert_eq!(rt; are_best(rt.alloc(), shape)?, (true, true), "{shape:?}");
        }
    }
    Ok(())
}

#[test]
fn larger_plans_are_best(rt: HostRuntime) -> Result<(), Fail> {
    for kind in [Kind::Bursts, Kind::Overload, Kind::Loop] {
        for links in [0, 2] {
            let shape = Shape {
                kind,
                links,
                adapters: 4,
                devices: 16,
                rounds: 120,
                requests: 1000,
                weights: 4,
                device_cap: 2,
                adapter_cap: 3,
                closed: 5,
                seed: 7,
            };
            assert_eq!(rt; are_best(rt.alloc(), shape)?, (true, true), "{shape:?}");
        }
    }
    Ok(())
}
