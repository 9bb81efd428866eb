//! Whether a plan is best, by its prices.

use large_plans::{Guess, Network, NetworkStay};
use std::alloc::{AllocError, Global};

/// What a plan comes to.
#[derive(Clone, Copy)]
pub(super) struct Verdict {
    /// How many stays are sent before they came, or in no round.
    wrong: u64,
    /// How many cells send more than their caps.
    over: u64,
    /// What their waiting costs, and what the prices are worth.
    cost: i64,
    value: i64,
}

impl Verdict {
    pub(super) fn is_best(&self) -> bool {
        self.wrong == 0 && self.over == 0 && self.cost == self.value
    }
}

const NEVER: i64 = i64::MAX / 4;

/// What a plan comes to.
pub(super) fn judge(
    alloc: Global,
    network: &Network,
    guess: &Guess,
) -> Result<Verdict, AllocError> {
    let mut verdict = Verdict {
        wrong: 0,
        over: 0,
        cost: 0,
        value: 0,
    };
    let mut loads = vec![in alloc; 0u32; guess.prices.len()]?;
    let mut number = 0usize;
    for stay in &network.stays {
        let round = guess.rounds.get(number).copied().unwrap_or(u32::MAX);
        if round < stay.arrival || round >= network.rounds {
            verdict.wrong = verdict.wrong.saturating_add(1);
        }
        let waited = i64::from(round.saturating_sub(stay.arrival));
        let cost = waited.saturating_mul(i64::from(stay.weight));
        verdict.cost = verdict.cost.saturating_add(cost);
        load(network, &mut loads, stay.unit, round);
        let least = least_cost(network, guess, stay);
        verdict.value = verdict.value.saturating_add(least);
        number = number.saturating_add(1);
    }
    for unit in 0..network.units() {
        add_unit(network, guess, unit, &loads, &mut verdict);
    }
    Ok(verdict)
}

fn add_unit(network: &Network, guess: &Guess, unit: u32, loads: &[u32], verdict: &mut Verdict) {
    for round in 0..network.rounds {
        let place = place(network, unit, round);
        let cap = network.cap(unit, round);
        if loads.get(place).copied().unwrap_or(0) > cap {
            verdict.over = verdict.over.saturating_add(1);
        }
        let price = guess.prices.get(place).copied().unwrap_or(0);
        let price = i64::try_from(price).unwrap_or(i64::MAX);
        verdict.value = verdict
            .value
            .saturating_sub(price.saturating_mul(i64::from(cap)));
    }
}

fn place(network: &Network, unit: u32, round: u32) -> usize {
    (unit as usize)
        .saturating_mul(network.rounds as usize)
        .saturating_add(round as usize)
}

// What the prices say that a stay costs at least.
fn least_cost(network: &Network, guess: &Guess, stay: &NetworkStay) -> i64 {
    let mut least = NEVER;
    for round in stay.arrival..network.rounds {
        let waited = i64::from(round.saturating_sub(stay.arrival));
        let cost = waited.saturating_mul(i64::from(stay.weight));
        least = least.min(cost.saturating_add(price(network, guess, stay.unit, round)));
    }
    least
}

fn load(network: &Network, loads: &mut [u32], unit: u32, round: u32) {
    let mut here = Some(unit);
    for _ in 0..network.units() {
        let Some(unit) = here else {
            return;
        };
        if let Some(load) = loads.get_mut(place(network, unit, round)) {
            *load = load.saturating_add(1);
        }
        here = network.unit_above(unit);
    }
}

// What a request's path from a device up costs in a round.
fn price(network: &Network, guess: &Guess, unit: u32, round: u32) -> i64 {
    let mut sum = 0i64;
    let mut here = Some(unit);
    for _ in 0..network.units() {
        let Some(unit) = here else {
            return sum;
        };
        if network.cap(unit, round) == 0 {
            return NEVER;
        }
        let price = guess.prices.get(place(network, unit, round)).copied();
        sum = sum.saturating_add(i64::try_from(price.unwrap_or(0)).unwrap_or(NEVER));
        here = network.unit_above(unit);
    }
    sum
}
