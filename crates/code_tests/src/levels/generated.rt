//! Networks that are made by a seed.

use large_plans::{Network, NetworkStay};
use std::alloc::{AllocError, Global};

/// When requests come.
#[derive(Clone, Copy, Debug)]
pub(super) enum Kind {
    /// Many at once, now and then.
    Bursts,
    /// In the first half of the rounds, evenly.
    Overload,
    /// A number of them at once, and then a new one for each that is sent.
    Loop,
}

/// What a network is like.
#[derive(Clone, Copy, Debug)]
pub(super) struct Shape {
    pub(super) kind: Kind,
    pub(super) links: u32,
    pub(super) adapters: u32,
    pub(super) devices: u32,
    pub(super) rounds: u32,
    pub(super) requests: u32,
    pub(super) weights: u32,
    pub(super) device_cap: u32,
    pub(super) adapter_cap: u32,
    /// Of a hundred cells, how many are closed.
    pub(super) closed: u32,
    pub(super) seed: u32,
}

/// Numbers that look like chance.
#[derive(Drop)]
pub(super) struct Dice {
    pub(super) seed: u32,
}

impl Dice {
    /// A number below `sides`, and 0 where that is 0.
    pub(super) fn below(&mut self, sides: u32) -> u32 {
        self.seed = self
            .seed
            .wrapping_mul(1_664_525)
            .wrapping_add(1_013_904_223);
        (self.seed >> 8).checked_rem(sides).unwrap_or(0)
    }
}

/// A network of this shape. Its last round has room for all.
pub(super) fn network(alloc: Global, shape: Shape) -> Result<Network, AllocError> {
    let mut dice = Dice { seed: shape.seed };
    let mut network = Network::new(alloc, shape.rounds);
    add_devices(alloc, &mut network, &mut dice, shape)?;
    add_adapters(alloc, &mut network, &mut dice, shape)?;
    add_links(alloc, &mut network, &mut dice, shape)?;
    add_stays(&mut network, &mut dice, shape)?;
    Ok(network)
}

fn add_devices(
    alloc: Global,
    network: &mut Network,
    dice: &mut Dice,
    shape: Shape,
) -> Result<(), AllocError> {
    for device in 0..shape.devices {
        let adapter = device.checked_rem(shape.adapters).unwrap_or(0);
        let above = shape.devices.saturating_add(adapter);
        add_unit(alloc, network, dice, shape, Some(above), shape.device_cap)?;
    }
    Ok(())
}

fn add_adapters(
    alloc: Global,
    network: &mut Network,
    dice: &mut Dice,
    shape: Shape,
) -> Result<(), AllocError> {
    let first = shape.devices.saturating_add(shape.adapters);
    for adapter in 0..shape.adapters {
        let above = adapter
            .checked_rem(shape.links)
            .map(|link| first.saturating_add(link));
        add_unit(alloc, network, dice, shape, above, shape.adapter_cap)?;
    }
    Ok(())
}

fn add_links(
    alloc: Global,
    network: &mut Network,
    dice: &mut Dice,
    shape: Shape,
) -> Result<(), AllocError> {
    let cap = shape.adapter_cap.saturating_mul(shape.adapters) / 3;
    for _ in 0..shape.links {
        add_unit(alloc, network, dice, shape, None, cap.max(2))?;
    }
    Ok(())
}

fn add_unit(
    alloc: Global,
    network: &mut Network,
    dice: &mut Dice,
    shape: Shape,
    above: Option<u32>,
    cap: u32,
) -> Result<(), AllocError> {
    let mut caps = Vec::new(alloc);
    for round in 0..shape.rounds {
        let closed = dice.below(100) < shape.closed;
        let last = round.saturating_add(1) == shape.rounds;
        caps.push(if last {
            shape.requests.saturating_mul(2)
        } else if closed {
            0
        } else {
            cap
        })?;
    }
    network.add_unit(above, &caps)?;
    Ok(())
}

fn add_stays(network: &mut Network, dice: &mut Dice, shape: Shape) -> Result<(), AllocError> {
    let mut left = shape.requests;
    let span = shape.rounds.saturating_sub(1);
    for number in 0..shape.requests {
        if left == 0 {
            break;
        }
        let size = match shape.kind {
            Kind::Bursts => dice.below(20).saturating_add(1).min(left),
            _ => 1,
        };
        let round = match shape.kind {
            Kind::Bursts => dice.below(span.saturating_mul(9) / 10),
            Kind::Overload => dice.below(span / 2),
            Kind::Loop => number
                .saturating_sub(64)
                .checked_div(shape.adapters.saturating_mul(shape.adapter_cap))
                .unwrap_or(0)
                .min(span),
        };
        let stay = stay_in(
            dice.below(shape.devices.saturating_mul(shape.weights)),
            round,
            shape,
        );
        for _ in 0..size {
            network.add_stay(stay)?;
        }
        left = left.saturating_sub(size);
    }
    Ok(())
}

// A stay that may wait to the end, of a device and a weight that this number has.
fn stay_in(number: u32, arrival: u32, shape: Shape) -> NetworkStay {
    let weight = number.checked_rem(shape.weights).unwrap_or(0);
    NetworkStay {
        unit: number.checked_div(shape.weights).unwrap_or(0),
        weight: weight
            .saturating_mul(weight)
            .saturating_mul(3)
            .saturating_add(1),
        arrival,
        last: shape.rounds.saturating_sub(1),
    }
}
