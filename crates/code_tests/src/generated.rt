//! Histories of many stays, made by a transport.

use cam_event::History;
use cam_types::{Config, Device, Flags, Limits, Outcome, SenseBytes};
use std::alloc::Global;
use std::test::Fail;
use xpt_state::{Sent, Xpt};

const ADAPTERS: u8 = 4;

const ROUNDS: u32 = 128;

// A unit attention: the device was reset.
fn attention() -> Outcome {
    Outcome {
        status: 0x0c,
        scsi: 0x02,
        sense: SenseBytes::first(&[
            0x70, 0x00, 0x06, 0x00, 0x00, 0x00, 0x00, 0x0a, 0x00, 0x00, 0x00, 0x00, 0x29, 0x00,
        ]),
    }
}

/// What a history is like.
#[derive(Clone, Copy, Debug)]
pub(crate) struct Shape {
    /// How many devices there are, on four adapters.
    pub(crate) devices: u16,
    /// How many openings each device and each adapter has.
    pub(crate) dev_openings: u32,
    pub(crate) sim_openings: u32,
    /// How many commands there are, and how many of them fail once and are requeued.
    pub(crate) commands: u32,
    pub(crate) requeues: u32,
    /// The rounds in which they are submitted, from the first on.
    pub(crate) rounds: u32,
    /// Of a hundred turns, how many aren't taken while there is time.
    pub(crate) idle: u32,
    /// Of a hundred rounds, in how many a device is frozen.
    pub(crate) frozen: u32,
}

// Numbers that look like chance.
#[derive(Drop)]
struct Dice {
    seed: u32,
}

impl Dice {
    // A number below `sides`, and 0 where that is 0.
    fn below(&mut self, sides: u32) -> u32 {
        self.seed = self
            .seed
            .wrapping_mul(1_664_525)
            .wrapping_add(1_013_904_223);
        (self.seed >> 8).checked_rem(sides).unwrap_or(0)
    }
}

/// A history of this shape, in which each stay was sent if there was time for all.
pub(crate) fn history(alloc: Global, shape: Shape) -> Result<History, Fail> {
    let mut xpt = Xpt::open(alloc, config(alloc, shape)?, Limits::most())?;
    make_rounds(&mut xpt, shape)?;
    Ok(xpt.into_history(alloc)?)
}

fn make_rounds(xpt: &mut Xpt, shape: Shape) -> Result<(), Fail> {
    let mut dice = Dice { seed: 1 };
    let mut requeues = shape.requeues;
    for round in 0..ROUNDS {
        freeze(xpt, shape, &mut dice)?;
        submit(xpt, shape, &mut dice, round)?;
        let idle = if round < 96 { shape.idle } else { 0 };
        for lane in 0..u32::from(ADAPTERS) {
            send(xpt, shape, &mut dice, idle, lane, &mut requeues)?;
        }
        release(xpt, shape);
        if round + 1 < ROUNDS {
            xpt.tick()?;
        }
    }
    Ok(())
}

fn config(alloc: Global, shape: Shape) -> Result<Config, Fail> {
    let mut devices = Vec::new(alloc);
    for target in 0..shape.devices {
        devices.push(Device {
            bus: (target % u16::from(ADAPTERS)) as u8,
            target,
            lun: 0,
            openings: shape.dev_openings,
        })?;
    }
    Ok(Config::new(alloc, &[shape.sim_openings; 4], &devices, &[0, 1, 2, 3])?)
}

// Freezes some devices.
fn freeze(xpt: &mut Xpt, shape: Shape, dice: &mut Dice) -> Result<(), Fail> {
    for device in 0..u32::from(shape.devices) {
        if dice.below(100) < shape.frozen {
            xpt.freeze_dev(device, 1)?;
        }
    }
    Ok(())
}

// Releases what is frozen.
fn release(xpt: &mut Xpt, shape: Shape) {
    for device in 0..u32::from(shape.devices) {
        let _ = xpt.release_dev(device, 1);
    }
}

// Submits the round's part of the commands.
fn submit(xpt: &mut Xpt, shape: Shape, dice: &mut Dice, round: u32) -> Result<(), Fail> {
    if round >= shape.rounds {
        return Ok(());
    }
    let each = shape.commands / shape.rounds;
    for _ in 0..each {
        let device = dice.below(u32::from(shape.devices));
        let priority = dice.below(1280);
        xpt.submit(
            0,
            device,
            priority,
            4,
            Flags {
                qfreeze: false,
                qfrzdis: false,
            },
        )?;
    }
    Ok(())
}

// Sends by a lane, completes what was sent, and requeues some of it.
fn send(
    xpt: &mut Xpt,
    shape: Shape,
    dice: &mut Dice,
    idle: u32,
    lane: u32,
    requeues: &mut u32,
) -> Result<(), Fail> {
    for _ in 0..shape.sim_openings {
        if dice.below(100) < idle {
            return Ok(());
        }
        let Sent::Command(command) = xpt.send_next(lane)? else {
            return Ok(());
        };
        if command.attempt == 0 && *requeues > 0 && dice.below(3) == 0 {
            *requeues -= 1;
            xpt.done(command.ccb, attention())?;
            xpt.requeue(command.ccb)?;
        } else {
            xpt.done(command.ccb, Outcome::of_status(1))?;
        }
    }
    Ok(())
}
