//! The counters of a timeline: how many waited at a device, and how many of its openings were used.

use crate::loads::cap;
use crate::round_figures::{RoundFigures, figures};
use crate::timeline::document::device_process;
use crate::timeline::writer::EventWriter;
use round_net::Net;
use std::alloc::{AllocError, Global};
use wait_causes::{ExplainedStay, Explanation};

/// Puts the counters of each device that had a stay, with a number for each round in which one of them changes.
pub(crate) fn put_counters(
    writer: &mut EventWriter,
    net: &Net,
    explanation: &Explanation,
) -> Result<(), AllocError> {
    for device in 0..net.devices() {
        let stays = stays_of(writer.alloc, explanation, device)?;
        if !stays.is_empty() {
            let figures = figures(writer.alloc, net, &stays)?;
            put_device(writer, net, device, &figures)?;
        }
    }
    Ok(())
}

// The stays of a device.
fn stays_of(
    alloc: Global,
    explanation: &Explanation,
    device: u32,
) -> Result<Vec<ExplainedStay>, AllocError> {
    let mut stays = Vec::new(alloc);
    for stay in explanation.stays() {
        if stay.device == device {
            stays.push(*stay)?;
        }
    }
    Ok(stays)
}

// Puts the counters of a device whose rounds had these numbers: how many openings were used, and how many were left.
fn put_device(
    writer: &mut EventWriter,
    net: &Net,
    device: u32,
    figures: &[RoundFigures],
) -> Result<(), AllocError> {
    let process = device_process(device);
    let (mut round, mut waiting) = (1u32, u64::MAX);
    let mut openings = (u64::MAX, u64::MAX);
    for figure in figures {
        if figure.waiting != waiting {
            waiting = figure.waiting;
            put_waiting(writer, process, round, waiting)?;
        }
        let left = u64::from(cap(net, device, round)).saturating_sub(figure.sent);
        if (figure.sent, left) != openings {
            openings = (figure.sent, left);
            put_openings(writer, process, round, openings)?;
        }
        round = round.saturating_add(1);
    }
    put_waiting(writer, process, round, 0)?;
    put_openings(writer, process, round, (0, 0))
}

// Says how many wait from this round on.
fn put_waiting(
    writer: &mut EventWriter,
    process: u32,
    round: u32,
    waiting: u64,
) -> Result<(), AllocError> {
    writer.counter(process, "queue depth", round, &[("waiting", waiting)])
}

// Says how many openings are used from this round on, and how many are left.
fn put_openings(
    writer: &mut EventWriter,
    process: u32,
    round: u32,
    (used, left): (u64, u64),
) -> Result<(), AllocError> {
    writer.counter(
        process,
        "openings",
        round,
        &[("used", used), ("left", left)],
    )
}
