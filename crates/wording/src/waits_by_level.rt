//! Percentiles of the waits of each run level: as recorded, by the order by weight, and in a best schedule.

use round_net::Schedule;
use std::alloc::{AllocError, Global};
use wait_causes::{ExplainedStay, Explanation};

/// What the order by weight makes of an input.
#[derive(Drop)]
pub struct ByWeight {
    /// In which round it sends each stay.
    pub schedule: Schedule,
    /// What that costs, in weighted rounds.
    pub cost: u64,
}

/// Percentiles of waits by nearest rank, in rounds.
#[derive(Clone, Copy)]
pub struct WaitRanks {
    /// The least wait that half of the stays don't pass.
    pub p50: u32,
    /// The least that 99 of a hundred don't pass.
    pub p99: u32,
    /// The least that 999 of a thousand don't pass.
    pub p999: u32,
}

/// How long the stays of a run level wait by each of three schedules.
#[derive(Clone, Copy)]
pub struct LevelWaits {
    /// The run level, from 0 to 4.
    pub level: u32,
    /// As recorded.
    pub recorded: WaitRanks,
    /// By the order by weight; none if one isn't sent in time by it.
    pub by_weight: Option<WaitRanks>,
    /// In the best schedule.
    pub best: WaitRanks,
}

/// How long the stays of each run level wait, the most urgent level first: as recorded, by weight if all are sent in time so,
/// and in the best schedule. A level without a stay has no entry.
pub fn level_waits(
    alloc: Global,
    explanation: &Explanation,
    by_weight: Option<&ByWeight>,
) -> Result<Vec<LevelWaits>, AllocError> {
    let stays = explanation.stays();
    let mut levels = Vec::new(alloc);
    for level in 0..5 {
        if stays.iter().any(|stay| stay.level == level) {
            levels.push(waits_of(alloc, stays, level, by_weight)?)?;
        }
    }
    Ok(levels)
}

fn waits_of(
    alloc: Global,
    stays: &[ExplainedStay],
    level: u32,
    by_weight: Option<&ByWeight>,
) -> Result<LevelWaits, AllocError> {
    let (mut recorded, mut best) = (Vec::new(alloc), Vec::new(alloc));
    for stay in stays {
        if stay.level == level {
            recorded.push(stay.live.saturating_sub(stay.arrival))?;
            best.push(stay.best.saturating_sub(stay.arrival))?;
        }
    }
    Ok(LevelWaits {
        level,
        recorded: ranks(recorded),
        by_weight: match by_weight {
            Some(made) => Some(ranks_by(alloc, stays, level, &made.schedule)?),
            None => None,
        },
        best: ranks(best),
    })
}

// Those of the level's waits in a schedule.
fn ranks_by(
    alloc: Global,
    stays: &[ExplainedStay],
    level: u32,
    schedule: &Schedule,
) -> Result<WaitRanks, AllocError> {
    let mut waits = Vec::new(alloc);
    for (number, stay) in stays.iter().enumerate() {
        if stay.level == level {
            waits.push(round_in(schedule, number).saturating_sub(stay.arrival))?;
        }
    }
    Ok(ranks(waits))
}

// The round of the stay of this number; 0 if the schedule hasn't one.
fn round_in(schedule: &Schedule, number: usize) -> u32 {
    match u32::try_from(number) {
        Ok(stay) if number < schedule.len() => schedule.round(stay),
        _ => 0,
    }
}

fn ranks(waits: Vec<u32>) -> WaitRanks {
    let mut waits = waits;
    waits.sort_unstable();
    WaitRanks {
        p50: rank(&waits, 500),
        p99: rank(&waits, 990),
        p999: rank(&waits, 999),
    }
}

// The least of these ascending numbers that so many thousandths of them don't pass; 0 of none.
fn rank(numbers: &[u32], thousandths: usize) -> u32 {
    let place = numbers
        .len()
        .saturating_mul(thousandths)
        .saturating_add(999)
        / 1_000;
    numbers.get(place.saturating_sub(1)).copied().unwrap_or(0)
}
