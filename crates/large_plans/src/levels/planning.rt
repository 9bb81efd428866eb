//! Cost scaling by levels of time (after Goldberg and Tarjan 1990), part by part: a plan on few long blocks is refined to blocks
//! half as long, until a block is a round. Proved: it has a round for each stay, and a price for each unit and round.

ghost use Rattle.std.specs.Prelude.{◌≡◌, ◌*◌, length, IfOk};
ghost use Rattle.std.specs.Option.{IfSome};

use crate::guess::Guess;
use crate::levels::answer::{give_rounds, price_units};
use crate::levels::balancing::{Needs, finish, repair};
use crate::levels::level::{Level, as_imbalance};
use crate::levels::outline::{Outline, outlines};
use crate::levels::parts::{Part, parts};
use crate::levels::raising::raise_potentials;
use crate::levels::refining::refined;
use crate::levels::search::Search;
use crate::levels::settling::settle;
use crate::levels::stopped::price_stopped;
use crate::network::Network;
use crate::progress::{Done, Progress};
use std::alloc::{AllocError, Global};

/// A guess at a best plan: when each stay is sent so that their waiting costs least in all. There is none if it finds no room for
/// some of them in the rounds that there are, or if a stay's unit, weight or arrival isn't as `NetworkStay` says. When windows end
/// isn't read. The only error is that there is no memory left.
pub fn plan_by_levels<P: Progress>(
    alloc: Global,
    network: &Network,
    progress: &P,
) -> Result<Option<Guess>, AllocError>
    ensures rounds { IfOk result (λ found. IfSome found (λ guess. length guess.rounds.items ≡ length network.now.stays.items)) }
    ensures prices { IfOk result (λ found. IfSome found (λ guess. length guess.prices.items ≡ length network.now.above.items * network.now.rounds)) }
{
    let mut guess = Guess::blank(alloc, network)?;
    let (rounds, prices) = (&mut guess.rounds, &mut guess.prices);
    if plan_parts(alloc, network, progress, rounds, prices)? {
        Ok(Some(guess))
    } else {
        Ok(None)
    }
}

// Plans part by part. Says whether it found room for all.
fn plan_parts<P: Progress>(
    alloc: Global,
    network: &Network,
    progress: &P,
    rounds: &mut [u32],
    prices: &mut [u64],
) -> Result<bool, AllocError> {
    let Some(parts) = parts(alloc, network)? else {
        return Ok(false);
    };
    let mut done = Done {
        parts: u32::try_from(parts.len()).unwrap_or(u32::MAX),
        planned: 0,
        levels_left: 0,
    };
    for part in &parts {
        let Some(level) = finest(alloc, network, part, progress, done)? else {
            return Ok(false);
        };
        if !give_rounds(alloc, part, &level, rounds)? {
            return Ok(false);
        }
        price_units(alloc, network, part, &level, prices)?;
        done.planned = done.planned.saturating_add(1);
    }
    progress.level_planned(done);
    Ok(true)
}

// The level of a part whose blocks are rounds, planned.
fn finest<P: Progress>(
    alloc: Global,
    network: &Network,
    part: &Part,
    progress: &P,
    done: Done,
) -> Result<Option<Level>, AllocError> {
    let mut outlines = outlines(alloc, network, part)?;
    let mut search = Search::new(alloc);
    let Some(outline) = outlines.pop() else {
        return Ok(None);
    };
    let Some(mut level) = coarsest(alloc, part, &outline, &mut search)? else {
        return Ok(None);
    };
    for left in (0..outlines.len()).rev() {
        progress.level_planned(Done {
            levels_left: u32::try_from(left).unwrap_or(u32::MAX).saturating_add(1),
            ..done
        });
        price_stopped(&mut level, &part.columns);
        let Some(outline) = outlines.pop() else {
            return Ok(None);
        };
        level = match finer(alloc, part, &outline, &mut search, &level)? {
            Some(finer) => finer,
            None => return Ok(None),
        };
    }
    Ok(Some(level))
}

// The first level, planned from nothing.
fn coarsest(
    alloc: Global,
    part: &Part,
    outline: &Outline,
    search: &mut Search,
) -> Result<Option<Level>, AllocError> {
    let mut level = Level::of(alloc, outline)?;
    for number in 0..level.len() {
        level.set_imbalance(number, as_imbalance(outline.comes(number)));
    }
    let needs = Needs::of(alloc, &level)?;
    if finish(alloc, &mut level, &part.columns, search, needs)? {
        Ok(Some(level))
    } else {
        Ok(None)
    }
}

// The next level, planned from the one before.
fn finer(
    alloc: Global,
    part: &Part,
    outline: &Outline,
    search: &mut Search,
    whole: &Level,
) -> Result<Option<Level>, AllocError> {
    let mut level = refined(alloc, part, outline, whole)?;
    raise_potentials(alloc, &mut level, &part.columns)?;
    settle(&mut level, &part.columns);
    if repair(alloc, &mut level, &part.columns, search)? {
        Ok(Some(level))
    } else {
        Ok(None)
    }
}
