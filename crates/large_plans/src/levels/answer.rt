//! What the finest level of a part says: in which round each request is sent, and what room is worth.

use crate::levels::level::Level;
use crate::levels::parts::Part;
use crate::network::Network;
use crate::prices::RoundPrices;
use std::alloc::{AllocError, Global};

// The next send of a row: its round, and how many sends of that round were given.
#[derive(Clone, Copy)]
struct SendCursor {
    round: u32,
    given: u32,
}

/// Gives each request of a part its round: those of a row in the order of their arrival, to the row's sends in order. Says whether
/// each has one.
pub fn give_rounds(
    alloc: Global,
    part: &Part,
    level: &Level,
    rounds: &mut [u32],
) -> Result<bool, AllocError> {
    let begin = SendCursor { round: 0, given: 0 };
    let mut cursors = vec![in alloc; begin; part.columns.len() as usize]?;
    for (_, place) in &in_order(alloc, part)? {
        if let Some(coming) = part.comings.get(*place)
            && let Some(cursor) = cursors.get_mut(coming.column as usize)
            && let Some(round) = take_send(level, coming.column, cursor)
            && let Some(old) = rounds.get_mut(coming.stay as usize)
        {
            *old = round;
        } else {
            return Ok(false);
        }
    }
    Ok(true)
}

// The rounds in which requests come, each with its place in the part, in order.
fn in_order(alloc: Global, part: &Part) -> Result<Vec<(u32, usize)>, AllocError> {
    let mut order = Vec::with_capacity(alloc, part.comings.len())?;
    for (place, coming) in part.comings.iter().enumerate() {
        order.push((coming.round, place))?;
    }
    order.sort_unstable();
    Ok(order)
}

// The round of a row's next send, if there is one left.
fn take_send(level: &Level, column: u32, cursor: &mut SendCursor) -> Option<u32> {
    for round in cursor.round..level.blocks {
        if cursor.given < level.node(level.at(round, column)).flow {
            cursor.given = cursor.given.saturating_add(1);
            return Some(round);
        }
        *cursor = SendCursor {
            round: round.saturating_add(1),
            given: 0,
        };
    }
    None
}

/// Takes the prices of a part's units.
pub fn price_units(
    alloc: Global,
    network: &Network,
    part: &Part,
    level: &Level,
    prices: &mut [u64],
) -> Result<(), AllocError> {
    let mut line = RoundPrices::new(alloc, &part.columns, part.most())?;
    for round in 0..network.rounds {
        for number in 0..part.columns.len() {
            line.set_potential(number, level.node(level.at(round, number)).potential);
        }
        line.write(network, &part.columns, round, prices);
    }
    Ok(())
}
