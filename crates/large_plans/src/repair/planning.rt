//! A plan by repair: the order by weight, mended round by round. Proved: it has a round for each stay, and a price for each unit and
//! round.

ghost use Rattle.std.specs.Prelude.{◌≡◌, ◌*◌, length, IfOk};
ghost use Rattle.std.specs.Option.{IfSome};

use crate::columns::Columns;
use crate::guess::Guess;
use crate::network::Network;
use crate::prices::RoundPrices;
use crate::progress::Progress;
use crate::repair::budget::Budget;
use crate::repair::ends::send_before_ends;
use crate::repair::giving::give_rounds;
use crate::repair::mending::Mending;
use crate::repair::sending::{add_arrivals, send_by_weight};
use crate::repair::time_net::TimeNet;
use std::alloc::{AllocError, Global};

/// A guess at a best plan: when each stay is sent so that their waiting costs least in all. There is none if it finds no room for
/// some of them in the rounds that they have, if the budget runs out, or if a stay's unit, weight or rounds aren't as
/// `NetworkStay` says. The only error is that there is no memory left.
pub fn plan_by_repair<P: Progress>(
    alloc: Global,
    network: &Network,
    budget: Budget,
    progress: &P,
) -> Result<Option<Guess>, AllocError>
    ensures rounds { IfOk result (λ found. IfSome found (λ guess. length guess.rounds.items ≡ length network.now.stays.items)) }
    ensures prices { IfOk result (λ found. IfSome found (λ guess. length guess.prices.items ≡ length network.now.above.items * network.now.rounds)) }
{
    let columns = Columns::of(alloc, network)?;
    let Some(mut net) = TimeNet::of(alloc, network, &columns)? else {
        return Ok(None);
    };
    if !add_arrivals(&mut net, &columns, network) {
        return Ok(None);
    }
    send(alloc, &mut net, &columns, network)?;
    let mut mending = Mending::new(alloc, &columns, budget)?;
    if !mending.mend(alloc, &mut net, &columns, progress)? {
        return Ok(None);
    }
    let mut guess = Guess::blank(alloc, network)?;
    if !give_rounds(
        alloc,
        &mut net,
        &columns,
        network,
        &mut mending,
        &mut guess.rounds,
    )? {
        return Ok(None);
    }
    price_units(alloc, &net, &columns, network, &mut guess.prices)?;
    Ok(Some(guess))
}

// Takes the prices of units.
fn price_units(
    alloc: Global,
    net: &TimeNet,
    columns: &Columns,
    network: &Network,
    prices: &mut [u64],
) -> Result<(), AllocError> {
    let mut line = RoundPrices::new(alloc, columns, u32::MAX)?;
    for round in 0..network.rounds {
        for number in 0..columns.len() {
            let potential = net.node(net.at(round, number)).potential;
            line.set_potential(number, i64::from(potential));
        }
        line.write(network, columns, round, prices);
    }
    Ok(())
}

// Sends what comes in the order by weight.
fn send(
    alloc: Global,
    net: &mut TimeNet,
    columns: &Columns,
    network: &Network,
) -> Result<(), AllocError> {
    if network.has_ends() {
        net.prepare_lone(alloc, network)?;
        send_before_ends(alloc, net, columns, network)
    } else {
        send_by_weight(alloc, net, columns)
    }
}
