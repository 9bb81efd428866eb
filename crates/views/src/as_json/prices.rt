//! The prices of an audit.

ghost use Rattle.std.specs.Prelude.{◌<◌};
ghost use Rattle.round_net.specs.Instance.{rows};
ghost use Rattle.round_net.specs.Rows.{instance_of_rows};
ghost use Rattle.round_net.specs.PriceRows.{IsPricingFor};

use crate::as_json::members::put_object;
use round_net::{Net, Prices};
use serde::{Described, Serialize, Serializer};
use std::alloc::{AllocError, Global};

/// The price of an opening of a device, an adapter or a link in a round.
#[derive(Drop)]
pub(crate) struct Price {
    // The key of what has the opening.
    owner: &'static str,
    number: u32,
    round: u32,
    price: u64,
}

impl Described for Price {}

impl Serialize for Price {
    fn serialize<S: Serializer>(&self, out: &mut S) -> Result<(), S::Error> {
        let (number, round) = (u64::from(self.number), u64::from(self.round));
        put_object(
            out,
            &[
                (self.owner, number),
                ("round", round),
                ("price", self.price),
            ],
        )
    }
}

/// The prices that aren't 0: of devices by number and round, then of adapters, then of links.
pub(crate) fn price_list(
    alloc: Global,
    net: &Net,
    prices: &Prices,
) -> Result<Vec<Price>, AllocError>
    requires { IsPricingFor (instance_of_rows net.now) prices.now }
{
    let mut list = Vec::new(alloc);
    for row in 0..net.rows() {
        push_row(&mut list, net, prices, row)?;
    }
    Ok(list)
}

// Puts the prices of a row after the others: those of its device, of its adapter, or of its link.
fn push_row(list: &mut Vec<Price>, net: &Net, prices: &Prices, row: u32) -> Result<(), AllocError>
    requires prices { IsPricingFor (instance_of_rows net.now) prices.now }
    requires row { row < rows (instance_of_rows net.now) }
{
    let (owner, number) = owner_of(net, row);
    for round in 0..net.rounds() {
        let price = prices.price(row, round + 1);
        if price > 0 {
            list.push(Price {
                owner,
                number,
                round: round + 1,
                price,
            })?;
        }
    }
    Ok(())
}

// The key and the number of what the row is of.
fn owner_of(net: &Net, row: u32) -> (&'static str, u32) {
    let devices = net.devices();
    let units = devices.saturating_add(net.adapters());
    if row < devices {
        ("device", row)
    } else if row < units {
        ("adapter", row.saturating_sub(devices))
    } else {
        ("link", row.saturating_sub(units))
    }
}
