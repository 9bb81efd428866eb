//! Prices of devices' openings in closed form: what an opening would have saved those that waited after it in the order by weight.

ghost use Rattle.std.specs.Prelude.{◌≡◌, ℕ, ◌+◌, ◌-◌, ◌*◌, ◌<◌, ◌≤◌, All, length, get_or, slice_index, IfOk, None};
ghost use Rattle.cam_types.specs.declared.limits.TheConstants.{MAX_WEIGHT};
ghost use Rattle.round_net.specs.Instance.{rows};
ghost use Rattle.round_net.specs.PriceRows.{IsPricingFor, pricing_of_rows};
ghost use Rattle.round_net.specs.Rows.{cell, instance_of_rows, live_of_rows};
ghost use Rattle.round_net.specs.Sound.{IsSound};
ghost use Rattle.orders.specs.ClosedPrices.{AreClosedPrices, IsFirstAfter};
ghost use Rattle.orders.specs.FirstWaiting.{AreFirsts};
ghost use Rattle.orders.specs.Worth.{worth_at, IsFilled, IsSmallWorth};

use crate::first_waiting::first_waiting;
use crate::key::in_order;
use crate::order::Order;
use crate::own_orders::own_orders;
use round_net::{Net, Prices, Schedule, cell};
use std::alloc::{AllocError, Global};

/// Prices that go with a schedule in the order by weight: those of devices' openings in closed form, and none for adapters and
/// links. Each stay has to be sent within the rounds. It fails only if there is no memory.
#[tactic(auto, unfolding(round_net::specs::PriceRows::pricing_of_rows))]
pub fn closed_prices(alloc: Global, net: &Net, schedule: &Schedule) -> Result<Prices, AllocError>
    requires size { length schedule.now ≡ (instance_of_rows net.now).stays }
    requires sent { (s : ℕ) → s < (instance_of_rows net.now).stays → slice_index schedule.now s ≤ (instance_of_rows net.now).rounds }
    ensures size { IfOk result (λ prices. IsPricingFor (instance_of_rows net.now) prices) }
    ensures closed { IfOk result (λ prices. AreClosedPrices (instance_of_rows net.now) (slice_index schedule.now) (pricing_of_rows prices)) }
{
    let order = in_order(alloc, net, Order::ByWeight)?;
    let own = own_orders(alloc, net, &order)?;
    let mut worth = vec![in alloc; 0; net.cells()]?;
    for device in 0..net.devices() {
        let firsts = first_waiting(alloc, net, schedule, &own[device as usize], device)?;
        fill(net, schedule, device, &firsts, &mut worth);
    }
    Ok(Prices::listed(net, worth))
}

// Fills in what the device's openings are worth, from the last round on.
fn fill(net: &Net, schedule: &Schedule, device: u32, firsts: &[Option<u32>], worth: &mut Vec<u64>)
    requires device { device < (instance_of_rows net.now).devices }
    requires size { length schedule.now ≡ (instance_of_rows net.now).stays }
    requires sent { (s : ℕ) → s < (instance_of_rows net.now).stays → slice_index schedule.now s ≤ (instance_of_rows net.now).rounds }
    requires long { length firsts.now ≡ (instance_of_rows net.now).rounds + 1 }
    requires firsts { AreFirsts (instance_of_rows net.now) (slice_index schedule.now) device firsts.now }
    requires cells { let n = instance_of_rows net.now in length worth.old.items ≡ rows n * n.rounds }
    requires blank { let n = instance_of_rows net.now in (r : ℕ) → 1 ≤ r → r ≤ n.rounds → worth_at n worth.old.items device r ≡ 0 }
    ensures { IsFilled (instance_of_rows net.now) (slice_index schedule.now) device firsts.now worth.old.items worth.new.items }
{
    let rounds = net.rounds();
    let mut round = rounds;
    while round > 0 {
        if let Some(first) = firsts[round as usize] {
            let goes = schedule.round(first);
            let spent = u64::from(net.weight(first)) * u64::from(goes - round);
            let later = worth[cell(rounds, device, goes)];
            worth[cell(rounds, device, round)] = spent + later;
        }
        round -= 1;
    }
}
