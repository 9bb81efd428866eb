//! List scheduling: in the order of their keys, stays get the first round in which their resources have an opening left.

ghost use Rattle.std.specs.Prelude.{◌≡◌, length, slice_index, IfOk};
ghost use Rattle.round_net.specs.Rows.{instance_of_rows};
ghost use Rattle.round_net.specs.Schedules.{IsAdmissible};
ghost use Rattle.orders.specs.Orders.{IsOrdered, unsent, late};

use crate::first_round::first_round;
use crate::key::in_order;
use crate::loads::place;
use crate::order::Order;
use crate::outcome::Ordered;
use crate::tardiness::{late, unsent};
use round_net::{Net, Schedule};
use std::alloc::{AllocError, Global};

/// What an order as it comes makes of a net: in each round, from the first on, the stays that have arrived and wait are gone
/// through by the order, and each is sent if its device, its adapter and the adapter's link have an opening left. A stay that
/// passes the last round of its window goes on waiting. It takes little more time than to sort the stays, and fails only if
/// there is no memory.
pub fn ordered(alloc: Global, net: &Net, order: Order) -> Result<Ordered, AllocError>
    ensures size { IfOk result (λ o. length o.schedule ≡ (instance_of_rows net.now).stays) }
    ensures ordered { IfOk result (λ o. IsOrdered order (instance_of_rows net.now) (slice_index o.schedule)) }
    ensures unsent { IfOk result (λ o. o.unsent ≡ unsent (instance_of_rows net.now) (slice_index o.schedule)) }
    ensures late { IfOk result (λ o. o.late ≡ late (instance_of_rows net.now) (slice_index o.schedule)) }

    // If all are sent in time, it is an admissible schedule.
    ensures in_time { IfOk result (λ o. o.unsent ≡ 0 → o.late ≡ 0 → IsAdmissible (instance_of_rows net.now) (slice_index o.schedule)) }
{
    let rounds = rounds_of(alloc, net, order)?;
    let schedule = Schedule::new(alloc, &rounds)?;
    let unsent = unsent(net, &schedule);
    let late = late(net, &schedule);
    Ok(Ordered {
        schedule,
        unsent,
        late,
    })
}

// The round of each stay. Those that go first are placed first: they never see those that go after them.
fn rounds_of(alloc: Global, net: &Net, order: Order) -> Result<Vec<u32>, AllocError>
    ensures size { IfOk result (λ rounds. length rounds.items ≡ (instance_of_rows net.now).stays) }
    ensures ordered { IfOk result (λ rounds. IsOrdered order (instance_of_rows net.now) (slice_index rounds.items)) }
{
    let stays = in_order(alloc, net, order)?;
    let mut rounds = vec![in alloc; 0; stays.len()]?;
    let mut loads = vec![in alloc; 0; net.cells()]?;
    let mut skips = vec![in alloc; 0; net.cells()]?;
    for stay in &stays {
        let round = first_round(net, &loads, &mut skips, *stay);
        place(net, &mut loads, *stay, round);
        rounds[*stay as usize] = round;
    }
    Ok(rounds)
}
