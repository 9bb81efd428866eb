//! Loads: how many stays each resource has in each round, while stays are placed.

ghost use Rattle.std.specs.Prelude.{◌≡◌, ℕ, ◌+◌, ◌*◌, ◌==◌, ◌^◌, ◌<◌, ◌≤◌, ◌&&◌, true, nat_lt, cond, length, slice_index};
ghost use Rattle.round_net.specs.Instance.{rows, uses};
ghost use Rattle.round_net.specs.Rows.{cell, instance_of_rows, live_of_rows};
ghost use Rattle.round_net.specs.Sound.{IsSound};
ghost use Rattle.orders.specs.Room.{has_opening, has_room};

use round_net::{Net, cell};

/// Whether the device, its adapter and the adapter's link, if it is on one, have each an opening left in the round. `cell`
/// says where a load stands.
pub fn has_room(net: &Net, loads: &[u32], device: u32, round: u32) -> bool
    requires device { device < (instance_of_rows net.now).devices }
    requires first { 1 ≤ round }
    requires last { round ≤ (instance_of_rows net.now).rounds }
    requires cells { let n = instance_of_rows net.now in length loads.now ≡ rows n * n.rounds }
    ensures { result ≡ has_room (instance_of_rows net.now) loads.now device round }
{
    let adapter = net.adapter_of(device);
    has_opening(net, loads, device, round)
        && has_opening(net, loads, net.adapter_resource(adapter), round)
        && match net.link_of(adapter) {
            Some(link) => has_opening(net, loads, net.link_resource(link), round),
            None => true,
        }
}

// Whether the resource has an opening left in the round.
fn has_opening(net: &Net, loads: &[u32], row: u32, round: u32) -> bool
    requires row { row < rows (instance_of_rows net.now) }
    requires first { 1 ≤ round }
    requires last { round ≤ (instance_of_rows net.now).rounds }
    requires cells { let n = instance_of_rows net.now in length loads.now ≡ rows n * n.rounds }
    ensures { result ≡ has_opening (instance_of_rows net.now) loads.now round row }
{
    loads[cell(net.rounds(), row, round)] < net.cap(row, round)
}

/// Counts the stay in the round, in the rows of its device, of its adapter, and of the adapter's link. The round has to have
/// room, or to be the one after the last, in which nothing is counted.
pub fn place(net: &Net, loads: &mut [u32], stay: u32, round: u32)
    requires stay { stay < (instance_of_rows net.now).stays }
    requires first { 1 ≤ round }
    requires cells { let n = instance_of_rows net.now in length loads.old ≡ rows n * n.rounds }
    requires room { let n = instance_of_rows net.now in round ≤ n.rounds → has_room n loads.old (n.device stay) round ≡ true }
    ensures each { let n = instance_of_rows net.now in (row r : ℕ) → row < rows n → 1 ≤ r → r ≤ n.rounds →
        slice_index loads.new (cell n.rounds row r) ≡ slice_index loads.old (cell n.rounds row r) + cond (uses n row stay && (round == r)) 1 0 }
    ensures grows { (at : ℕ) → slice_index loads.old at ≤ slice_index loads.new at }
    ensures sound { IsSound (instance_of_rows net.now) (live_of_rows net.now) }
{
    if round > net.rounds() {
        return;
    }
    count(net, loads, net.device(stay), round);
    count(net, loads, net.adapter_resource(net.adapter(stay)), round);
    match net.link(stay) {
        Some(link) => count(net, loads, net.link_resource(link), round),
        None => {}
    }
}

// Counts one more in a round of a row.
fn count(net: &Net, loads: &mut [u32], row: u32, round: u32)
    requires row { row < rows (instance_of_rows net.now) }
    requires first { 1 ≤ round }
    requires last { round ≤ (instance_of_rows net.now).rounds }
    requires cells { let n = instance_of_rows net.now in length loads.old ≡ rows n * n.rounds }
    requires few { slice_index loads.old (cell (instance_of_rows net.now).rounds row round) < 2 ^ 31 }
    ensures counted { (at : ℕ) → slice_index loads.new at ≡ slice_index loads.old at + cond (cell (instance_of_rows net.now).rounds row round == at) 1 0 }
    ensures sound { IsSound (instance_of_rows net.now) (live_of_rows net.now) }
{
    let at = cell(net.rounds(), row, round);
    loads[at] += 1;
}
