//! Which round of the rest of all rounds is cheapest, for stays of one weight on each device.

ghost use Rattle.std.specs.Prelude.{◌≡◌, ℕ, ◌+◌, ◌-◌, ◌*◌, ◌<◌, ◌≤◌, ◌∷◌, nat_lt, sum_by, length, slice_index, slice_set};
ghost use Rattle.std.specs.List.{list_all};
ghost use Rattle.price_check.specs.Words.{adapter_resource, link_rows, path_of, instance_of_rows, cell, pricing_of_rows, IsPricingFor, MAX_NET_ROUNDS, MAX_WEIGHT, MAX_NET_PRICE};
ghost use Rattle.price_check.specs.Rests.{takes, pays, IsCheapest, AreCheapest};

use round_net::{Net, Prices, cell};

/// Whether the device takes commands in the round, its adapter, and the adapter's link, if it is on one.
pub fn takes(net: &Net, device: u32, round: u32) -> bool
    requires device { device < (instance_of_rows net.now).devices }
    requires first { 1 ≤ round }
    requires last { round ≤ (instance_of_rows net.now).rounds }
    ensures { result ≡ takes (instance_of_rows net.now) device round }
{
    net.dev_cap(device, round) > 0 && passes(net, net.adapter_of(device), round)
}

// Whether the adapter takes commands in the round, and its link, if it is on one.
fn passes(net: &Net, adapter: u32, round: u32) -> bool
    requires adapter { adapter < (instance_of_rows net.now).adapters }
    requires first { 1 ≤ round }
    requires last { round ≤ (instance_of_rows net.now).rounds }
    ensures { let n = instance_of_rows net.now in result ≡ list_all (λ row. nat_lt 0 (n.cap row round)) (adapter_resource n adapter ∷ link_rows n adapter) }
{
    if net.sim_cap(adapter, round) == 0 {
        return false;
    }
    match net.link_of(adapter) {
        Some(link) => net.link_cap(link, round) > 0,
        None => true,
    }
}

/// What the openings are worth that a command to the device takes in the round.
pub fn openings_price(net: &Net, prices: &Prices, device: u32, round: u32) -> u64
    requires size { IsPricingFor (instance_of_rows net.now) prices.now }
    requires device { device < (instance_of_rows net.now).devices }
    requires first { 1 ≤ round }
    requires last { round ≤ (instance_of_rows net.now).rounds }
    ensures same { result ≡ sum_by (λ row. pricing_of_rows prices.now row round) (path_of (instance_of_rows net.now) device) }
    ensures most { result ≤ 3 * MAX_NET_PRICE }
{
    let adapter = net.adapter_of(device);
    let below = prices.dev(device, round) + prices.sim(adapter, round);
    match net.link_of(adapter) {
        Some(link) => below + prices.link(link, round),
        None => below,
    }
}

// What a stay of the device and weight would pay in the round, if it had waited from a round 0 on.
#[tactic(auto, using(crate::proofs::RestLemmas::waiting_fits))]
fn pays(net: &Net, prices: &Prices, weight: u32, device: u32, round: u32) -> u64
    requires size { IsPricingFor (instance_of_rows net.now) prices.now }
    requires weight { weight ≤ MAX_WEIGHT }
    requires few { (instance_of_rows net.now).rounds ≤ MAX_NET_ROUNDS }
    requires device { device < (instance_of_rows net.now).devices }
    requires first { 1 ≤ round }
    requires last { round ≤ (instance_of_rows net.now).rounds }
    ensures { result ≡ pays (instance_of_rows net.now) (pricing_of_rows prices.now) weight device round }
{
    let waiting = u64::from(weight * round);
    waiting + openings_price(net, prices, device, round)
}

// The cheapest round from this one on, where `next` is that from the next one on.
#[tactic(auto, using(crate::proofs::RestLemmas::cheapest_closed, crate::proofs::RestLemmas::cheapest_here, crate::proofs::RestLemmas::cheapest_later))]
fn cheaper_of(net: &Net, prices: &Prices, weight: u32, device: u32, round: u32, next: u32) -> u32
    requires size { IsPricingFor (instance_of_rows net.now) prices.now }
    requires weight { weight ≤ MAX_WEIGHT }
    requires few { (instance_of_rows net.now).rounds ≤ MAX_NET_ROUNDS }
    requires device { device < (instance_of_rows net.now).devices }
    requires first { 1 ≤ round }
    requires last { round ≤ (instance_of_rows net.now).rounds }
    requires next { IsCheapest (instance_of_rows net.now) (pricing_of_rows prices.now) weight device (round + 1) next }
    ensures { IsCheapest (instance_of_rows net.now) (pricing_of_rows prices.now) weight device round result }
{
    if !takes(net, device, round) {
        return next;
    }
    if next == 0
        || pays(net, prices, weight, device, round) <= pays(net, prices, weight, device, next)
    {
        round
    } else {
        next
    }
}

// Notes for each round of a device which one from there on is cheapest. What is noted of devices before stays.
#[tactic(auto, using(crate::proofs::RestLemmas::cheapest_none, crate::proofs::RestLemmas::noted_none, crate::proofs::RestLemmas::noted_all, crate::proofs::RestLemmas::noted_step))]
fn note_device(net: &Net, prices: &Prices, weight: u32, device: u32, rests: &mut [u32])
    requires size { IsPricingFor (instance_of_rows net.now) prices.now }
    requires weight { weight ≤ MAX_WEIGHT }
    requires device { device < (instance_of_rows net.now).devices }
    requires cells { (instance_of_rows net.now).devices * (instance_of_rows net.now).rounds ≤ length rests.old }
    requires before { AreCheapest (instance_of_rows net.now) (pricing_of_rows prices.now) weight device rests.old }
    ensures noted { AreCheapest (instance_of_rows net.now) (pricing_of_rows prices.now) weight (device + 1) rests.new }
{
    let rounds = net.rounds();
    let mut next = 0;
    for passed in 0..rounds {
        let round = rounds - passed;
        next = cheaper_of(net, prices, weight, device, round, next);
        rests[cell(rounds, device, round)] = next;
    }
}

/// Notes for each round of each device which one from there on is cheapest for stays of the weight.
pub fn note_devices(net: &Net, prices: &Prices, weight: u32, rests: &mut [u32])
    requires size { IsPricingFor (instance_of_rows net.now) prices.now }
    requires weight { weight ≤ MAX_WEIGHT }
    requires cells { (instance_of_rows net.now).devices * (instance_of_rows net.now).rounds ≤ length rests.old }
    ensures noted { AreCheapest (instance_of_rows net.now) (pricing_of_rows prices.now) weight (instance_of_rows net.now).devices rests.new }
{
    for device in 0..net.devices() {
        note_device(net, prices, weight, device, rests);
    }
}
