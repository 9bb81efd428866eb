//! What all stays pay, each in the round that is cheapest for it.

ghost use Rattle.std.specs.Prelude.{◌≡◌, ℕ, ◌+◌, ◌*◌, ◌^◌, ◌<◌, ◌≤◌, ◌==◌, Some, None, cond, map, length};
ghost use Rattle.price_check.specs.Words.{sum_below, least, instance_of_rows, live_of_rows, IsSound, pricing_of_rows, IsPricingFor, is_open, allowed, priced, paid};
ghost use Rattle.price_check.specs.Least.{cheaper};
ghost use Rattle.price_check.specs.Rests.{AreCheapest, IsNextWeight};

use crate::rests::{note_devices, openings_price, takes};
use round_net::{Net, Prices, cell};

/// What all stays pay, each in the round that is cheapest for it, of those of its window in which it could be sent.
///
/// For stays whose window ends with the last round, the cheapest of the rest of all rounds is looked for once for each weight
/// and device. The list has to have a place for each round of each device, and is used up.
#[tactic(auto, using(crate::proofs::RestLemmas::up_to_none, crate::proofs::RestLemmas::up_to_step, crate::proofs::RestLemmas::up_to_all))]
pub fn paid(net: &Net, prices: &Prices, rests: &mut [u32]) -> u128
    requires size { IsPricingFor (instance_of_rows net.now) prices.now }
    requires cells { (instance_of_rows net.now).devices * (instance_of_rows net.now).rounds ≤ length rests.old }
    ensures same { result ≡ paid (instance_of_rows net.now) (pricing_of_rows prices.now) }
    ensures short { result < 2 ^ 96 }
{
    let mut total = 0;
    let mut weight = 0;
    let mut next = next_weight(net, 0);
    while next > 0 {
        note_devices(net, prices, next, rests);
        total += paid_by(net, prices, next, rests);
        weight = next;
        next = next_weight(net, weight);
    }
    total
}

// The least weight of a stay above this one, and 0 if there is none.
fn next_weight(net: &Net, above: u32) -> u32
    ensures next { IsNextWeight (instance_of_rows net.now) above (instance_of_rows net.now).stays result }
    ensures sound { IsSound (instance_of_rows net.now) (live_of_rows net.now) }
{
    let mut next = 0;
    for stay in 0..net.stays() {
        next = lesser_above(net, above, next, stay);
    }
    next
}

// The same of one stay more.
fn lesser_above(net: &Net, above: u32, next: u32, stay: u32) -> u32
    requires stay { stay < (instance_of_rows net.now).stays }
    requires next { IsNextWeight (instance_of_rows net.now) above stay next }
    ensures { IsNextWeight (instance_of_rows net.now) above (stay + 1) result }
{
    let weight = net.weight(stay);
    if weight <= above || (next > 0 && next <= weight) {
        next
    } else {
        weight
    }
}

// What the stays of a weight pay.
fn paid_by(net: &Net, prices: &Prices, weight: u32, rests: &[u32]) -> u128
    requires size { IsPricingFor (instance_of_rows net.now) prices.now }
    requires cells { (instance_of_rows net.now).devices * (instance_of_rows net.now).rounds ≤ length rests.now }
    requires noted { AreCheapest (instance_of_rows net.now) (pricing_of_rows prices.now) weight (instance_of_rows net.now).devices rests.now }
    ensures same { let n = instance_of_rows net.now in result ≡ sum_below n.stays (λ s. cond (n.weight s == weight) (least (map (priced n (pricing_of_rows prices.now) s) (allowed n s))) 0) }
    ensures short { result ≤ 2 ^ 84 }
{
    let mut total = 0;
    for stay in 0..net.stays() {
        total += u128::from(share(net, prices, weight, stay, rests));
    }
    total
}

// What the stay pays if it is of the weight, and else 0.
fn share(net: &Net, prices: &Prices, weight: u32, stay: u32, rests: &[u32]) -> u64
    requires size { IsPricingFor (instance_of_rows net.now) prices.now }
    requires cells { (instance_of_rows net.now).devices * (instance_of_rows net.now).rounds ≤ length rests.now }
    requires stay { stay < (instance_of_rows net.now).stays }
    requires window { let n = instance_of_rows net.now in n.arrival stay ≤ n.last stay }
    requires noted { AreCheapest (instance_of_rows net.now) (pricing_of_rows prices.now) weight (instance_of_rows net.now).devices rests.now }
    ensures { let n = instance_of_rows net.now in result ≡ cond (n.weight stay == weight) (least (map (priced n (pricing_of_rows prices.now) stay) (allowed n stay))) 0 }
{
    if net.weight(stay) != weight {
        return 0;
    }
    if net.last(stay) < net.rounds() {
        return cheapest_within(net, prices, stay);
    }
    cheapest_of_rest(net, prices, stay, rests)
}

// What the stay pays in the round that is cheapest for it, and 0 where there is none, if its window ends with the last round.
fn cheapest_of_rest(net: &Net, prices: &Prices, stay: u32, rests: &[u32]) -> u64
    requires size { IsPricingFor (instance_of_rows net.now) prices.now }
    requires cells { (instance_of_rows net.now).devices * (instance_of_rows net.now).rounds ≤ length rests.now }
    requires stay { stay < (instance_of_rows net.now).stays }
    requires window { let n = instance_of_rows net.now in n.arrival stay ≤ n.last stay }
    requires to_end { let n = instance_of_rows net.now in n.last stay ≡ n.rounds }
    requires noted { let n = instance_of_rows net.now in AreCheapest n (pricing_of_rows prices.now) (n.weight stay) n.devices rests.now }
    ensures { let n = instance_of_rows net.now in result ≡ least (map (priced n (pricing_of_rows prices.now) stay) (allowed n stay)) }
{
    let round = rests[cell(net.rounds(), net.device(stay), net.arrival(stay))];
    if round == 0 {
        return 0;
    }
    price(net, prices, stay, round)
}

// What the stay pays in the round that is cheapest for it, and 0 where there is none.
fn cheapest_within(net: &Net, prices: &Prices, stay: u32) -> u64
    requires size { IsPricingFor (instance_of_rows net.now) prices.now }
    requires stay { stay < (instance_of_rows net.now).stays }
    requires window { let n = instance_of_rows net.now in n.arrival stay ≤ n.last stay }
    ensures { let n = instance_of_rows net.now in result ≡ least (map (priced n (pricing_of_rows prices.now) stay) (allowed n stay)) }
{
    let mut least = None;
    for round in net.arrival(stay)..net.last(stay) + 1 {
        least = cheaper(least, offer(net, prices, stay, round));
    }
    least.unwrap_or(0)
}

// The lesser of what there is.
fn cheaper(least: Option<u64>, offer: Option<u64>) -> Option<u64>
    ensures { result ≡ cheaper least offer }
{
    match (least, offer) {
        (Some(one), Some(other)) => Some(one.min(other)),
        (None, _) => offer,
        (_, None) => least,
    }
}

// What the stay pays in the round, where it could be sent in it.
fn offer(net: &Net, prices: &Prices, stay: u32, round: u32) -> Option<u64>
    requires size { IsPricingFor (instance_of_rows net.now) prices.now }
    requires stay { stay < (instance_of_rows net.now).stays }
    requires arrived { (instance_of_rows net.now).arrival stay ≤ round }
    requires first { 1 ≤ round }
    requires last { round ≤ (instance_of_rows net.now).rounds }
    ensures { let n = instance_of_rows net.now in result ≡ cond (is_open n stay round) (Some (priced n (pricing_of_rows prices.now) stay round)) None }
{
    if !takes(net, net.device(stay), round) {
        return None;
    }
    Some(price(net, prices, stay, round))
}

// What the stay pays in the round.
fn price(net: &Net, prices: &Prices, stay: u32, round: u32) -> u64
    requires size { IsPricingFor (instance_of_rows net.now) prices.now }
    requires stay { stay < (instance_of_rows net.now).stays }
    requires arrived { (instance_of_rows net.now).arrival stay ≤ round }
    requires first { 1 ≤ round }
    requires last { round ≤ (instance_of_rows net.now).rounds }
    ensures { result ≡ priced (instance_of_rows net.now) (pricing_of_rows prices.now) stay round }
{
    let waiting = u64::from(net.weight(stay)) * u64::from(round - net.arrival(stay));
    waiting + openings_price(net, prices, net.device(stay), round)
}
