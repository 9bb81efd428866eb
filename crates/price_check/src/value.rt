//! What all openings are worth.

ghost use Rattle.std.specs.Prelude.{◌≡◌, ◌*◌, ◌^◌, ◌<◌, ◌≤◌};
ghost use Rattle.price_check.specs.Words.{sum_to, rows, instance_of_rows, pricing_of_rows, IsPricingFor, offered, MAX_CAP, MAX_NET_PRICE};

use round_net::{Net, Prices};

/// What all openings are worth.
pub fn offered(net: &Net, prices: &Prices) -> u128
    requires { IsPricingFor (instance_of_rows net.now) prices.now }
    ensures same { result ≡ offered (instance_of_rows net.now) (pricing_of_rows prices.now) }
    ensures short { result < 2 ^ 96 }
{
    let mut total = 0;
    for row in 0..net.rows() {
        total += by_row(net, prices, row);
    }
    total
}

// What the openings of a row are worth.
fn by_row(net: &Net, prices: &Prices, row: u32) -> u128
    requires size { IsPricingFor (instance_of_rows net.now) prices.now }
    requires row { row < rows (instance_of_rows net.now) }
    ensures same { let n = instance_of_rows net.now in
        result ≡ sum_to n.rounds (λ r. n.cap row r * pricing_of_rows prices.now row r) }
    ensures short { result ≤ 2 ^ 82 }
{
    let mut total = 0;
    for passed in 0..net.rounds() {
        let round = passed + 1;
        total += worth(net.cap(row, round), prices.price(row, round));
    }
    total
}

// What that many openings are worth at a price.
fn worth(cap: u32, price: u64) -> u128
    requires cap { cap ≤ MAX_CAP }
    requires price { price ≤ MAX_NET_PRICE }
    ensures same { result ≡ cap * price }
    ensures short { result ≤ 2 ^ 66 }
{
    u128::from(cap) * u128::from(price)
}
