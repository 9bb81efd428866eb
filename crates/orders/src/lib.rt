//! Online scheduling of a net, first come first served or by weight: each round sends what waits, in order, while openings last. Prices
//! that go with the order by weight (Smith's rule for unit jobs, 1956), in closed form: where only devices bind they prove that no
//! schedule costs less.
#![tactic(auto)]

pub use by_order::ordered;
pub use key::in_order;
pub use laws::one_alone;
pub use order::Order;
pub use outcome::Ordered;
pub use price_laws::best_where_devices_bind;
pub use pricing::closed_prices;

mod by_order;
mod first_round;
mod first_waiting;
mod key;
mod laws;
mod loads;
mod order;
mod outcome;
mod own_orders;
mod price_laws;
mod pricing;
mod tardiness;
