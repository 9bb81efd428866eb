//! The largest prices, and the error of one above them.

use thiserror::Error;

/// The most that one opening of a history's net may be worth.
pub const MAX_PRICE: u64 = 1_000_000_000_000;
/// The most that one opening of any net may be worth.
pub const MAX_NET_PRICE: u64 = 1_000_000_000_000_000;

/// A price above the most that one opening of the net may be worth.
#[derive(Clone, Copy, Debug, PartialEq, Eq, Error)]
#[error("price range")]
pub struct PriceRange;
