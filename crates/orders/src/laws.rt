//! Uniqueness: what an order makes of a net is the same however it is made.

ghost use Rattle.orders.specs.Orders.{IsOneAlone};

/// One schedule alone is that of an order: whoever sends what waits by it, however it is done, sends each stay in the same
/// round.
pub fn one_alone()
    ensures { IsOneAlone }
{}
