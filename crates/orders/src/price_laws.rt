//! Where the order by weight is best.

ghost use Rattle.orders.specs.ClosedPrices.{IsBestWhereDevicesBind};

/// If each stay is sent in its window by the order by weight, and each one that waits finds its device full, no schedule costs less
/// than this one, as prices in closed form prove. So whoever sends the heaviest of those that wait, of equals the one that came
/// first, loses nothing by not knowing what comes.
pub fn best_where_devices_bind()
    ensures { IsBestWhereDevicesBind }
{}
