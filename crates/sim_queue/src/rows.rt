//! The rows of an adapter's devices, in the order in which they were named.
ghost use Rattle.std.specs.Prelude.{◌≡◌, ℕ, ◌^◌, ◌<◌, true, IsTrue, length, slice_index_or, map, IfOk};
ghost use Rattle.std.specs.List.{All};
ghost use Rattle.sim_queue.specs.Adapter.{new_row, is_named, Row};

use crate::row::Row;
use std::alloc::{AllocError, Global};

/// The rows of these devices, none ready and none sent to.
pub(crate) fn new_rows(alloc: Global, devices: &[u32]) -> Result<Vec<Row>, AllocError>
    ensures rows { IfOk result (λ rows. rows.items ≡ map new_row devices.now) }
    ensures numbers { IfOk result (λ rows. All (λ r. r.device < 2 ^ 32) rows.items) }
{
    let mut rows = Vec::with_capacity(alloc, devices.len())?;
    for device in devices {
        rows.push_reserved(Row {
            device: *device,
            turn: 0,
            priority: None,
        });
    }
    Ok(rows)
}

/// The place of a device's row, which is there. It is looked for first where it stands if the devices are named by their numbers.
pub(crate) fn row_of(rows: &[Row], device: u32) -> usize
    requires { is_named device rows.now ≡ true }
    ensures in_range { result < length rows.now }
    ensures device { (d : Row) → (slice_index_or rows.now result d).device ≡ device }
{
    if is_at(rows, device as usize, device) {
        return device as usize;
    }
    for (at, row) in rows.iter().enumerate() {
        if row.device == device {
            return at;
        }
    }
    unreachable!()
}

// Whether the row at this place is the device's.
fn is_at(rows: &[Row], at: usize, device: u32) -> bool
    ensures in_range { IsTrue result → at < length rows.now }
    ensures device { IsTrue result → (d : Row) → (slice_index_or rows.now at d).device ≡ device }
{
    match rows.get(at) {
        Some(row) => row.device == device,
        None => false,
    }
}
