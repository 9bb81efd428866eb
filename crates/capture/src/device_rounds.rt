//! The rounds of each device's requests.

ghost use Rattle.std.specs.Prelude.{◌≡◌, ◌+◌, ◌<◌, ◌≤◌, ◌^◌, IfOk, All, length, set, slice_index};
ghost use Rattle.capture.specs.Faults.{IsInRounds};
ghost use Rattle.capture.specs.Loads.{IsRow, AreRows, AreDeviceRows, arrivals_in, sends_in, waiting};

use recording_file::Request;
use std::alloc::{AllocError, Global};

/// How many requests of each device arrived in each round, and how many were started in it: a row for each device.
#[derive(Drop)]
pub struct DeviceRows {
    pub arrivals: Vec<Vec<u32>>,
    pub sends: Vec<Vec<u32>>,
}

/// The rows of so many devices. It fails only if there is no memory.
pub fn device_rows(
    alloc: Global,
    last: u32,
    devices: u32,
    requests: &[Request],
) -> Result<DeviceRows, AllocError>
    requires within { All (IsInRounds last) requests.now }
    requires few { length requests.now < 2 ^ 32 }
    ensures { IfOk result (AreDeviceRows requests.now devices last) }
{
    let mut arrivals = empty_rows(alloc, last, devices)?;
    let mut sends = empty_rows(alloc, last, devices)?;
    for request in requests {
        if request.device < devices {
            count(&mut arrivals[request.device as usize], request.arrival);
            count(&mut sends[request.device as usize], request.sent);
        }
    }
    Ok(DeviceRows { arrivals, sends })
}

// A row of zeros for each of so many devices.
fn empty_rows(alloc: Global, last: u32, devices: u32) -> Result<Vec<Vec<u32>>, AllocError>
    ensures { IfOk result (λ rows. AreRows (λ d r. 0) devices last rows.items) }
{
    let mut rows = Vec::with_capacity(alloc, devices as usize)?;
    for _device in 0..devices {
        rows.push(vec![in alloc; 0; last as usize + 1]?)?;
    }
    Ok(rows)
}

// One more in a round.
fn count(row: &mut Vec<u32>, round: u32)
    requires there { round < length row.old.items }
    requires few { slice_index row.old.items round + 1 < 2 ^ 32 }
    ensures { row.new.items ≡ set row.old.items round (slice_index row.old.items round + 1) }
{
    row[round as usize] += 1;
}

/// How many of a device's requests wait at the end of each round, by its rows. It fails only if there is no memory.
pub fn waiting_row(
    alloc: Global,
    last: u32,
    requests: &[Request],
    device: u32,
    arrivals: &[u32],
    sends: &[u32],
) -> Result<Vec<u32>, AllocError>
    requires within { All (IsInRounds last) requests.now }
    requires few { length requests.now < 2 ^ 32 }
    requires arrivals { IsRow (arrivals_in requests.now device) last arrivals.now }
    requires sends { IsRow (sends_in requests.now device) last sends.now }
    ensures { IfOk result (λ row. IsRow (waiting requests.now device) last row.items) }
{
    let mut row = arrivals.to_vec(alloc)?;
    let mut waiting = 0;
    for round in 0..row.len() {
        waiting = waiting + row[round] - sends[round];
        row[round] = waiting;
    }
    Ok(row)
}
