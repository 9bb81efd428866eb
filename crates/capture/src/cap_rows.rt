//! How many requests a part takes in each round.

ghost use Rattle.std.specs.Prelude.{◌≡◌, ◌<◌, ◌≤◌, ◌^◌, ◌+◌, IfOk, All, ℕ, max, min, nat_lt, if◌then◌else◌, length, slice_index};
ghost use Rattle.recording_file.specs.Caps.{openings, part_count};
ghost use Rattle.recording_file.specs.Counts.{counts_of};
ghost use Rattle.recording_file.specs.Recorded.{load};
ghost use Rattle.capture.specs.Captured.{is_flagged, is_measured, is_open, own_cap, open_cap, cap_of, sum_on, spare_in, room};
ghost use Rattle.capture.specs.declared.capture_fault.TheConstants.{MAX_IN_ROUND};
ghost use Rattle.capture.specs.Faults.{IsInRounds};
ghost use Rattle.capture.specs.Loads.{IsRow, AreDeviceRows};

use crate::capture_fault::MAX_IN_ROUND;
use crate::device_rounds::{DeviceRows, waiting_row};
use crate::part_loads::load_row;
use crate::parts::openings;
use cam_types::Config;
use recording_file::{Part, PartKind, Request};
use std::alloc::{AllocError, Global};

/// The cap of a part in each round, by the rows of the devices. It fails only if there is no memory.
pub fn cap_row(
    alloc: Global,
    last: u32,
    config: &Config,
    rated: &[bool],
    open: &[bool],
    spare: &[Vec<u32>],
    requests: &[Request],
    rows: &DeviceRows,
    part: Part,
) -> Result<Vec<u32>, AllocError>
    requires within { All (IsInRounds last) requests.now }
    requires few { length requests.now < 2 ^ 32 }
    requires rows { AreDeviceRows requests.now (length config.now.devices) last rows.now }
    requires there { part.number < part_count (counts_of config.now) part.kind }
    ensures { IfOk result (λ row. IsRow (cap_of config.now rated.now open.now spare.now requests.now part) last row.items) }
{
    if is_open(open, part) {
        open_row(alloc, last, config, rated, spare, requests, rows, part)
    } else {
        own_row(alloc, last, config, rated, spare, requests, rows, part)
    }
}

// The cap of a part by itself.
fn own_row(
    alloc: Global,
    last: u32,
    config: &Config,
    rated: &[bool],
    spare: &[Vec<u32>],
    requests: &[Request],
    rows: &DeviceRows,
    part: Part,
) -> Result<Vec<u32>, AllocError>
    requires within { All (IsInRounds last) requests.now }
    requires few { length requests.now < 2 ^ 32 }
    requires rows { AreDeviceRows requests.now (length config.now.devices) last rows.now }
    requires there { part.number < part_count (counts_of config.now) part.kind }
    ensures { IfOk result (λ row. IsRow (own_cap config.now rated.now spare.now requests.now part) last row.items) }
{
    let usual = openings(config, part);
    if is_measured(rated, part) {
        let arrivals = &rows.arrivals[part.number as usize];
        let sends = &rows.sends[part.number as usize];
        let mut row = room_row(alloc, last, config, spare, requests, part, sends)?;
        let waiting = waiting_row(alloc, last, requests, part.number, arrivals, sends)?;
        raise_idle(&mut row, &waiting, usual);
        Ok(row)
    } else {
        let mut row = load_row(alloc, last, config, requests, part)?;
        raise(&mut row, usual);
        Ok(row)
    }
}

// What a device had room for in each round: what it started, which is that row, and what more there was.
fn room_row(
    alloc: Global,
    last: u32,
    config: &Config,
    spare: &[Vec<u32>],
    requests: &[Request],
    part: Part,
    sends: &[u32],
) -> Result<Vec<u32>, AllocError>
    requires { IsRow (load config.now requests.now part) last sends.now }
    ensures { IfOk result (λ row. IsRow (room config.now spare.now requests.now part) last row.items) }
{
    let mut row = sends.to_vec(alloc)?;
    add_spare(&mut row, spare, part.number);
    Ok(row)
}

// The cap of an adapter of unknown openings.
fn open_row(
    alloc: Global,
    last: u32,
    config: &Config,
    rated: &[bool],
    spare: &[Vec<u32>],
    requests: &[Request],
    rows: &DeviceRows,
    part: Part,
) -> Result<Vec<u32>, AllocError>
    requires within { All (IsInRounds last) requests.now }
    requires few { length requests.now < 2 ^ 32 }
    requires rows { AreDeviceRows requests.now (length config.now.devices) last rows.now }
    ensures { IfOk result (λ row. IsRow (open_cap config.now rated.now spare.now requests.now part) last row.items) }
{
    let usual = openings(config, part);
    if u64::from(usual) < openings_on(config, part.number) {
        return vec![in alloc; MAX_IN_ROUND; last as usize + 1];
    }
    let mut row = load_row(alloc, last, config, requests, part)?;
    let devices = devices_row(
        alloc,
        last,
        config,
        rated,
        spare,
        requests,
        rows,
        part.number,
    )?;
    raise_to(&mut row, usual, &devices);
    Ok(row)
}

// The openings of an adapter's devices together.
fn openings_on(config: &Config, adapter: u32) -> u64
    ensures { result ≡ sum_on config.now adapter (openings config.now) }
{
    let mut sum: u64 = 0;
    for number in 0..config.devices().len() as u32 {
        if config.is_on(adapter, number) {
            let part = Part {
                kind: PartKind::Device,
                number,
            };
            sum += u64::from(openings(config, part));
        }
    }
    sum
}

// What an adapter's devices take together in each round, or the most that a cap says if that is less.
fn devices_row(
    alloc: Global,
    last: u32,
    config: &Config,
    rated: &[bool],
    spare: &[Vec<u32>],
    requests: &[Request],
    rows: &DeviceRows,
    adapter: u32,
) -> Result<Vec<u32>, AllocError>
    requires within { All (IsInRounds last) requests.now }
    requires few { length requests.now < 2 ^ 32 }
    requires rows { AreDeviceRows requests.now (length config.now.devices) last rows.now }
    ensures { IfOk result (λ row. IsRow (λ round. min MAX_IN_ROUND (sum_on config.now adapter (λ d. own_cap config.now rated.now spare.now requests.now d round))) last row.items) }
{
    let mut sums = vec![in alloc; 0; last as usize + 1]?;
    for number in 0..config.devices().len() as u32 {
        if config.is_on(adapter, number) {
            let part = Part {
                kind: PartKind::Device,
                number,
            };
            let own = own_row(alloc, last, config, rated, spare, requests, rows, part)?;
            add_row(&mut sums, &own);
        }
    }
    Ok(sums)
}

// Adds the numbers of another row, up to the most that a cap says.
fn add_row(sums: &mut [u32], row: &[u32])
    requires { length sums.old ≡ length row.now }
    ensures { (round : ℕ) → round < length sums.old → slice_index sums.new round ≡ min MAX_IN_ROUND (slice_index sums.old round + slice_index row.now round) }
{
    for round in 0..sums.len() {
        sums[round] = MAX_IN_ROUND.min(sums[round].saturating_add(row[round]));
    }
}

// Raises each number to the usual one and to that of another row, up to the most that a cap says.
fn raise_to(row: &mut [u32], usual: u32, least: &[u32])
    requires { length row.old ≡ length least.now }
    ensures { (round : ℕ) → round < length row.old → slice_index row.new round ≡ min MAX_IN_ROUND (max (max usual (slice_index row.old round)) (slice_index least.now round)) }
{
    for round in 0..row.len() {
        row[round] = MAX_IN_ROUND.min(usual.max(row[round]).max(least[round]));
    }
}

// Whether a part is an adapter of unknown openings.
fn is_open(open: &[bool], part: Part) -> bool
    ensures { result ≡ is_open open.now part }
{
    match part.kind {
        PartKind::Device | PartKind::Link => false,
        PartKind::Adapter => is_flagged(open, part.number),
    }
}

// Whether a part is a device that isn't rated at its openings.
fn is_measured(rated: &[bool], part: Part) -> bool
    ensures { result ≡ is_measured rated.now part }
{
    match part.kind {
        PartKind::Device => !is_flagged(rated, part.number),
        PartKind::Adapter => false,
        PartKind::Link => false,
    }
}

// The flag of a number, and false if there is none.
fn is_flagged(flags: &[bool], number: u32) -> bool
    ensures { result ≡ is_flagged flags.now number }
{
    match flags.get(number as usize) {
        Some(flag) => *flag,
        None => false,
    }
}

// Adds the starts more that a device had room for, up to the most that a cap says.
fn add_spare(row: &mut [u32], spare: &[Vec<u32>], device: u32)
    ensures { (round : ℕ) → round < length row.old → slice_index row.new round ≡ min MAX_IN_ROUND (slice_index row.old round + spare_in spare.now device round) }
{
    for round in 0..row.len() {
        row[round] = MAX_IN_ROUND.min(row[round].saturating_add(spare_at(spare, device, round)));
    }
}

// How many starts more a device had room for in a round.
fn spare_at(spare: &[Vec<u32>], device: u32, round: usize) -> u32
    ensures { result ≡ spare_in spare.now device round }
{
    match spare.get(device as usize) {
        Some(row) => match row.get(round) {
            Some(number) => *number,
            None => 0,
        },
        None => 0,
    }
}

// Raises each number to the usual one.
fn raise(row: &mut [u32], usual: u32)
    ensures { (round : ℕ) → round < length row.old → slice_index row.new round ≡ max usual (slice_index row.old round) }
{
    for round in 0..row.len() {
        row[round] = usual.max(row[round]);
    }
}

// Raises each number to the usual one in rounds at whose end nothing waits.
fn raise_idle(row: &mut [u32], waiting: &[u32], usual: u32)
    requires { length row.old ≡ length waiting.now }
    ensures { (round : ℕ) → round < length row.old → slice_index row.new round ≡ (if nat_lt 0 (slice_index waiting.now round) then slice_index row.old round else max usual (slice_index row.old round)) }
{
    for round in 0..row.len() {
        if waiting[round] == 0 {
            row[round] = usual.max(row[round]);
        }
    }
}
