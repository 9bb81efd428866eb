//! The end of a capture: the order of its requests, and the numbers of their drivers and devices.

use crate::captured::{Capture, Counts};
use crate::flights::{DeviceSlots, Started, Times, Unstarted, settle};
use crate::line_fault::LineFault;
use crate::names::Names;
use crate::options::Options;
use crate::sizes::Sizes;
use capture::{TimedRequest, in_arrival_order};
use std::alloc::{AllocError, Global};

// The most devices that a capture has.
const MAX_DEVICES: usize = 32;

/// The drivers of a capture, with the priorities that they have of their own.
#[derive(Drop)]
pub struct Drivers {
    names: Names,
    own: Vec<Option<u32>>,
}

impl Drivers {
    /// No drivers yet.
    pub fn new(alloc: Global) -> Drivers {
        Drivers {
            names: Names::new(alloc),
            own: Vec::new(alloc),
        }
    }

    /// The number of a driver, and the priority that it has of its own.
    pub fn number(
        &mut self,
        options: &Options,
        name: &[u8],
    ) -> Result<(u8, Option<u32>), LineFault> {
        if let Some(place) = self.names.number_of(name) {
            let Ok(number) = u8::try_from(place) else {
                return Err(LineFault::TooManyDrivers);
            };
            return Ok((number, self.own.get(place).copied().flatten()));
        }
        let Ok(number) = u8::try_from(self.names.len()) else {
            return Err(LineFault::TooManyDrivers);
        };
        let own = options.driver_priority(name);
        self.own.push(own)?;
        self.names.add(name)?;
        Ok((number, own))
    }

    /// The priority that the driver of a number has of its own.
    pub fn own(&self, number: u8) -> Option<u32> {
        self.own.get(usize::from(number)).copied().flatten()
    }

    /// The names, in their order.
    pub fn list(&self) -> &[Vec<u8>] {
        self.names.list()
    }
}

/// What was started, and what was completed with no start in the input, with the numbers of devices as they are listed; when the capture
/// begins and ends; and the depths that are given, by the devices' names.
#[derive(Drop)]
pub struct Flown<'a> {
    pub times: Times,
    pub depths: &'a [(String, u32)],
    pub started: Vec<Started>,
    pub unstarted: Vec<Unstarted>,
}

/// The capture of requests: those that arrive within the times that are taken, by arrival, with the drivers and devices that
/// they have; and what was in flight at these devices, if that is known.
pub fn capture_of(
    alloc: Global,
    options: &Options,
    mut requests: Vec<TimedRequest>,
    flown: Option<&Flown<'_>>,
    devices: &[Vec<u8>],
    drivers: &[Vec<u8>],
    sizes: &Sizes,
    mut counts: Counts,
) -> Result<Capture, LineFault> {
    let before = requests.len();
    requests.retain(|request| options.takes_time(request.arrival));
    let others = before.saturating_sub(requests.len()) as u64;
    counts.other_times = counts.other_times.saturating_add(others);
    let mut requests = in_arrival_order(alloc, requests)?;
    let (used_devices, used_drivers) = used_numbers(
        alloc,
        devices.len(),
        drivers.len(),
        &requests,
    )?;
    let device_numbers = new_numbers(alloc, &used_devices)?;
    let driver_numbers = new_numbers(alloc, &used_drivers)?;
    for request in requests.iter_mut() {
        *request = renumbered(*request, &device_numbers, &driver_numbers);
        request.retried = request.retried.filter(|time| options.is_before_end(*time));
    }
    let names = used_names(alloc, devices, &used_devices)?;
    if names.len() > MAX_DEVICES {
        return Err(LineFault::TooManyDevices(names.len()));
    }
    let (mut flights, mut slots) = (Vec::new(alloc), Vec::new(alloc));
    if let Some(flown) = flown {
        for (number, used) in used_devices.iter().enumerate() {
            if *used {
                let depth = depth_of(flown.depths, devices, number);
                let device = u32::try_from(number).unwrap_or(u32::MAX);
                let (started, unstarted) = (&flown.started, &flown.unstarted);
                let found = settle(
                    alloc,
                    device,
                    flown.times,
                    depth,
                    started,
                    unstarted,
                    &mut flights,
                )?;
                count_flights(&mut counts, &found);
                slots.push(found)?;
            }
        }
    }
    for flight in flights.iter_mut() {
        flight.device = new_number(&device_numbers, flight.device as usize);
    }
    count_requests(&mut counts, &requests, flown.map(|flown| flown.times.end));
    Ok(Capture {
        requests,
        flights,
        slots,
        devices: names,
        drivers: used_names(alloc, drivers, &used_drivers)?,
        uneven: uneven_devices(alloc, &used_devices, sizes)?,
        other_columns: Vec::new(alloc),
        others: Vec::new(alloc),
        counts,
    })
}

// The depth that is given for a device.
fn depth_of(depths: &[(String, u32)], devices: &[Vec<u8>], number: usize) -> Option<u32> {
    let name = devices.get(number)?;
    for (device, depth) in depths {
        if device.as_bytes() == name.as_slice() {
            return Some(*depth);
        }
    }
    None
}

fn count_flights(counts: &mut Counts, found: &DeviceSlots) {
    counts.from_before = counts.from_before.saturating_add(found.from_before);
    counts.lost_starts = counts.lost_starts.saturating_add(found.lost_starts);
    if found.is_known {
        counts.started = counts.started.saturating_add(found.started);
        counts.missing_completions = counts.missing_completions.saturating_add(found.missing);
    }
}

// Which devices and which drivers have requests.
fn used_numbers(
    alloc: Global,
    devices: usize,
    drivers: usize,
    requests: &[TimedRequest],
) -> Result<(Vec<bool>, Vec<bool>), AllocError> {
    let mut used_devices = vec![in alloc; false; devices]?;
    let mut used_drivers = vec![in alloc; false; drivers]?;
    for request in requests {
        mark(&mut used_devices, request.device as usize);
        mark(&mut used_drivers, usize::from(request.driver));
    }
    Ok((used_devices, used_drivers))
}

fn mark(used: &mut Vec<bool>, number: usize) {
    if let Some(used) = used.get_mut(number) {
        *used = true;
    }
}

// For each number how many of the numbers before it are used.
fn new_numbers(alloc: Global, used: &[bool]) -> Result<Vec<u32>, AllocError> {
    let mut numbers = Vec::with_capacity(alloc, used.len())?;
    let mut next: u32 = 0;
    for used in used {
        numbers.push(next)?;
        next = next.saturating_add(u32::from(*used));
    }
    Ok(numbers)
}

fn renumbered(request: TimedRequest, devices: &[u32], drivers: &[u32]) -> TimedRequest {
    let device = new_number(devices, request.device as usize);
    let driver = new_number(drivers, usize::from(request.driver));
    TimedRequest {
        device,
        driver: u8::try_from(driver).unwrap_or(request.driver),
        ..request
    }
}

fn new_number(numbers: &[u32], number: usize) -> u32 {
    numbers.get(number).copied().unwrap_or(0)
}

// Those that weren't started wait at the end, if it is known when that is.
fn count_requests(counts: &mut Counts, requests: &[TimedRequest], end: Option<u64>) {
    for request in requests {
        counts.requests = counts.requests.saturating_add(1);
        if request.started.is_none() {
            match end {
                None => counts.never_started = counts.never_started.saturating_add(1),
                Some(end) => {
                    counts.still_waiting = counts.still_waiting.saturating_add(1);
                    let wait = end.saturating_sub(request.arrival);
                    counts.longest_wait = counts.longest_wait.max(wait);
                }
            }
        }
    }
}

// Of each device that has requests, whether they differ much in size.
fn uneven_devices(alloc: Global, used: &[bool], sizes: &Sizes) -> Result<Vec<bool>, AllocError> {
    let mut list = Vec::new(alloc);
    let mut number: u32 = 0;
    for used in used {
        if *used {
            list.push(sizes.are_uneven(number))?;
        }
        number = number.saturating_add(1);
    }
    Ok(list)
}

/// All names as text.
pub fn names_text(alloc: Global, names: &[Vec<u8>]) -> Result<Vec<String>, AllocError> {
    let mut list = Vec::with_capacity(alloc, names.len())?;
    for name in names {
        list.push(name_text(alloc, name)?)?;
    }
    Ok(list)
}

fn used_names(alloc: Global, names: &[Vec<u8>], used: &[bool]) -> Result<Vec<String>, AllocError> {
    let mut list = Vec::new(alloc);
    for (name, used) in names.iter().zip(used.iter()) {
        if *used {
            list.push(name_text(alloc, name)?)?;
        }
    }
    Ok(list)
}

/// A name as text. Each byte that isn't part of a character of UTF-8 becomes `\x` and its two digits, so names that differ stay apart.
pub fn name_text(alloc: Global, name: &[u8]) -> Result<String, AllocError> {
    if let Ok(text) = std::str::from_utf8(name) {
        return String::from_str(alloc, text);
    }
    let mut text = String::new(alloc);
    let mut rest = name;
    for _ in 0..name.len() {
        let Some(first) = rest.first() else {
            break;
        };
        let length = if let Some(character) = first_character(rest) {
            text.push_str(character)?;
            character.len()
        } else {
            write!(text, "\\x{first:02x}")?;
            1
        };
        rest = rest.get(length..).unwrap_or(b"");
    }
    Ok(text)
}

// The character with which bytes begin, if they begin with one.
fn first_character(bytes: &[u8]) -> Option<&str> {
    let length = character_length(bytes);
    if length == 0 {
        return None;
    }
    match std::str::from_utf8(bytes.get(..length)?) {
        Ok(character) => Some(character),
        Err(_) => None,
    }
}

// How many bytes the character has that begins with the first of these; 0 if none does.
fn character_length(bytes: &[u8]) -> usize {
    match bytes.first() {
        Some(0..=0x7f) => 1,
        Some(0xc2..=0xdf) => 2,
        Some(0xe0..=0xef) => 3,
        Some(0xf0..=0xf4) => 4,
        _ => 0,
    }
}
