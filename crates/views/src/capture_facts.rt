//! What is known of how a capture was read. A line of it stands before the recording's header.

use crate::as_json::line::line;
use crate::as_json::members::{put_member, put_members};
use serde::{Described, Deserialize, Serialize, Serializer};
use std::alloc::{AllocError, Global};
use wording::{Page, push_rough_share, shown_name};

// Up to how many slots the shares of all are told.
const FEW: u32 = 16;

/// What is known of how a capture was read.
#[derive(Deserialize, Drop)]
pub struct CaptureFacts {
    /// Events that were lost while it was made.
    pub lost_events: u64,
    /// Events that were written while it was made, with those that were lost; 0 if that isn't known.
    pub written_events: u64,
    /// Requests that were started and whose arrival isn't in it.
    pub without_arrival: u64,
    /// Requests that were completed and whose start isn't in it.
    pub lost_starts: u64,
    /// Requests that were in flight when it began.
    pub from_before: u64,
    /// Requests that have no completion, of those that were started.
    pub missing_completions: u64,
    /// Requests that were started at devices with completions.
    pub started: u64,
    /// Requests that were waiting when it ended.
    pub still_waiting: u64,
    /// How long the one of them did that waited longest.
    pub longest_wait_ns: u64,
    /// The slots of each device.
    pub slots: Vec<DeviceSlots>,
}

/// How many requests a device had in flight, and for how long.
#[derive(Serialize, Deserialize, Drop)]
pub struct DeviceSlots {
    /// Its name.
    pub device: String,
    /// How many it can have in flight.
    pub slots: u32,
    /// For how many nanoseconds there were exactly so many in flight: 1, 2 and so on up to the slots.
    pub in_flight_ns: Vec<u64>,
}

impl Described for CaptureFacts {}

impl Serialize for CaptureFacts {
    fn serialize<S: Serializer>(&self, out: &mut S) -> Result<(), S::Error> {
        out.begin_map(None)?;
        put_facts(out, self)?;
        out.end_map()
    }
}

/// Writes what is known of how a capture was read as members of the object that is open.
pub(crate) fn put_facts<S: Serializer>(out: &mut S, facts: &CaptureFacts) -> Result<(), S::Error> {
    put_members(
        out,
        &[
            ("lost_events", facts.lost_events),
            ("written_events", facts.written_events),
            ("without_arrival", facts.without_arrival),
            ("lost_starts", facts.lost_starts),
            ("from_before", facts.from_before),
            ("missing_completions", facts.missing_completions),
            ("started", facts.started),
            ("still_waiting", facts.still_waiting),
            ("longest_wait_ns", facts.longest_wait_ns),
        ],
    )?;
    put_member(out, "slots", &facts.slots)
}

/// A comment without its line feed: `# ` and an object of JSON on one line.
pub fn facts_line(alloc: Global, facts: &CaptureFacts) -> Result<String, AllocError> {
    format!(in alloc; "# {}", line(alloc, facts)?)
}

/// What such a comment says; none if it is another comment, or no memory is left.
pub fn facts_of(alloc: Global, comment: &[u8]) -> Option<CaptureFacts> {
    if !comment.starts_with(b"# {") {
        return None;
    }
    serde_json::from_slice(alloc, comment.get(2..)?).ok()
}

/// What to beware of, in a sentence each: lost events, and more than one request in a hundred without a completion.
pub fn facts_warnings(alloc: Global, facts: &CaptureFacts) -> Result<Vec<String>, AllocError> {
    let mut warnings = Vec::new(alloc);
    let (lost, written) = (facts.lost_events, facts.written_events);
    if lost > 0 {
        let mut warning = format!(in alloc; "{lost}")?;
        if written > 0 {
            write!(warning, " of {written}")?;
        }
        warning.push_str(
            " events were lost while this was captured: take a larger buffer, or filter by device",
        )?;
        warnings.push(warning)?;
    }
    let (missing, started) = (facts.missing_completions, facts.started);
    if missing > started / 100 {
        warnings.push(format!(in alloc;
            "{missing} of {started} requests have no completion: their slots and their service are guessed"
        )?)?;
    }
    Ok(warnings)
}

/// For which share of the time that any request of a device was in flight how many were: of more than 16 slots only those with at
/// least 1 %. If its depth isn't given and the most that were in flight were so for less than a thousandth of that time, the depth
/// that may be truer too: the most that were in flight for at least that.
pub fn slot_lines(
    alloc: Global,
    device: &DeviceSlots,
    has_depth: bool,
) -> Result<Vec<String>, AllocError> {
    let mut lines = Vec::new(alloc);
    let whole = whole_time(device);
    if whole > 0 {
        let name = shown_name(alloc, &device.device)?;
        if let Some(shares) = shares_line(alloc, &name, device, whole)? {
            lines.push(shares)?;
        }
        if !has_depth
            && device.slots > 1
            && let Some(depth) = depth_line(alloc, &name, device, whole)?
        {
            lines.push(depth)?;
        }
    }
    Ok(lines)
}

// For how many nanoseconds any was in flight.
fn whole_time(device: &DeviceSlots) -> u128 {
    let mut whole = 0u128;
    for time in &device.in_flight_ns {
        whole = whole.saturating_add(u128::from(*time));
    }
    whole
}

// Whether a time is at least one of so many equal parts of the whole.
fn is_at_least(time: u64, whole: u128, parts: u128) -> bool {
    u128::from(time).saturating_mul(parts) >= whole
}

// For which share of the time each number was in flight, if any is told.
fn shares_line(
    alloc: Global,
    name: &str,
    device: &DeviceSlots,
    whole: u128,
) -> Result<Option<String>, AllocError> {
    let mut page = Page::new(alloc);
    let mut before = ": in flight";
    page.put(name);
    for (place, time) in device.in_flight_ns.iter().enumerate() {
        if device.slots <= FEW || is_at_least(*time, whole, 100) {
            page.show(format_args!("{before} {} for ", place.saturating_add(1)));
            push_rough_share(&mut page, *time, whole);
            before = ",";
        }
    }
    page.put(" of the time that any was");
    Ok(if before == "," {
        Some(page.finish()?)
    } else {
        None
    })
}

// The depth that may be truer than the most that were in flight, if they were so too seldom.
fn depth_line(
    alloc: Global,
    name: &str,
    device: &DeviceSlots,
    whole: u128,
) -> Result<Option<String>, AllocError> {
    let (mut most, mut time_of_most, mut depth) = (0usize, 0u64, 0usize);
    for (place, time) in device.in_flight_ns.iter().enumerate() {
        let number = place.saturating_add(1);
        if *time > 0 {
            (most, time_of_most) = (number, *time);
        }
        if is_at_least(*time, whole, 1_000) {
            depth = number;
        }
    }
    if depth == 0 || depth == most {
        return Ok(None);
    }
    let mut page = Page::new(alloc);
    page.show(format_args!("{name}: {most} in flight for "));
    push_rough_share(&mut page, time_of_most, whole);
    page.show(format_args!(" only: --depth {name}={depth} may be truer"));
    Ok(Some(page.finish()?))
}
