//! What `import` says on standard error: what was counted, and what to beware of.

use crate::import_note::line_note;
use crate::import_options::ImportOptions;
use crate::import_span::unit_word;
use crate::import_words::Kind;
use crate::note::tell_note;
use crate::words::word_at;
use cam_types::standard_weights;
use capture::{longest_round, span_nanoseconds};
use capture_file::{Capture as Read, Counts, Refused, is_same_device};
use clap::ArgMatches;
use recording_file::{PartKind, Recording, Span};
use slots::Slots;
use std::alloc::{AllocError, Global};
use std::fmt;
use views::{CaptureFacts, DeviceSlots, facts_warnings, shown_name, slot_lines};
use window_recordings::value_of;
use wording::{Page, push_nanoseconds};

/// Says which line was refused first, and why, if lines were left out.
pub fn tell_refused(rt: &HostRuntime, words: &ArgMatches<'_>, refused: &Refused) {
    if refused.is_cut() {
        let _ = rt.eprintln("camxpt: warning: the last line is cut, and left out");
    }
    if let Some((place, number, fault)) = refused.first() {
        let _ = rt.eprintln(format_args!("camxpt: the first line that was refused: {fault}"));
        let name = word_at(words, "FILE", place);
        tell_note(rt, line_note(rt.alloc(), name, number, refused.text()).ok());
    }
}

/// Says what a round is, how many there are, and what was left out.
pub fn tell_counts(rt: &HostRuntime, round: Span, recording: &Recording, counts: &Counts) {
    let _ = rt.eprintln(format_args!(
        "camxpt: {} requests in {} rounds of {} {}",
        recording.requests().len(),
        recording.rounds(),
        round.count,
        unit_word(round.unit)
    ));
    for (count, what) in [
        (counts.never_started, "requests that were never started"),
        (
            counts.without_arrival,
            "requests whose arrival isn't in the capture",
        ),
        (
            counts.lost_starts,
            "requests that were completed with no start in the capture",
        ),
        (
            counts.requests_without_starts,
            "requests of devices without starts",
        ),
        (
            counts.other_devices,
            "arrivals at devices that aren't picked",
        ),
        (counts.other_times, "requests that arrive at other times"),
        (counts.refused_lines, "lines that were refused"),
        (
            counts.without_partner,
            "records of latency without a request",
        ),
        (counts.dropped_runs, "earlier runs in a log"),
    ] {
        if count > 0 {
            let _ = rt.eprintln(format_args!("camxpt: left out: {count} {what}"));
        }
    }
}

/// What is known of how a capture was read.
pub fn facts_of(alloc: Global, read: &Read) -> Result<CaptureFacts, AllocError> {
    let mut slots = Vec::new(alloc);
    for (name, found) in read.devices.iter().zip(read.slots.iter()) {
        if found.is_known {
            slots.push(DeviceSlots {
                device: String::from_str(alloc, name)?,
                slots: found.slots,
                in_flight_ns: Vec::from_slice(alloc, &found.in_flight)?,
            })?;
        }
    }
    let counts = &read.counts;
    Ok(CaptureFacts {
        lost_events: counts.lost_events,
        written_events: counts.written_events,
        without_arrival: counts.without_arrival,
        lost_starts: counts.lost_starts,
        from_before: counts.from_before,
        missing_completions: counts.missing_completions,
        started: counts.started,
        still_waiting: counts.still_waiting,
        longest_wait_ns: counts.longest_wait,
        slots,
    })
}

/// Says what was in flight when the capture began, what still waited when it ended, and what was lost.
pub fn tell_facts(rt: &HostRuntime, facts: &CaptureFacts, kind: Kind) -> Result<(), AllocError> {
    let alloc = rt.alloc();
    if kind == Kind::Fio {
        return Ok(());
    }
    if facts.from_before > 0 {
        let many = Requests(facts.from_before);
        let were = if facts.from_before == 1 {
            "was"
        } else {
            "were"
        };
        let _ = rt.eprintln(format_args!("camxpt: {many} {were} in flight when the capture began"));
    }
    if facts.still_waiting > 0 {
        let mut wait = Page::new(alloc);
        push_nanoseconds(&mut wait, u128::from(facts.longest_wait_ns));
        let (many, wait) = (Requests(facts.still_waiting), wait.finish()?);
        let one = if facts.still_waiting == 1 {
            "for"
        } else {
            "one for"
        };
        let _ = rt.eprintln(format_args!("camxpt: {many} still waited at the end, {one} {wait}"));
    }
    let missing = facts.missing_completions;
    if missing > 0 && missing <= facts.started / 100 {
        let started = facts.started;
        let _ = rt.eprintln(format_args!(
            "camxpt: {missing} of {started} requests have no completion"
        ));
    }
    for warning in &facts_warnings(alloc, facts)? {
        let _ = rt.eprintln(format_args!("camxpt: warning: {warning}"));
    }
    Ok(())
}

// So many requests.
#[derive(Clone, Copy)]
struct Requests(u64);

impl fmt::Display for Requests {
    fn fmt<W: fmt::Write>(&self, f: &mut fmt::Formatter<W>) -> fmt::Result {
        write!(
            f,
            "{} request{}",
            self.0,
            if self.0 == 1 { "" } else { "s" }
        )
    }
}

/// Says for which share of the time how many were in flight at each device.
pub fn tell_slots(
    rt: &HostRuntime,
    options: &ImportOptions,
    facts: &CaptureFacts,
) -> Result<(), AllocError> {
    for device in &facts.slots {
        let has_depth = value_of(&options.layout.depths, &device.device).is_some();
        for line in &slot_lines(rt.alloc(), device, has_depth)? {
            let _ = rt.eprintln(format_args!("camxpt: {line}"));
        }
    }
    Ok(())
}

// From this mean time of service on, the unit of a table's times is doubted: an hour, in nanoseconds.
const DOUBTED: u64 = 3_600_000_000_000;

/// Says which events a capture lacks without which there are no requests, doubts a unit that makes requests of hours, and names the option
/// by which requests of several processes are told apart.
pub fn warn_events(rt: &HostRuntime, options: &ImportOptions, read: &Read) {
    let counts = &read.counts;
    if counts.starts > 0 && counts.arrivals == 0 {
        let event = match options.kind {
            Kind::Tracepoints => "block_bio_queue: add it to the events that are captured",
            _ => "Q: add `-a queue` to blktrace or blkparse",
        };
        let _ = rt.eprintln(format_args!(
            "camxpt: warning: no request arrives: there is no event {event}"
        ));
    }
    if counts.arrivals > 0 && counts.starts == 0 {
        let event = match options.kind {
            Kind::Tracepoints => "block_rq_issue: add it to the events that are captured",
            _ => "D: add `-a issue` to blktrace or blkparse",
        };
        let _ = rt.eprintln(format_args!(
            "camxpt: warning: no request is started: there is no event {event}"
        ));
    }
    if let Kind::Csv(_) = options.kind
        && longest_round(&read.requests).is_some_and(|half| half >= DOUBTED / 2)
    {
        let _ = rt.eprintln(
            "camxpt: warning: requests wait for more than an hour on the average: is --unit right?",
        );
    }
    if read.drivers.len() == 1 && counts.has_processes && options.taken.driver_by.is_none() {
        let _ = rt.eprintln(
            "camxpt: all requests are of one driver, and of several processes: --driver-by pid tells them apart",
        );
    }
}

/// Says how many requests were started before they arrived, by the clocks of two processors.
pub fn tell_early(rt: &HostRuntime, counts: &Counts) {
    let count = counts.early_starts;
    if count > 0 {
        let _ = rt.eprintln(format_args!(
            "camxpt: {count} requests were started up to 100 us before they arrived, by another processor's clock: they waited 0"
        ));
    }
}

// A warning of something that has a name.
fn warn(rt: &HostRuntime, before: &str, name: &str, after: &str) {
    if let Ok(name) = shown_name(rt.alloc(), name) {
        let _ = rt.eprintln(format_args!("camxpt: warning: {before} {name}{after}"));
    }
}

/// Warns of options that name a driver or device that no request has.
pub fn warn_missing(rt: &HostRuntime, options: &ImportOptions, read: &Read) {
    for (name, _) in &options.taken.drivers {
        warn_unknown(rt, "--driver names", name, &read.drivers);
    }
    let mut last = "";
    for pick in &options.taken.devices {
        // One word may be two picks.
        if pick.name() != last {
            warn_unpicked(rt, pick.name(), read);
        }
        last = pick.name();
    }
    for (name, _) in &options.layout.hosts {
        warn_unknown(rt, "--host names", name, &read.devices);
    }
    for (name, _) in &options.layout.ratings {
        warn_unknown(rt, "--rated names", name, &read.devices);
    }
    for (name, _) in &options.layout.depths {
        warn_unknown(rt, "--depth names", name, &read.devices);
    }
}

/// The slots of a device, and how many starts more they had room for.
#[derive(Clone, Copy)]
pub struct SeenSlots {
    pub slots: Slots,
    pub starts: u128,
}

/// Says of each device that isn't rated how many slots it had, how long it served a request, and how many starts more it had room
/// for; or that nobody knows that.
pub fn tell_rooms(
    rt: &HostRuntime,
    options: &ImportOptions,
    names: &[String],
    seen: &[Option<SeenSlots>],
) {
    for (name, seen) in names.iter().zip(seen.iter()) {
        if value_of(&options.layout.ratings, name).is_none() {
            match seen {
                Some(seen) => tell_service(rt, name, *seen),
                None => warn(
                    rt,
                    "no request of",
                    name,
                    " has an end after its start: idle slots can't be seen",
                ),
            }
        }
    }
}

fn tell_service(rt: &HostRuntime, name: &str, seen: SeenSlots) {
    let (slots, spare) = (seen.slots.slots, seen.starts);
    let (slot, start) = (
        if slots == 1 { "slot" } else { "slots" },
        if spare == 1 { "start" } else { "starts" },
    );
    let mut service = Page::new(rt.alloc());
    push_nanoseconds(&mut service, u128::from(seen.slots.service));
    if let (Ok(name), Ok(service)) = (shown_name(rt.alloc(), name), service.finish()) {
        let _ = rt.eprintln(format_args!(
            "camxpt: {name}: {slots} {slot}, service {service}; {spare} {start} more had room while others waited"
        ));
    }
}

// Warns of a device that is picked and has no request, and names those that were seen.
fn warn_unpicked(rt: &HostRuntime, name: &str, read: &Read) {
    let is_there = |other: &String| is_same_device(other.as_bytes(), name.as_bytes());
    if read.devices.iter().any(is_there) {
        return;
    }
    if let (Ok(name), Ok(seen)) = (shown_name(rt.alloc(), name), seen_names(rt.alloc(), read)) {
        let _ = rt.eprintln(format_args!(
            "camxpt: warning: --device names {name}, of which there is no request{seen}"
        ));
    }
}

// The names of devices that were seen, after `: there is `.
fn seen_names(alloc: Global, read: &Read) -> Result<String, AllocError> {
    let mut list = String::new(alloc);
    let all = read.devices.iter().chain(read.others.iter());
    for (place, name) in all.take(MAX_DEVICES).enumerate() {
        list.push_str(if place == 0 { ": there is " } else { ", " })?;
        list.push_str(&shown_name(alloc, name)?)?;
    }
    Ok(list)
}

// How many devices are named that were seen.
const MAX_DEVICES: usize = 32;

fn warn_unknown(rt: &HostRuntime, option: &str, name: &str, known: &[String]) {
    if !known.iter().any(|other| other.as_str() == name) {
        warn(rt, option, name, ", of which there is no request");
    }
}

/// Warns of the columns of a table that aren't read: of eight, and how many more there are.
pub fn warn_columns(rt: &HostRuntime, read: &Read) {
    if read.other_columns.is_empty() {
        return;
    }
    if let Ok(names) = column_names(rt.alloc(), &read.other_columns) {
        let _ = rt.eprintln(format_args!("camxpt: warning: columns that aren't read: {names}"));
    }
}

// How many names of columns are shown.
const MAX_COLUMNS: usize = 8;

fn column_names(alloc: Global, names: &[String]) -> Result<String, AllocError> {
    let mut list = String::new(alloc);
    for (place, name) in names.iter().take(MAX_COLUMNS).enumerate() {
        let comma = if place > 0 { ", " } else { "" };
        write!(list, "{comma}{}", shown_name(alloc, name)?)?;
    }
    let more = names.len().saturating_sub(MAX_COLUMNS);
    if more > 0 {
        write!(list, ", and {more} more")?;
    }
    Ok(list)
}

/// Warns of waits that are too short for a round, and of devices whose requests are all of one weight, or of very different sizes.
pub fn warn_read(rt: &HostRuntime, round: Span, read: &Read) {
    if let Some(most) = longest_round(&read.requests)
        && span_nanoseconds(round) > most
    {
        let _ = rt.eprintln(format_args!(
            "camxpt: warning: a round is longer than half of the mean wait, {most} ns: shorter waits than a round are not seen"
        ));
    }
    let mut number = 0u32;
    for name in &read.devices {
        warn_of_device(rt, read, number, name);
        number = number.saturating_add(1);
    }
}

fn warn_of_device(rt: &HostRuntime, read: &Read, number: u32, name: &str) {
    if has_one_weight(read, number) {
        warn(
            rt,
            "all requests of",
            name,
            " weigh the same: little can be avoided there",
        );
    }
    if read.uneven.get(number as usize).copied().unwrap_or(false) {
        warn(
            rt,
            "the largest request of",
            name,
            " has more than 16 times the median size, and each counts as one",
        );
    }
}

// Whether all started requests of a device cost the same for a round of waiting.
fn has_one_weight(read: &Read, device: u32) -> bool {
    let mut first = None;
    for request in &read.requests {
        if request.device == device && request.started.is_some() {
            let weight = weight_of(request.priority);
            if *first.get_or_insert(weight) != weight {
                return false;
            }
        }
    }
    first.is_some()
}

// What a round of waiting costs at a priority, by the standard weights.
fn weight_of(priority: u32) -> u32 {
    standard_weights()
        .iter()
        .find(|row| priority <= row.last)
        .map_or(0, |row| row.weight)
}

/// Warns of devices that are rated at fewer openings than they took in some round.
pub fn warn_recorded(
    rt: &HostRuntime,
    options: &ImportOptions,
    read: &Read,
    recording: &Recording,
) {
    for (name, _) in &options.layout.ratings {
        if has_cap(recording, read, name) {
            warn(rt, "in some rounds", name, " took more than it is rated at");
        }
    }
}

// Whether a device takes another number than its openings in some round.
fn has_cap(recording: &Recording, read: &Read, name: &str) -> bool {
    recording.caps().iter().any(|cap| {
        let device = read.devices.get(cap.part.number as usize);
        cap.part.kind == PartKind::Device && device.is_some_and(|other| other.as_str() == name)
    })
}
