//! What holds the slots of a device, and for how long.

use capture::DeviceFlight;
use slots::{End, Flight};
use std::alloc::{AllocError, Global};
use std::collections::BTreeSet;

/// An attempt that was started, as the input has it. Times are nanoseconds.
#[derive(Clone, Copy)]
pub struct Started {
    pub device: u32,
    pub start: u64,
    pub end: End,
}

/// A completion whose start isn't in the input.
#[derive(Clone, Copy)]
pub struct Unstarted {
    pub device: u32,
    pub time: u64,
}

/// The slots of a device.
#[derive(Drop)]
pub struct DeviceSlots {
    /// How many: the depth that was given, or else the most whose end is known that were in flight at one time, at least 1.
    pub slots: u32,
    /// How many nanoseconds exactly k were in flight, for k from 1 to the most that ever were.
    pub in_flight: Vec<u64>,
    /// Attempts that were started.
    pub started: u64,
    /// Those of them that have no completion, though later ones have.
    pub missing: u64,
    /// Those that were in flight when the capture began.
    pub from_before: u64,
    /// Completions of others whose start isn't in the capture.
    pub lost_starts: u64,
    /// Whether a completion is known.
    pub is_known: bool,
}

/// When a capture begins and ends.
#[derive(Clone, Copy)]
pub struct Times {
    pub begin: u64,
    pub end: u64,
}

// The completed ones of a device: how many, the sum of their times of service, the longest of these, and the last completion.
#[derive(Clone, Copy, Default)]
struct Services {
    count: u64,
    sum: u128,
    longest: u64,
    last: u64,
}

// One that holds a slot from its start up to before its end.
#[derive(Clone, Copy)]
struct Holder {
    start: u64,
    end: u64,
    // Whether nothing in the input says when it ended: it raises no number of slots, and ends where others need its slot.
    is_guessed: bool,
    // Whether it isn't one that flies when the capture ends.
    is_missing: bool,
    is_completed: bool,
}

/// What holds the slots of a device, each up to an end that is known or guessed. One that was in flight when the capture began holds a slot
/// from then on, if its completion comes no later than the longest service after it; a later completion without a start is that of a lost
/// start. One without a completion raises no number of slots. It flies at the end if no completion came later than the longest service
/// after its start: then it lasts to the end of the capture, and at least for the mean service. Else its completion is missing, and it
/// lasts for the mean service. If one more than the slots would be in flight, one without a completion ends there, or else the one that
/// would end last; of equal ends the later one of the input.
pub fn settle(
    alloc: Global,
    device: u32,
    times: Times,
    depth: Option<u32>,
    started: &[Started],
    unstarted: &[Unstarted],
    flights: &mut Vec<DeviceFlight>,
) -> Result<DeviceSlots, AllocError> {
    let services = services_of(device, started);
    let mut found = DeviceSlots {
        slots: 1,
        in_flight: Vec::new(alloc),
        started: 0,
        missing: 0,
        from_before: 0,
        lost_starts: 0,
        is_known: services.count > 0,
    };
    let mut holders = Vec::new(alloc);
    for one in unstarted.iter().filter(|one| one.device == device) {
        if one.time <= times.begin.saturating_add(services.longest) {
            found.from_before = found.from_before.saturating_add(1);
            holders.push(Holder {
                start: times.begin,
                end: one.time,
                is_guessed: false,
                is_missing: false,
                is_completed: false,
            })?;
        } else {
            found.lost_starts = found.lost_starts.saturating_add(1);
        }
    }
    for one in started.iter().filter(|one| one.device == device) {
        let holder = holder_of(*one, times, services);
        found.started = found.started.saturating_add(1);
        found.missing = found.missing.saturating_add(u64::from(holder.is_missing));
        holders.push(holder)?;
    }
    let order = by_start(alloc, &holders)?;
    found.slots = match depth {
        Some(depth) => depth.max(1),
        None => most_known(alloc, &holders, &order)?,
    };
    play(alloc, found.slots, &order, &mut holders)?;
    found.in_flight = times_in_flight(alloc, &holders)?;
    for holder in &holders {
        let end = if holder.is_completed {
            End::Completed(holder.end)
        } else {
            End::PutBack(holder.end)
        };
        let start = holder.start;
        flights.push(DeviceFlight {
            device,
            flight: Flight { start, end },
        })?;
    }
    Ok(found)
}

fn services_of(device: u32, started: &[Started]) -> Services {
    let mut services = Services::default();
    for one in started.iter().filter(|one| one.device == device) {
        if let End::Completed(end) = one.end {
            let service = end.saturating_sub(one.start);
            services.count = services.count.saturating_add(1);
            services.sum = services.sum.saturating_add(u128::from(service));
            services.longest = services.longest.max(service);
            services.last = services.last.max(end);
        }
    }
    services
}

impl Services {
    // Their mean, rounded up; 0 if there are none.
    fn mean(self) -> u64 {
        if self.count == 0 {
            return 0;
        }
        u64::try_from(self.sum.div_ceil(u128::from(self.count))).unwrap_or(u64::MAX)
    }
}

// How long one holds its slot, if there is one for it.
fn holder_of(one: Started, times: Times, services: Services) -> Holder {
    let start = one.start;
    let guess = start.saturating_add(services.mean());
    let flies_at_end = start.saturating_add(services.longest) >= services.last;
    let (end, is_guessed) = match one.end {
        End::Completed(end) | End::PutBack(end) => (end, false),
        End::Unknown if flies_at_end => (guess.max(times.end), true),
        End::Unknown => (guess, true),
    };
    Holder {
        start,
        end,
        is_guessed,
        is_missing: is_guessed && !flies_at_end,
        is_completed: matches!(one.end, End::Completed(_)),
    }
}

// Their places by start, and of equal starts in their order.
fn by_start(alloc: Global, holders: &[Holder]) -> Result<BTreeSet<(u64, usize)>, AllocError> {
    let mut order = BTreeSet::new(alloc);
    for (place, holder) in holders.iter().enumerate() {
        order.insert((holder.start, place))?;
    }
    Ok(order)
}

// The most whose ends are known that were in flight at one time, at least 1. An end comes before a start of the same time.
fn most_known(
    alloc: Global,
    holders: &[Holder],
    order: &BTreeSet<(u64, usize)>,
) -> Result<u32, AllocError> {
    let mut flying = BTreeSet::new(alloc);
    let mut most = 1;
    for (start, place) in order.iter() {
        land(&mut flying, *start);
        if let Some(holder) = holders.get(*place)
            && !holder.is_guessed
            && holder.end > *start
        {
            flying.insert((holder.end, *place))?;
            most = flying.len().max(most);
        }
    }
    Ok(u32::try_from(most).unwrap_or(u32::MAX))
}

// Takes out those that ended up to a time.
fn land(flying: &mut BTreeSet<(u64, usize)>, time: u64) {
    for _ in 0..flying.len() {
        match flying.first().copied() {
            Some(first) if first.0 <= time => flying.remove(&first),
            _ => return,
        };
    }
}

// Ends those for which there is no slot.
fn play(
    alloc: Global,
    slots: u32,
    order: &BTreeSet<(u64, usize)>,
    holders: &mut Vec<Holder>,
) -> Result<(), AllocError> {
    let (mut guessed, mut known) = (BTreeSet::new(alloc), BTreeSet::new(alloc));
    for (start, place) in order.iter() {
        land(&mut guessed, *start);
        land(&mut known, *start);
        let Some(holder) = holders.get(*place).copied() else {
            continue;
        };
        let spot = (holder.end, *place);
        if holder.end <= *start {
            continue;
        }
        if guessed.len().saturating_add(known.len()) < slots as usize {
            let flying = if holder.is_guessed {
                &mut guessed
            } else {
                &mut known
            };
            flying.insert(spot)?;
        } else if let Some(last) = guessed.last().copied() {
            guessed.remove(&last);
            cut(holders, last.1, *start);
            let flying = if holder.is_guessed {
                &mut guessed
            } else {
                &mut known
            };
            flying.insert(spot)?;
        } else if holder.is_guessed {
            cut(holders, *place, *start);
        } else {
            let last = last_known(&known, spot, *start, holders);
            if last != spot {
                known.remove(&last);
                known.insert(spot)?;
            }
            cut(holders, last.1, *start);
        }
    }
    Ok(())
}

// The one that would end last of those in flight; the one that starts is among them if all started then.
fn last_known(
    known: &BTreeSet<(u64, usize)>,
    spot: (u64, usize),
    start: u64,
    holders: &[Holder],
) -> (u64, usize) {
    let Some(last) = known.last().copied() else {
        return spot;
    };
    if spot < last {
        return last;
    }
    let all_start_now = known.iter().all(|(_, place)| holders
        .get(*place)
        .is_some_and(|other| other.start == start));
    if all_start_now { spot } else { last }
}

fn cut(holders: &mut Vec<Holder>, place: usize, time: u64) {
    if let Some(holder) = holders.get_mut(place) {
        holder.end = time;
    }
}

// How long exactly k were in flight, for each k from 1 to the most that ever were.
fn times_in_flight(alloc: Global, holders: &[Holder]) -> Result<Vec<u64>, AllocError> {
    // Starts and ends by time. One that came before another of the same time, and the same way, has a lower number.
    let mut changes = BTreeSet::new(alloc);
    for (place, holder) in holders.iter().enumerate() {
        if holder.end > holder.start {
            changes.insert((holder.start, true, place))?;
            changes.insert((holder.end, false, place))?;
        }
    }
    let mut spans = Vec::new(alloc);
    let (mut since, mut flying) = (0u64, 0usize);
    for (time, is_start, _) in changes.iter() {
        let span = time.saturating_sub(since);
        if let Some(place) = flying.checked_sub(1)
            && span > 0
        {
            for _ in spans.len()..flying {
                spans.push(0u64)?;
            }
            if let Some(sum) = spans.get_mut(place) {
                *sum = sum.saturating_add(span);
            }
        }
        since = *time;
        flying = if *is_start {
            flying.saturating_add(1)
        } else {
            flying.saturating_sub(1)
        };
    }
    Ok(spans)
}
