//! Reads events of block devices: blkparse's text, and the kernel's tracepoints.

use crate::attempt::{Arrival, Attempt as Tried, Place, Sent, State, Tag};
use crate::blkparse_line::event_of;
use crate::block_event::{Action, Event, Extent, RequestEvent, kind_of};
use crate::captured::{Capture, Counts};
use crate::finishing::{Drivers, Flown, capture_of, names_text};
use crate::flights::{Times, Unstarted};
use crate::line_fault::LineFault;
use crate::lost_events::lost_in;
use crate::names::Names;
use crate::options::{DriverBy, Options, Priorities, SKEW, SLACK};
use crate::own_devices::OwnDevices;
use crate::priority::{SOON, USUAL, flags_priority};
use crate::requests::{Came, Ending, Requests};
use crate::sizes::Sizes;
use crate::sorted_reader::push_parts;
use crate::tenants::Tenants;
use crate::tracepoint_line::tracepoint_of;
use capture::TimedRequest;
use capture_windows::{Attempt, TimeSpan, goes_on};
use std::alloc::{AllocError, Global};
use std::collections::{BTreeMap, BTreeSet};

// What is said of an attempt whose arrival wasn't seen.
const NO_TAG: Tag = Tag {
    driver: 0,
    priority: USUAL,
};

// The driver of what the block layer issues and nobody queued: flushes, and commands of `SG_IO`.
const FLUSH: &[u8] = b"flush";

/// What kind of text events are.
#[derive(Clone, Copy)]
pub enum EventForm {
    /// The default text of `blkparse`. It has no I/O classes, so priorities go by direction.
    Blkparse,
    /// The block tracepoints, as `perf script`, `trace-cmd report` and the kernel's `trace` print them. Other events are left out.
    Tracepoints,
}

/// Reads events of block devices, line by line.
///
/// A request is a device and a first sector. It arrives when it is queued and starts when it is issued. One that is merged into another
/// that waits is part of that one, which keeps its arrival. If one is put back, its next attempt is a request that arrives then. Of
/// several requests of one place the first one that waits starts first, and a completion is of the newest one in flight of its kind and
/// size. A flush or a command without sectors arrives when it is issued, and is of the driver `flush`. A write that is flushed after it is
/// completed twice: its slot is free at the first completion, and it is done at the second. A start that is seen at most 100 us before its
/// arrival was seen by another processor's clock: that request arrived when it was started. So a time that goes back by as much counts as
/// that before it.
#[derive(Drop)]
pub struct EventReader<'a> {
    alloc: Global,
    options: &'a Options,
    form: EventForm,
    pub(crate) devices: OwnDevices,
    pub(crate) drivers: Drivers,
    requests: Requests,
    // The ids of the attempts that were given away last, and of those in flight how many were when they were started.
    given: Vec<u64>,
    numbers: BTreeMap<u64, u32>,
    // The completed writes that may be completed a second time, by their device, first sector, start and id.
    written: BTreeSet<(u32, u64, u64, u64)>,
    // When writes were completed a second time, by their ids.
    done: BTreeMap<u64, u64>,
    // Completions of what was neither started nor waits.
    unstarted: Vec<Unstarted>,
    // The first time of a line.
    begin: Option<u64>,
    others: Names,
    tenants: Tenants,
    // The priorities by their I/O classes of those that were started, and whose arrivals weren't seen yet.
    classes: BTreeMap<u64, u32>,
    sizes: Sizes,
    // The latest time of a line.
    pub(crate) last_time: u64,
    // When to look next whether all that is taken has ended.
    next_look: Option<u64>,
    // Whether all that arrived before the end of what is taken has ended.
    pub(crate) is_done: bool,
    pub(crate) counts: Counts,
}

impl<'a> EventReader<'a> {
    /// A reader that has no lines yet.
    pub fn new(alloc: Global, options: &'a Options, form: EventForm) -> EventReader<'a> {
        EventReader {
            alloc,
            options,
            form,
            devices: OwnDevices::new(alloc),
            drivers: Drivers::new(alloc),
            requests: Requests::new(alloc, SKEW),
            given: Vec::new(alloc),
            numbers: BTreeMap::new(alloc),
            written: BTreeSet::new(alloc),
            done: BTreeMap::new(alloc),
            unstarted: Vec::new(alloc),
            begin: None,
            others: Names::new(alloc),
            tenants: Tenants::new(alloc),
            classes: BTreeMap::new(alloc),
            sizes: Sizes::new(alloc),
            last_time: 0,
            next_look: options.last_arrival(),
            is_done: false,
            counts: Counts::default(),
        }
    }

    /// What was read. A device has the slots that `depths` gives it by its name.
    ///
    /// # Errors
    ///
    /// `TooManyDevices` if more than 32 devices have requests, `OutOfMemory` if no memory is left.
    pub fn finish(self, depths: &[(String, u32)]) -> Result<Capture, LineFault> {
        let mut counts = self.devices.counted(self.counts);
        counts.has_processes = self.tenants.are_several();
        let (mut requests, mut started) = (Vec::new(self.alloc), Vec::new(self.alloc));
        for tried in self.requests.attempts().values() {
            match self.attempt(tried) {
                Some(attempt) => {
                    match (tried.arrival, tried.state) {
                        // Its next attempt is counted.
                        (None, State::PutBack { .. }) => {}
                        (None, _) => {
                            counts.without_arrival = counts.without_arrival.saturating_add(1);
                        }
                        (Some(_), _) if attempt.is_taken => {}
                        (Some(_), _) => counts.other_times = counts.other_times.saturating_add(1),
                    }
                    push_parts(&attempt, &mut requests, &mut started)?;
                    if attempt.is_taken
                        && let Some(done) = self.done.get(&tried.id)
                        && let Some(request) = requests.last_mut()
                    {
                        request.completed = Some(*done);
                    }
                }
                None => {
                    counts.requests_without_starts = counts
                        .requests_without_starts
                        .saturating_add(1);
                }
            }
        }
        let flown = Flown {
            times: Times {
                begin: self.begin.unwrap_or(0),
                end: self.last_time,
            },
            depths,
            started,
            unstarted: self.listed_unstarted()?,
        };
        let capture = capture_of(
            self.alloc,
            self.options,
            requests,
            Some(&flown),
            self.devices.listed(),
            self.drivers.list(),
            &self.sizes,
            counts,
        )?;
        let others = names_text(self.alloc, self.others.list())?;
        Ok(Capture { others, ..capture })
    }

    // Completions without a start, with the devices as which theirs are listed. Where nothing is started there is none.
    fn listed_unstarted(&self) -> Result<Vec<Unstarted>, AllocError> {
        let mut list = Vec::new(self.alloc);
        for one in &self.unstarted {
            if let Some(device) = self.devices.listed_with_starts(one.device) {
                list.push(Unstarted {
                    device,
                    time: one.time,
                })?;
            }
        }
        Ok(list)
    }

    // An attempt as one at the device as which its own is listed; none if nothing was started at that.
    fn attempt(&self, tried: &Tried) -> Option<Attempt> {
        let device = self.devices.listed_with_starts(tried.place.device)?;
        let (started, retried, completed) = match tried.state {
            State::Waiting => (None, None, None),
            State::InFlight { start } => (Some(start), None, None),
            State::PutBack { start, end } => (Some(start), Some(end), None),
            State::Completed { start, end } => (Some(start), None, Some(end)),
        };
        let (arrival, tag) = match tried.arrival {
            Some(arrival) => (arrival.time, arrival.tag),
            None => (started.unwrap_or(0), NO_TAG),
        };
        Some(Attempt {
            request: TimedRequest {
                arrival,
                started,
                retried,
                completed,
                driver: tag.driver,
                device,
                priority: tag.priority,
            },
            is_taken: tried.arrival.is_some() && self.options.takes_time(arrival),
            has_slot: true,
            number: self.numbers.get(&tried.id).copied().unwrap_or(0),
        })
    }

    // A second after the end of what is taken, and each second then: whether all that arrived before it has ended.
    fn look(&mut self, time: u64) {
        if self.next_look.is_some_and(|next| next <= time) {
            self.next_look = Some(time.saturating_add(SLACK));
            self.is_done = true;
            for tried in self.requests.attempts().values() {
                if let Some(arrival) = tried.arrival
                    && let State::Waiting | State::InFlight { .. } = tried.state
                    && self.options.takes_time(arrival.time)
                {
                    self.is_done = false;
                }
            }
        }
    }

    fn apply(&mut self, time: u64, event: RequestEvent<'_>) -> Result<(), LineFault> {
        let Some(device) = self.devices.number(self.options, event.device)? else {
            return Ok(self.pass_other(event)?);
        };
        let place = place_of(device, event.extent)?;
        match event.action {
            Action::Arrives => self.arrive(time, place, event),
            Action::JoinsEnd => {
                if place.sector.is_some() {
                    self.requests.merge_back(place);
                }
                Ok(())
            }
            Action::JoinsFront => {
                if let Extent::Sectors(_, sectors) = event.extent {
                    self.requests.merge_front(place, behind(place, sectors))?;
                }
                Ok(())
            }
            Action::Starts => self.start(time, place, event),
            Action::Returns => {
                self.requests.put_back(place, sent_of(event), time)?;
                Ok(())
            }
            Action::Completes => Ok(self.complete(time, place, event)?),
        }
    }

    // What has no sectors arrives when it is issued.
    fn start(&mut self, time: u64, place: Place, event: RequestEvent<'_>) -> Result<(), LineFault> {
        let device = place.device as usize;
        self.devices.count_start(device);
        self.counts.starts = self.counts.starts.saturating_add(1);
        let sent = sent_of(event);
        if place.sector.is_none() {
            let tag = self.flush_tag(time)?;
            self.requests.issue(place, sent, time, tag)?;
            return Ok(());
        }
        let tried = self.requests.start(place, sent, time)?;
        if let Some(priority) = event.priority
            && self.options.priorities == Priorities::Class
        {
            self.note_class(tried, priority)?;
        }
        if let Some(arrival) = tried.arrival {
            self.count_size(arrival.time, device, sectors_of(event))?;
        }
        Ok(())
    }

    // What is said of a flush.
    fn flush_tag(&mut self, time: u64) -> Result<Tag, LineFault> {
        let (driver, own) = if self.options.is_before_end(time) {
            self.drivers.number(self.options, FLUSH)?
        } else {
            (0, None)
        };
        let usual = match self.options.priorities {
            Priorities::Class | Priorities::Direction => SOON,
            Priorities::Flat => USUAL,
        };
        let priority = own.unwrap_or(usual);
        Ok(Tag { driver, priority })
    }

    fn complete(
        &mut self,
        time: u64,
        place: Place,
        event: RequestEvent<'_>,
    ) -> Result<(), AllocError> {
        let sent = sent_of(event);
        let is_write = sent.kind == b'W';
        if let Extent::None(Some(sector)) = event.extent
            && is_write
            && let Some(write) = self.written_at(place.device, sector)
        {
            self.written.remove(&write);
            self.done.insert(write.3, time)?;
            return Ok(());
        }
        match self.requests.complete(place, sent, time) {
            Ending::Completed(tried) => {
                if let Some(sector) = place.sector
                    && is_write
                {
                    let start = tried.state.start();
                    self.written
                        .insert((place.device, sector, start, tried.id))?;
                }
            }
            Ending::NeverStarted(_) => self.devices.count_end(place.device as usize),
            // A write that was completed before the capture may be completed again in it.
            Ending::Unknown if is_write && place.sector.is_none() => {}
            Ending::Unknown => self.unstarted.push(Unstarted {
                device: place.device,
                time,
            })?,
        }
        Ok(())
    }

    // The write that begins at a sector and was started last, of those that were completed once.
    fn written_at(&self, device: u32, sector: u64) -> Option<(u32, u64, u64, u64)> {
        let first = (device, sector, 0, 0);
        let last = (device, sector, u64::MAX, u64::MAX);
        self.written.range(first..=last).next_back().copied()
    }

    // Keeps the priority by the I/O class that a start has, unless its driver has one of its own.
    fn note_class(&mut self, tried: Tried, priority: u32) -> Result<(), AllocError> {
        match tried.arrival {
            Some(Arrival { tag, .. }) => {
                if self.drivers.own(tag.driver).is_none() {
                    self.requests.retag(tried.id, Tag { priority, ..tag });
                }
            }
            None => {
                self.classes.insert(tried.id, priority)?;
            }
        }
        Ok(())
    }

    // An event of a device that isn't taken.
    fn pass_other(&mut self, event: RequestEvent<'_>) -> Result<(), AllocError> {
        if let (Action::Arrives, Extent::Sectors(_, _)) = (event.action, event.extent) {
            self.counts.other_devices = self.counts.other_devices.saturating_add(1);
        }
        self.others.note(event.device)
    }

    // A flush that somebody asked for arrives when it is issued.
    fn arrive(
        &mut self,
        time: u64,
        place: Place,
        event: RequestEvent<'_>,
    ) -> Result<(), LineFault> {
        if place.sector.is_none() {
            return Ok(());
        }
        self.counts.arrivals = self.counts.arrivals.saturating_add(1);
        // What arrives after the times that are taken is left out, and so are its drivers.
        let (driver, own) = if self.options.is_before_end(time) {
            self.tenants.note(event.pid)?;
            let name = match self.options.driver_by {
                Some(DriverBy::Pid) => event.pid,
                _ => event.process,
            };
            self.drivers.number(self.options, name)?
        } else {
            (0, None)
        };
        let usual = usual_priority(self.options.priorities, event.flags);
        let priority = own.unwrap_or(usual);
        if let Came::Started(id) = self.requests.arrive(place, time, Tag { driver, priority })? {
            self.counts.early_starts = self.counts.early_starts.saturating_add(1);
            if let Some(priority) = self.classes.remove(&id)
                && own.is_none()
            {
                self.requests.retag(id, Tag { driver, priority });
            }
            if let Some(tried) = self.requests.get(id)
                && let Some(arrival) = tried.arrival
            {
                let (device, sectors) = (place.device as usize, sectors_of(event));
                self.count_size(arrival.time, device, sectors)?;
            }
        }
        Ok(())
    }

    fn count_size(&mut self, arrival: u64, device: usize, sectors: u64) -> Result<(), AllocError> {
        match self.devices.listed_as(device) {
            Some(device) if self.options.takes_time(arrival) => self.sizes.add(device, sectors),
            _ => Ok(()),
        }
    }

    /// Takes a line. What isn't an event of a block device that is taken is passed over.
    ///
    /// # Errors
    ///
    /// `NotAnEvent`, `BadNumber`, `TimeFalls` and `TooManyDrivers`, or `OutOfMemory`.
    pub(crate) fn take(&mut self, line: &[u8]) -> Result<(), LineFault> {
        self.counts.lines = self.counts.lines.saturating_add(1);
        let event = match self.form {
            EventForm::Blkparse => event_of(line),
            EventForm::Tracepoints => tracepoint_of(line),
        };
        let Event { time, request } = match event {
            Ok(Some(event)) => event,
            Ok(None) | Err(LineFault::NotAnEvent) if let Some(lost) = lost_in(line) => {
                return Ok(self.counts.count_lost(lost));
            }
            Ok(None) => return Ok(()),
            Err(fault) => return Err(fault),
        };
        if time.saturating_add(SKEW) < self.last_time {
            return Err(LineFault::TimeFalls);
        }
        let time = time.max(self.last_time);
        self.last_time = time;
        if self.begin.is_none() {
            self.begin = Some(time);
        }
        self.look(time);
        match request {
            None => Ok(()),
            Some(request) => self.apply(time, request),
        }
    }

    /// Gives away all attempts that are known, in the order of their arrivals.
    pub(crate) fn take_attempts(&mut self) -> Result<Vec<Attempt>, AllocError> {
        let mut list = Vec::new(self.alloc);
        let mut given = Vec::new(self.alloc);
        // Windows have no second completions, and none without a start.
        self.written = BTreeSet::new(self.alloc);
        self.done = BTreeMap::new(self.alloc);
        self.unstarted.clear();
        for tried in self.requests.attempts().values() {
            if let Some(attempt) = self.attempt(tried) {
                list.push(attempt)?;
                given.push(tried.id)?;
            }
        }
        self.given = given;
        Ok(list)
    }

    /// Takes back those that go on after a window, of all that were given away.
    pub(crate) fn take_back(
        &mut self,
        all: &[Attempt],
        window: TimeSpan,
        going_on: &[Attempt],
    ) -> Result<(), AllocError> {
        let given = std::mem::replace(&mut self.given, Vec::new(self.alloc));
        let mut staying = going_on.iter();
        for (id, attempt) in given.iter().zip(all) {
            if goes_on(attempt, window) {
                if let Some(stays) = staying.next()
                    && stays.number > 0
                {
                    self.numbers.insert(*id, stays.number)?;
                }
            } else {
                self.requests.forget(*id);
                self.numbers.remove(id);
                self.classes.remove(id);
            }
        }
        Ok(())
    }
}

// Where what an event speaks of is.
fn place_of(device: usize, extent: Extent) -> Result<Place, LineFault> {
    let Ok(number) = u32::try_from(device) else {
        return Err(LineFault::TooManyDevices(device));
    };
    let sector = match extent {
        Extent::Sectors(sector, _) => Some(sector),
        Extent::None(_) => None,
    };
    Ok(Place {
        device: number,
        sector,
    })
}

// How many sectors an event has.
fn sectors_of(event: RequestEvent<'_>) -> u64 {
    match event.extent {
        Extent::Sectors(_, sectors) => sectors,
        Extent::None(_) => 0,
    }
}

// What an event says of a request beside its place.
fn sent_of(event: RequestEvent<'_>) -> Sent {
    Sent {
        kind: kind_of(event.flags),
        size: u32::try_from(sectors_of(event)).unwrap_or(u32::MAX),
    }
}

// The place so many sectors on. None if there is no sector of that number.
fn behind(place: Place, sectors: u64) -> Option<Place> {
    let sector = place.sector?.checked_add(sectors)?;
    Some(Place {
        sector: Some(sector),
        ..place
    })
}

fn usual_priority(priorities: Priorities, flags: &[u8]) -> u32 {
    match priorities {
        Priorities::Class | Priorities::Direction => flags_priority(flags),
        Priorities::Flat => USUAL,
    }
}
