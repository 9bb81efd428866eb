//! What is taken from an input, and with which priorities.

use crate::device_pick::DevicePick;

/// How far a line may go back in time: a second, in nanoseconds.
pub const SLACK: u64 = 1_000_000_000;

/// By how much the clocks of two processors may differ: 100 us, in nanoseconds.
pub const SKEW: u64 = 100_000;

/// Where the priorities of requests come from.
#[derive(Clone, Copy, Default)]
pub enum Priorities {
    /// By I/O class and level where the input has them, or by its priority column; else by direction.
    #[default]
    Class,
    /// By direction. Without one, as best effort of level 4.
    Direction,
    /// All as best effort of level 4.
    Flat,
}

/// What a driver is: all requests that have one name, one process id or one control group.
#[derive(Clone, Copy)]
pub enum DriverBy {
    Comm,
    Pid,
    Cgroup,
}

/// What is taken from an input, and with which priorities.
#[derive(Drop)]
pub struct Options {
    /// Where priorities come from.
    pub priorities: Priorities,
    /// What a driver is, if that is given; else the name that the input has for it.
    pub driver_by: Option<DriverBy>,
    /// Drivers with a priority of their own, which comes before the rest. Of two with one name the first counts.
    pub drivers: Vec<(String, u32)>,
    /// The devices that are taken. Empty: all. Of two that take a device the first counts.
    pub devices: Vec<DevicePick>,
    /// Requests that arrive before this time are left out, in nanoseconds of the input's clock.
    pub from_time: Option<u64>,
    /// Requests that arrive at or after this time are left out, in nanoseconds of the input's clock.
    pub to_time: Option<u64>,
    /// Whether lines are in the order of time but for a second. Then reading ends when all that arrived before `to_time` is known, and
    /// a line of a table that goes back by more is refused.
    pub is_sorted: bool,
}

impl Options {
    /// The name by which requests of a device are listed. None if it isn't taken.
    pub fn listed_device<'a>(&'a self, name: &'a [u8]) -> Option<&'a [u8]> {
        if self.devices.is_empty() {
            return Some(name);
        }
        for pick in self.devices.iter() {
            if let Some(listed) = pick.listed(name) {
                return Some(listed);
            }
        }
        None
    }

    /// The priority that a driver has of its own.
    pub fn driver_priority(&self, name: &[u8]) -> Option<u32> {
        for (driver, priority) in self.drivers.iter() {
            if driver.as_bytes() == name {
                return Some(*priority);
            }
        }
        None
    }

    /// Whether requests that arrive at a time are taken.
    pub fn takes_time(&self, time: u64) -> bool {
        self.from_time.is_none_or(|from| from <= time) && self.is_before_end(time)
    }

    /// When a line comes after which no arrival is taken: a second after the end of what is taken. None if there is no such end, or lines
    /// come in any order.
    pub fn last_arrival(&self) -> Option<u64> {
        if self.is_sorted {
            Some(self.to_time?.saturating_add(SLACK))
        } else {
            None
        }
    }

    /// Whether a time is before the end of what is taken.
    pub fn is_before_end(&self, time: u64) -> bool {
        self.to_time.is_none_or(|end| time < end)
    }
}

/// The unit of the times of a CSV file.
#[derive(Clone, Copy, PartialEq, Eq)]
pub enum CsvTimeUnit {
    Nanoseconds,
    Microseconds,
    Milliseconds,
    Seconds,
}

impl CsvTimeUnit {
    /// How many nanoseconds the unit has.
    pub fn nanoseconds(self) -> u64 {
        match self {
            CsvTimeUnit::Nanoseconds => 1,
            CsvTimeUnit::Microseconds => 1_000,
            CsvTimeUnit::Milliseconds => 1_000_000,
            CsvTimeUnit::Seconds => 1_000_000_000,
        }
    }
}
