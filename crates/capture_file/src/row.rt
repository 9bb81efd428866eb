//! A request as a line of a table has it.

use crate::options::DriverBy;

/// What a line says of a request.
#[derive(Clone, Copy)]
pub struct Row<'a> {
    pub arrival: u64,
    pub started: Option<u64>,
    pub completed: Option<u64>,
    /// Whether it arrived after the capture began.
    pub has_arrival: bool,
    pub priority: Option<u32>,
    /// The letters of a direction; none if that isn't known.
    pub flags: &'a [u8],
    /// In bytes; 0 if that isn't known.
    pub size: u64,
    pub device: &'a [u8],
    pub driver: &'a [u8],
    pub comm: &'a [u8],
    pub pid: &'a [u8],
    pub cgroup: &'a [u8],
}

impl<'a> Row<'a> {
    /// The name of its driver.
    pub fn driver_by(&self, by: Option<DriverBy>) -> &'a [u8] {
        let name = match by {
            None if self.driver.is_empty() => self.comm,
            None => self.driver,
            Some(DriverBy::Comm) if self.comm.is_empty() => self.driver,
            Some(DriverBy::Comm) => self.comm,
            Some(DriverBy::Pid) => self.pid,
            Some(DriverBy::Cgroup) => self.cgroup,
        };
        if name.is_empty() { b"driver" } else { name }
    }
}
