//! The columns of a CSV file.

use crate::line_fault::LineFault;
use crate::options::DriverBy;
use csv::ByteRecord;
use std::alloc::{AllocError, Global};

/// Where the columns are, from 0 on.
#[derive(Clone, Copy)]
pub struct Columns {
    pub arrival: usize,
    pub start: usize,
    pub device: usize,
    pub end: Option<usize>,
    pub driver: Option<usize>,
    pub priority: Option<usize>,
    pub size: Option<usize>,
    pub comm: Option<usize>,
    pub pid: Option<usize>,
    pub cgroup: Option<usize>,
    /// How many there are.
    pub count: usize,
}

const NAMES: [&str; 10] = [
    "arrival", "start", "device", "end", "driver", "priority", "size", "comm", "pid", "cgroup",
];

/// The columns that a header names, in any order, among others that aren't read.
///
/// # Errors
///
/// `DoubleColumn` of the first column with the name of an earlier one that is read, `MissingColumn`.
pub fn columns_of(header: &ByteRecord) -> Result<Columns, LineFault> {
    let mut found = [None; NAMES.len()];
    for place in 0..header.len() {
        find(&mut found, header.get(place).unwrap_or(b""), place)?;
    }
    let [
        Some(arrival),
        Some(start),
        Some(device),
        end,
        driver,
        priority,
        size,
        comm,
        pid,
        cgroup,
    ] = found
    else {
        return Err(LineFault::MissingColumn);
    };
    Ok(Columns {
        arrival,
        start,
        device,
        end,
        driver,
        priority,
        size,
        comm,
        pid,
        cgroup,
        count: header.len(),
    })
}

// Puts down the place of a column, if it is one that is read.
fn find(
    found: &mut [Option<usize>; NAMES.len()],
    name: &[u8],
    place: usize,
) -> Result<(), LineFault> {
    let Some(which) = read_name(name) else {
        return Ok(());
    };
    if let Some(column) = found.get_mut(which) {
        if column.is_some() {
            return Err(LineFault::DoubleColumn(place.saturating_add(1) as u64));
        }
        *column = Some(place);
    }
    Ok(())
}

// Which of the columns that are read has this name.
fn read_name(name: &[u8]) -> Option<usize> {
    let name = name.trim_ascii();
    NAMES.iter().position(|column| column.as_bytes() == name)
}

impl Columns {
    /// Whether there is a column for the drivers that are asked for.
    pub fn have(&self, by: Option<DriverBy>) -> bool {
        match by {
            None => true,
            Some(DriverBy::Comm) => self.comm.is_some() || self.driver.is_some(),
            Some(DriverBy::Pid) => self.pid.is_some(),
            Some(DriverBy::Cgroup) => self.cgroup.is_some(),
        }
    }
}

/// The names of the columns that aren't read.
pub fn other_columns(alloc: Global, header: &ByteRecord) -> Result<Vec<String>, AllocError> {
    let mut names = Vec::new(alloc);
    for place in 0..header.len() {
        let name = header.get(place).unwrap_or(b"");
        if read_name(name).is_none() {
            names.push(String::from_utf8_lossy(alloc, name.trim_ascii())?)?;
        }
    }
    Ok(names)
}
