//! Captures as text: what `blkparse`, the kernel's tracepoints and `biosnoop` print, what fio logs, and CSV with named columns, each read
//! line by line to requests in time; and which request an event of a block device speaks of.
#![tactic(auto)]

pub use attempt::{Arrival, Attempt, Place, Sent, State, Tag};
pub use captured::{Capture, Counts};
pub use device_pick::{DevicePick, is_same_device};
pub use event_reader::{EventForm, EventReader};
pub use fio_reader::FioReader;
pub use flights::DeviceSlots;
pub use laws::{
    arrivals_stay, none_is_started_twice, nothing_is_lost, oldest_starts_and_newest_ends,
};
pub use line_fault::{Field, LineFault};
pub use line_reader::{
    LineReader, MAX_LINE_BYTES, ReadFault, Refused, Tolerance, failed, read_lines,
};
pub use number::time_of;
pub use options::{CsvTimeUnit, DriverBy, Options, Priorities, SLACK};
pub use packed::Packed;
pub use requests::{Came, Ending, Requests};
pub use sorted_reader::SortedReader;
pub use table_reader::{TableForm, TableReader};

mod attempt;
mod biosnoop_row;
mod blkparse_line;
mod block_event;
mod by_id;
mod captured;
mod columns;
mod csv_row;
mod device_pick;
mod event_reader;
mod finishing;
mod fio_job;
mod fio_lines;
mod fio_reader;
mod flights;
mod laws;
mod line_fault;
mod line_reader;
mod lost_events;
mod names;
mod number;
mod options;
mod own_devices;
mod packed;
mod priority;
mod queues;
mod quotes;
mod requests;
mod row;
mod sizes;
mod sorted_reader;
mod spot;
mod table;
mod table_reader;
mod tenants;
mod tracepoint_line;
mod words;
