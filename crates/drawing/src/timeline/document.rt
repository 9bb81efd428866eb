//! The document: a process for each device and adapter, with its requests, freezes and counters.

use crate::timeline::counters::put_counters;
use crate::timeline::freezes::put_freezes;
use crate::timeline::requests::put_requests;
use crate::timeline::writer::EventWriter;
use round_net::Net;
use std::alloc::{AllocError, Global};
use wait_causes::{Explanation, Grouping};
use wording::Captions;

/// The timeline as JSON in Chrome's trace-event format, without a line feed at its end, which viewers such as Perfetto and
/// `chrome://tracing` open. Each device is a process. Its rows are slots: a request stands in one from the beginning of the
/// round in which it arrived to the end of the one in which it was sent, and in it stand its waits, by cause, and its send.
/// Rows of their own have the freezes of devices and adapters, and counters how many waited at a device and how many of its
/// openings were used. A round has its length, or a millisecond if that isn't known. Of each request at most so many waits stand
/// there, and one slice more for what it waited after them.
pub fn timeline_json(
    alloc: Global,
    name: &str,
    net: &Net,
    explanation: &Explanation,
    max_waits: usize,
) -> Result<String, AllocError> {
    let mut writer = EventWriter::new(alloc, name, explanation.unit())?;
    put_processes(&mut writer, net, explanation)?;
    put_freezes(&mut writer, net, explanation)?;
    put_requests(&mut writer, net, explanation, max_waits)?;
    put_counters(&mut writer, net, explanation)?;
    writer.finish()
}

// Names the processes: devices come first.
fn put_processes(
    writer: &mut EventWriter,
    net: &Net,
    explanation: &Explanation,
) -> Result<(), AllocError> {
    let captions = Captions::of(net.config(), explanation);
    for device in 0..net.devices() {
        let caption = captions.label(writer.alloc, Grouping::Device, device)?;
        writer.process(device_process(device), &caption)?;
    }
    for adapter in 0..net.adapters() {
        let caption = captions.label(writer.alloc, Grouping::Adapter, adapter)?;
        writer.process(adapter_process(net, adapter), &caption)?;
    }
    Ok(())
}

/// The process of a device.
pub(crate) fn device_process(device: u32) -> u32 {
    device.saturating_add(1)
}

/// The process of an adapter.
pub(crate) fn adapter_process(net: &Net, adapter: u32) -> u32 {
    device_process(net.devices().saturating_add(adapter))
}
