//! Writes the rows of a configuration: weights, links, adapters and devices.

ghost use Rattle.std.specs.Prelude.{◌≡◌, ◌≤◌, ◌∷◌, [], map, OnOk};
ghost use Rattle.std.specs.List.{AllByRecursion};
ghost use Rattle.cam_types.specs.declared.device.Device.{Device};
ghost use Rattle.record_text.specs.ConfigRows.{weight_row, link_row, adapter_row, device_row};
ghost use Rattle.record_text.specs.Writing.{IsBetween, Wrote};

use crate::row_writer::{write_one, write_row, write_two};
use cam_types::{Adapter, Device, WeightRow};
use csv::Writer;
use itoa::Buffer;
use std::alloc::AllocError;

/// Writes each row of the table of weights.
pub fn write_weights(writer: &mut Writer<Vec<u8>>, weights: &[WeightRow]) -> Result<(), AllocError>
    requires { IsBetween writer.old }
    ensures { OnOk result (Wrote writer.old writer.new (map weight_row weights.now)) }
{
    for row in weights {
        write_two(writer, b"weight", row.last, row.weight)?;
    }
    Ok(())
}

/// Writes a row for each link.
pub fn write_links(writer: &mut Writer<Vec<u8>>, links: &[u32]) -> Result<(), AllocError>
    requires { IsBetween writer.old }
    ensures { OnOk result (Wrote writer.old writer.new (map link_row links.now)) }
{
    for openings in links {
        write_one(writer, b"link", *openings)?;
    }
    Ok(())
}

/// Writes a row for each adapter.
pub fn write_adapters(writer: &mut Writer<Vec<u8>>, adapters: &[Adapter]) -> Result<(), AllocError>
    requires { IsBetween writer.old }
    ensures { OnOk result (Wrote writer.old writer.new (map adapter_row adapters.now)) }
{
    for adapter in adapters {
        write_adapter(writer, *adapter)?;
    }
    Ok(())
}

fn write_adapter(writer: &mut Writer<Vec<u8>>, adapter: Adapter) -> Result<(), AllocError>
    requires { IsBetween writer.old }
    ensures { OnOk result (Wrote writer.old writer.new (adapter_row adapter ∷ [])) }
{
    match adapter.link {
        None => write_one(writer, b"sim", adapter.openings),
        Some(link) => write_two(writer, b"sim", adapter.openings, link),
    }
}

/// Writes a row for each device.
pub fn write_devices(writer: &mut Writer<Vec<u8>>, devices: &[Device]) -> Result<(), AllocError>
    requires { IsBetween writer.old }
    ensures rows { OnOk result (Wrote writer.old writer.new (map device_row devices.now)) }
    ensures fits { OnOk result (AllByRecursion (λ (d : Device). d.target ≤ 65535) devices.now) }
{
    for device in devices {
        write_device(writer, *device)?;
    }
    Ok(())
}

fn write_device(writer: &mut Writer<Vec<u8>>, device: Device) -> Result<(), AllocError>
    requires { IsBetween writer.old }
    ensures rows { OnOk result (Wrote writer.old writer.new (device_row device ∷ [])) }
    ensures fits { device.target ≤ 65535 }
{
    let mut bus = Buffer::new();
    let mut target = Buffer::new();
    let mut lun = Buffer::new();
    let mut openings = Buffer::new();
    let bus = bus.format(device.bus).as_bytes();
    let target = target.format(device.target).as_bytes();
    let lun = lun.format(device.lun).as_bytes();
    let openings = openings.format(device.openings).as_bytes();
    write_row(writer, &[b"dev", bus, target, lun, openings, b"", b"", b""])
}
