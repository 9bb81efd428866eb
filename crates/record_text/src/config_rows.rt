//! Parses the rows of a configuration: weights, links, adapters and devices.

ghost use Rattle.std.specs.Prelude.{◌≡◌, length};
ghost use Rattle.csv.specs.Records.{fields_of};
ghost use Rattle.record_text.specs.ConfigRows.{one_number, two_numbers, weight_at, adapter_at, device_at};

use crate::device_row::DeviceRow;
use crate::fields::{number_at, optional_at, unused_from};
use cam_types::{Adapter, WeightRow};
use csv::ByteRecord;

/// The one number of a row of eight fields, or the number of the first field that hasn't its form.
#[tactic(auto, unfolding(crate::specs::ConfigRows::one_number))]
pub fn one_number(row: &ByteRecord) -> Result<u32, u32>
    requires { length (fields_of row.now) ≡ 8 }
    ensures { result ≡ one_number (fields_of row.now) }
{
    let number = number_at(row, 1, u32::MAX)?;
    unused_from(row, 2)?;
    Ok(number)
}

/// The two numbers of a row of eight fields, or the number of the first field that hasn't its form.
#[tactic(auto, unfolding(crate::specs::ConfigRows::two_numbers))]
pub fn two_numbers(row: &ByteRecord) -> Result<(u32, u32), u32>
    requires { length (fields_of row.now) ≡ 8 }
    ensures { result ≡ two_numbers (fields_of row.now) }
{
    let first = number_at(row, 1, u32::MAX)?;
    let second = number_at(row, 2, u32::MAX)?;
    unused_from(row, 3)?;
    Ok((first, second))
}

/// The last priority and the weight of a row of the table of weights, or the number of the first field that hasn't its form.
#[tactic(auto, unfolding(crate::specs::ConfigRows::weight_at))]
pub fn weight_at(row: &ByteRecord) -> Result<WeightRow, u32>
    requires { length (fields_of row.now) ≡ 8 }
    ensures { result ≡ weight_at (fields_of row.now) }
{
    let (last, weight) = two_numbers(row)?;
    Ok(WeightRow { last, weight })
}

/// The openings of an adapter and the link that it is on, or the number of the first field that hasn't its form.
#[tactic(auto, unfolding(crate::specs::ConfigRows::adapter_at))]
pub fn adapter_at(row: &ByteRecord) -> Result<Adapter, u32>
    requires { length (fields_of row.now) ≡ 8 }
    ensures { result ≡ adapter_at (fields_of row.now) }
{
    let openings = number_at(row, 1, u32::MAX)?;
    let link = optional_at(row, 2, u32::MAX)?;
    unused_from(row, 3)?;
    Ok(Adapter { openings, link })
}

/// The path of a device and its openings, or the number of the first field that hasn't its form.
#[tactic(auto, unfolding(crate::specs::ConfigRows::device_at))]
pub fn device_at(row: &ByteRecord) -> Result<DeviceRow, u32>
    requires { length (fields_of row.now) ≡ 8 }
    ensures { result ≡ device_at (fields_of row.now) }
{
    let bus = number_at(row, 1, u32::MAX)?;
    let target = number_at(row, 2, 65535)? as u16;
    let lun = number_at(row, 3, 16383)? as u16;
    let openings = number_at(row, 4, u32::MAX)?;
    unused_from(row, 5)?;
    Ok(DeviceRow {
        bus,
        target,
        lun,
        openings,
    })
}
