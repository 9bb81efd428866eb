//! The lists of a configuration, as C hands them in.

ghost use Rattle.std.specs.Prelude.{◌≡◌, map, IfOk};
ghost use Rattle.camxpt_c.specs.Configs.{device_of, adapter_of, weight_of};

use crate::shapes::{CamxptAdapter, CamxptDevice, CamxptWeight};
use cam_types::{Adapter, Device, WeightRow};
use std::alloc::{AllocError, Global};

/// The link of an adapter that is on none.
pub const NO_LINK: u32 = 0xffff_ffff;

pub(crate) fn devices_of(alloc: Global, shapes: &[CamxptDevice]) -> Result<Vec<Device>, AllocError>
    ensures { IfOk result (λ made. made.items ≡ map device_of shapes.now) }
{
    let mut made = Vec::new(alloc);
    for shape in shapes {
        made.push(device_of(*shape))?;
    }
    Ok(made)
}

fn device_of(shape: CamxptDevice) -> Device
    ensures { result ≡ device_of shape }
{
    Device {
        bus: shape.bus,
        target: shape.target,
        lun: shape.lun,
        openings: shape.openings,
    }
}

pub(crate) fn adapters_of(
    alloc: Global,
    shapes: &[CamxptAdapter],
) -> Result<Vec<Adapter>, AllocError>
    ensures { IfOk result (λ made. made.items ≡ map adapter_of shapes.now) }
{
    let mut made = Vec::new(alloc);
    for shape in shapes {
        made.push(adapter_of(*shape))?;
    }
    Ok(made)
}

fn adapter_of(shape: CamxptAdapter) -> Adapter
    ensures { result ≡ adapter_of shape }
{
    let link = if shape.link == NO_LINK {
        None
    } else {
        Some(shape.link)
    };
    Adapter {
        openings: shape.openings,
        link,
    }
}

pub(crate) fn weights_of(
    alloc: Global,
    shapes: &[CamxptWeight],
) -> Result<Vec<WeightRow>, AllocError>
    ensures { IfOk result (λ made. made.items ≡ map weight_of shapes.now) }
{
    let mut made = Vec::new(alloc);
    for shape in shapes {
        made.push(weight_of(*shape))?;
    }
    Ok(made)
}

fn weight_of(shape: CamxptWeight) -> WeightRow
    ensures { result ≡ weight_of shape }
{
    WeightRow {
        last: shape.last,
        weight: shape.weight,
    }
}
