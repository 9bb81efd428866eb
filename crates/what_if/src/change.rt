//! Changes: more openings for a device, an adapter or a link.

ghost use Rattle.std.specs.Prelude.{◌≡◌, ◌+◌, ◌≤◌};
ghost use Rattle.cam_types.specs.Questions.{device_openings};
ghost use Rattle.round_net.specs.declared.limits.TheConstants.{MAX_CAP};
ghost use Rattle.round_net.specs.Rows.{instance_of_rows};
ghost use Rattle.what_if.specs.Changes.{widened, HasNumber, IsResourceOf, row_of, openings_of};

use cam_types::Config;
use round_net::{MAX_CAP, Net};

/// How many more openings a device, an adapter or a link has in each round. A number is from 1 to `MAX_CAP`, and no more
/// than `MAX_CAP` openings come of it.
#[derive(Clone, Copy)]
pub enum Widening {
    /// So many more, but none where it took nothing.
    More(u32),
    /// So many times as many.
    Times(u32),
    /// At least so many, but none where it took nothing.
    AtLeast(u32),
    /// Its openings by the configuration where it took nothing.
    NeverStopped,
}

/// A device, an adapter or a link, by its number.
#[derive(Clone, Copy)]
pub enum Resource {
    /// The device of that number.
    Device(u32),
    /// The adapter of that number.
    Adapter(u32),
    /// The link of that number.
    Link(u32),
}

/// More openings for a device, an adapter or a link.
#[derive(Clone, Copy)]
pub struct Change {
    /// What has them.
    pub resource: Resource,
    /// How many more they are.
    pub widening: Widening,
}

impl Widening {
    /// What a resource takes in a round, where it took `most` and has these openings by the configuration.
    pub(crate) fn widened(self, openings: u32, most: u32) -> u32
        requires number { HasNumber self }
        requires most { most ≤ MAX_CAP }
        ensures { result ≡ widened self openings most }
    {
        match self {
            Widening::More(number) => if most == 0 {
                0
            } else {
                (most + number).min(MAX_CAP)
            },
            Widening::Times(number) => (most * number).min(MAX_CAP),
            Widening::AtLeast(number) => if most == 0 { 0 } else { most.max(number) },
            Widening::NeverStopped => if most == 0 { openings } else { most },
        }
    }
}

impl Resource {
    /// Its row.
    pub(crate) fn row(self, net: &Net) -> u32
        requires { IsResourceOf (instance_of_rows net.now) self }
        ensures { result ≡ row_of (instance_of_rows net.now) self }
    {
        match self {
            Resource::Device(device) => device,
            Resource::Adapter(adapter) => net.adapter_resource(adapter),
            Resource::Link(link) => net.link_resource(link),
        }
    }

    /// Its openings by the configuration.
    pub(crate) fn openings(self, config: &Config) -> u32
        ensures { result ≡ openings_of config.now self }
    {
        match self {
            Resource::Device(device) => device_openings(config, device),
            Resource::Adapter(adapter) => config.adapter_openings(adapter),
            Resource::Link(link) => config.link_openings(link),
        }
    }
}

// The openings of a device, and 0 if there is none of that number.
fn device_openings(config: &Config, device: u32) -> u32
    ensures { result ≡ device_openings config.now device }
{
    match config.devices().get(device as usize) {
        Some(device) => device.openings,
        None => 0,
    }
}
