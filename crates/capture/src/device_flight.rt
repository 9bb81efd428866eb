//! Attempts of requests in flight at devices.

use slots::Flight;

/// An attempt of a request that held a slot of a device, whether the request is one of the recording or not.
#[derive(Clone, Copy)]
pub struct DeviceFlight {
    /// The number of the device.
    pub device: u32,
    /// When it was started, and how it ended.
    pub flight: Flight,
}
