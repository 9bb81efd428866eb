//! The requests of a window, numbered anew.

ghost use Rattle.std.specs.Prelude.{◌≡◌, All, Some, map, IfOk};
ghost use Rattle.window_recordings.specs.Recordings.{AreParts, retried_before, taken_before, unnumbered};

use crate::cut_fault::CutFault;
use crate::names::Names;
use crate::numbers::Numbers;
use capture::TimedRequest;
use std::alloc::{AllocError, Global};

// The most devices that a recording has.
const MAX_DEVICES: usize = 32;

/// The requests of a window. Their devices and drivers are places in the two lists, in which each stands where its first request is.
#[derive(Drop)]
pub(crate) struct WindowParts {
    /// In the order given, and behind them those that wait.
    pub requests: Vec<TimedRequest>,
    /// The names of the devices.
    pub devices: Vec<String>,
    /// The places of the devices among all that have names.
    pub places: Vec<u32>,
    /// The names of the drivers.
    pub drivers: Vec<String>,
}

impl WindowParts {
    /// Those of these requests, whose devices and drivers are places in the lists of names. One that was put back at the end of what is
    /// taken, or after it, has no later attempt. Of those that wait when the window ends, each as if it were started then, the first one
    /// of each device that has requests is added: it shows that the device was waited for.
    pub(crate) fn of(
        alloc: Global,
        names: Names<'_>,
        end: Option<u64>,
        requests: &[TimedRequest],
        waiting: &[TimedRequest],
        until: u64,
    ) -> Result<WindowParts, CutFault>
        ensures { IfOk result (λ parts. AreParts end until requests.now parts.requests.items) }
    {
        let mut devices = Numbers::new(alloc, names.devices.len())?;
        let mut drivers = Numbers::new(alloc, names.drivers.len())?;
        let mut parts = numbered(alloc, end, requests, &mut devices, &mut drivers)?;
        if devices.places().len() > MAX_DEVICES {
            return Err(CutFault::TooManyDevices(devices.places().len()));
        }
        let waiting = first_waiting(alloc, &devices, waiting, until)?;
        parts.extend_from_slice(&waiting)?;
        Ok(WindowParts {
            requests: parts,
            devices: devices.names(names.devices)?,
            drivers: drivers.names(names.drivers)?,
            places: devices.into_places(),
        })
    }
}

// The requests, with numbers of their own for devices and drivers.
fn numbered(
    alloc: Global,
    end: Option<u64>,
    requests: &[TimedRequest],
    devices: &mut Numbers,
    drivers: &mut Numbers,
) -> Result<Vec<TimedRequest>, AllocError>
    ensures { IfOk result (λ made. map unnumbered made.items ≡ map unnumbered (map (taken_before end) requests.now)) }
{
    let mut made = Vec::with_capacity(alloc, requests.len())?;
    for request in requests {
        let device = devices.number(request.device)?;
        let driver = drivers.number(u32::from(request.driver))?;
        made.push(TimedRequest {
            device,
            driver: u8::try_from(driver).unwrap_or(u8::MAX),
            retried: retried_before(end, request.retried),
            ..*request
        })?;
    }
    Ok(made)
}

// A request's next attempt, if it arrives before the end of what is taken.
fn retried_before(end: Option<u64>, retried: Option<u64>) -> Option<u64>
    ensures { result ≡ retried_before end retried }
{
    match (end, retried) {
        (Some(end), Some(time)) if time >= end => None,
        _ => retried,
    }
}

// Of those that wait at a time, each as if it were started then, the first one of each device that has a number.
fn first_waiting(
    alloc: Global,
    devices: &Numbers,
    waiting: &[TimedRequest],
    until: u64,
) -> Result<Vec<TimedRequest>, AllocError>
    ensures { IfOk result (λ added. All (λ q. q.started ≡ Some until) added.items) }
{
    let mut first: Vec<Option<TimedRequest>> = vec![in alloc; None; devices.places().len()]?;
    for request in waiting {
        if let Some(device) = devices.known(request.device)
            && let Some(first) = first.get_mut(device as usize)
            && first.is_none_or(|first| request.arrival < first.arrival)
        {
            *first = Some(TimedRequest {
                device,
                driver: 0,
                ..*request
            });
        }
    }
    let mut added = Vec::new(alloc);
    for request in &first {
        if let Some(request) = request {
            added.push(TimedRequest {
                started: Some(until),
                ..*request
            })?;
        }
    }
    Ok(added)
}
