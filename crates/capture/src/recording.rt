//! The recording of requests in rounds.

ghost use Rattle.std.specs.Prelude.{◌≡◌, ◌≢◌, ◌<◌, ◌≤◌, ◌^◌, ◌++◌, ◌∷◌, None, Some, [], ℕ, true, All, IfOk, IfErr, OnOk, length};
ghost use Rattle.std.specs.List.{flat_map};
ghost use Rattle.cam_types.specs.Topology.{IsConfig};
ghost use Rattle.cam_types.specs.Lists.{prefixed, first_answer};
ghost use Rattle.recording_file.specs.Recorded.{is_done_right, request_cause};
ghost use Rattle.recording_file.specs.declared.limits.TheConstants.{MAX_REQUESTS};
ghost use Rattle.capture.specs.Captured.{has_completions, recorded_of, part_caps};
ghost use Rattle.capture.specs.Faults.{IsCapture, IsInRounds, starts_in, device_fault, name_fault, recording_fault, OutOfMemory};
ghost use Rattle.capture.specs.Loads.{AreDeviceRows};
ghost use Rattle.capture.specs.Parts.{all_parts};
ghost use Rattle.capture.specs.declared.capture_fault.TheConstants.{MAX_IN_ROUND};

use crate::cap_rows::cap_row;
use crate::capture_fault::CaptureFault;
use crate::device_rounds::{DeviceRows, device_rows};
use crate::parts::{all_parts, openings};
use crate::runs::add_runs;
use cam_types::Config;
use recording_file::{Name, Part, Recorder, Recording, Request, RequestError, Span};
use std::alloc::{AllocError, Global};

/// The recording of requests in rounds.
pub fn recording_with(
    alloc: Global,
    round: Span,
    rounds: u32,
    config: &Config,
    rated: &[bool],
    open: &[bool],
    spare: &[Vec<u32>],
    names: Vec<Name>,
    requests: &[Request],
) -> Result<Recording, CaptureFault>
    requires capture { IsCapture (record { unit = round; rounds = rounds; requests = requests.now }) }
    requires lanes { config.now.lanes ≡ [] }
    ensures recording { IfOk result (λ r. r ≡ recorded_of config.now rated.now open.now spare.now names.items (record { unit = round; rounds = rounds; requests = requests.now })) }
    ensures ok { OnOk result (recording_fault config.now names.items (record { unit = round; rounds = rounds; requests = requests.now }) ≡ None) }
    ensures err { IfErr result (λ e. e ≢ OutOfMemory → recording_fault config.now names.items (record { unit = round; rounds = rounds; requests = requests.now }) ≡ Some e) }
{
    check_devices(config, requests)?;
    let parts = all_parts(alloc, config)?;
    let rows = device_rows(alloc, rounds, config.devices().len() as u32, requests)?;
    let mut recorder = Recorder::new(
        alloc,
        Some(round),
        rounds,
        config.copy(alloc)?,
        has_completions(requests),
    );
    add_names(&mut recorder, names)?;
    add_caps(
        alloc,
        &mut recorder,
        config,
        rated,
        open,
        spare,
        requests,
        &rows,
        &parts,
    )?;
    add_requests(alloc, &mut recorder, config, rated, open, spare, requests)?;
    Ok(recorder.finish())
}

// The first request whose device isn't there, if there is one.
fn check_devices(config: &Config, requests: &[Request]) -> Result<(), CaptureFault>
    ensures ok { OnOk result (device_fault config.now requests.now ≡ None) }
    ensures err { IfErr result (λ e. device_fault config.now requests.now ≡ Some e) }
{
    for request in requests {
        if !config.names_device(request.device) {
            return Err(CaptureFault::NoDevice(request.device));
        }
    }
    Ok(())
}

// Adds the names to a recorder without names.
fn add_names(recorder: &mut Recorder, mut names: Vec<Name>) -> Result<(), CaptureFault>
    requires { recorder.old.names ≡ [] }
    ensures names { OnOk result (recorder.new ≡ record recorder.old { names = names.items }) }
    ensures ok { OnOk result (first_answer (name_fault recorder.old.config) (prefixed names.items) ≡ None) }
    ensures err { IfErr result (λ e. e ≢ OutOfMemory → first_answer (name_fault recorder.old.config) (prefixed names.items) ≡ Some e) }
{
    let mut number = 0;
    while !names.is_empty() {
        let name = names.remove(0);
        if !recorder.takes_name(&name) {
            return Err(CaptureFault::BadName(number));
        }
        recorder.add_name(name)?;
        number += 1;
    }
    Ok(())
}

// Adds the caps of these parts, which are all, to a recorder without caps and requests.
fn add_caps(
    alloc: Global,
    recorder: &mut Recorder,
    config: &Config,
    rated: &[bool],
    open: &[bool],
    spare: &[Vec<u32>],
    requests: &[Request],
    rows: &DeviceRows,
    parts: &[Part],
) -> Result<(), AllocError>
    requires within { All (IsInRounds recorder.old.rounds) requests.now }
    requires few { length requests.now < 2 ^ 32 }
    requires kept { IsConfig config.now }
    requires rows { AreDeviceRows requests.now (length config.now.devices) recorder.old.rounds rows.now }
    requires parts { parts.now ≡ all_parts config.now }
    requires crowds { (round : ℕ) → 1 ≤ round → round ≤ recorder.old.rounds → starts_in requests.now round ≤ MAX_IN_ROUND }
    requires config { recorder.old.config ≡ config.now }
    requires none { recorder.old.requests ≡ [] }
    requires empty { recorder.old.caps ≡ [] }
    ensures { OnOk result (recorder.new ≡ record recorder.old { caps = flat_map (part_caps config.now rated.now open.now spare.now requests.now recorder.old.rounds) (all_parts config.now) }) }
{
    for part in parts {
        let row = cap_row(
            alloc,
            recorder.rounds(),
            config,
            rated,
            open,
            spare,
            requests,
            rows,
            *part,
        )?;
        add_runs(recorder, *part, &row, openings(config, *part))?;
    }
    Ok(())
}

// Adds the requests to a recorder with these caps and without requests.
fn add_requests(
    alloc: Global,
    recorder: &mut Recorder,
    config: &Config,
    rated: &[bool],
    open: &[bool],
    spare: &[Vec<u32>],
    requests: &[Request],
) -> Result<(), AllocError>
    requires within { All (IsInRounds recorder.old.rounds) requests.now }
    requires few { length requests.now ≤ MAX_REQUESTS }
    requires kept { IsConfig config.now }
    requires crowds { (round : ℕ) → 1 ≤ round → round ≤ recorder.old.rounds → starts_in requests.now round ≤ MAX_IN_ROUND }
    requires devices { device_fault config.now requests.now ≡ None }
    requires completions { recorder.old.completions ≡ has_completions requests.now }
    requires config { recorder.old.config ≡ config.now }
    requires none { recorder.old.requests ≡ [] }
    requires caps { recorder.old.caps ≡ flat_map (part_caps config.now rated.now open.now spare.now requests.now recorder.old.rounds) (all_parts config.now) }
    ensures { OnOk result (recorder.new ≡ record recorder.old { requests = requests.now }) }
{
    for request in requests {
        add_request(alloc, recorder, *request)?;
    }
    Ok(())
}

// Adds a request that no cause speaks against.
fn add_request(alloc: Global, recorder: &mut Recorder, request: Request) -> Result<(), AllocError>
    requires few { length recorder.old.requests < MAX_REQUESTS }
    requires done { is_done_right recorder.old.completions request ≡ true }
    requires fits { request_cause recorder.old.rounds recorder.old.config recorder.old.caps (recorder.old.requests, request) ≡ None }
    ensures { OnOk result (recorder.new ≡ record recorder.old { requests = recorder.old.requests ++ request ∷ [] }) }
{
    match recorder.add_request(alloc, request) {
        Ok(()) => Ok(()),
        Err(RequestError::OutOfMemory) => Err(AllocError),
        Err(RequestError::Illegal(_)) => unreachable!(),
    }
}

// Whether a completion is known.
fn has_completions(requests: &[Request]) -> bool
    ensures { result ≡ has_completions requests.now }
{
    requests.iter().any(|request| request.done.is_some())
}
