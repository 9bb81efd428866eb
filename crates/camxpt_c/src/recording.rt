//! A recording of what C hands in. There is no transport in it.

ghost use Rattle.std.specs.Prelude.{ℕ, List, ◌≡◌, ◌≢◌, ◌≤◌, [], None, Some, length, OnOk, IfOk, IfErr};
ghost use Rattle.cam_types.specs.Topology.{config_fault};
ghost use Rattle.recording_file.specs.declared.limits.TheConstants.{MAX_RECORDED_ROUNDS, MAX_REQUESTS};
ghost use Rattle.recording_file.specs.Recordings.{IsRecordingText};
ghost use Rattle.recording_file.specs.Writing.{recording_text};
ghost use Rattle.camxpt_c.specs.Configs.{linked_topology};
ghost use Rattle.camxpt_c.specs.Recordings.{IsRecordingOf, IsReported, recorded_of, record_fault, item_fault, rule_fault, size_fault, Call, OutOfMemory};
ghost use Rattle.camxpt_c.specs.declared.codes.TheConstants.{E_MEMORY};

use crate::codes::{E_MEMORY, E_REQUESTS, E_ROUNDS, E_UNIT};
use crate::opening::linked_config;
use crate::record_fault::RecordFault;
use crate::record_shapes::{CamxptCap, CamxptRequest, CamxptSpan, SECONDS, any_done, span_of};
use crate::recording_items::{add_caps, add_requests};
use crate::shapes::{CamxptAdapter, CamxptDevice, CamxptWeight};
use crate::tracing::copy_text;
use cam_types::Config;
use recording_file::{MAX_RECORDED_ROUNDS, MAX_REQUESTS, Recorder, Recording, recording_bytes};
use std::alloc::Global;

/// Writes the recording of these caps and requests to the start of the buffer, and gives its length. If the buffer is too
/// small, it is left as it is. If a cap or a request can't be one of the recording, its number is given. The recording says
/// when requests were completed if one of them does.
#[unsafe(no_mangle)]
pub extern "C" fn camxpt_raw_recording(
    alloc: Global,
    weights: &[CamxptWeight],
    links: &[u32],
    adapters: &[CamxptAdapter],
    devices: &[CamxptDevice],
    span: &CamxptSpan,
    rounds: u32,
    caps: &[CamxptCap],
    requests: &[CamxptRequest],
    buffer: &mut [u8],
    needed: &mut usize,
    wrong: &mut usize,
) -> i32
    ensures { IsRecordingOf
        (record { config = linked_topology weights.now links.now adapters.now devices.now []; span = span.now; rounds = rounds; caps = caps.now; requests = requests.now })
        (record { buffer = buffer.old; needed = needed.old; wrong = wrong.old })
        (record { buffer = buffer.new; needed = needed.new; wrong = wrong.new })
        result }
{
    let text = text_of(
        alloc, weights, links, adapters, devices, *span, rounds, caps, requests,
    );
    match text {
        Ok(text) => {
            *needed = text.len();
            copy_text(&text, buffer)
        }
        Err(fault) => tell(fault, wrong),
    }
}

// Answers the code of what is wrong, and gives the number of a cap or a request.
fn tell(fault: RecordFault, wrong: &mut usize) -> i32
    ensures { (buffer : List ℕ) (needed : ℕ) → IsReported (record { buffer = buffer; needed = needed; wrong = wrong.old }) (record { buffer = buffer; needed = needed; wrong = wrong.new }) result fault }
{
    match fault {
        RecordFault::Call(code) => code,
        RecordFault::Item(code, number) => {
            *wrong = number;
            code
        }
        RecordFault::OutOfMemory => E_MEMORY,
    }
}

// The text of the recording of these lists, or what is wrong with them first.
#[tactic(auto, unfolding(crate::specs::Recordings::record_fault))]
fn text_of(
    alloc: Global,
    weights: &[CamxptWeight],
    links: &[u32],
    adapters: &[CamxptAdapter],
    devices: &[CamxptDevice],
    span: CamxptSpan,
    rounds: u32,
    caps: &[CamxptCap],
    requests: &[CamxptRequest],
) -> Result<Vec<u8>, RecordFault>
    ensures text { IfOk result (λ text. text.items ≡ recording_text (recorded_of (record { config = linked_topology weights.now links.now adapters.now devices.now []; span = span; rounds = rounds; caps = caps.now; requests = requests.now }))) }
    ensures read { OnOk result (IsRecordingText (recording_text (recorded_of (record { config = linked_topology weights.now links.now adapters.now devices.now []; span = span; rounds = rounds; caps = caps.now; requests = requests.now }))) (recorded_of (record { config = linked_topology weights.now links.now adapters.now devices.now []; span = span; rounds = rounds; caps = caps.now; requests = requests.now }))) }
    ensures ok { OnOk result (record_fault (record { config = linked_topology weights.now links.now adapters.now devices.now []; span = span; rounds = rounds; caps = caps.now; requests = requests.now }) ≡ None) }
    ensures err { IfErr result (λ e. e ≢ OutOfMemory → record_fault (record { config = linked_topology weights.now links.now adapters.now devices.now []; span = span; rounds = rounds; caps = caps.now; requests = requests.now }) ≡ Some e) }
{
    check_sizes(span, rounds, requests.len())?;
    let config = config_of(alloc, weights, links, adapters, devices)?;
    let recording = recording_of(alloc, span, rounds, config, caps, requests)?;
    match recording_bytes(alloc, &recording) {
        Ok(text) => Ok(text),
        Err(_) => Err(RecordFault::OutOfMemory),
    }
}

// What is wrong with the unit, the rounds or the number of requests.
#[tactic(auto, unfolding(crate::specs::Recordings::size_fault))]
fn check_sizes(span: CamxptSpan, rounds: u32, requests: usize) -> Result<(), RecordFault>
    ensures ok { OnOk result (size_fault span rounds requests ≡ None) }
    ensures some { OnOk result (1 ≤ rounds) }
    ensures few { OnOk result (rounds ≤ MAX_RECORDED_ROUNDS) }
    ensures many { OnOk result (requests ≤ MAX_REQUESTS) }
    ensures err { IfErr result (λ e. size_fault span rounds requests ≡ Some e) }
{
    if span.unit > SECONDS {
        return Err(RecordFault::Call(E_UNIT));
    }
    if rounds == 0 || rounds > MAX_RECORDED_ROUNDS {
        return Err(RecordFault::Call(E_ROUNDS));
    }
    if requests > MAX_REQUESTS {
        return Err(RecordFault::Call(E_REQUESTS));
    }
    Ok(())
}

// The configuration, without lanes.
fn config_of(
    alloc: Global,
    weights: &[CamxptWeight],
    links: &[u32],
    adapters: &[CamxptAdapter],
    devices: &[CamxptDevice],
) -> Result<Config, RecordFault>
    ensures same { IfOk result (λ c. c ≡ linked_topology weights.now links.now adapters.now devices.now []) }
    ensures ok { OnOk result (config_fault (linked_topology weights.now links.now adapters.now devices.now []) ≡ None) }
    ensures err { IfErr result (λ e. e ≢ OutOfMemory → rule_fault (config_fault (linked_topology weights.now links.now adapters.now devices.now [])) ≡ Some e) }
{
    match linked_config(alloc, weights, links, adapters, devices, &[]) {
        Ok(config) => Ok(config),
        Err(code) => Err(broken(code)),
    }
}

// A rule that is broken by its code, unless it is that of want of memory.
fn broken(code: i32) -> RecordFault
    ensures memory { code ≡ E_MEMORY → result ≡ OutOfMemory }
    ensures rule { result ≢ OutOfMemory → result ≡ Call code }
{
    if code == E_MEMORY {
        RecordFault::OutOfMemory
    } else {
        RecordFault::Call(code)
    }
}

// The recording of a configuration without lanes, of as many rounds and requests as may be.
#[tactic(auto, unfolding(crate::specs::Recordings::item_fault))]
fn recording_of(
    alloc: Global,
    span: CamxptSpan,
    rounds: u32,
    config: Config,
    caps: &[CamxptCap],
    requests: &[CamxptRequest],
) -> Result<Recording, RecordFault>
    requires some { 1 ≤ rounds }
    requires few { rounds ≤ MAX_RECORDED_ROUNDS }
    requires many { length requests.now ≤ MAX_REQUESTS }
    requires kept { config_fault config ≡ None }
    requires lanes { config.lanes ≡ [] }
    ensures same { IfOk result (λ r. r ≡ recorded_of (record { config = config; span = span; rounds = rounds; caps = caps.now; requests = requests.now })) }
    ensures ok { OnOk result (item_fault (record { config = config; span = span; rounds = rounds; caps = caps.now; requests = requests.now }) ≡ None) }
    ensures err { IfErr result (λ e. e ≢ OutOfMemory → item_fault (record { config = config; span = span; rounds = rounds; caps = caps.now; requests = requests.now }) ≡ Some e) }
{
    let mut recorder = Recorder::new(alloc, span_of(span), rounds, config, any_done(requests));
    add_caps(&mut recorder, caps)?;
    add_requests(alloc, &mut recorder, requests)?;
    Ok(recorder.finish())
}
