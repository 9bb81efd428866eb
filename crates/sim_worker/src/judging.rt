//! Whether a run on many threads is one of its script.

ghost use Rattle.std.specs.Prelude.{◌≡◌, ℕ, IfOk, IfErr, IfSome, IfNone, Some, List, map, get_or, slice_get, true, false, []};
ghost use Rattle.xpt_lock.specs.Receipts.{naming};
ghost use Rattle.sim_worker.specs.Faults.{AreOfScript, IsNaming, IsNoRun, OutOfMemory};
ghost use Rattle.sim_worker.specs.Endings.{Ending};
ghost use Rattle.std.specs.List.{list_all};
ghost use Rattle.sim_worker.specs.Words.{IsPast, due_of, AreInterleaved, Held, Event, Scenario};
ghost use Rattle.xpt_lock.specs.declared.seat.SeatName.TheVariants as seats;
ghost use Rattle.sim_worker.specs.LiveRuns.{EachDriver, EachLog, IsLiveRun, IsLog, is_full, rows};
ghost use Rattle.sim_worker.specs.Logs.{IsDriverLog, is_decision, is_opening};

use crate::ending::Ending;
use crate::fault::LiveFault;
use crate::lanes::is_lane_log;
use crate::log::SeatLog;
use crate::names::{actors, are_named};
use crate::port::Port;
use crate::run_replay::follow;
use crate::served::Served;
use cam_event::History;
use cam_types::Config;
use event_rules::Event;
use std::alloc::{AllocError, Global};
use trace_file::Script;
use xpt_lock::{Receipt, SeatName};

/// How the run ended whose history, logs and ports these are, if it is one of the script.
///
/// Otherwise the fault has the receipt of the first event that the script doesn't allow there. It has that of the last event if
/// the script allows them all but no ending fits, or if something else than an event differs: the configuration, the actors,
/// or what a lane, recovery or the keeper did. A run of the script has no fault but `OutOfMemory`.
pub fn judge<P: Port>(
    alloc: Global,
    script: &Script,
    history: &History,
    logs: &[SeatLog],
    ports: &[P],
) -> Result<Ending, LiveFault>
    requires legal { IsPast history.now }
    requires together { AreInterleaved (due_of history.now) logs.now }
    ensures run { IfOk result (λ ending. IsLiveRun script.now history.now logs.now (map (λ p. P.list p) ports.now) ending) }
    ensures fault { IfErr result (λ fault. IsNoRun script.now history.now logs.now (map (λ p. P.list p) ports.now) fault) }
    ensures right { IfErr result (λ fault. (stated : Ending) → IsLiveRun script.now history.now logs.now (map (λ p. P.list p) ports.now) stated → fault ≡ OutOfMemory) }
{
    let events = history.events();
    let last = events.len().saturating_sub(1);
    if !are_of_script(alloc, script, history, logs)? {
        return Err(mismatch(logs, last));
    }
    let stated = match follow(alloc, script, events, logs)? {
        Ok(ending) => ending,
        Err(place) => return Err(mismatch(logs, place)),
    };
    if !are_as_served(logs, ports, is_full(stated)) {
        return Err(mismatch(logs, last));
    }
    Ok(stated)
}

fn is_full(stated: Ending) -> bool
    ensures { result ≡ is_full stated }
{
    matches!(stated, Ending::HistoryFull)
}

// The fault at this place: the receipt that names it. There is one, unless nothing happened at all.
fn mismatch(logs: &[SeatLog], place: usize) -> LiveFault
    ensures { IsNaming logs.now place result }
{
    for log in logs {
        if let Some(receipt) = receipt_at(&log.receipts, place) {
            return LiveFault::Mismatch(receipt);
        }
    }
    LiveFault::Unnamed(0)
}

// The receipt that names the place.
fn receipt_at(receipts: &[Receipt], place: usize) -> Option<Receipt>
    ensures some { IfSome result (λ r. (r.at ≡ place) × (j : ℕ) × (slice_get receipts.now j ≡ Some r)) }
    ensures none { IfNone result (naming place receipts.now ≡ 0) }
{
    for receipt in receipts {
        if receipt.at as usize == place {
            return Some(*receipt);
        }
    }
    None
}

// Whether the history is of the script's configuration, and the logs are its actors'.
fn are_of_script(
    alloc: Global,
    script: &Script,
    history: &History,
    logs: &[SeatLog],
) -> Result<bool, AllocError>
    ensures yes { IfOk result (λ same. same ≡ true → AreOfScript script.now history.now logs.now) }
    ensures no { IfOk result (λ same. same ≡ false → ¬ AreOfScript script.now history.now logs.now) }
{
    let names = actors(alloc, script)?;
    Ok(is_config(script.config(), history.config()) && are_named(&names, logs))
}

// Whether the two configurations are the same.
fn is_config(one: &Config, other: &Config) -> bool
    ensures yes { result ≡ true → other.now ≡ one.now }
    ensures no { result ≡ false → other.now ≡ one.now → ⊥ }
{
    if one.weights() != other.weights() {
        return false;
    }
    if one.links() != other.links() {
        return false;
    }
    if one.adapters() != other.adapters() {
        return false;
    }
    if one.devices() != other.devices() {
        return false;
    }
    one.lanes() == other.lanes()
}

// Whether each log but a driver's is what its actor may do: what its port served, decisions, or ticks.
fn are_as_served<P: Port>(logs: &[SeatLog], ports: &[P], full: bool) -> bool
    ensures yes { result ≡ true → (s : Scenario) (events : List Event) → EachDriver (λ d h. IsDriverLog s (rows s d) h.receipts events) logs.now →
        EachLog (λ h. IsLog s events (map (λ p. P.list p) ports.now) full h.name h) logs.now }
    ensures no { result ≡ false → (s : Scenario) (events : List Event) → ¬ EachLog (λ h. IsLog s events (map (λ p. P.list p) ports.now) full h.name h) logs.now }
{
    for log in logs {
        if !is_as_served(log, ports, full) {
            return false;
        }
    }
    true
}

fn is_as_served<P: Port>(log: &SeatLog, ports: &[P], full: bool) -> bool
    ensures yes { result ≡ true → (s : Scenario) (events : List Event) → ((d : ℕ) → log.now.name ≡ seats.Driver d → IsDriverLog s (rows s d) log.now.receipts events) →
        IsLog s events (map (λ p. P.list p) ports.now) full log.now.name log.now }
    ensures no { result ≡ false → (s : Scenario) (events : List Event) → ¬ IsLog s events (map (λ p. P.list p) ports.now) full log.now.name log.now }
{
    match log.name {
        SeatName::Driver(_) => true,
        SeatName::Lane(lane) => is_lane_log(lane, full, &log.receipts, served_by(ports, lane)),
        SeatName::Recovery => are_decisions(&log.receipts),
        SeatName::Keeper => are_ticks(&log.receipts),
    }
}

// What the lane's port served.
fn served_by<P: Port>(ports: &[P], lane: u32) -> &[Served]
    ensures { result.now ≡ get_or (map (λ p. P.list p) ports.now) lane [] }
{
    match ports.get(lane as usize) {
        Some(port) => port.served(),
        None => &[],
    }
}

fn are_decisions(receipts: &[Receipt]) -> bool
    ensures { result ≡ list_all is_decision receipts.now }
{
    for receipt in receipts {
        if !is_decision(receipt) {
            return false;
        }
    }
    true
}

fn are_ticks(receipts: &[Receipt]) -> bool
    ensures { result ≡ list_all is_opening receipts.now }
{
    for receipt in receipts {
        if !receipt.event.is_tick() {
            return false;
        }
    }
    true
}

fn is_decision(receipt: &Receipt) -> bool
    ensures { result ≡ is_decision receipt.now }
{
    matches!(receipt.event, Event::Requeue { .. } | Event::Finish { .. })
}
