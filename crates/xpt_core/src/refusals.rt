//! Why an event is refused: for each kind the first of its causes that holds.

ghost use Rattle.std.specs.Prelude.{◌≡◌, ◌<◌, true, nat_le, [], ◌∷◌, length, IsTrue};
ghost use Rattle.xpt_core.specs.Words.{HistoryFull, is_recovering, wants_requeue, wants_finish, refusal, first_cause, causes, submit_causes, turn_causes, send_causes, done_causes, requeue_causes, finish_causes, freeze_dev_causes, release_dev_causes, freeze_sim_causes, release_sim_causes, adjust_causes, tick_causes, device_of, are_ccbs_full, are_stays_full, have_openings, is_other_next, names_ccb, is_legal};

use crate::state::State;
use cam_types::{MAX_FREEZES, MAX_PRIORITY, MAX_RETRIES, Outcome, are_openings};
use event_rules::{Event, Refusal, is_count};

/// Why the event is refused after those of the state.
#[tactic(auto, unfolding(event_rules::specs::Refusals::refusal))]
pub(crate) fn refusal(state: &State, event: &Event) -> Option<Refusal>
    requires legal { IsTrue (is_legal state.now.rules state.now.config state.now.events) }
    ensures { result ≡ refusal state.now.rules state.now.config state.now.events event.now }
{
    match full_refusal(state) {
        Some(full) => Some(full),
        None => cause(state, event),
    }
}

/// That there are as many events as there may be.
pub(crate) fn full_refusal(state: &State) -> Option<Refusal>
    ensures { result ≡ first_cause ((nat_le state.now.rules.events (length state.now.events), HistoryFull (length state.now.events)) ∷ []) }
{
    let length = state.devices().events().len() as u32;
    if state.devices().rules().events() <= length {
        Some(Refusal::HistoryFull(length))
    } else {
        None
    }
}

// Why the event is refused where there may be one more.
fn cause(state: &State, event: &Event) -> Option<Refusal>
    requires legal { IsTrue (is_legal state.now.rules state.now.config state.now.events) }
    ensures { result ≡ first_cause (causes state.now.rules state.now.config state.now.events event.now) }
{
    match *event {
        Event::Submit {
            device,
            priority,
            retries,
            ..
        } => submit_refusal(state, device, priority, retries),
        Event::Send { lane, ccb } => send_refusal(state, lane, ccb),
        Event::Done { ccb, outcome } => done_refusal(state, ccb, &outcome),
        Event::Requeue { ccb } => requeue_refusal(state, ccb),
        Event::Finish { ccb } => finish_refusal(state, ccb),
        Event::FreezeDev { device, count } => freeze_dev_refusal(state, device, count),
        Event::ReleaseDev { device, count } => release_dev_refusal(state, device, count),
        Event::FreezeSim { sim, count } => freeze_sim_refusal(state, sim, count),
        Event::ReleaseSim { sim } => release_sim_refusal(state, sim),
        Event::Adjust { device, openings } => adjust_refusal(state, device, openings),
        Event::Tick => tick_refusal(state),
    }
}

fn submit_refusal(state: &State, device: u32, priority: u32, retries: u32) -> Option<Refusal>
    ensures { result ≡ first_cause (submit_causes state.now.rules state.now.config state.now.events device priority retries) }
{
    if !state.config().names_device(device) {
        Some(Refusal::NoDevice)
    } else if priority > MAX_PRIORITY {
        Some(Refusal::BadPriority)
    } else if retries > MAX_RETRIES {
        Some(Refusal::BadRetries)
    } else if are_ccbs_full(state) {
        Some(Refusal::CcbFull)
    } else if are_stays_full(state) {
        Some(Refusal::StaysFull)
    } else {
        None
    }
}

fn send_refusal(state: &State, lane: u32, ccb: u32) -> Option<Refusal>
    ensures { result ≡ first_cause (send_causes state.now.config state.now.events lane ccb) }
{
    if !state.config().names_lane(lane) {
        Some(Refusal::NoLane)
    } else if !names_ccb(state, ccb) {
        Some(Refusal::NoCcb)
    } else if !state.has_queued(ccb) {
        Some(Refusal::NotQueued)
    } else {
        let device = device_of(state, ccb);
        let adapter = state.lane_adapter(lane);
        turn_refusal(state, device, adapter, ccb)
    }
}

// Why the CCB of this device isn't sent by a lane of this adapter: it may not be its turn.
fn turn_refusal(state: &State, device: u32, adapter: u32, ccb: u32) -> Option<Refusal>
    requires { adapter < length state.now.config.adapters }
    ensures { result ≡ first_cause (turn_causes state.now.config state.now.events device adapter ccb) }
{
    if !state.config().is_on(adapter, device) {
        Some(Refusal::WrongLane)
    } else if state.devices().is_frozen(device) {
        Some(Refusal::DeviceFrozen)
    } else if state.queues().is_frozen(adapter) {
        Some(Refusal::AdapterFrozen)
    } else if !have_openings(state, device, adapter) {
        Some(Refusal::NoOpening)
    } else if is_other_next(state, adapter, ccb) {
        Some(Refusal::NotHead)
    } else {
        None
    }
}

fn done_refusal(state: &State, ccb: u32, outcome: &Outcome) -> Option<Refusal>
    ensures { result ≡ first_cause (done_causes state.now.events ccb outcome.now) }
{
    if !names_ccb(state, ccb) {
        Some(Refusal::NoCcb)
    } else if outcome.status & 0x3f == 0 {
        Some(Refusal::BadStatus)
    } else if !state.is_in_flight(ccb) {
        Some(Refusal::NotInFlight)
    } else {
        None
    }
}

fn requeue_refusal(state: &State, ccb: u32) -> Option<Refusal>
    requires legal { IsTrue (is_legal state.now.rules state.now.config state.now.events) }
    ensures { result ≡ first_cause (requeue_causes state.now.rules state.now.events ccb) }
{
    if !names_ccb(state, ccb) {
        Some(Refusal::NoCcb)
    } else if are_stays_full(state) {
        Some(Refusal::StaysFull)
    } else if !state.is_recovering(ccb) {
        Some(Refusal::NotRecovering)
    } else if !wants_requeue(state, ccb) {
        Some(Refusal::WrongDecision)
    } else {
        None
    }
}

fn finish_refusal(state: &State, ccb: u32) -> Option<Refusal>
    requires legal { IsTrue (is_legal state.now.rules state.now.config state.now.events) }
    ensures { result ≡ first_cause (finish_causes state.now.events ccb) }
{
    if !names_ccb(state, ccb) {
        Some(Refusal::NoCcb)
    } else if !state.is_recovering(ccb) {
        Some(Refusal::NotRecovering)
    } else if !wants_finish(state, ccb) {
        Some(Refusal::WrongDecision)
    } else {
        None
    }
}

fn freeze_dev_refusal(state: &State, device: u32, count: u32) -> Option<Refusal>
    ensures { result ≡ first_cause (freeze_dev_causes state.now.config state.now.events device count) }
{
    if !state.config().names_device(device) {
        Some(Refusal::NoDevice)
    } else if !is_count(count) {
        Some(Refusal::BadCount)
    } else if u64::from(state.devices().caller_count(device)) + u64::from(count)
        > u64::from(MAX_FREEZES)
    {
        Some(Refusal::FreezeOverflow)
    } else {
        None
    }
}

fn release_dev_refusal(state: &State, device: u32, count: u32) -> Option<Refusal>
    ensures { result ≡ first_cause (release_dev_causes state.now.config state.now.events device count) }
{
    if !state.config().names_device(device) {
        Some(Refusal::NoDevice)
    } else if !is_count(count) {
        Some(Refusal::BadCount)
    } else if state.devices().caller_count(device) < count {
        Some(Refusal::ReleaseTooMany)
    } else {
        None
    }
}

fn freeze_sim_refusal(state: &State, sim: u32, count: u32) -> Option<Refusal>
    ensures { result ≡ first_cause (freeze_sim_causes state.now.config state.now.events sim count) }
{
    if !state.config().names_adapter(sim) {
        Some(Refusal::NoAdapter)
    } else if !is_count(count) {
        Some(Refusal::BadCount)
    } else if u64::from(state.queues().callers(sim)) + u64::from(count) > u64::from(MAX_FREEZES) {
        Some(Refusal::FreezeOverflow)
    } else {
        None
    }
}

fn release_sim_refusal(state: &State, sim: u32) -> Option<Refusal>
    ensures { result ≡ first_cause (release_sim_causes state.now.config state.now.events sim) }
{
    if !state.config().names_adapter(sim) {
        Some(Refusal::NoAdapter)
    } else if state.queues().callers(sim) < 1 {
        Some(Refusal::ReleaseTooMany)
    } else {
        None
    }
}

fn adjust_refusal(state: &State, device: u32, openings: u32) -> Option<Refusal>
    ensures { result ≡ first_cause (adjust_causes state.now.config device openings) }
{
    if !state.config().names_device(device) {
        Some(Refusal::NoDevice)
    } else if !are_openings(openings) {
        Some(Refusal::BadOpenings)
    } else {
        None
    }
}

fn tick_refusal(state: &State) -> Option<Refusal>
    ensures { result ≡ first_cause (tick_causes state.now.rules state.now.events) }
{
    if state.devices().has_in_flight() {
        Some(Refusal::InFlight)
    } else if state.devices().rules().rounds() <= state.devices().round() {
        Some(Refusal::RoundsFull)
    } else {
        None
    }
}

// Whether a CCB of that number was submitted.
fn names_ccb(state: &State, ccb: u32) -> bool
    ensures { result ≡ names_ccb state.now.events ccb }
{
    ccb < state.devices().commands()
}

// Whether as many CCBs are alive as the rules allow.
fn are_ccbs_full(state: &State) -> bool
    ensures { result ≡ are_ccbs_full state.now.rules state.now.events }
{
    match state.devices().rules().ccbs() {
        Some(most) => most <= state.alive(),
        None => false,
    }
}

// Whether as many stays have begun as the rules allow.
fn are_stays_full(state: &State) -> bool
    ensures { result ≡ are_stays_full state.now.rules state.now.events }
{
    state.devices().rules().stays() <= state.devices().stay_count()
}

// The CCB's device, and 0 where there is no such CCB.
fn device_of(state: &State, ccb: u32) -> u32
    ensures { result ≡ device_of state.now.events ccb }
{
    match state.devices().submission(ccb) {
        Some(submission) => submission.device,
        None => 0,
    }
}

// Whether an opening is left at the device, at the adapter, and at its link.
fn have_openings(state: &State, device: u32, adapter: u32) -> bool
    requires device { device < length state.now.config.devices }
    requires adapter { adapter < length state.now.config.adapters }
    ensures { result ≡ have_openings state.now.config state.now.events device adapter }
{
    state.devices().has_opening(device)
        && state.queues().has_opening(adapter)
        && state.queues().link_has_opening(adapter)
}

// Whether the adapter's next stay is another CCB's.
fn is_other_next(state: &State, adapter: u32, ccb: u32) -> bool
    requires { adapter < length state.now.config.adapters }
    ensures { result ≡ is_other_next state.now.config state.now.events adapter ccb }
{
    match state.queues().next(adapter) {
        Some(next) => next.ccb != ccb,
        None => false,
    }
}

// Whether the class of the last result of a CCB that is recovering asks for a requeue.
fn wants_requeue(state: &State, ccb: u32) -> bool
    requires legal { IsTrue (is_legal state.now.rules state.now.config state.now.events) }
    requires recovering { is_recovering state.now.events ccb ≡ true }
    ensures { result ≡ wants_requeue state.now.events ccb }
{
    state.wants_requeue(ccb)
}

// Whether the class of the last result of a CCB that is recovering asks for a finish.
fn wants_finish(state: &State, ccb: u32) -> bool
    requires legal { IsTrue (is_legal state.now.rules state.now.config state.now.events) }
    requires recovering { is_recovering state.now.events ccb ≡ true }
    ensures { result ≡ wants_finish state.now.events ccb }
{
    state.wants_finish(ccb)
}
