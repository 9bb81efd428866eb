//! What a transport answers, by its state.

ghost use Rattle.std.specs.Prelude.{◌≡◌, ◌<◌, length, None, Some, IsTrue, IfOk, IfErr, count_by, is_some};
ghost use Rattle.std.specs.List.{list_any, range_with_len};
ghost use Rattle.xpt_state.specs.Words.{is_legal, next, head, refused, lane_adapter};
ghost use Rattle.event_rules.specs.declared.event.Event.TheVariants as events;
ghost use Rattle.xpt_state.specs.Calls.{lane_refused};
ghost use Rattle.xpt_state.specs.Idle.{idle, has_stay_on};
ghost use Rattle.xpt_state.specs.Looks.{nth_case, case_of};
ghost use Rattle.xpt_state.specs.Replies.{done_of, next_command};

use crate::command::command_of;
use crate::done::Done;
use crate::idle::Idle;
use crate::look::Case;
use crate::questions::{has_head, takes_more};
use cam_types::{Command, Outcome};
use sense_class::Class;
use xpt_core::State;

/// What a completion comes to that isn't refused.
pub(crate) fn done_of(state: &State, ccb: u32, outcome: &Outcome) -> Done
    requires { refused state.now (events.Done ccb outcome.now) ≡ None }
    ensures { result ≡ done_of state.now.events ccb outcome.now }
{
    let _events = state.events();
    match state.ccb(ccb) {
        Some(row) => Done::of(row, outcome),
        None => unreachable!(),
    }
}

/// The command by which the CCB is sent, whose turn it is on the lane's adapter.
pub(crate) fn command(state: &State, lane: u32, ccb: u32) -> Command
    requires { refused state.now (events.Send lane ccb) ≡ None }
    ensures command { next_command state.now.config state.now.events lane ≡ Some result }
    ensures ccb { result.ccb ≡ ccb }
{
    let _events = state.events();
    match state.ccb(ccb) {
        Some(row) => command_of(ccb, row),
        None => unreachable!(),
    }
}

/// The CCB whose turn it is on the adapter of a lane that isn't refused, or why there is none.
pub(crate) fn next_command(state: &State, lane: u32) -> Result<u32, Idle>
    requires { lane_refused state.now lane ≡ None }
    ensures ok { IfOk result (λ ccb. refused state.now (events.Send lane ccb) ≡ None) }
    ensures err { IfErr result (λ why. idle state.now.config state.now.events (lane_adapter state.now.config lane) ≡ Some why) }
{
    let adapter = state.lane_adapter(lane);
    match state.queues().next(adapter) {
        Some(next) => Ok(next.ccb),
        None => Err(idle(state, adapter)),
    }
}

// Why the adapter, which has no next stay, is idle.
fn idle(state: &State, adapter: u32) -> Idle
    requires adapter { adapter < length state.now.config.adapters }
    requires none { next state.now.config state.now.events adapter ≡ None }
    ensures { idle state.now.config state.now.events adapter ≡ Some result }
{
    let queued = has_stay(state, adapter);
    let free = !state.queues().is_frozen(adapter);
    let left = takes_more(state, adapter);
    Idle::by(queued, free, left)
}

// Whether a stay is queued at a device of the adapter.
fn has_stay(state: &State, adapter: u32) -> bool
    ensures { result ≡ list_any (has_stay_on state.now.config state.now.events adapter) (range_with_len 0 (length state.now.config.devices)) }
{
    let count = state.config().devices().len() as u32;
    (0..count).any(|device| has_stay_on(state, adapter, device))
}

// Whether the device is on the adapter, and a stay is queued at it.
fn has_stay_on(state: &State, adapter: u32, device: u32) -> bool
    ensures { result ≡ has_stay_on state.now.config state.now.events adapter device }
{
    state.config().is_on(adapter, device) && state.devices().has_queued_stay(device)
}

/// How many lanes are of an adapter that has something to send.
pub(crate) fn heads(state: &State) -> usize
    ensures { result ≡ count_by (λ a. is_some (head state.now.config state.now.events a)) state.now.config.lanes }
{
    let lanes = state.config().lanes();
    lanes
        .iter()
        .filter(|adapter| has_head(state, **adapter))
        .count()
}

/// Of the CCBs that wait for a decision, the one that completed with this many before it.
pub(crate) fn nth_case(state: &State, number: usize) -> Option<Case>
    ensures { result ≡ nth_case state.now.events number }
{
    let _events = state.events();
    match state.nth_case(number) {
        Some(ccb) => case_of(ccb, state.class(ccb)),
        None => None,
    }
}

fn case_of(ccb: u32, class: Option<Class>) -> Option<Case>
    ensures { result ≡ case_of ccb class }
{
    let class = class?;
    Some(Case { ccb, class })
}
