//! Whether a lane's log is what its port served.

ghost use Rattle.std.specs.Prelude.{◌≡◌, ◌*◌, ◌≤◌, true, false, length, take};
ghost use Rattle.sim_worker.specs.Logs.{IsLaneLog};
ghost use Rattle.sim_worker.specs.Walks.{ArePairs, EachPair, IsDone, IsLaneLength, IsSent};

use crate::same::{are_same, are_same_commands};
use crate::served::Served;
use event_rules::Event;
use xpt_lock::Receipt;
use xpt_state::Reply;

/// Whether the log is a send and a completion for each item; of the last, if the history is full, perhaps the send alone.
pub(crate) fn is_lane_log(lane: u32, full: bool, log: &[Receipt], served: &[Served]) -> bool
    ensures yes { result ≡ true → IsLaneLog lane full log.now served.now }
    ensures no { result ≡ false → ¬ IsLaneLog lane full log.now served.now }
{
    if !is_length(full, log.len(), served.len()) {
        return false;
    }
    let pairs = log.len() / 2;
    if !are_pairs(lane, log, served, pairs) {
        return false;
    }
    if log.len() % 2 == 0 {
        return true;
    }
    is_sent(lane, &log[2 * pairs], &served[pairs])
}

// Whether the log is as long as it has to be.
fn is_length(full: bool, log: usize, served: usize) -> bool
    ensures yes { result ≡ true → IsLaneLength full log served }
    ensures no { result ≡ false → ¬ IsLaneLength full log served }
{
    if log % 2 == 0 {
        return log / 2 == served;
    }
    if !full {
        return false;
    }
    log / 2 + 1 == served
}

// Whether the log begins with a send and a completion for each of the first items.
fn are_pairs(lane: u32, log: &[Receipt], served: &[Served], count: usize) -> bool
    requires log { count * 2 ≤ length log.now }
    requires served { count ≤ length served.now }
    ensures yes { result ≡ true → ArePairs lane (take (count * 2) log.now) (take count served.now) }
    ensures no { result ≡ false → ¬ EachPair lane log.now served.now count }
{
    for k in 0..count {
        if !is_sent(lane, &log[2 * k], &served[k]) {
            return false;
        }
        if !is_done(&log[2 * k + 1], &served[k]) {
            return false;
        }
    }
    true
}

// Whether the receipt is for the send of the item's command.
fn is_sent(lane: u32, receipt: &Receipt, one: &Served) -> bool
    ensures yes { result ≡ true → IsSent lane receipt.now one.now }
    ensures no { result ≡ false → ¬ IsSent lane receipt.now one.now }
{
    let send = Event::Send {
        lane,
        ccb: one.command.ccb,
    };
    if !are_same(&receipt.event, &send) {
        return false;
    }
    match receipt.reply {
        Reply::Command(command) => are_same_commands(&command, &one.command),
        _ => false,
    }
}

// Whether the receipt is for the completion of the item's command with its outcome.
fn is_done(receipt: &Receipt, one: &Served) -> bool
    ensures yes { result ≡ true → IsDone receipt.now one.now }
    ensures no { result ≡ false → ¬ IsDone receipt.now one.now }
{
    let done = Event::Done {
        ccb: one.command.ccb,
        outcome: one.outcome,
    };
    if !are_same(&receipt.event, &done) {
        return false;
    }
    match receipt.reply {
        Reply::Command(_) => false,
        _ => true,
    }
}
