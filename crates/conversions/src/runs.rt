//! The runs of rounds in which a row takes one number of commands.

ghost use Rattle.std.specs.Prelude.{◌≡◌, ◌<◌, ◌≤◌};
ghost use Rattle.event_rules.specs.Counts.{round};
ghost use Rattle.recording_file.specs.Runs.{begins_run, run_last};
ghost use Rattle.round_net.specs.Caps.{resource_count, cap};
ghost use Rattle.round_net.specs.Nets.{net_of};
ghost use Rattle.round_net.specs.RecordedNets.{part_of_resource};
ghost use Rattle.conversions.specs.Recorded.{run_cap};

use cam_event::History;
use recording_file::{Cap, Part};
use round_net::Net;

// How many commands the row takes in the round, by the history's net.
fn cap(history: &History, net: &Net, row: u32, at: u32) -> u32
    requires net { net.now ≡ net_of history.now.config history.now.events }
    requires row { row < resource_count history.now.config }
    requires first { 1 ≤ at }
    requires last { at ≤ round history.now.events }
    ensures same { result ≡ cap history.now.config history.now.events row at }
    ensures most { result ≤ 65535 }
{
    net.cap(row, at)
}

/// Whether a run begins in the round: the row's cap isn't the usual one, nor that of the round before.
#[tactic(auto, unfolding(recording_file::specs::Runs::begins_run))]
pub fn begins_run(history: &History, net: &Net, row: u32, usual: u32, at: u32) -> bool
    requires net { net.now ≡ net_of history.now.config history.now.events }
    requires row { row < resource_count history.now.config }
    requires first { 1 ≤ at }
    requires last { at ≤ round history.now.events }
    ensures { result ≡ begins_run (cap history.now.config history.now.events row) usual at }
{
    let most = cap(history, net, row, at);
    most != usual && (at == 1 || cap(history, net, row, at - 1) != most)
}

// The last round of the run that begins in this one.
fn run_last(history: &History, net: &Net, row: u32, first: u32) -> u32
    requires net { net.now ≡ net_of history.now.config history.now.events }
    requires row { row < resource_count history.now.config }
    requires first { 1 ≤ first }
    requires last { first ≤ round history.now.events }
    ensures { result ≡ run_last (cap history.now.config history.now.events row) (round history.now.events) first }
{
    let rounds = history.round();
    let most = cap(history, net, row, first);
    for more in 0..rounds - first {
        if cap(history, net, row, first + 1 + more) != most {
            return first + more;
        }
    }
    rounds
}

/// The cap of the row in the run of rounds that begins in this one.
#[tactic(auto, unfolding(crate::specs::Recorded::run_cap))]
pub fn run_cap(history: &History, net: &Net, part: Part, row: u32, first: u32) -> Cap
    requires net { net.now ≡ net_of history.now.config history.now.events }
    requires part { part ≡ part_of_resource history.now.config row }
    requires row { row < resource_count history.now.config }
    requires first { 1 ≤ first }
    requires last { first ≤ round history.now.events }
    ensures same { result ≡ run_cap history.now.config history.now.events row first }
    ensures most { result.most ≤ 65535 }
{
    Cap {
        part,
        first,
        last: run_last(history, net, row, first),
        most: cap(history, net, row, first),
    }
}
