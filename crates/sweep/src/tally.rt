//! What a run of a script by a seed comes to.

ghost use Rattle.std.specs.Prelude.{◌≡◌, None, IfOk, IsTrue};
ghost use Rattle.sweep.specs.Runs.{AreNumbersOf, IsSimTally, has_drained};
ghost use Rattle.event_rules.specs.Stays.{unsent};
ghost use Rattle.round_net.specs.Nets.{net_of};

use crate::remaining_commands::commands_left;
use crate::runner::{Numbers, Tally};
use cam_event::History;
use cost_plan::plan;
use round_net::{Net, NetFault, RoundTable};
use sim_worker::{Ending, SimRun, sim_run};
use std::alloc::{AllocError, Global};
use trace_file::Script;
use wait_causes::Explanation;

/// Runs the script by the seed, and explains the history beside a best schedule, if the run drained and each stay was sent.
pub(crate) fn sim_tally(alloc: Global, script: &Script, seed: u64) -> Result<Tally, AllocError>
    ensures { IfOk result (IsSimTally script.now seed) }
{
    let run = sim_run(alloc, script, seed)?;
    if has_drained(&run) {
        Ok(Tally::Drained(numbers_of(alloc, &run.history)?))
    } else {
        Ok(Tally::Left(commands_left(script, &run.history)))
    }
}

// Whether the run drained and each stay was sent.
fn has_drained(run: &SimRun) -> bool
    ensures { result ≡ has_drained run.now.history.events run.now.ending }
{
    match run.ending {
        Ending::Drained => run.history.unsent().is_none(),
        Ending::RoundsFull | Ending::HistoryFull => false,
    }
}

// What the waiting of a history cost, in which each stay was sent.
fn numbers_of(alloc: Global, history: &History) -> Result<Numbers, AllocError>
    requires { unsent history.now.events ≡ None }
    ensures { IfOk result (AreNumbersOf history.now) }
{
    let table = RoundTable::of(alloc, history)?;
    let net = net_of(alloc, history, &table)?;
    let best = plan(alloc, &net)?;
    let part = Explanation::of(alloc, history, table, &net, &best.schedule)?.whole(alloc)?;
    Ok(Numbers {
        live: part.live,
        best: part.best,
        p99: part.p99,
    })
}

// The net of a history in which each stay was sent.
fn net_of(alloc: Global, history: &History, table: &RoundTable) -> Result<Net, AllocError>
    requires sent { unsent history.now.events ≡ None }
    requires table { table.now ≡ history.now }
    ensures { IfOk result (λ net. net ≡ net_of history.now.config history.now.events) }
{
    match Net::of_rounds(alloc, history, table) {
        Ok(net) => Ok(net),
        Err(NetFault::OutOfMemory) => Err(AllocError),
        Err(NetFault::Unsent(_)) => unreachable!(),
    }
}
