//! The run of a script on many threads.
//!
//! Why a run ends, which no contract says: no lock is held while a worker sleeps or serves, and each call of the transport
//! takes it once. A worker that sleeps took the epoch of its wait event before it looked for something to do, and what it
//! sleeps for notifies that event: a later round for a driver, and for recovery whose decision was refused; work for a lane, or a later
//! round if its adapter's openings are used; a failed completion for recovery without a case. So nobody sleeps who has
//! something to do.
//!
//! Suppose that all but the keeper sleep. Then nothing is in flight, no lane has anything to send, and each driver rests, as
//! recovery does. Whoever made the last event, or was the last to write on the board that it rests, has notified the keeper
//! after that. So the keeper has looked since, and saw all of them rest: it opened the next round, which wakes them,
//! or stopped the run, which notifies each wait event after the stop word, and each worker reads that word after its epoch.
//!
//! So someone always acts, and only so often: a call makes one of at most 65,535 events or is refused, a row or a decision is
//! refused at most once in each of at most 512 rounds, and a lane that sends nothing sleeps until there is work.

ghost use Rattle.std.specs.Prelude.{◌≡◌, ℕ, [], get_or, length, map, All, IfOk, IfErr, ◌<◌};
ghost use Rattle.std.specs.List.{range_with_len};
ghost use Rattle.sim_worker.specs.Faults.{IsLiveFault, IsSeatless, IsUnjudged, IsUnstarted, as_live, Unnamed};
ghost use Rattle.sim_worker.specs.LiveRuns.{IsLiveRun};

use crate::ending::Ending;
use crate::fault::LiveFault;
use crate::handed::{Handed, LanePort, hand_back, hand_in};
use crate::judging::judge;
use crate::log::SeatLog;
use crate::names::actors;
use crate::port::Port;
use crate::progress::{NoProgress, Progress};
use crate::worker::{Role, Worker, work};
use crate::workplace::Workplace;
use cam_event::History;
use std::alloc::{AllocError, Global};
use std::marker::Brand;
use std::sync::Wait;
use std::sync::ledger::{Blank, Ledger};
use std::thread;
use std::thread::{JoinHandle, Threads};
use trace_file::Script;
use xpt_lock::{GatherFault, Seat, SeatName, SharedXpt};
use xpt_state::Xpt;

/// What a run on many threads gives.
#[derive(Drop)]
pub struct LiveRun<P: Drop> {
    /// All that happened.
    pub history: History,
    /// Why no more happened.
    pub ending: Ending,
    /// What each actor did: the drivers that have a row, the lanes, recovery and the round keeper.
    pub seats: Vec<SeatLog>,
    /// The ports of the lanes, with what they have served.
    pub ports: Vec<P>,
}

/// Runs the script with a thread for each driver that has a row, each lane, recovery and the round keeper. A lane asks its
/// port for room before it asks for a command, and holds no lock while the port serves.
///
/// A row or a decision that is refused is tried again in the next round. `HistoryFull` at any call ends the run, and so does a
/// round too many. What the threads did is compared with the script and with what the ports served, after their ends.
pub fn run_live<P: Port + Send, R: Threads + Wait + Sync>(
    rt: &R,
    alloc: Global,
    script: &Script,
    ports: Vec<P>,
) -> Result<LiveRun<P>, LiveFault>
    requires ports { length ports.items ≡ length script.now.config.lanes }
    requires fresh { All (λ p. P.list p ≡ []) ports.items }
    ensures run { IfOk result (λ run. IsLiveRun script.now run.history run.seats.items (map (λ p. P.list p) run.ports.items) run.ending) }
    ensures ports { IfOk result (λ run. map (λ p. P.answers p) run.ports.items ≡ map (λ p. P.answers p) ports.items) }
    ensures fault { IfErr result (IsLiveFault script.now) }
{
    run_live_with(rt, alloc, script, ports, &NoProgress)
}

/// The same, and tells the progress meanwhile how far the run is.
pub fn run_live_with<P: Port + Send, W: Progress + Sync, R: Threads + Wait + Sync>(
    rt: &R,
    alloc: Global,
    script: &Script,
    ports: Vec<P>,
    progress: &W,
) -> Result<LiveRun<P>, LiveFault>
    requires ports { length ports.items ≡ length script.now.config.lanes }
    requires fresh { All (λ p. P.list p ≡ []) ports.items }
    ensures run { IfOk result (λ run. IsLiveRun script.now run.history run.seats.items (map (λ p. P.list p) run.ports.items) run.ending) }
    ensures ports { IfOk result (λ run. map (λ p. P.answers p) run.ports.items ≡ map (λ p. P.answers p) ports.items) }
    ensures fault { IfErr result (IsLiveFault script.now) }
{
    run_by::<Brand, P, Brand, W, R>(rt, alloc, script, ports, progress, Blank::new(65))
}

// The run by a ledger.
fn run_by<
    L: Ledger + Send + Sync,
    P: Port + Send,
    H: Handed + Send,
    W: Progress + Sync,
    R: Threads + Wait + Sync,
>(
    rt: &R,
    alloc: Global,
    script: &Script,
    ports: Vec<P>,
    progress: &W,
    blank: Blank,
) -> Result<LiveRun<P>, LiveFault>
    requires name { blank.name ≡ L.name }
    requires parts { (blank.parts ≡ L.parts) × (blank.parts ≡ 65) }
    requires ports { length ports.items ≡ length script.now.config.lanes }
    requires handed { (lane : ℕ) → H.answers lane ≡ get_or (map (λ p. P.answers p) ports.items) lane [] }
    ensures run { IfOk result (λ run. IsLiveRun script.now run.history run.seats.items (map (λ p. P.list p) run.ports.items) run.ending) }
    ensures ports { IfOk result (λ run. map (λ p. P.answers p) run.ports.items ≡ map (λ p. P.answers p) ports.items) }
    ensures fault { IfErr result (IsLiveFault script.now) }
{
    let xpt = Xpt::open(alloc, script.config().copy(alloc)?, script.limits())?;
    let shared: SharedXpt<L> = SharedXpt::new(xpt, blank);
    let lanes = hand_in::<P, H>(alloc, ports)?;
    let workers = match workers_of(rt, alloc, script, &shared, lanes) {
        Ok(workers) => workers,
        Err(fault) => return Err(fault),
    };
    let place = Workplace::new(alloc, shared, script)?;
    let workers = match all_work(rt, alloc, script, &place, progress, workers) {
        Ok(workers) => workers,
        Err(fault) => return Err(fault),
    };
    if place.is_short() {
        return Err(LiveFault::OutOfMemory);
    }
    finish(alloc, script, place, workers)
}

// The workers in order, each with its seat: the drivers that have a row, the lanes, recovery and the round keeper.
fn workers_of<L: Ledger, P: Port, H: Handed, R: Wait>(
    rt: &R,
    alloc: Global,
    script: &Script,
    shared: &SharedXpt<L>,
    lanes: Vec<LanePort<P, H>>,
) -> Result<Vec<Worker<L, P, H>>, LiveFault>
    ensures { IfErr result IsSeatless }
{
    let mut workers = Vec::new(alloc);
    let mut ports = lanes.into_iter();
    for name in actors(alloc, script)? {
        let seat = seat(rt, alloc, shared, name)?;
        let role = match name {
            SeatName::Driver(driver) => Role::Driver(driver),
            SeatName::Lane(lane) => {
                // There is a port for each lane.
                let Some(port) = ports.next() else {
                    return Err(LiveFault::Unnamed(0));
                };
                Role::Lane(lane, port)
            }
            SeatName::Recovery => Role::Recovery,
            SeatName::Keeper => Role::Keeper,
        };
        add(&mut workers, seat, role)?;
    }
    Ok(workers)
}

fn add<L: Ledger, P: Port, H: Handed>(
    workers: &mut Vec<Worker<L, P, H>>,
    seat: Seat<L>,
    role: Role<P, H>,
) -> Result<(), AllocError> {
    workers.push(Worker { seat, role })?;
    Ok(())
}

fn seat<L: Ledger, R: Wait>(
    rt: &R,
    alloc: Global,
    shared: &SharedXpt<L>,
    name: SeatName,
) -> Result<Seat<L>, LiveFault>
    ensures seat { IfOk result (λ s. s ≡ record { name = name; receipts = [] }) }
    ensures full { IfErr result (λ fault. fault ≡ Unnamed 0) }
{
    match shared.seat(rt, alloc, name) {
        Ok(seat) => Ok(seat),
        Err(_) => Err(LiveFault::Unnamed(0)),
    }
}

// The workers after their work, each on a thread of its own. If one can't be started, those that were stop, and are joined.
fn all_work<
    L: Ledger + Send + Sync,
    P: Port + Send,
    H: Handed + Send,
    W: Progress + Sync,
    R: Threads + Wait + Sync,
>(
    rt: &R,
    alloc: Global,
    script: &Script,
    place: &Workplace<L>,
    progress: &W,
    workers: Vec<Worker<L, P, H>>,
) -> Result<Vec<Worker<L, P, H>>, LiveFault>
    ensures { IfErr result IsUnstarted }
{
    thread::scope(
        thread::scope_env(),
        rt,
        |scope| -> Result<Vec<Worker<L, P, H>>, LiveFault>
            requires { Unit {0} }
            ensures { IfErr result IsUnstarted }
        {
            let count = workers.len();
            let mut handles = Vec::with_capacity(alloc, count)?;
            let mut back = Vec::with_capacity(alloc, count)?;
            let mut is_short = false;
            let mut is_refused = false;
            for worker in workers {
                match scope.spawn(move || work(rt, place, script, progress, worker)) {
                    Ok(handle) => is_short = handles.push(handle).is_err(),
                    Err(_) => is_refused = true,
                }
                if is_short || is_refused {
                    place.stop(rt);
                    break;
                }
            }
            join_all(rt, handles, &mut back)?;
            if is_short {
                return Err(LiveFault::OutOfMemory);
            }
            if is_refused {
                return Err(LiveFault::NoThread);
            }
            Ok(back)
        },
    )
}

// Puts what the threads give back after one another, in order.
fn join_all<T: Drop, R: Threads>(
    rt: &R,
    handles: Vec<JoinHandle<T>>,
    back: &mut Vec<T>,
) -> Result<(), AllocError> {
    for handle in handles {
        back.push(handle.join(rt))?;
    }
    Ok(())
}

// What the workers did, if it is a run of the script.
fn finish<L: Ledger, P: Port, H: Handed>(
    alloc: Global,
    script: &Script,
    place: Workplace<L>,
    workers: Vec<Worker<L, P, H>>,
) -> Result<LiveRun<P>, LiveFault>
    ensures run { IfOk result (λ run. IsLiveRun script.now run.history run.seats.items (map (λ p. P.list p) run.ports.items) run.ending) }
    ensures ports { IfOk result (λ run. map (λ p. P.answers p) run.ports.items ≡ map (λ lane. H.answers lane) (range_with_len 0 (length script.now.config.lanes))) }
    ensures fault { IfErr result (IsLiveFault script.now) }
{
    let (seats, lanes) = parted(alloc, workers)?;
    let ports = match hand_back(alloc, lanes, script.config().lanes().len()) {
        Ok(ports) => ports,
        Err(fault) => return Err(fault),
    };
    match judged(alloc, script, place, seats, ports) {
        Ok(run) => Ok(run),
        Err(fault) => Err(fault),
    }
}

// What the seats and the ports have, if that is a run of the script.
fn judged<L: Ledger, P: Port>(
    alloc: Global,
    script: &Script,
    place: Workplace<L>,
    seats: Vec<Seat<L>>,
    ports: Vec<P>,
) -> Result<LiveRun<P>, LiveFault>
    ensures run { IfOk result (λ run. IsLiveRun script.now run.history run.seats.items (map (λ p. P.list p) run.ports.items) run.ending) }
    ensures ports { IfOk result (λ run. run.ports ≡ ports) }
    ensures fault { IfErr result (IsUnjudged script.now) }
{
    let logs = logs_of(alloc, &seats)?;
    let history = match place.shared.gather(alloc, seats) {
        Ok(history) => history,
        Err(fault) => return Err(live_fault(fault)),
    };
    match judge(alloc, script, &history, &logs, &ports) {
        Ok(ending) => Ok(LiveRun {
            history,
            ending,
            seats: logs,
            ports,
        }),
        Err(why) => Err(why),
    }
}

// The workers' seats, and the ports of those that have one.
fn parted<L: Ledger, P: Port, H: Handed>(
    alloc: Global,
    workers: Vec<Worker<L, P, H>>,
) -> Result<(Vec<Seat<L>>, Vec<LanePort<P, H>>), AllocError> {
    let mut seats = Vec::new(alloc);
    let mut lanes = Vec::new(alloc);
    for worker in workers {
        let Worker { seat, role } = worker;
        seats.push(seat)?;
        if let Role::Lane(_, port) = role {
            lanes.push(port)?;
        }
    }
    Ok((seats, lanes))
}

// The logs of the seats.
fn logs_of<L: Ledger>(alloc: Global, seats: &[Seat<L>]) -> Result<Vec<SeatLog>, AllocError>
    ensures { IfOk result (λ logs. logs.items ≡ seats.now) }
{
    let mut logs = Vec::with_capacity(alloc, seats.len())?;
    for seat in seats {
        logs.push(SeatLog::of(alloc, seat)?)?;
    }
    Ok(logs)
}

fn live_fault(fault: GatherFault) -> LiveFault
    ensures { result ≡ as_live fault }
{
    match fault {
        GatherFault::Mismatch(receipt) => LiveFault::Mismatch(receipt),
        GatherFault::Unnamed(place) => LiveFault::Unnamed(place),
        GatherFault::OutOfMemory => LiveFault::OutOfMemory,
    }
}
