//! The lanes' ports, handed through the threads: each comes back at the lane at which it was handed in.

ghost use Rattle.std.specs.Prelude.{◌≡◌, ◌<◌, ℕ, List, [], IfOk, IfErr, IsTrue, get_or, length, map};
ghost use Rattle.std.specs.List.{range_with_len};
ghost use Rattle.trace_file.specs.Scenarios.{is_answer};
ghost use Rattle.sim_worker.specs.Faults.{IsSeatless};
ghost use Rattle.sim_worker.specs.Words.{Outcome};

use crate::fault::LiveFault;
use crate::port::Port;
use cam_types::{Command, Outcome};
use std::alloc::{AllocError, Global};
use std::marker::{Brand, PhantomData};

/// With which answers the port of each lane was handed in. Each run picks them.
pub(crate) trait Handed {
    /// By the lane's number.
    ghost answers: { ℕ → List Outcome };
}

impl Handed for Brand {
    ghost answers = { λ _. [] };
}

/// A lane's port, with the answers with which it was handed in.
#[derive(Drop)]
pub(crate) struct LanePort<P: Port, H: Handed> {
    lane: usize,
    port: P,
    of: PhantomData<H>,
    ghost same: { P.answers port ≡ H.answers lane },
}

impl<P: Port, H: Handed> LanePort<P, H> {
    // The port of the lane of this number.
    fn new(lane: usize, port: P) -> LanePort<P, H>
        requires { P.answers port ≡ H.answers lane }
    {
        LanePort {
            lane,
            port,
            of: PhantomData,
        }
    }

    /// Makes room for one more command.
    pub(crate) fn make_room(&mut self) -> Result<(), AllocError>
        ensures { IfOk result (λ _. 0 < P.room self.new.port) }
    {
        self.port.make_room()
    }

    /// Serves a command, for which there has to be room.
    pub(crate) fn serve(&mut self, command: &Command) -> Outcome
        requires { 0 < P.room self.old.port }
        ensures { IsTrue (is_answer result) }
    {
        self.port.serve(command)
    }
}

/// The ports at their lanes, in order.
pub(crate) fn hand_in<P: Port, H: Handed>(
    alloc: Global,
    ports: Vec<P>,
) -> Result<Vec<LanePort<P, H>>, AllocError>
    requires { (lane : ℕ) → H.answers lane ≡ get_or (map (λ p. P.answers p) ports.items) lane [] }
{
    let mut lanes = Vec::with_capacity(alloc, ports.len())?;
    for port in ports {
        let lane = lanes.len();
        lanes.push(LanePort::new(lane, port))?;
    }
    Ok(lanes)
}

/// The ports of that many lanes, in order, if these are they.
pub(crate) fn hand_back<P: Port, H: Handed>(
    alloc: Global,
    lanes: Vec<LanePort<P, H>>,
    count: usize,
) -> Result<Vec<P>, LiveFault>
    ensures ports { IfOk result (λ ports. map (λ p. P.answers p) ports.items ≡ map (λ lane. H.answers lane) (range_with_len 0 count)) }
    ensures fault { IfErr result IsSeatless }
{
    let mut ports = Vec::with_capacity(alloc, count)?;
    for one in lanes {
        let LanePort { lane, port, of: _ } = one;
        if lane != ports.len() {
            return Err(LiveFault::Unnamed(0));
        }
        let Ok(()) = ports.push(port) else {
            return Err(LiveFault::OutOfMemory);
        };
    }
    if ports.len() != count {
        return Err(LiveFault::Unnamed(0));
    }
    Ok(ports)
}
