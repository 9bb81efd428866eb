//! The port of a script's lane: it answers what the script says.

ghost use Rattle.std.specs.Prelude.{◌≡◌, All, ◌<◌, ◌-◌, ℕ, [], ◌∷◌, ◌++◌, length, get_or, map, IfOk, IsTrue, vec_capacity};
ghost use Rattle.trace_file.specs.Scenarios.{is_answer};
ghost use Rattle.sim_worker.specs.Ports.{answer_at};

use crate::port::Port;
use crate::served::Served;
use cam_types::{Command, Outcome};
use sense_class::CAM_REQ_CMP;
use std::alloc::{AllocError, Global};
use std::marker::Model;
use trace_file::Script;

/// A port that answers the commands of a script's lane: the outcomes that the script lists for it, in order, and then
/// status 01, SCSI status 00 and no sense data for each.
#[derive(Debug, Drop)]
pub struct ScriptPort {
    answers: Vec<Outcome>,
    served: Vec<Served>,
}

impl Model for ScriptPort {
    ghost use Rattle.std.specs.Prelude.{◌-◌, length, vec_capacity};
    ghost use Rattle.sim_worker.specs.Ports.{PortState, IsPort};

    ghost Value = { PortState };

    ghost view = { λ p. record { answers = p.answers.items; served = p.served.items; room = vec_capacity p.served - length p.served.items } };

    ghost invariant = { λ p. IsPort p.answers.items p.served.items };
}

impl ScriptPort {
    ghost use Rattle.sim_worker.specs.Ports.{PortState};

    /// The port of the script's lane of this number, which has served nothing. The lane has to be there.
    pub fn new(alloc: Global, script: &Script, lane: u32) -> Result<ScriptPort, AllocError>
        requires { lane < length script.now.config.lanes }
        ensures answers { IfOk result (λ p. p.answers ≡ get_or script.now.answers lane []) }
        ensures served { IfOk result (λ p. p.served ≡ []) }
    {
        let mut answers = Vec::new(alloc);
        answers.extend_from_slice(&script.answers()[lane as usize])?;
        Ok(ScriptPort {
            answers,
            served: Vec::new(alloc),
        })
    }

    /// A port for each of the script's lanes, in order. None has served anything.
    pub fn for_lanes(alloc: Global, script: &Script) -> Result<Vec<ScriptPort>, AllocError>
        ensures answers { IfOk result (λ ports. map (λ p. p.answers) ports.items ≡ script.now.answers) }
        ensures count { IfOk result (λ ports. length ports.items ≡ length script.now.config.lanes) }
        ensures fresh { IfOk result (λ ports. All (λ p. p.served ≡ []) ports.items) }
    {
        let count = script.config().lanes().len();
        // There is a list of answers for each lane.
        let _answers = script.answers();
        let mut ports = Vec::with_capacity(alloc, count)?;
        for lane in 0..count {
            ports.push(ScriptPort::new(alloc, script, lane as u32)?)?;
        }
        Ok(ports)
    }

    // What the lane answers next.
    fn next_answer(&self) -> Outcome
        ensures value { result ≡ answer_at self.now.answers (length self.now.served) }
        ensures status { IsTrue (is_answer result) }
    {
        match self.answers.get(self.served.len()) {
            Some(outcome) => *outcome,
            None => Outcome::of_status(CAM_REQ_CMP),
        }
    }

    // Puts what was served after the rest.
    fn keep(&mut self, served: Served)
        requires room { 0 < self.old.room }
        requires next { served.outcome ≡ answer_at self.old.answers (length self.old.served) }
        ensures served { self.new.served ≡ self.old.served ++ served ∷ [] }
        ensures answers { self.new.answers ≡ self.old.answers }
    {
        let Ok(()) = self.served.push(served) else {
            unreachable!()
        };
    }
}

impl Port for ScriptPort {
    ghost list = { λ p. p.served };

    ghost room = { λ p. p.room };

    ghost answers = { λ p. p.answers };

    fn make_room(&mut self) -> Result<(), AllocError>
        ensures list { self.new.served ≡ self.old.served }
        ensures answers { self.new.answers ≡ self.old.answers }
        ensures room { IfOk result (λ _. 0 < self.new.room) }
    {
        self.served.reserve(1)
    }

    fn serve(&mut self, command: &Command) -> Outcome
        requires { 0 < self.old.room }
        ensures value { result ≡ answer_at self.old.answers (length self.old.served) }
        ensures list { self.new.served ≡ self.old.served ++ record { command = command.now; outcome = result } ∷ [] }
        ensures answers { self.new.answers ≡ self.old.answers }
        ensures status { IsTrue (is_answer result) }
    {
        let outcome = self.next_answer();
        let given = outcome;
        self.keep(Served {
            command: *command,
            outcome,
        });
        given
    }

    fn served(&self) -> &[Served]
        ensures { result.now ≡ self.now.served }
    {
        &self.served
    }
}
