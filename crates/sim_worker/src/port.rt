//! What serves the commands that a lane has sent.

ghost use Rattle.std.specs.Prelude.{◌≡◌, ◌<◌, ℕ, List, [], ◌∷◌, ◌++◌, IfOk, OnErr, IsTrue};
ghost use Rattle.trace_file.specs.Scenarios.{is_answer};
ghost use Rattle.sim_worker.specs.Ports.{Served};
ghost use Rattle.sim_worker.specs.Words.{Outcome};

use crate::served::Served;
use cam_types::{Command, Outcome};
use std::alloc::AllocError;

/// What serves a lane's commands, one after the other, and keeps a list of them.
pub trait Port: Drop {
    /// What was served so far, in order.
    ghost list: { Self → List Served };

    /// How many more commands can be served before room is made.
    ghost room: { Self → ℕ };

    /// Which port it is: the answers that it was made with, if it was made with any. No call changes them.
    ghost answers: { Self → List Outcome } = { λ _. [] };

    /// Makes room for one more command. If there is no memory, nothing changes.
    fn make_room(&mut self) -> Result<(), AllocError>
        ensures list { list self.new ≡ list self.old }
        ensures answers { answers self.new ≡ answers self.old }
        ensures room { IfOk result (λ _. 0 < room self.new) };

    /// Serves a command, for which there has to be room. Its outcome has a status other than 00.
    fn serve(&mut self, command: &Command) -> Outcome
        requires { 0 < room self.old }
        ensures list { list self.new ≡ list self.old ++ record { command = command.now; outcome = result } ∷ [] }
        ensures answers { answers self.new ≡ answers self.old }
        ensures status { IsTrue (is_answer result) };

    /// What was served so far, in order.
    fn served(&self) -> &[Served]
        ensures { result.now ≡ list self.now };
}
