//! A transport with what is kept beside it for C.

ghost use Rattle.std.specs.Prelude.{◌≡◌, ◌<◌, ◌≤◌, length, IfOk, IfSome, vec_len, vec_capacity};
ghost use Rattle.event_rules.specs.Event.{submission_of};
ghost use Rattle.camxpt_c.specs.Attached.{users_after};

use cam_types::{Config, Limits};
use event_rules::{Event, Refusal};
use std::alloc::{AllocError, Global};
use std::marker::Model;
use xpt_state::{Reply, Sent, Xpt};

/// A transport, and a pointer of the caller's for each of its CCBs. Nothing grows after `open`.
#[derive(Drop)]
pub struct Port {
    xpt: Xpt,
    // The pointers by the number of the CCB.
    users: Vec<u64>,
}

impl Model for Port {
    ghost use Rattle.camxpt_c.specs.Attached.{Attached};
    ghost use Rattle.camxpt_c.specs.PortSound.{IsPort};

    ghost Value = { Attached };

    ghost view = { λ p. record { xpt = p.xpt; users = p.users.items } };

    ghost invariant = { IsPort };
}

impl Port {
    ghost use Rattle.std.specs.Prelude.{length, IfOk};
    ghost use Rattle.event_rules.specs.Counts.{commands};
    ghost use Rattle.camxpt_c.specs.Attached.{user_of, IsPortStep, IsPortLaneStep};
    ghost use Rattle.camxpt_c.specs.Openings.{opened_port};

    /// A transport to which nothing has happened, with memory for all that the limits let happen.
    pub fn open(alloc: Global, config: Config, limits: Limits) -> Result<Port, AllocError>
        ensures { IfOk result (λ p. p ≡ opened_port config limits) }
    {
        let xpt = Xpt::open(alloc, config, limits)?;
        Port::of(alloc, xpt, &[])
    }

    /// A transport with these pointers, one for each of its CCBs, and with memory for those that its limits let come.
    pub fn of(alloc: Global, xpt: Xpt, users: &[u64]) -> Result<Port, AllocError>
        requires { length users.now ≡ commands xpt.events }
        ensures { IfOk result (λ p. p ≡ record { xpt = xpt; users = users.now }) }
    {
        let _events = xpt.events();
        let users = with_room(alloc, users, xpt.rules().stays() as usize)?;
        Ok(Port { xpt, users })
    }

    /// The transport.
    pub fn xpt(&self) -> &Xpt
        ensures { result.now ≡ self.now.xpt }
    {
        &self.xpt
    }

    /// The pointer that the CCB's submit was given.
    pub fn user(&self, ccb: u32) -> u64
        ensures { result ≡ user_of self.now ccb }
    {
        match self.users.get(ccb as usize) {
            Some(user) => *user,
            None => 0,
        }
    }

    /// Takes an event of any kind, and a pointer for the CCB if it is a submit.
    pub fn take(&mut self, event: Event, user: u64) -> Result<Reply, Refusal>
        ensures step { IsPortStep self.old event user self.new result }
        ensures numbered { length self.old.users ≡ commands self.old.xpt.events }
    {
        let reply = self.xpt.take(event)?;
        keep_user(&mut self.users, &event, user);
        Ok(reply)
    }

    /// Sends the next command of the lane's adapter, or says why there is none.
    pub fn send_next(&mut self, lane: u32) -> Result<Sent, Refusal>
        ensures { IsPortLaneStep self.old lane self.new result }
    {
        self.xpt.send_next(lane)
    }
}

// These pointers, with memory for so many in all.
fn with_room(alloc: Global, users: &[u64], room: usize) -> Result<Vec<u64>, AllocError>
    requires { length users.now ≤ room }
    ensures users { IfOk result (λ kept. kept.items ≡ users.now) }
    ensures room { IfOk result (λ kept. room ≤ vec_capacity kept) }
{
    let mut kept = Vec::with_capacity(alloc, room)?;
    for user in users {
        kept.push_reserved(*user);
    }
    Ok(kept)
}

// Keeps the pointer of a submit.
fn keep_user(users: &mut Vec<u64>, event: &Event, user: u64)
    requires { IfSome (submission_of event.now) (λ _. vec_len users.old < vec_capacity users.old) }
    ensures items { users.new.items ≡ users_after event.now user users.old.items }
    ensures capacity { vec_capacity users.new ≡ vec_capacity users.old }
{
    if event.submission().is_some() {
        users.push_reserved(user);
    }
}
