//! What came of a call.

use event_rules::Refusal;
use std::fmt;
use xpt_state::{Case, Idle, Look, Reply};

/// What came of a call.
#[derive(Clone, Copy, PartialEq)]
pub enum Answer {
    /// It was accepted, and what it gave.
    Done(Reply),
    /// There was nothing to send, and why.
    Idle(Idle),
    /// It was refused.
    Refused(Refusal),
    /// The CCB that failed first, if one waits for a decision.
    Case(Option<Case>),
    /// What there was to see.
    Look(Look),
    /// It asks for what a transport doesn't show.
    Hidden,
}

impl fmt::Display for Answer {
    fn fmt<W: fmt::Write>(&self, f: &mut fmt::Formatter<W>) -> fmt::Result {
        match self {
            Answer::Done(reply) => show_reply(f, reply),
            Answer::Idle(why) => write!(f, "idle {why}"),
            Answer::Refused(why) => write!(f, "refused {why}"),
            Answer::Case(None) => write!(f, "no case"),
            Answer::Case(Some(case)) => write!(f, "case ccb {} {:?}", case.ccb, case.class),
            Answer::Look(look) => write!(
                f,
                "events {} round {} in flight {} heads {} cases {} waiting {}",
                look.length, look.round, look.in_flight, look.heads, look.cases, look.waiting
            ),
            Answer::Hidden => write!(f, "hidden"),
        }
    }
}

fn show_reply<W: fmt::Write>(f: &mut fmt::Formatter<W>, reply: &Reply) -> fmt::Result {
    match reply {
        Reply::Ccb(ccb) => write!(f, "done ccb {ccb}"),
        Reply::Command(command) => write!(
            f,
            "done ccb {} try {} driver {} device {} priority {}",
            command.ccb, command.attempt, command.driver, command.device, command.priority
        ),
        Reply::Done(done) => write!(f, "done {:?} value {:02x}", done.class, done.value),
        Reply::Round(round) => write!(f, "done round {round}"),
        Reply::Nothing => write!(f, "done"),
    }
}
