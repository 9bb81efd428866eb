//! What each call does.

use crate::calls::answer::Answer;
use crate::calls::call::Call;
use cam_types::Outcome;
use event_rules::{Event, Refusal};
use sense_class::Class;
use xpt_state::{Reply, Sent, Xpt};

/// Makes the call on the transport.
pub fn make(xpt: &mut Xpt, call: Call) -> Answer {
    let answer = match call {
        Call::Event(event) => answer(xpt, event),
        Call::Serve { lane, outcome } => serve(xpt, lane, outcome),
        Call::Decide => decide(xpt),
        Call::Case => Ok(Answer::Case(xpt.next_case())),
        Call::Look => Ok(Answer::Look(xpt.look())),
        Call::Layer(_) => Ok(Answer::Hidden),
    };
    match answer {
        Ok(answer) => answer,
        Err(why) => Answer::Refused(why),
    }
}

fn answer(xpt: &mut Xpt, event: Event) -> Result<Answer, Refusal> {
    let reply = match event {
        Event::Submit {
            driver,
            device,
            priority,
            retries,
            flags,
        } => Reply::Ccb(xpt.submit(driver, device, priority, retries, flags)?),
        Event::Send { lane, .. } => match xpt.send_next(lane)? {
            Sent::Command(command) => Reply::Command(command),
            Sent::Idle(why) => return Ok(Answer::Idle(why)),
        },
        Event::Done { ccb, outcome } => Reply::Done(xpt.done(ccb, outcome)?),
        Event::Tick => Reply::Round(xpt.tick()?),
        _ => {
            plain_answer(xpt, event)?;
            Reply::Nothing
        }
    };
    Ok(Answer::Done(reply))
}

// The calls that only say that their event happened.
fn plain_answer(xpt: &mut Xpt, event: Event) -> Result<(), Refusal> {
    match event {
        Event::Requeue { ccb } => xpt.requeue(ccb),
        Event::Finish { ccb } => xpt.finish(ccb),
        Event::FreezeDev { device, count } => xpt.freeze_dev(device, count),
        Event::ReleaseDev { device, count } => xpt.release_dev(device, count),
        Event::FreezeSim { sim, count } => xpt.freeze_sim(sim, count),
        Event::ReleaseSim { sim } => xpt.release_sim(sim),
        Event::Adjust { device, openings } => xpt.adjust(device, openings),
        _ => Ok(()),
    }
}

fn serve(xpt: &mut Xpt, lane: u32, outcome: Outcome) -> Result<Answer, Refusal> {
    Ok(match xpt.send_next(lane)? {
        Sent::Command(command) => Answer::Done(Reply::Done(xpt.done(command.ccb, outcome)?)),
        Sent::Idle(why) => Answer::Idle(why),
    })
}

fn decide(xpt: &mut Xpt) -> Result<Answer, Refusal> {
    let Some(case) = xpt.next_case() else {
        return Ok(Answer::Case(None));
    };
    match case.class {
        Class::FreeRequeue | Class::CountedRequeue => xpt.requeue(case.ccb)?,
        Class::Complete | Class::Fail(_) => xpt.finish(case.ccb)?,
    }
    Ok(Answer::Done(Reply::Nothing))
}
