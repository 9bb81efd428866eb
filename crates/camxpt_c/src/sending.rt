//! The calls that take an event and give something back.

ghost use Rattle.std.specs.Prelude.{◌≡◌, ◌+◌, take};
ghost use Rattle.cam_types.specs.declared.limits.TheConstants.{MAX_SENSE};
ghost use Rattle.event_rules.specs.Counts.{round};
ghost use Rattle.event_rules.specs.declared.event.Event.TheVariants.{Submit, Done, Tick};
ghost use Rattle.xpt_state.specs.Replies.{done_of};
ghost use Rattle.camxpt_c.specs.Attached.{user_of};
ghost use Rattle.camxpt_c.specs.Shapes.{IsDone};
ghost use Rattle.camxpt_c.specs.CallTerms.{IsCall, IsNumber, IsSendNext, Gives};

use crate::codes::{E_CLOSED, OK, code_of, idle_code};
use crate::handle::CamXpt;
use crate::shapes::{CamxptCommand, CamxptDone, command_shape, done_shape};
use cam_types::{Flags, Outcome, SenseBytes};
use event_rules::{Event, Submission};
use std::alloc::Global;
use xpt_state::{Reply, Sent};

/// Submits a CCB with a pointer, and gives its number.
#[unsafe(no_mangle)]
pub extern "C" fn camxpt_raw_submit(
    alloc: Global,
    handle: &mut CamXpt,
    driver: u8,
    device: u32,
    priority: u32,
    retries: u32,
    qfreeze: bool,
    qfrzdis: bool,
    user: u64,
    ccb: &mut u32,
) -> i32
    ensures call { IsCall (Submit driver device priority retries (record { qfreeze = qfreeze; qfrzdis = qfrzdis })) user handle.old.body.kept handle.new.body.kept result }
    ensures number { Gives (Submit driver device priority retries (record { qfreeze = qfreeze; qfrzdis = qfrzdis })) handle.old.body.kept (λ p. IsNumber p ccb.new) (ccb.new ≡ ccb.old) }
{
    let submission = Submission {
        driver,
        device,
        priority,
        retries,
        flags: Flags { qfreeze, qfrzdis },
    };
    submit(alloc, handle, submission, user, ccb)
}

/// Submits a CCB with a pointer, and gives its number.
pub(crate) fn submit(
    alloc: Global,
    handle: &mut CamXpt,
    submission: Submission,
    user: u64,
    ccb: &mut u32,
) -> i32
    ensures call { IsCall (Submit submission.driver submission.device submission.priority submission.retries submission.flags) user handle.old.body.kept handle.new.body.kept result }
    ensures number { Gives (Submit submission.driver submission.device submission.priority submission.retries submission.flags) handle.old.body.kept (λ p. IsNumber p ccb.new) (ccb.new ≡ ccb.old) }
{
    let Some(mut port) = handle.take(alloc) else {
        return E_CLOSED;
    };
    let Submission {
        driver,
        device,
        priority,
        retries,
        flags,
    } = submission;
    let event = Event::Submit {
        driver,
        device,
        priority,
        retries,
        flags,
    };
    let code = match port.take(event, user) {
        Ok(Reply::Ccb(number)) => {
            *ccb = number;
            OK
        }
        Ok(_) => unreachable!(),
        Err(why) => code_of(why),
    };
    handle.put(port);
    code
}

/// Sends the next command of the lane's adapter, and gives it with the pointer of its CCB.
#[unsafe(no_mangle)]
pub extern "C" fn camxpt_raw_send_next(
    alloc: Global,
    handle: &mut CamXpt,
    lane: u32,
    command: &mut CamxptCommand,
) -> i32
    ensures { IsSendNext lane handle.old.body.kept handle.new.body.kept result command.old command.new }
{
    let Some(mut port) = handle.take(alloc) else {
        return E_CLOSED;
    };
    let code = match port.send_next(lane) {
        Ok(Sent::Command(sent)) => {
            *command = command_shape(sent, port.user(sent.ccb));
            OK
        }
        Ok(Sent::Idle(why)) => idle_code(why),
        Err(why) => code_of(why),
    };
    handle.put(port);
    code
}

/// The command has completed with this result. Gives what that comes to, with the pointer of its CCB.
#[unsafe(no_mangle)]
pub extern "C" fn camxpt_raw_done(
    alloc: Global,
    handle: &mut CamXpt,
    ccb: u32,
    status: u8,
    scsi: u8,
    sense: &[u8],
    done: &mut CamxptDone,
) -> i32
    ensures call { IsCall (Done ccb (record { status = status; scsi = scsi; sense = take MAX_SENSE sense.now })) 0 handle.old.body.kept handle.new.body.kept result }
    ensures answer { Gives (Done ccb (record { status = status; scsi = scsi; sense = take MAX_SENSE sense.now })) handle.old.body.kept (λ p. IsDone (done_of p.xpt.events ccb (record { status = status; scsi = scsi; sense = take MAX_SENSE sense.now })) (user_of p ccb) done.new) (done.new ≡ done.old) }
{
    let outcome = Outcome {
        status,
        scsi,
        sense: SenseBytes::first(sense),
    };
    complete(alloc, handle, ccb, outcome, done)
}

/// The command has completed with this result. Gives what that comes to, with the pointer of its CCB.
pub(crate) fn complete(
    alloc: Global,
    handle: &mut CamXpt,
    ccb: u32,
    outcome: Outcome,
    done: &mut CamxptDone,
) -> i32
    ensures call { IsCall (Done ccb outcome) 0 handle.old.body.kept handle.new.body.kept result }
    ensures answer { Gives (Done ccb outcome) handle.old.body.kept (λ p. IsDone (done_of p.xpt.events ccb outcome) (user_of p ccb) done.new) (done.new ≡ done.old) }
{
    let Some(mut port) = handle.take(alloc) else {
        return E_CLOSED;
    };
    let code = match port.take(Event::Done { ccb, outcome }, 0) {
        Ok(Reply::Done(comes_to)) => {
            *done = done_shape(comes_to, port.user(ccb));
            OK
        }
        Ok(_) => unreachable!(),
        Err(why) => code_of(why),
    };
    handle.put(port);
    code
}

/// Opens the next round, and gives its number.
#[unsafe(no_mangle)]
pub extern "C" fn camxpt_raw_tick(alloc: Global, handle: &mut CamXpt, number: &mut u32) -> i32
    ensures call { IsCall Tick 0 handle.old.body.kept handle.new.body.kept result }
    ensures number { Gives Tick handle.old.body.kept (λ p. number.new ≡ round p.xpt.events + 1) (number.new ≡ number.old) }
{
    let Some(mut port) = handle.take(alloc) else {
        return E_CLOSED;
    };
    let code = match port.take(Event::Tick, 0) {
        Ok(Reply::Round(opened)) => {
            *number = opened;
            OK
        }
        Ok(_) => unreachable!(),
        Err(why) => code_of(why),
    };
    handle.put(port);
    code
}
