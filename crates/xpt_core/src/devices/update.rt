//! What an event makes of the devices' queues.
ghost use Rattle.std.specs.Prelude.{◌≡◌, ◌+◌, ◌<◌, ◌≤◌, ◌&&◌, ◌^◌, true, not, length, All, map};
ghost use Rattle.xpt_core.specs.Words.{MAX_PRIORITY, is_erring};
ghost use Rattle.dev_queue.specs.Device.{is_ready};
ghost use Rattle.xpt_core.specs.Places.{at_place, HasAt};
ghost use Rattle.xpt_core.specs.DeviceUpdates.{with_stay, with_send, with_done, with_requeue, with_finish, with_freezes, less_freezes, with_openings, in_next_round, updated, CanUpdate, HasRoom, HasError};

use cam_types::Priority;
use dev_queue::DevQueue;
use event_rules::{Event, Submission};

/// Updates the devices' queues by an event, after these submissions.
pub(crate) fn update(queues: &mut Vec<DevQueue>, submissions: &[Submission], event: &Event)
    requires { CanUpdate submissions.now event.now queues.old.items }
    ensures { queues.new.items ≡ updated submissions.now event.now queues.old.items }
{
    match *event {
        Event::Submit {
            device,
            priority,
            ..
        } => insert(queues, device, submissions.len() as u32, priority),
        Event::Send { ccb, .. } => send(queues, submissions[ccb as usize]),
        Event::Done { ccb, .. } => done(queues, submissions[ccb as usize], event.is_erring()),
        Event::Requeue { ccb } => requeue(queues, ccb, submissions[ccb as usize]),
        Event::Finish { ccb } => finish(queues, submissions[ccb as usize]),
        Event::FreezeDev { device, count } => freeze(queues, device, count),
        Event::ReleaseDev { device, count } => release(queues, device, count),
        Event::Adjust { device, openings } => adjust(queues, device, openings),
        Event::Tick => open_round(queues),
        Event::FreezeSim { .. } | Event::ReleaseSim { .. } => {}
    }
}

// Puts a CCB into the device's queue.
fn insert(queues: &mut Vec<DevQueue>, device: u32, ccb: u32, priority: u32)
    requires has { HasAt HasRoom queues.old.items device }
    requires urgent { priority ≤ MAX_PRIORITY }
    ensures { queues.new.items ≡ at_place device (with_stay (record { ccb = ccb; priority = priority })) queues.old.items }
{
    let queue = &mut queues[device as usize];
    put_in(queue, ccb, priority);
}

fn put_in(queue: &mut DevQueue, ccb: u32, priority: u32)
    requires has { HasRoom queue.old }
    requires urgent { priority ≤ MAX_PRIORITY }
    ensures { queue.new ≡ with_stay (record { ccb = ccb; priority = priority }) queue.old }
{
    let priority = Priority::new(priority).unwrap();
    queue.insert(ccb, priority).unwrap();
}

// Sends the first of the CCB's device.
fn send(queues: &mut Vec<DevQueue>, submission: Submission)
    requires { HasAt (λ q. is_ready q ≡ true) queues.old.items submission.device }
    ensures { queues.new.items ≡ at_place submission.device (with_send submission.flags.qfreeze) queues.old.items }
{
    let queue = &mut queues[submission.device as usize];
    queue.send(submission.flags.qfreeze);
}

// Notes that the CCB has completed, by an error or not.
fn done(queues: &mut Vec<DevQueue>, submission: Submission, errs: bool)
    requires { HasAt (λ q. 0 < q.in_flight) queues.old.items submission.device }
    ensures { queues.new.items ≡ at_place submission.device (with_done (errs && not submission.flags.qfrzdis)) queues.old.items }
{
    let freezes = freezes(errs, submission);
    let queue = &mut queues[submission.device as usize];
    queue.done(freezes);
}

// Whether a completion, by an error or not, freezes the CCB's device.
fn freezes(errs: bool, submission: Submission) -> bool
    ensures { result ≡ (errs && not submission.flags.qfrzdis) }
{
    errs && !submission.flags.qfrzdis
}

// Keeps the CCB for the next round, without its error's freeze.
fn requeue(queues: &mut Vec<DevQueue>, ccb: u32, submission: Submission)
    requires has { HasAt (λ q. HasRoom q × HasError (not submission.flags.qfrzdis) q) queues.old.items submission.device }
    requires urgent { submission.priority ≤ MAX_PRIORITY }
    ensures { queues.new.items ≡ at_place submission.device (with_requeue (record { ccb = ccb; priority = submission.priority }) (not submission.flags.qfrzdis)) queues.old.items }
{
    let queue = &mut queues[submission.device as usize];
    put_back(queue, ccb, submission);
}

fn put_back(queue: &mut DevQueue, ccb: u32, submission: Submission)
    requires has { HasRoom queue.old }
    requires stands { HasError (not submission.flags.qfrzdis) queue.old }
    requires urgent { submission.priority ≤ MAX_PRIORITY }
    ensures { queue.new ≡ with_requeue (record { ccb = ccb; priority = submission.priority }) (not submission.flags.qfrzdis) queue.old }
{
    let priority = Priority::new(submission.priority).unwrap();
    resolve(queue, !submission.flags.qfrzdis);
    queue.requeue(ccb, priority).unwrap();
}

// Takes the freeze of the CCB's error away.
fn finish(queues: &mut Vec<DevQueue>, submission: Submission)
    requires { HasAt (HasError (not submission.flags.qfrzdis)) queues.old.items submission.device }
    ensures { queues.new.items ≡ at_place submission.device (with_finish (not submission.flags.qfrzdis)) queues.old.items }
{
    let queue = &mut queues[submission.device as usize];
    resolve(queue, !submission.flags.qfrzdis);
}

// Takes an error's freeze away, where there is one.
fn resolve(queue: &mut DevQueue, frozen: bool)
    requires { HasError frozen queue.old }
    ensures { queue.new ≡ with_finish frozen queue.old }
{
    if frozen {
        queue.resolve();
    }
}

// Adds callers' freezes of the device.
fn freeze(queues: &mut Vec<DevQueue>, device: u32, count: u32)
    requires { HasAt (λ q. q.callers + count ≤ 65535) queues.old.items device }
    ensures { queues.new.items ≡ at_place device (with_freezes count) queues.old.items }
{
    let queue = &mut queues[device as usize];
    queue.freeze(count).unwrap();
}

// Takes callers' freezes of the device away.
fn release(queues: &mut Vec<DevQueue>, device: u32, count: u32)
    requires { HasAt (λ q. count ≤ q.callers) queues.old.items device }
    ensures { queues.new.items ≡ at_place device (less_freezes count) queues.old.items }
{
    let queue = &mut queues[device as usize];
    queue.release(count).unwrap();
}

// Sets the device's openings from the next round on.
fn adjust(queues: &mut Vec<DevQueue>, device: u32, openings: u32)
    requires { device < length queues.old.items }
    ensures { queues.new.items ≡ at_place device (with_openings openings) queues.old.items }
{
    let queue = &mut queues[device as usize];
    queue.adjust(openings);
}

// Opens the next round of all devices, none of which has a command in flight.
fn open_round(queues: &mut Vec<DevQueue>)
    requires { All (λ q. q.in_flight ≡ 0) queues.old.items }
    ensures { queues.new.items ≡ map in_next_round queues.old.items }
{
    for queue in queues.iter_mut() {
        queue.next_round();
    }
}
