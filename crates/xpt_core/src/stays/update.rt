//! What an event makes of the stays' records.
ghost use Rattle.std.specs.Prelude.{◌≡◌, ◌+◌, ◌<◌, ◌≤◌, ◌^◌, [], ◌∷◌, ◌++◌, length, slice_get, IsTrue, IfSome, vec_len, vec_capacity};
ghost use Rattle.xpt_core.specs.Words.{is_legal_event, MAX_PRIORITY};
ghost use Rattle.xpt_core.specs.Places.{at_place, HasAt};
ghost use Rattle.xpt_core.specs.StayRecord.{submitted_in, sent_in, followed_in, requeued_in};
ghost use Rattle.xpt_core.specs.PartsSound.{IsStays};

use crate::queues::Queues;
use crate::stays::stay_record::StayRecord;
use cam_types::Priority;
use event_rules::{Event, Passage};

/// Keeps what a legal event makes of the stays, after the events of these queues.
pub(crate) fn update(
    records: &mut Vec<StayRecord>,
    latest: &mut Vec<u32>,
    queues: &Queues,
    event: &Event,
)
    requires kept { IsStays queues.now (record { records = records.old; latest = latest.old }) }
    requires legal { IsTrue (is_legal_event queues.now.rules queues.now.config (queues.now.events, event.now)) }
    ensures { IsStays (record queues.now { events = queues.now.events ++ event.now ∷ [] }) (record { records = records.new; latest = latest.new }) }
{
    let round = queues.devices().round();
    let place = queues.devices().events().len() as u32;
    let number = records.len() as u32;
    match *event {
        Event::Submit {
            device,
            priority,
            ..
        } => {
            let stay = submitted(latest.len() as u32, device, priority, round, place);
            latest.push_reserved(number);
            records.push_reserved(StayRecord::begun(stay));
        }
        Event::Send { ccb, .. } => send(records, latest[ccb as usize], round),
        Event::Requeue { ccb } => {
            let before = latest[ccb as usize];
            let stay = requeue(records, before, round, place);
            latest[ccb as usize] = number;
            records.push_reserved(StayRecord::begun(stay));
        }
        _ => {}
    }
}

// Sends the stay of this number in this round.
fn send(records: &mut Vec<StayRecord>, stay: u32, round: u32)
    requires { stay < length records.old.items }
    ensures items { records.new.items ≡ at_place stay (sent_in round) records.old.items }
    ensures capacity { vec_capacity records.new ≡ vec_capacity records.old }
{
    let record = &mut records[stay as usize];
    record.sent = Some(round);
}

// Ends the stay of this number by a requeue, which begins its CCB's next one.
fn requeue(records: &mut Vec<StayRecord>, stay: u32, round: u32, place: u32) -> Passage
    requires few { HasAt (λ r. r.stay.attempt + 1 < 2 ^ 32) records.old.items stay }
    requires rounds { round + 1 < 2 ^ 32 }
    ensures next { IfSome (slice_get records.old.items stay) (λ r. result ≡ requeued_in round place r.stay) }
    ensures items { records.new.items ≡ at_place stay (followed_in round) records.old.items }
    ensures len { vec_len records.new ≡ vec_len records.old }
    ensures capacity { vec_capacity records.new ≡ vec_capacity records.old }
{
    let record = &mut records[stay as usize];
    record.requeue(round, place)
}

// The stay that a submit begins, of a CCB of this number, in this round and at this place.
fn submitted(ccb: u32, device: u32, priority: u32, round: u32, place: u32) -> Passage
    requires { priority ≤ MAX_PRIORITY }
    ensures { result ≡ submitted_in ccb device priority round place }
{
    Passage {
        ccb,
        attempt: 0,
        device,
        priority: Priority::new(priority).unwrap(),
        arrival: round,
        requeued: false,
        place,
    }
}
