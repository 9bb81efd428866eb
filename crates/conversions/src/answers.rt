//! What lanes answer.

ghost use Rattle.std.specs.Prelude.{◌≡◌, ◌*◌, ◌≤◌, length, map, reverse, position, find, count_by, sum_by, ◌++◌, option_to_list, IfOk, OnOk};
ghost use Rattle.std.specs.List.{position_or_len};
ghost use Rattle.cam_types.specs.declared.limits.TheConstants.{MAX_ADAPTERS, MAX_LANES};
ghost use Rattle.event_rules.specs.Event.{is_done_of};
ghost use Rattle.trace_file.specs.declared.script_parser.TheConstants.{MAX_ROWS};
ghost use Rattle.conversions.specs.Answers.{answers_of, is_other, is_plain, lane_answers, outcome_in, plain, sent_outcome, served, up_to_other};

use cam_types::Outcome;
use event_rules::Event;
use sense_class::CAM_REQ_CMP;
use std::alloc::{AllocError, Global};

/// The answers of that many lanes. It fails only if there is no memory.
#[tactic(auto, unfolding(crate::specs::Answers::answers_of))]
pub(crate) fn answers_of(
    alloc: Global,
    events: &[Event],
    lanes: usize,
) -> Result<Vec<Vec<Outcome>>, AllocError>
    requires { lanes ≤ MAX_ADAPTERS * MAX_LANES }
    ensures { IfOk result (λ answers. map (λ l. l.items) answers.items ≡ answers_of events.now lanes) }
{
    let mut answers = Vec::with_capacity(alloc, lanes)?;
    for lane in 0..lanes {
        answers.push(lane_answers(alloc, events, lane as u32)?)?;
    }
    Ok(answers)
}

// The outcomes of what the lane sent, but for the plain ones at the end.
#[tactic(auto, unfolding(crate::specs::Answers::lane_answers))]
fn lane_answers(alloc: Global, events: &[Event], lane: u32) -> Result<Vec<Outcome>, AllocError>
    ensures { IfOk result (λ answers. answers.items ≡ lane_answers events.now lane) }
{
    let outcomes = served(alloc, events, lane)?;
    Ok(up_to_other(outcomes))
}

// The outcomes of the commands that the lane sent, in the order in which it sent them.
fn served(alloc: Global, events: &[Event], lane: u32) -> Result<Vec<Outcome>, AllocError>
    ensures { IfOk result (λ outcomes. outcomes.items ≡ served lane events.now) }
{
    let mut outcomes = Vec::new(alloc);
    for (at, event) in events.iter().enumerate() {
        add(&mut outcomes, sent_outcome(lane, event, &events[at + 1..]))?;
    }
    Ok(outcomes)
}

// Adds the outcome, if there is one.
fn add(outcomes: &mut Vec<Outcome>, outcome: Option<Outcome>) -> Result<(), AllocError>
    ensures { OnOk result (outcomes.new.items ≡ outcomes.old.items ++ option_to_list outcome) }
{
    if let Some(outcome) = outcome {
        outcomes.push(outcome)?;
    }
    Ok(())
}

// The outcome of what the event before these sends, if it is a send by the lane.
fn sent_outcome(lane: u32, event: &Event, later: &[Event]) -> Option<Outcome>
    ensures { result ≡ sent_outcome lane event.now later.now }
{
    match *event {
        Event::Send { lane: by, ccb } if by == lane => Some(outcome_in(ccb, later)),
        _ => None,
    }
}

// The outcome of a command that was sent before these events.
#[tactic(auto, unfolding(crate::specs::Answers::outcome_in))]
fn outcome_in(ccb: u32, later: &[Event]) -> Outcome
    ensures { result ≡ outcome_in ccb later.now }
{
    match completion_of(ccb, later) {
        Some(event) => event.outcome().unwrap_or(plain()),
        None => plain(),
    }
}

fn completion_of(ccb: u32, later: &[Event]) -> Option<Event>
    ensures { result ≡ find (is_done_of ccb) later.now }
{
    later.iter().copied().find(|event| event.is_done_of(ccb))
}

// What a port answers after its last answer.
fn plain() -> Outcome
    ensures { result ≡ plain }
{
    Outcome::of_status(CAM_REQ_CMP)
}

fn is_plain(outcome: &Outcome) -> bool
    ensures { result ≡ is_plain outcome.now }
{
    outcome.status == CAM_REQ_CMP && outcome.scsi == 0 && outcome.sense.bytes().is_empty()
}

// The outcomes up to the last one that isn't plain.
#[tactic(auto, unfolding(crate::specs::Answers::up_to_other))]
fn up_to_other(mut outcomes: Vec<Outcome>) -> Vec<Outcome>
    ensures { result.items ≡ up_to_other outcomes.items }
{
    let plain = plain_at_end(&outcomes);
    outcomes.truncate(outcomes.len() - plain);
    outcomes
}

// How many at the end are plain.
fn plain_at_end(outcomes: &[Outcome]) -> usize
    ensures same { result ≡ position_or_len is_other (reverse outcomes.now) }
    ensures within { result ≤ length outcomes.now }
{
    match last_other(outcomes) {
        Some(at) => at,
        None => outcomes.len(),
    }
}

// Where the last one that isn't plain stands, counted from the end.
fn last_other(outcomes: &[Outcome]) -> Option<usize>
    ensures { result ≡ position is_other (reverse outcomes.now) }
{
    outcomes.iter().rev().position(|outcome| !is_plain(outcome))
}

/// How many of the answers aren't plain completions.
pub(crate) fn others(answers: &[Vec<Outcome>]) -> u32
    requires { sum_by (λ l. length l.items) answers.now ≤ MAX_ROWS }
    ensures { result ≡ sum_by (λ l. count_by is_other l.items) answers.now }
{
    let mut count = 0;
    for outcomes in answers {
        count += others_in(outcomes);
    }
    count
}

fn others_in(outcomes: &[Outcome]) -> u32
    requires { length outcomes.now ≤ MAX_ROWS }
    ensures same { result ≡ count_by is_other outcomes.now }
    ensures within { result ≤ length outcomes.now }
{
    outcomes.iter().filter(|outcome| !is_plain(outcome)).count() as u32
}
