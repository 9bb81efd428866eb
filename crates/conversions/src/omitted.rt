//! What a script leaves out of a history.

ghost use Rattle.std.specs.Prelude.{◌≡◌, ◌≤◌, ◌<◌, length, count_by};
ghost use Rattle.cam_types.specs.declared.limits.TheConstants.{MAX_EVENTS};
ghost use Rattle.event_rules.specs.Counts.{is_in_flight, commands};
ghost use Rattle.event_rules.specs.Counts.{last};
ghost use Rattle.event_rules.specs.Event.{is_send_or_done_of, submission_of};
ghost use Rattle.conversions.specs.Answers.{in_flight};
ghost use Rattle.conversions.specs.Scripted.{is_setting};

use event_rules::Event;

/// How many commands are in flight after these events.
#[tactic(auto, unfolding(crate::specs::Answers::in_flight))]
pub(crate) fn in_flight(events: &[Event]) -> u32
    requires { length events.now ≤ MAX_EVENTS }
    ensures { result ≡ in_flight events.now }
{
    let count = commands(events);
    (0..count).filter(|ccb| is_in_flight(events, *ccb)).count() as u32
}

// How many CCBs were submitted.
#[tactic(auto, unfolding(event_rules::specs::Counts::submissions), using(event_rules::proofs::PushLaws::few_commands))]
fn commands(events: &[Event]) -> u32
    requires { length events.now ≤ MAX_EVENTS }
    ensures same { result ≡ commands events.now }
    ensures few { result ≤ MAX_EVENTS }
{
    events.iter().filter_map(|event| event.submission()).count() as u32
}

#[tactic(auto, unfolding(event_rules::specs::Counts::is_in_flight))]
fn is_in_flight(events: &[Event], ccb: u32) -> bool
    ensures { result ≡ is_in_flight events.now ccb }
{
    match last_step(events, ccb) {
        Some(event) => event.is_send_of(ccb),
        None => false,
    }
}

// The last send or completion of the CCB.
fn last_step(events: &[Event], ccb: u32) -> Option<Event>
    ensures { result ≡ last (is_send_or_done_of ccb) events.now }
{
    events
        .iter()
        .rev()
        .copied()
        .find(|event| event.is_send_or_done_of(ccb))
}

/// How many freezes, releases and adjustments there are.
pub(crate) fn settings(events: &[Event]) -> u32
    requires { length events.now ≤ MAX_EVENTS }
    ensures { result ≡ count_by is_setting events.now }
{
    events.iter().filter(|event| is_setting(event)).count() as u32
}

fn is_setting(event: &Event) -> bool
    ensures { result ≡ is_setting event.now }
{
    matches!(
        *event,
        Event::FreezeDev { .. }
            | Event::ReleaseDev { .. }
            | Event::FreezeSim { .. }
            | Event::ReleaseSim { .. }
            | Event::Adjust { .. }
    )
}
