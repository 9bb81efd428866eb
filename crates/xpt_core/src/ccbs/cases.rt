//! The cases in the order of completion.

ghost use Rattle.std.specs.Prelude.{◌≡◌, ◌<◌, vec_len, vec_capacity};
ghost use Rattle.xpt_core.specs.Cases.{other_cases, decided};

use event_rules::Event;

/// Updates the cases by one event more. It takes time that grows with the number of cases.
pub(crate) fn update(cases: &mut Vec<u32>, event: &Event)
    requires { vec_len cases.old < vec_capacity cases.old }
    ensures cases { cases.new.items ≡ decided event.now cases.old.items }
    ensures capacity { vec_capacity cases.new ≡ vec_capacity cases.old }
{
    match *event {
        Event::Requeue { ccb } | Event::Finish { ccb } => remove(cases, ccb),
        Event::Done { ccb, .. } if event.is_erring() => cases.push_reserved(ccb),
        _ => {}
    }
}

// Takes a CCB out.
fn remove(cases: &mut Vec<u32>, ccb: u32)
    ensures cases { cases.new.items ≡ other_cases ccb cases.old.items }
    ensures capacity { vec_capacity cases.new ≡ vec_capacity cases.old }
{
    cases.retain(|other| ccb != *other);
}
