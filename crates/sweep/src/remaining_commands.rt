//! How many commands of a script a run left.

ghost use Rattle.std.specs.Prelude.{◌≡◌, ◌≤◌, count_by, sum_by, map, length};
ghost use Rattle.sweep.specs.Runs.{asks_submit, commands_asked, commands_left, is_end};

use cam_event::History;
use event_rules::Event;
use trace_file::{Script, Step};

/// How many of the commands that the script asks for weren't done, or given back as failed, when the run ended.
pub(crate) fn commands_left(script: &Script, history: &History) -> u32
    ensures { result ≡ commands_left script.now history.now.events }
{
    let asked = commands_asked(script);
    let ended = history
        .events()
        .iter()
        .filter(|event| is_end(event))
        .count();
    asked.saturating_sub(ended) as u32
}

// How many commands the script asks for.
fn commands_asked(script: &Script) -> usize
    ensures same { result ≡ commands_asked script.now }
    ensures few { result ≤ 4096 }
{
    let mut asked = 0;
    for steps in script.drivers() {
        asked += asked_in(steps);
    }
    asked
}

// How many of these steps are submits.
fn asked_in(steps: &[Step]) -> usize
    ensures same { result ≡ count_by asks_submit steps.now }
    ensures few { result ≤ length steps.now }
{
    steps.iter().filter(|step| asks_submit(step)).count()
}

fn asks_submit(step: &Step) -> bool
    ensures { result ≡ asks_submit step.now }
{
    matches!(step, Step::Act(Event::Submit { .. }))
}

// Whether the event ends a command.
fn is_end(event: &Event) -> bool
    ensures { result ≡ is_end event.now }
{
    match event {
        Event::Done { .. } => !event.is_erring(),
        Event::Finish { .. } => true,
        _ => false,
    }
}
