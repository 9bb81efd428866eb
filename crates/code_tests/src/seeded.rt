//! In which order actors act in a run by a seed.

use crate::scripts::script;
use event_rules::Event;
use sim_worker::{Ending, sim_run};
use std::test::Fail;

// Drivers freeze a device as often as their number says, from round 1, 2 or 3 on. Driver 3's release is refused in each round,
// and so is the requeue of the command that comes back: one stay may begin.
const ROWS: &str = "\
limits,1024,3,1,65535,,,
sim,1,,,,,,
dev,0,1,0,1,,,
dev,0,2,0,1,,,
lane,0,,,,,,
submit,0,0:1:0,1152,4,none,,
freeze,1,0:2:0,1,,,,
freeze,1,0:2:0,1,,,,
freeze,1,0:2:0,1,,,,
freeze,2,0:2:0,2,,,,
freeze,2,0:2:0,2,,,,
freeze,2,0:2:0,2,,,,
release,3,0:1:0,1,,,,
pause,4,2,,,,,
freeze,4,0:2:0,4,,,,
freeze,4,0:2:0,4,,,,
pause,5,2,,,,,
freeze,5,0:2:0,5,,,,
freeze,5,0:2:0,5,,,,
pause,6,3,,,,,
freeze,6,0:2:0,6,,,,
freeze,6,0:2:0,6,,,,
pause,7,3,,,,,
freeze,7,0:2:0,7,,,,
freeze,7,0:2:0,7,,,,
answer,0,0b,00,,,,
";

// Of a freeze its driver, and of the submit, the send, the completion and the ticks a letter each.
fn letter(event: &Event) -> char {
    match event {
        Event::FreezeDev { count, .. } => char::from_digit(*count, 10).unwrap_or('?'),
        Event::Submit { .. } => 's',
        Event::Send { .. } => 'c',
        Event::Done { .. } => 'e',
        Event::Tick => 't',
        _ => '?',
    }
}

#[test]
fn words_of_the_generator_pick_who_acts(rt: HostRuntime) -> Result<(), Fail> {
    let alloc = rt.alloc();
    let script = script(alloc, ROWS)?;
    // By the generator's published steps: each turn takes a word, also where the call is refused.
    let orders = [
        (0, "22s1211cet4455t7667"),
        (1, "221sc112et5544t7676"),
        (7, "121s12ce2t5544t7676"),
        (1 << 32, "2s1221ce1t5445t6767"),
        (u64::MAX, "22s2ce111t4455t6767"),
    ];
    for (seed, due) in orders {
        let run = sim_run(alloc, &script, seed)?;
        let mut order = String::new(alloc);
        for event in run.history.events() {
            order.push(letter(event))?;
        }
        assert_eq!(rt;
            (order.as_str(), run.ending),
            (due, Ending::RoundsFull),
            "seed {seed}"
        );
    }
    Ok(())
}
