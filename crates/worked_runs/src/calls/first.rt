//! The calls of the first run, made on one transport alone, or timed on several.

use crate::calls::answer::Answer;
use crate::calls::run::Run;
use crate::fault::Fault;
use std::io;
use std::time::{CpuClock, Duration};
use xpt_state::{Reply, Xpt};

/// Makes the calls of the first run that standard input lists: with the word `alone` on one transport, and tells what came of
/// each; with a number on that many transports, one after the other, and tells how many events there were and the processor
/// time that the calls took.
pub fn make_first(rt: &HostRuntime, word: &str) -> Result<(), Fault> {
    let text = io::read_to_string(rt.alloc(), rt.reader())?;
    let runs = Run::read_all(rt.alloc(), &text)?;
    let Some(run) = runs.first() else {
        return Err(Fault::NoRun);
    };
    let mut answers = vec![in rt.alloc(); Answer::Done(Reply::Nothing); run.lines.len()]?;
    if word == "alone" {
        return make_alone(rt, run, &mut answers);
    }
    match word.parse() {
        Ok(count) => time_all(rt, run, &mut answers, count),
        Err(_) => Err(Fault::Word),
    }
}

// `opened` and `called` stand between the requests for memory of `open`, of the calls and of `into_history`.
fn make_alone(rt: &HostRuntime, run: &Run<'_>, answers: &mut [Answer]) -> Result<(), Fault> {
    let mut xpt = run.opening.open(rt.alloc())?;
    make_calls(rt, run, &mut xpt, answers)?;
    let history = xpt.into_history(rt.alloc())?;
    println!(rt; "history of {} events", history.events().len())?;
    tell_all(rt, answers)?;
    Ok(())
}

fn make_calls(
    rt: &HostRuntime,
    run: &Run<'_>,
    xpt: &mut Xpt,
    answers: &mut [Answer],
) -> io::Result<()> {
    println!(rt; "opened")?;
    run.make(xpt, answers);
    println!(rt; "called")
}

fn tell_all(rt: &HostRuntime, answers: &[Answer]) -> io::Result<()> {
    for answer in answers {
        println!(rt; "{answer}")?;
    }
    Ok(())
}

fn time_all(
    rt: &HostRuntime,
    run: &Run<'_>,
    answers: &mut [Answer],
    count: u32,
) -> Result<(), Fault> {
    let mut events = 0usize;
    let mut taken = Duration::ZERO;
    for _ in 0..count {
        let mut xpt = run.opening.open(rt.alloc())?;
        taken = taken.saturating_add(time_calls(rt, run, &mut xpt, answers)?);
        events = events.saturating_add(xpt.events().len());
    }
    println!(rt;
        "{events} events {}.{:09} s",
        taken.as_secs(),
        taken.subsec_nanos()
    )?;
    Ok(())
}

// The processor time that the calls on one transport took.
fn time_calls(
    rt: &HostRuntime,
    run: &Run<'_>,
    xpt: &mut Xpt,
    answers: &mut [Answer],
) -> io::Result<Duration> {
    let start = rt.process_cpu_time()?;
    run.make(xpt, answers);
    Ok(rt.process_cpu_time()?.saturating_sub(start))
}
