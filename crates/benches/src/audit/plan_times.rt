//! A best plan alone.

use crate::audit::refused;
use cost_plan::{NoPlanProgress, guessed_plan, plan, plan_with};
use round_net::{Net, cost};
use std::io;
use std::process::ExitCode;
use std::thread::Threads;
use std::time::{Clock, CpuClock, Duration, Instant};

// The least times of that many plans count.
const PLANS: u32 = 20;

// The least processor time of a plan, and the least by the clock of one made alone and of one whose adapters are planned at once.
#[derive(Drop)]
struct Least {
    used: Duration,
    alone: Duration,
    at_once: Duration,
}

// When a plan was begun, by the clock and in processor time.
#[derive(Drop)]
struct Begin {
    clock: Instant,
    cpu: Duration,
}

impl Begin {
    fn now<R: CpuClock + Clock>(rt: &R) -> io::Result<Begin> {
        let cpu = rt.process_cpu_time()?;
        let clock = Instant::now(rt)?;
        Ok(Begin { clock, cpu })
    }

    // The times since, by the clock and of the processor.
    fn elapsed<R: CpuClock + Clock>(&self, rt: &R) -> io::Result<(Duration, Duration)> {
        let clock = self.clock.elapsed(rt)?;
        let cpu = rt.process_cpu_time()?;
        Ok((clock, cpu.saturating_sub(self.cpu)))
    }
}

/// Prints what a best plan of the net costs and whether the guess was best already, and the least processor time of a plan,
/// and the least by the clock of one made alone and of one whose adapters are planned at once.
pub fn time_plans<R: Threads + CpuClock + Clock + AllocGlobal + Print + Eprint + Sync>(
    rt: &R,
    net: &Net,
) -> io::Result<ExitCode> {
    let mut least = Least {
        used: Duration::MAX,
        alone: Duration::MAX,
        at_once: Duration::MAX,
    };
    let mut total = 0;
    for _ in 0..PLANS {
        let Some(cost) = time_alone(rt, net, &mut least)? else {
            return refused(rt, "no plan");
        };
        if !time_at_once(rt, net, &mut least)? {
            return refused(rt, "no plan");
        }
        total = cost;
    }
    let Ok(guessed) = guessed_plan(rt.alloc(), net) else {
        return refused(rt, "no guess");
    };
    tell(rt, net, total, guessed.is_some(), &least)
}

// Makes a plan alone, and answers what it costs, or `None` if there is none.
fn time_alone<R: CpuClock + Clock + AllocGlobal>(
    rt: &R,
    net: &Net,
    least: &mut Least,
) -> io::Result<Option<u64>> {
    let begin = Begin::now(rt)?;
    let Ok(best) = plan(rt.alloc(), net) else {
        return Ok(None);
    };
    let (clock, cpu) = begin.elapsed(rt)?;
    least.alone = least.alone.min(clock);
    least.used = least.used.min(cpu);
    Ok(Some(cost(net, &best.schedule).unwrap_or(0)))
}

// Makes a plan whose adapters are planned at once, and answers whether there is one.
fn time_at_once<R: Threads + Clock + AllocGlobal + Sync>(
    rt: &R,
    net: &Net,
    least: &mut Least,
) -> io::Result<bool> {
    let begin = Instant::now(rt)?;
    if plan_with(rt, rt.alloc(), net, &NoPlanProgress).is_err() {
        return Ok(false);
    }
    least.at_once = least.at_once.min(begin.elapsed(rt)?);
    Ok(true)
}

fn tell<R: Print + Eprint>(
    rt: &R,
    net: &Net,
    total: u64,
    is_guessed: bool,
    least: &Least,
) -> io::Result<ExitCode> {
    let found = if is_guessed {
        "guessed"
    } else {
        "searched for"
    };
    let (stays, cells) = (net.stays(), net.cells());
    println!(rt; "stays {stays} cells {cells} cost {total} {found}")?;
    let Least {
        used,
        alone,
        at_once,
    } = least;
    eprintln!(rt; "plan {used:?} alone {alone:?} at once {at_once:?}")?;
    Ok(ExitCode::SUCCESS)
}
