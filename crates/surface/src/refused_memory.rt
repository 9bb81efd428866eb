//! Calls that take memory, for runs in which a request is refused. Each says where it found none, has then left all as it was,
//! and is made again.

ghost use Rattle.std.specs.Prelude.{◌≡◌};

use crate::refused_seats::{Seats, wide_config};
use crate::texts::FROZEN;
use anyhow::{Result, bail};
use audit_report::{AuditFault, run_audit};
use cam_event::History;
use cam_path::CamPath;
use cam_types::{Command, Config, Device, Flags, Limits, Outcome, Watched};
use cost_plan::{BestPlan, PlanProgress, plan, plan_with};
use recording_file::RecordingFault;
use round_net::{Net, cost};
use sim_worker::{Port, ScriptPort};
use std::alloc::Global;
use std::io;
use std::io::Write;
use std::marker::Brand;
use std::sync::Wait;
use std::sync::ledger::{Blank, Ledger};
use std::thread::Threads;
use trace_file::{Script, TraceFault, read_script};
use xpt_lock::SharedXpt;
use xpt_state::{Sent, Xpt};

// A lane that answers the first command with a timeout.
const SCRIPT: &str =
    "camscript1,a,b,c,d,e,f,g\nsim,1,,,,,,\ndev,0,1,0,1,,,\nlane,0,,,,,,\nanswer,0,0b,00,,,,\n";

const COMMAND: Command = Command {
    ccb: 0,
    attempt: 0,
    driver: 0,
    device: 0,
    priority: 1152,
};

// How many commands there are in a burst: twice as many as a round takes.
const BURST: u32 = 256;

/// Makes the calls once all that they need is there.
pub fn call_refused<T: Threads + Wait + Sync>(rt: &HostRuntime, threads: &T) -> Result<()> {
    call_all::<Brand, T>(rt, threads, Blank::new(65))
}

fn call_all<L: Ledger, T: Threads + Wait + Sync>(
    rt: &HostRuntime,
    threads: &T,
    blank: Blank,
) -> Result<()>
    requires name { blank.name ≡ L.name }
    requires parts { (blank.parts ≡ L.parts) × (blank.parts ≡ 65) }
{
    let alloc: Global = rt.alloc();
    let xpt = Xpt::open(alloc, wide_config(alloc)?, Limits::most())?;
    let shared: SharedXpt<L> = SharedXpt::new(xpt, blank);
    let seats = Seats::taken(threads, alloc, &shared)?;
    let script: Script = read_script(alloc, &mut Watched::new(SCRIPT.as_bytes()))?;
    if script.config().lanes().len() == 0 {
        bail!("no lane");
    }
    let mut port = ScriptPort::new(alloc, &script, 0)?;
    let mut path = Vec::new(alloc);
    path.extend_from_slice(b"path ")?;
    let mut audit = Vec::with_capacity(alloc, 4096)?;
    let net = Net::of(alloc, &burst(alloc)?)?;
    println!(rt; "opened")?;
    write_path(rt, &mut path)?;
    serve_all(rt, &mut port)?;
    write_audit(rt, &mut audit)?;
    plan_burst(rt, &net)?;
    plan_at_once(rt, threads, &net)?;
    seats.call(rt, threads, alloc, shared)
}

// Puts a path after what is there.
fn write_path(rt: &HostRuntime, text: &mut Vec<u8>) -> Result<()> {
    let path = CamPath {
        bus: 7,
        target: 65_535,
        lun: 16_383,
    };
    if path.write(text).is_err() {
        if text.as_slice() != b"path ".as_slice() {
            bail!("another text");
        }
        println!(rt; "path: out of memory")?;
        path.write(text)?;
    }
    text.extend_from_slice(b"\n")?;
    io::writer(rt).write_all(text)?;
    Ok(())
}

// Serves five commands, and prints what they were answered.
fn serve_all(rt: &HostRuntime, port: &mut ScriptPort) -> Result<()> {
    for number in 0..5 {
        serve(rt, port, number)?;
    }
    print!(rt; "served")?;
    for served in port.served() {
        print!(rt; " {:02x}", served.outcome.status)?;
    }
    println!(rt; "")?;
    Ok(())
}

// Serves a command after that many others. Where room is made already, the second call takes no memory.
fn serve(rt: &HostRuntime, port: &mut ScriptPort, number: usize) -> Result<()> {
    if port.make_room().is_err() {
        if port.served().len() != number {
            bail!("another list");
        }
        println!(rt; "room: out of memory")?;
    }
    port.make_room()?;
    port.serve(&COMMAND);
    Ok(())
}

// Writes the summary of an audit. There is room for it, so that no write takes memory.
fn write_audit(rt: &HostRuntime, text: &mut Vec<u8>) -> Result<()> {
    match summary(rt.alloc(), text) {
        Err(
            AuditFault::OutOfMemory
            | AuditFault::Trace(TraceFault::OutOfMemory)
            | AuditFault::Recording(RecordingFault::OutOfMemory),
        ) => {
            if !text.is_empty() {
                bail!("a part of a summary");
            }
            println!(rt; "audit: out of memory")?;
            summary(rt.alloc(), text)?;
        }
        audited => audited?,
    }
    io::writer(rt).write_all(text)?;
    Ok(())
}

fn summary(alloc: Global, text: &mut Vec<u8>) -> Result<(), AuditFault> {
    let mut trace = Watched::new(FROZEN.as_bytes());
    let mut out = Watched::new(text);
    run_audit(alloc, &mut trace, &mut out, true)
}

// Plans the burst. The line before it says where its requests begin.
fn plan_burst(rt: &HostRuntime, net: &Net) -> Result<()> {
    println!(rt; "planning")?;
    let best: BestPlan = match plan(rt.alloc(), net) {
        Ok(best) => best,
        Err(_) => {
            println!(rt; "plan: out of memory")?;
            plan(rt.alloc(), net)?
        }
    };
    tell_cost(rt, net, &best)
}

// Plans the burst again, its parts at once, and tells of each part when it is begun.
fn plan_at_once<T: Threads + Sync>(rt: &HostRuntime, threads: &T, net: &Net) -> Result<()> {
    let progress = Telling { rt };
    println!(rt; "planning at once")?;
    let best: BestPlan = match plan_with(threads, rt.alloc(), net, &progress) {
        Ok(best) => best,
        Err(_) => {
            println!(rt; "plan at once: out of memory")?;
            plan_with(threads, rt.alloc(), net, &progress)?
        }
    };
    tell_cost(rt, net, &best)
}

// Prints the progress that it receives.
#[derive(Drop)]
struct Telling<'a> {
    rt: &'a HostRuntime,
}

impl PlanProgress for Telling<'_> {
    fn begun(&self, adapter: u32) {
        let _ = println!(self.rt; "begun {adapter}");
    }
}

fn tell_cost(rt: &HostRuntime, net: &Net, best: &BestPlan) -> Result<()> {
    if best.schedule.len() != net.stays() as usize {
        bail!("another number of stays");
    }
    println!(rt; "cost {:?}", cost(net, &best.schedule))?;
    Ok(())
}

// All commands come in round 1, and a half of them is sent in each of the rounds 3 and 4. The adapter takes no more and the device does,
// so that prices of the device's openings don't prove the order by weight, and a guess is made.
fn burst(alloc: Global) -> Result<History> {
    let device = Device {
        bus: 0,
        target: 1,
        lun: 0,
        openings: BURST - 1,
    };
    let config = Config::new(alloc, &[BURST / 2], &[device], &[0])?;
    let mut xpt = Xpt::open(alloc, config, Limits::most())?;
    for _ in 0..BURST {
        xpt.submit(0, 0, 1152, 4, Flags::none())?;
    }
    xpt.tick()?;
    for _ in 0..2 {
        xpt.tick()?;
        send_half(&mut xpt)?;
    }
    Ok(xpt.into_history(alloc)?)
}

fn send_half(xpt: &mut Xpt) -> Result<()> {
    for _ in 0..BURST / 2 {
        if let Sent::Command(command) = xpt.send_next(0)? {
            xpt.done(command.ccb, Outcome::of_status(0x01))?;
        }
    }
    Ok(())
}
