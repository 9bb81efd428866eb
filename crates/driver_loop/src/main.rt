//! A driver's loop over a transport. One command goes to a disk, which answers it with a CAM status for each word of two
//! hexadecimal digits; without statuses it is busy once (05) and then done (01). Each answer of the transport is a line.
//! With `--trace` as the first word the trace of the run is printed in place of these lines.
#![tactic(auto)]

use crate::fault::Fault;
use crate::lines::Lines;
use cam_types::{Config, Device, Flags, Limits, Outcome, Watched};
use sense_class::{CAM_BUSY, CAM_REQ_CMP, Class};
use std::alloc::Global;
use std::process::ExitCode;
use std::{env, io};
use trace_file::write_trace;
use xpt_state::{Case, Sent, Xpt};

mod fault;
mod lines;

fn main(rt: HostRuntime) -> io::Result<ExitCode> {
    match run(&rt) {
        Ok(()) => Ok(ExitCode::SUCCESS),
        Err(fault) => {
            eprintln!(rt; "driver_loop: {fault}")?;
            Ok(ExitCode::FAILURE)
        }
    }
}

fn run(rt: &HostRuntime) -> Result<(), Fault> {
    let words: Vec<String> = env::args(rt)?.collect(rt.alloc())?;
    match words.get(1) {
        Some(word) if word.as_str() == "--trace" => serve(rt, &words[2..], true),
        Some(_) => serve(rt, &words[1..], false),
        None => serve(rt, &[], false),
    }
}

// Runs one command over a disk that answers with these statuses. Prints each answer, or the trace at the end.
fn serve(rt: &HostRuntime, statuses: &[String], traced: bool) -> Result<(), Fault> {
    let alloc = rt.alloc();
    let lines = Lines::new(rt, !traced);
    let mut xpt = open(alloc)?;
    let ccb = xpt.submit(0, 0, 1152, 4, Flags::none())?;
    lines.print(format_args!("submit ccb {ccb}"))?;
    if statuses.is_empty() {
        round(&lines, &mut xpt, CAM_BUSY)?;
        round(&lines, &mut xpt, CAM_REQ_CMP)?;
    }
    for status in statuses {
        let Ok(status) = u8::from_str_radix(status, 16) else {
            return Err(Fault::Status);
        };
        round(&lines, &mut xpt, status)?;
    }
    let history = xpt.into_history(alloc)?;
    lines.print(format_args!("history of {} events", history.events().len()))?;
    if traced {
        write_trace(alloc, &history, &mut Watched::new(io::writer(rt)))?;
    }
    Ok(())
}

// A transport of one disk of one opening, on one adapter of one, with one lane. The memory of all its calls is taken here.
fn open(alloc: Global) -> Result<Xpt, Fault> {
    let disk = Device {
        bus: 0,
        target: 1,
        lun: 0,
        openings: 1,
    };
    let config = Config::new(alloc, &[1], &[disk], &[0])?;
    Ok(Xpt::open(alloc, config, Limits::most())?)
}

// What the lane may send is sent, and answered with the status; what failed is decided; and the next round opens.
fn round(lines: &Lines<'_>, xpt: &mut Xpt, status: u8) -> Result<(), Fault> {
    match xpt.send_next(0)? {
        Sent::Command(command) => {
            lines.print(format_args!("send ccb {} attempt {}", command.ccb, command.attempt))?;
            complete(lines, xpt, command.ccb, status)?;
        }
        Sent::Idle(why) => lines.print(format_args!("idle {why}"))?,
    }
    for _ in 0..xpt.look().cases {
        if let Some(case) = xpt.next_case() {
            decide(lines, xpt, case)?;
        }
    }
    let number = xpt.tick()?;
    lines.print(format_args!("round {number}"))?;
    Ok(())
}

// The disk has answered the command with the status.
fn complete(lines: &Lines<'_>, xpt: &mut Xpt, ccb: u32, status: u8) -> Result<(), Fault> {
    let done = xpt.done(ccb, Outcome::of_status(status))?;
    lines.print(format_args!("done {:?} value {:02x}", done.class, done.value))?;
    Ok(())
}

// A CCB that failed is sent again or given back, as its class asks.
fn decide(lines: &Lines<'_>, xpt: &mut Xpt, case: Case) -> Result<(), Fault> {
    let Case { ccb, class } = case;
    match class {
        Class::FreeRequeue | Class::CountedRequeue => {
            xpt.requeue(ccb)?;
            lines.print(format_args!("requeue ccb {ccb}"))?;
        }
        Class::Complete | Class::Fail(_) => {
            xpt.finish(ccb)?;
            lines.print(format_args!("finish ccb {ccb}"))?;
        }
    }
    Ok(())
}
