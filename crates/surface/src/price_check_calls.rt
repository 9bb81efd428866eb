//! The calls of `price_check`: schedules and prices that are tested, and reports that are read.

ghost use Rattle.std.specs.Prelude.{◌≡◌};
ghost use Rattle.round_net.specs.Nets.{net_of};

use crate::tell::{begin, end, tell};
use crate::texts::{FROZEN, REPORT};
use anyhow::Result;
use cam_event::{History, Stay};
use cam_types::Watched;
use price_check::{Cause, Claim, ReportFault, Verdict, check, read_report};
use round_net::{Net, Prices, Schedule};
use std::alloc::Global;
use trace_file::read_trace;

/// Makes each call once, and prints a line of what they answer.
pub fn call_price_check(rt: &HostRuntime) -> Result<()> {
    let alloc: Global = rt.alloc();
    begin(rt, "price_check")?;
    let history = read_trace(alloc, &mut Watched::new(FROZEN.as_bytes()))?;
    let net = Net::of(alloc, &history)?;
    call_all(rt, alloc, &history, &net)?;
    end(rt)
}

fn call_all(rt: &HostRuntime, alloc: Global, history: &History, net: &Net) -> Result<()>
    requires net { net.now ≡ net_of history.now.config history.now.events }
{
    call_check(rt, alloc, net, &[1, 5])?;
    call_check(rt, alloc, net, &[1, 1])?;
    call_report(rt, alloc, history, net)?;
    call_fault(rt, alloc, history, net)
}

// The verdict on a schedule at prices of 0.
fn call_check(rt: &HostRuntime, alloc: Global, net: &Net, rounds: &[u32]) -> Result<()> {
    let schedule = Schedule::new(alloc, rounds)?;
    let prices = Prices::zero(alloc, net)?;
    let mut counts: Vec<u32> = vec![in alloc; 0; net.cells()]?;
    if schedule.len() != net.stays() as usize {
        return Ok(());
    }
    let verdict: Verdict = check(net, &schedule, &prices, &mut counts);
    let answer: [u64; 3] = match verdict {
        Verdict::Proved => [0, 0, 0],
        Verdict::Gap(gap) => [1, u64_of(gap), 0],
        Verdict::NotAdmissible(stay, cause) => stay_and_cause(stay, cause),
    };
    tell(rt, "verdict", &answer)
}

// A gap as far as it has 64 bits.
fn u64_of(gap: u128) -> u64 {
    u64::try_from(gap).unwrap_or(u64::MAX)
}

fn stay_and_cause(stay: Stay, cause: Cause) -> [u64; 3] {
    [2, stay.ccb as u64, cause_number(cause)]
}

fn call_report(rt: &HostRuntime, alloc: Global, history: &History, net: &Net) -> Result<()>
    requires net { net.now ≡ net_of history.now.config history.now.events }
{
    let mut reader = Watched::new(REPORT.as_bytes());
    let read: Result<Claim, ReportFault> = read_report(alloc, &mut reader, history, net);
    let claim: Claim = read?;
    let (schedule, prices): (&Schedule, &Prices) = (&claim.schedule, &claim.prices);
    let (best, excess): (u64, u64) = (claim.best, claim.excess);
    tell(
        rt,
        "stays, cells, best, excess",
        &[schedule.len() as u64, prices.cells() as u64, best, excess],
    )
}

fn call_fault(rt: &HostRuntime, alloc: Global, history: &History, net: &Net) -> Result<()>
    requires net { net.now ≡ net_of history.now.config history.now.events }
{
    let mut reader = Watched::new(b"".as_slice());
    let read: Result<Claim, ReportFault> = read_report(alloc, &mut reader, history, net);
    let number: u64 = match read {
        Ok(_) => 0,
        Err(fault) => number_of(fault),
    };
    tell(rt, "fault", &[number])
}

// The number of a cause, in the order in which they are tested.
fn cause_number(cause: Cause) -> u64 {
    match cause {
        Cause::Early => 1,
        Cause::Late => 2,
        Cause::DeviceFull => 3,
        Cause::AdapterFull => 4,
        Cause::LinkFull => 5,
    }
}

// The number of a fault, in the order of their names.
fn number_of(fault: ReportFault) -> u64 {
    match fault {
        ReportFault::BadLine(_) => 1,
        ReportFault::PriceRange(_) => 2,
        ReportFault::WrongStays(_) => 3,
        ReportFault::TooLong => 4,
        ReportFault::ReadFailed => 5,
        ReportFault::OutOfMemory => 6,
    }
}
