//! The waits of a stay: runs of rounds with one cause.

ghost use Rattle.std.specs.Prelude.{◌≡◌, ◌<◌, ◌≤◌, ◌+◌, ◌-◌, ℕ, IfOk};
ghost use Rattle.std.specs.List.{range_with_len};
ghost use Rattle.wait_causes.specs.Origins.{instance_in, cause_of};
ghost use Rattle.wait_causes.specs.Waits.{AreWaits, AreBegun};
ghost use Rattle.round_net.specs.declared.cause.WaitCause.{WaitCause as Causes};

use crate::origin::Origin;
use round_net::WaitCause;
use std::alloc::{AllocError, Global};

/// Rounds in a row that a stay waited for one cause.
#[derive(Clone, Copy)]
pub struct Wait {
    /// The cause.
    pub cause: WaitCause,
    /// The first of the rounds, from 1.
    pub first: u32,
    /// The last of the rounds.
    pub last: u32,
}

/// The waits in the rounds from the arrival to the one before the send.
pub(crate) fn waits_in(
    alloc: Global,
    origin: &Origin,
    device: u32,
    arrival: u32,
    live: u32,
) -> Result<Vec<Wait>, AllocError>
    requires device { device < (instance_in origin.now).devices }
    requires first { 1 ≤ arrival }
    requires last { live ≤ (instance_in origin.now).rounds }
    ensures { IfOk result (λ waits. AreWaits (cause_of origin.now device) (range_with_len arrival (live - arrival)) waits.items) }
{
    let mut waits = Vec::new(alloc);
    if live <= arrival {
        return Ok(waits);
    }
    let mut wait = begun(origin.cause(device, arrival), arrival);
    for more in 1..live - arrival {
        let round = arrival + more;
        let cause = origin.cause(device, round);
        wait = behind(&mut waits, wait, cause, round)?;
    }
    waits.push(wait)?;
    Ok(waits)
}

// A wait of one round.
fn begun(cause: WaitCause, round: u32) -> Wait
    ensures { result ≡ record { cause = cause; first = round; last = round } }
{
    Wait {
        cause,
        first: round,
        last: round,
    }
}

// The wait that stands after one round more, which joins the last one if it has its cause. Otherwise the last one is put
// after the others.
#[tactic(auto, using(crate::proofs::WaitLemmas::begun_joined, crate::proofs::WaitLemmas::begun_next))]
fn behind(
    waits: &mut Vec<Wait>,
    wait: Wait,
    cause: WaitCause,
    round: u32,
) -> Result<Wait, AllocError>
    ensures { (f : ℕ → Causes) (first n : ℕ) → cause ≡ f round → round ≡ first + n → AreBegun f first n waits.old.items wait → IfOk result (λ next. AreBegun f first (n + 1) waits.new.items next) }
{
    if wait.cause.is(cause) {
        return Ok(Wait {
            last: round,
            ..wait
        });
    }
    waits.push(wait)?;
    Ok(begun(cause, round))
}
