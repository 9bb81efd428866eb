//! What there is to see. Nothing changes.

ghost use Rattle.std.specs.Prelude.{◌≡◌, ◌<◌, MatchOption, length, if◌then◌else◌};
ghost use Rattle.event_rules.specs.Counts.{alive};
ghost use Rattle.event_rules.specs.Stays.{stays_begun};
ghost use Rattle.event_rules.specs.declared.refusal.Refusal.TheVariants.{NoDevice};
ghost use Rattle.xpt_state.specs.Looks.{look as look_of, has_head, nth_case};
ghost use Rattle.camxpt_c.specs.Attached.{user_of};
ghost use Rattle.camxpt_c.specs.Codes.{code_of};
ghost use Rattle.camxpt_c.specs.Shapes.{counts_at, device_counts, IsCase, IsLook};
ghost use Rattle.camxpt_c.specs.declared.codes.TheConstants.{OK, NONE, E_CLOSED};

use crate::codes::{E_CLOSED, NONE, OK, code_of};
use crate::handle::CamXpt;
use crate::shapes::{CamxptCase, CamxptDeviceCounts, CamxptLook, case_shape};
use event_rules::Refusal;
use std::alloc::Global;
use xpt_core::State;
use xpt_state::Xpt;

/// Whether the lane's adapter has something to send: `OK` or `NONE`. A lane that isn't there has nothing.
#[unsafe(no_mangle)]
pub extern "C" fn camxpt_raw_has_head(alloc: Global, handle: &mut CamXpt, lane: u32) -> i32
    ensures same { handle.new.body.kept ≡ handle.old.body.kept }
    ensures head { MatchOption handle.old.body.kept (result ≡ E_CLOSED) (λ p. result ≡ (if has_head p.xpt.config p.xpt.events lane then OK else NONE)) }
{
    let Some(port) = handle.take(alloc) else {
        return E_CLOSED;
    };
    let code = if port.xpt().has_head(lane) { OK } else { NONE };
    handle.put(port);
    code
}

/// Of the CCBs that wait for a decision, the one that completed with this many before it, and its pointer: `OK`, or `NONE` if
/// no more wait.
#[unsafe(no_mangle)]
pub extern "C" fn camxpt_raw_case_at(
    alloc: Global,
    handle: &mut CamXpt,
    number: usize,
    case: &mut CamxptCase,
) -> i32
    ensures same { handle.new.body.kept ≡ handle.old.body.kept }
    ensures case { MatchOption handle.old.body.kept ((result ≡ E_CLOSED) × (case.new ≡ case.old)) (λ p.
        MatchOption (nth_case p.xpt.events number)
        ((result ≡ NONE) × (case.new ≡ case.old))
        (λ c. (result ≡ OK) × IsCase c (user_of p c.ccb) case.new)) }
{
    let Some(port) = handle.take(alloc) else {
        return E_CLOSED;
    };
    let code = match port.xpt().nth_case(number) {
        Some(found) => {
            *case = case_shape(found, port.user(found.ccb));
            OK
        }
        None => NONE,
    };
    handle.put(port);
    code
}

/// All that there is to see, in counts: beside what the transport counts, how many stays have begun and how many CCBs are alive.
#[unsafe(no_mangle)]
pub extern "C" fn camxpt_raw_look(alloc: Global, handle: &mut CamXpt, look: &mut CamxptLook) -> i32
    ensures same { handle.new.body.kept ≡ handle.old.body.kept }
    ensures look { MatchOption handle.old.body.kept ((result ≡ E_CLOSED) × (look.new ≡ look.old)) (λ p. (result ≡ OK) × IsLook (look_of p.xpt.config p.xpt.events) look.new) }
    ensures limits { MatchOption handle.old.body.kept (look.new ≡ look.old) (λ p. (look.new.stays ≡ length (stays_begun p.xpt.events)) × (look.new.alive ≡ alive p.xpt.events)) }
{
    let Some(port) = handle.take(alloc) else {
        return E_CLOSED;
    };
    let seen = port.xpt().look();
    *look = CamxptLook {
        length: seen.length,
        round: seen.round,
        in_flight: seen.in_flight,
        cases: seen.cases,
        waiting: seen.waiting,
        stays: port.xpt().state().devices().stay_count(),
        alive: port.xpt().state().alive(),
        heads: seen.heads,
    };
    handle.put(port);
    OK
}

/// What there is to see of a device, in counts: `OK`, or the number of `NoDevice` if there is no such device.
#[unsafe(no_mangle)]
pub extern "C" fn camxpt_raw_device_state(
    alloc: Global,
    handle: &mut CamXpt,
    device: u32,
    counts: &mut CamxptDeviceCounts,
) -> i32
    ensures same { handle.new.body.kept ≡ handle.old.body.kept }
    ensures state { MatchOption handle.old.body.kept ((result ≡ E_CLOSED) × (counts.new ≡ counts.old)) (λ p.
        MatchOption (counts_at p.xpt.config p.xpt.events device)
        ((result ≡ code_of NoDevice) × (counts.new ≡ counts.old))
        (λ found. (result ≡ OK) × (counts.new ≡ found))) }
{
    let Some(port) = handle.take(alloc) else {
        return E_CLOSED;
    };
    let code = match counts_at(port.xpt(), device) {
        Some(found) => {
            *counts = found;
            OK
        }
        None => code_of(Refusal::NoDevice),
    };
    handle.put(port);
    code
}

// The counts of a device, if there is one of this number.
fn counts_at(xpt: &Xpt, device: u32) -> Option<CamxptDeviceCounts>
    ensures { result ≡ counts_at xpt.now.config xpt.now.events device }
{
    if (device as usize) < xpt.config().devices().len() {
        Some(device_counts(xpt.state(), device))
    } else {
        None
    }
}

fn device_counts(state: &State, device: u32) -> CamxptDeviceCounts
    requires { device < length state.now.config.devices }
    ensures { result ≡ device_counts state.now.config state.now.events device }
{
    let _events = state.events();
    let queue = state.devices().queue(device);
    CamxptDeviceCounts {
        queued: queue.queued() as u32,
        requeued: queue.requeued() as u32,
        in_flight: queue.in_flight(),
        openings: queue.openings(),
        next_openings: queue.next_openings(),
        callers: queue.callers(),
        errors: queue.errors(),
    }
}
