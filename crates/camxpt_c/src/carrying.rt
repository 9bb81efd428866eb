//! Carries what waits over to a fresh transport.

ghost use Rattle.std.specs.Prelude.{◌≡◌, ◌⊎◌, None, Some, length, map, OnOk, IfOk, IfErr};
ghost use Rattle.event_rules.specs.Counts.{commands};
ghost use Rattle.event_rules.specs.Legal.{rules_of};
ghost use Rattle.xpt_carry.specs.Carry.{carry_fault};
ghost use Rattle.camxpt_c.specs.Attached.{user_of};
ghost use Rattle.camxpt_c.specs.Carries.{carry_code, old_numbers, port_gone_on, IsCarry, IsCarryFrom, IsUncarried};
ghost use Rattle.camxpt_c.specs.Configs.{bounds_of};
ghost use Rattle.camxpt_c.specs.Tracing.{IsCopy};
ghost use Rattle.camxpt_c.specs.declared.codes.TheConstants.{OK, E_SPACE, E_MEMORY};

use crate::codes::{E_CLOSED, E_LIMIT, E_MEMORY, E_OPEN, E_SPACE, OK, UNDECIDED, code_of};
use crate::handle::CamXpt;
use crate::opening::limits_in;
use crate::port::Port;
use crate::shapes::CamxptLimits;
use cam_types::Limits;
use event_rules::Refusal;
use std::alloc::{AllocError, Global};
use xpt_carry::{Carried, CarryFault, carry};

/// Opens the closed handle `to` as a fresh transport of these limits with what waits in `from`, which stays as it is, and gives
/// the numbers that its CCBs have there, and how many these are. Each CCB keeps its pointer. If there is no room for the numbers,
/// `to` stays closed.
#[unsafe(no_mangle)]
pub extern "C" fn camxpt_raw_carry(
    alloc: Global,
    from: &mut CamXpt,
    to: &mut CamXpt,
    limits: &CamxptLimits,
    numbers: &mut [u32],
    count: &mut usize,
) -> i32
    ensures same { from.new.body.kept ≡ from.old.body.kept }
    ensures carry { IsCarry from.old.body.kept (bounds_of limits.now)
        (record { to = to.old.body.kept; numbers = numbers.old; count = count.old })
        (record { to = to.new.body.kept; numbers = numbers.new; count = count.new })
        result }
{
    let Some(port) = from.take(alloc) else {
        return E_CLOSED;
    };
    let code = carry_to(alloc, &port, to, limits, numbers, count);
    from.put(port);
    code
}

// The same from an open handle's transport.
fn carry_to(
    alloc: Global,
    port: &Port,
    to: &mut CamXpt,
    limits: &CamxptLimits,
    numbers: &mut [u32],
    count: &mut usize,
) -> i32
    ensures { IsCarryFrom port.now (bounds_of limits.now)
        (record { to = to.old.body.kept; numbers = numbers.old; count = count.old })
        (record { to = to.new.body.kept; numbers = numbers.new; count = count.new })
        result }
{
    if let Some(open) = to.take(alloc) {
        to.put(open);
        return E_OPEN;
    }
    let Some(limits) = limits_in(limits) else {
        return E_LIMIT;
    };
    match fresh(alloc, port, limits) {
        Ok(made) => keep(to, made, numbers, count),
        Err(code) => code,
    }
}

// A fresh port in a box, and the numbers that its CCBs had.
#[derive(Drop)]
struct Made {
    port: Box<Port>,
    numbers: Vec<u32>,
}

// What waits in a transport, carried over to a fresh one with the pointers of its CCBs.
fn fresh(alloc: Global, port: &Port, limits: Limits) -> Result<Made, i32>
    ensures port { IfOk result (λ made. made.port.value ≡ port_gone_on port.now limits) }
    ensures numbers { IfOk result (λ made. made.numbers.items ≡ old_numbers port.now.xpt) }
    ensures ok { OnOk result (carry_fault (rules_of limits) port.now.xpt.config port.now.xpt.events ≡ None) }
    ensures err { IfErr result (λ code. IsUncarried (carry_fault (rules_of limits) port.now.xpt.config port.now.xpt.events) code) }
{
    match carry(alloc, port.xpt(), limits) {
        Ok(carried) => match with_users(alloc, port, carried) {
            Ok(made) => Ok(made),
            Err(_) => Err(E_MEMORY),
        },
        Err(fault) => Err(carry_code(fault)),
    }
}

// What was carried over from the port's transport, with the pointers that its CCBs had there.
fn with_users(alloc: Global, from: &Port, carried: Carried) -> Result<Made, AllocError>
    requires { length carried.numbers.items ≡ commands carried.xpt.events }
    ensures port { IfOk result (λ made. made.port.value ≡ record { xpt = carried.xpt; users = map (user_of from.now) carried.numbers.items }) }
    ensures numbers { IfOk result (λ made. made.numbers.items ≡ carried.numbers.items) }
{
    let Carried { xpt, numbers } = carried;
    let users = users_of(alloc, from, &numbers)?;
    let port = Port::of(alloc, xpt, &users)?;
    Ok(Made {
        port: Box::new(alloc, port)?,
        numbers,
    })
}

// The pointers that the CCBs of these numbers have in the port.
fn users_of(alloc: Global, from: &Port, numbers: &[u32]) -> Result<Vec<u64>, AllocError>
    ensures { IfOk result (λ users. users.items ≡ map (user_of from.now) numbers.now) }
{
    numbers
        .iter()
        .map(|number| from.user(*number))
        .collect(alloc)
}

// The number of why nothing was carried over.
fn carry_code(fault: CarryFault) -> i32
    ensures { result ≡ carry_code fault }
{
    match fault {
        CarryFault::InFlight => code_of(Refusal::InFlight),
        CarryFault::Undecided => UNDECIDED,
        CarryFault::Refused(why) => code_of(why),
        CarryFault::OutOfMemory => E_MEMORY,
    }
}

// Puts the fresh port into the handle, if there is room for the numbers.
fn keep(to: &mut CamXpt, made: Made, numbers: &mut [u32], count: &mut usize) -> i32
    ensures count { count.new ≡ length made.numbers.items }
    ensures numbers { IsCopy made.numbers.items numbers.old numbers.new result }
    ensures to { ((result ≡ OK) × (to.new.body.kept ≡ Some made.port.value)) ⊎ ((result ≡ E_SPACE) × (to.new.body.kept ≡ to.old.body.kept)) }
{
    let Made { port, numbers: old } = made;
    *count = old.len();
    if old.len() > numbers.len() {
        return E_SPACE;
    }
    numbers[..old.len()].copy_from_slice(&old);
    to.put(port);
    OK
}
