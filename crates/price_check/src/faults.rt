//! The first stay that makes a schedule inadmissible.

ghost use Rattle.std.specs.Prelude.{◌≡◌, ℕ, ◌+◌, ◌*◌, ◌^◌, ◌<◌, ◌≤◌, [], ◌∷◌, length, slice_index, slice_set, MatchOption, IfNone};
ghost use Rattle.price_check.specs.Words.{rows, adapter, adapter_resource, instance_of_rows, live_of_rows, IsSound, IsAdmissible};
ghost use Rattle.price_check.specs.Faults.{at_row, is_link_over, fault_at, IsFirstFault};
ghost use Rattle.price_check.specs.Tally.{IsTally, IsCounted};

use crate::verdict::Cause;
use round_net::{Net, Schedule, cell};

/// The number of the first stay with whose place in the schedule something is wrong, and what. The list has to have a count
/// for each cell of the net, and is used up.
pub fn first_fault(net: &Net, schedule: &Schedule, counts: &mut [u32]) -> Option<(u32, Cause)>
    requires size { length schedule.now ≡ (instance_of_rows net.now).stays }
    requires cells { let n = instance_of_rows net.now in rows n * n.rounds ≤ length counts.old }
    ensures found { MatchOption result
        (IsAdmissible (instance_of_rows net.now) (slice_index schedule.now))
        (λ found. IsFirstFault (instance_of_rows net.now) (slice_index schedule.now) found.0 found.1) }
    ensures sound { IsSound (instance_of_rows net.now) (live_of_rows net.now) }
{
    clear(counts);
    for stay in 0..net.stays() {
        if let Some(cause) = fault(net, schedule, stay, counts) {
            return Some((stay, cause));
        }
    }
    None
}

fn clear(counts: &mut [u32])
    ensures { (i : ℕ) → slice_index counts.new i ≡ 0 }
{
    for count in counts.iter_mut() {
        *count = 0;
    }
}

// What is wrong with the stay's place, where nothing is with those before it. Otherwise it is counted too.
#[tactic(auto, unfolding(crate::specs::Faults::fault_at))]
fn fault(net: &Net, schedule: &Schedule, stay: u32, counts: &mut [u32]) -> Option<Cause>
    requires size { length schedule.now ≡ (instance_of_rows net.now).stays }
    requires cells { let n = instance_of_rows net.now in rows n * n.rounds ≤ length counts.old }
    requires stay { stay < (instance_of_rows net.now).stays }
    requires tally { IsTally (instance_of_rows net.now) (slice_index schedule.now) counts.old stay }
    ensures fault { result ≡ fault_at (instance_of_rows net.now) (slice_index schedule.now) stay }
    ensures tally { IfNone result (IsTally (instance_of_rows net.now) (slice_index schedule.now) counts.new (stay + 1)) }
{
    let round = schedule.round(stay);
    if round < net.arrival(stay) {
        return Some(Cause::Early);
    }
    if round > net.last(stay) {
        return Some(Cause::Late);
    }
    let (at_device, at_adapter) = tally(net, schedule, stay, counts);
    let is_link_over = tally_link(net, schedule, stay, counts);
    if at_device > net.dev_cap(net.device(stay), round) {
        Some(Cause::DeviceFull)
    } else if at_adapter > net.sim_cap(net.adapter(stay), round) {
        Some(Cause::AdapterFull)
    } else if is_link_over {
        Some(Cause::LinkFull)
    } else {
        None
    }
}

// Counts the stay in its round, and answers how many use its device's row and its adapter's there now.
fn tally(net: &Net, schedule: &Schedule, stay: u32, counts: &mut [u32]) -> (u32, u32)
    requires size { length schedule.now ≡ (instance_of_rows net.now).stays }
    requires cells { let n = instance_of_rows net.now in rows n * n.rounds ≤ length counts.old }
    requires stay { stay < (instance_of_rows net.now).stays }
    requires first { 1 ≤ slice_index schedule.now stay }
    requires last { slice_index schedule.now stay ≤ (instance_of_rows net.now).rounds }
    requires tally { IsTally (instance_of_rows net.now) (slice_index schedule.now) counts.old stay }
    ensures at_device { let n = instance_of_rows net.now in result.0 ≡ at_row n (slice_index schedule.now) (n.device stay) stay }
    ensures at_adapter { let n = instance_of_rows net.now in result.1 ≡ at_row n (slice_index schedule.now) (adapter_resource n (adapter n stay)) stay }
    ensures counted { let n = instance_of_rows net.now in IsCounted n (slice_index schedule.now) counts.new stay (n.device stay ∷ adapter_resource n (adapter n stay) ∷ []) }
{
    let round = schedule.round(stay);
    let device = net.device(stay);
    let adapter = net.adapter_resource(net.adapter(stay));
    let at_device = count(counts, cell(net.rounds(), device, round));
    let at_adapter = count(counts, cell(net.rounds(), adapter, round));
    (at_device, at_adapter)
}

// Counts the stay in its round on its link too, if its adapter is on one, and answers whether more use it there now than it
// takes.
fn tally_link(net: &Net, schedule: &Schedule, stay: u32, counts: &mut [u32]) -> bool
    requires size { length schedule.now ≡ (instance_of_rows net.now).stays }
    requires cells { let n = instance_of_rows net.now in rows n * n.rounds ≤ length counts.old }
    requires stay { stay < (instance_of_rows net.now).stays }
    requires first { 1 ≤ slice_index schedule.now stay }
    requires last { slice_index schedule.now stay ≤ (instance_of_rows net.now).rounds }
    requires counted { let n = instance_of_rows net.now in IsCounted n (slice_index schedule.now) counts.old stay (n.device stay ∷ adapter_resource n (adapter n stay) ∷ []) }
    ensures over { result ≡ is_link_over (instance_of_rows net.now) (slice_index schedule.now) stay }
    ensures tally { IsTally (instance_of_rows net.now) (slice_index schedule.now) counts.new (stay + 1) }
{
    let Some(link) = net.link(stay) else {
        return false;
    };
    let round = schedule.round(stay);
    let at = cell(net.rounds(), net.link_resource(link), round);
    count(counts, at) > net.link_cap(link, round)
}

// Counts one more at a place, and answers how many there are now.
fn count(counts: &mut [u32], at: usize) -> u32
    requires within { at < length counts.old }
    requires few { slice_index counts.old at < 2 ^ 31 }
    ensures now { result ≡ slice_index counts.old at + 1 }
    ensures counted { counts.new ≡ slice_set counts.old at (slice_index counts.old at + 1) }
{
    counts[at] += 1;
    counts[at]
}
