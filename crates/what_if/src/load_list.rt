//! How many stays use each row in each round.

ghost use Rattle.std.specs.Prelude.{◌≡◌, ℕ, ◌+◌, ◌*◌, ◌==◌, ◌^◌, ◌<◌, ◌≤◌, cond, length, slice_index, IfOk};
ghost use Rattle.round_net.specs.Instance.{rows};
ghost use Rattle.round_net.specs.Rows.{cell, instance_of_rows, live_of_rows};
ghost use Rattle.round_net.specs.LoadLists.{AreRounds, AreLoads, cells_at};
ghost use Rattle.round_net.specs.Sound.{IsSound};

use round_net::{Net, cell};
use std::alloc::{AllocError, Global};

/// How many stays use each row in each round, where each stay is in the round of its number in the list. `cell` says where a
/// count stands.
pub(crate) fn load_list(alloc: Global, net: &Net, rounds: &[u32]) -> Result<Vec<u32>, AllocError>
    requires size { length rounds.now ≡ (instance_of_rows net.now).stays }
    requires within { AreRounds (instance_of_rows net.now) (slice_index rounds.now) }
    ensures { let n = instance_of_rows net.now in IfOk result (λ counts. AreLoads n (slice_index rounds.now) n.stays counts.items) }
{
    let mut counts = vec![in alloc; 0; net.cells()]?;
    for stay in 0..net.stays() {
        add(net, &mut counts, stay, rounds[stay as usize]);
    }
    Ok(counts)
}

// Counts a stay in the rows of its device, of its adapter, and of the adapter's link.
fn add(net: &Net, counts: &mut [u32], stay: u32, round: u32)
    requires stay { stay < (instance_of_rows net.now).stays }
    requires first { 1 ≤ round }
    requires last { round ≤ (instance_of_rows net.now).rounds }
    requires cells { let n = instance_of_rows net.now in length counts.old ≡ rows n * n.rounds }
    requires small { stay < 2 ^ 29 }
    requires few { (at : ℕ) → slice_index counts.old at ≤ 3 * stay }
    ensures each { (at : ℕ) → slice_index counts.new at ≡ slice_index counts.old at + cells_at (instance_of_rows net.now) stay round at }
    ensures few { (at : ℕ) → slice_index counts.new at ≤ 3 * (stay + 1) }
    ensures sound { IsSound (instance_of_rows net.now) (live_of_rows net.now) }
{
    count(net, counts, net.device(stay), round);
    count(net, counts, net.adapter_resource(net.adapter(stay)), round);
    match net.link(stay) {
        Some(link) => count(net, counts, net.link_resource(link), round),
        None => {}
    }
}

// Counts one more in a round of a row.
fn count(net: &Net, counts: &mut [u32], row: u32, round: u32)
    requires row { row < rows (instance_of_rows net.now) }
    requires first { 1 ≤ round }
    requires last { round ≤ (instance_of_rows net.now).rounds }
    requires cells { let n = instance_of_rows net.now in length counts.old ≡ rows n * n.rounds }
    requires few { (at : ℕ) → slice_index counts.old at < 2 ^ 31 }
    ensures counted { (at : ℕ) → slice_index counts.new at ≡ slice_index counts.old at + cond (cell (instance_of_rows net.now).rounds row round == at) 1 0 }
    ensures sound { IsSound (instance_of_rows net.now) (live_of_rows net.now) }
{
    let at = cell(net.rounds(), row, round);
    counts[at] += 1;
}
