//! A net with changes: what devices, adapters and links take in each round of it.

ghost use Rattle.std.specs.Prelude.{◌≡◌, ℕ, true, ◌+◌, ◌<◌, ◌≤◌, ◌==◌, All, OnOk, IfOk, length, slice_index};
ghost use Rattle.round_net.specs.declared.limits.TheConstants.{MAX_CAP, MAX_NET_ROUNDS};
ghost use Rattle.round_net.specs.Instance.{rows};
ghost use Rattle.round_net.specs.Rows.{cell, instance_of_rows};
ghost use Rattle.round_net.specs.Nets.{table};
ghost use Rattle.round_net.specs.Schedules.{IsAdmissible, cost};
ghost use Rattle.what_if.specs.Changes.{IsChangeOf};
ghost use Rattle.what_if.specs.Below.{together, never_limits};
ghost use Rattle.what_if.specs.Caps.{changes_of, widest, changed_cap, changed_net};

use crate::below::carried;
use crate::change::Change;
use round_net::{MAX_CAP, Net, cell};
use std::alloc::{AllocError, Global};

/// The net with these changes. Each is made to what was recorded; of several of one device, adapter or link, the one that
/// gives most in a round counts there. An adapter that in each round takes at least what the devices on it take together does so in
/// the changed net too, and so does a link for the adapters on it: what never limited doesn't limit. Nothing takes more than
/// `MAX_CAP` in a round, and all else is as it is in the net, of which the changes have to be. It fails only if there is no memory.
pub fn changed(alloc: Global, net: &Net, changes: &[Change]) -> Result<Net, AllocError>
    requires { All (IsChangeOf (instance_of_rows net.now)) changes.now }
    ensures net { IfOk result (λ wide. wide ≡ changed_net net.now changes.now) }

    // What fits the net fits the changed one too, at the same cost.
    ensures wider { IfOk result (λ wide. (f : ℕ → ℕ) → IsAdmissible (instance_of_rows net.now) f → IsAdmissible (instance_of_rows wide) f) }
    ensures cost { IfOk result (λ wide. (f : ℕ → ℕ) → cost (instance_of_rows wide) f ≡ cost (instance_of_rows net.now) f) }

    // What never limits what is right below it doesn't limit it in the changed net either.
    ensures no_new_limit { IfOk result (λ wide. (row : ℕ) → row < rows (instance_of_rows net.now) → never_limits (instance_of_rows net.now) row ≡ true → never_limits (instance_of_rows wide) row ≡ true) }
{
    let _rounds = net.rounds();
    let _config = net.config();
    net.with_caps(alloc, changed_caps(alloc, net, changes)?)
}

// What each row takes in each round of the changed net.
fn changed_caps(alloc: Global, net: &Net, changes: &[Change]) -> Result<Vec<u32>, AllocError>
    requires { All (IsChangeOf (instance_of_rows net.now)) changes.now }
    ensures { let n = instance_of_rows net.now in IfOk result (λ caps. caps.items ≡ table (rows n) n.rounds (changed_cap n net.now.config changes.now)) }
{
    let mut caps = Vec::with_capacity(alloc, net.cells())?;
    for row in 0..net.rows() {
        push_row(alloc, net, changes, row, &mut caps)?;
    }
    Ok(caps)
}

// Puts what the row takes in each round of the changed net after what the rows before it take.
fn push_row(
    alloc: Global,
    net: &Net,
    changes: &[Change],
    row: u32,
    caps: &mut Vec<u32>,
) -> Result<(), AllocError>
    requires changes { All (IsChangeOf (instance_of_rows net.now)) changes.now }
    requires row { row < rows (instance_of_rows net.now) }
    requires so_far { let n = instance_of_rows net.now in caps.old.items ≡ table row n.rounds (changed_cap n net.now.config changes.now) }
    ensures { let n = instance_of_rows net.now in OnOk result (caps.new.items ≡ table (row + 1) n.rounds (changed_cap n net.now.config changes.now)) }
{
    let own = changes_of(alloc, net, changes, row)?;
    let parts = carried(alloc, net, row)?;
    for before in 0..net.rounds() {
        let round = before + 1;
        let cap = widest(net, &own, net.cap(row, round));
        caps.push(cap.max(together(net.rounds(), &parts, caps, round)))?;
    }
    Ok(())
}

// The changes of the row.
fn changes_of(
    alloc: Global,
    net: &Net,
    changes: &[Change],
    row: u32,
) -> Result<Vec<Change>, AllocError>
    requires { All (IsChangeOf (instance_of_rows net.now)) changes.now }
    ensures { IfOk result (λ own. own.items ≡ changes_of (instance_of_rows net.now) changes.now row) }
{
    let mut own = Vec::new(alloc);
    for change in changes {
        if change.resource.row(net) == row {
            own.push(*change)?;
        }
    }
    Ok(own)
}

// The greatest of what was taken and what each of these changes makes of it.
fn widest(net: &Net, own: &[Change], most: u32) -> u32
    requires own { All (IsChangeOf (instance_of_rows net.now)) own.now }
    requires most { most ≤ MAX_CAP }
    ensures { result ≡ widest net.now.config own.now most }
{
    let mut cap = most;
    for change in own {
        let openings = change.resource.openings(net.config());
        cap = cap.max(change.widening.widened(openings, most));
    }
    cap
}

// What those rows take together in the round by a list of caps, at most `MAX_CAP`.
fn together(rounds: u32, parts: &[u32], caps: &[u32], round: u32) -> u32
    requires rounds { rounds ≤ MAX_NET_ROUNDS }
    requires parts { All (λ part. cell rounds part round < length caps.now) parts.now }
    ensures { result ≡ together (λ part. slice_index caps.now (cell rounds part round)) parts.now }
{
    let mut sum = 0u32;
    for part in parts {
        sum = sum
            .saturating_add(caps[cell(rounds, *part, round)])
            .min(MAX_CAP);
    }
    sum
}
