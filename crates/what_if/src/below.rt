//! Adapters that never limit the devices on them, and links that never limit the adapters on them.

ghost use Rattle.std.specs.Prelude.{◌≡◌, ◌+◌, ◌<◌, ◌≤◌, All, IfOk};
ghost use Rattle.round_net.specs.Instance.{rows};
ghost use Rattle.round_net.specs.Rows.{instance_of_rows};
ghost use Rattle.what_if.specs.Below.{row_above, rows_below, is_below, is_enough, never_limits, together, carried};

use round_net::{MAX_CAP, Net};
use std::alloc::{AllocError, Global};

/// The rows right below one that takes at least what they take together, in each round; none if it ever takes less.
pub(crate) fn carried(alloc: Global, net: &Net, row: u32) -> Result<Vec<u32>, AllocError>
    requires { row < rows (instance_of_rows net.now) }
    ensures { IfOk result (λ parts. parts.items ≡ carried (instance_of_rows net.now) row) }
{
    let below = rows_below(alloc, net, row)?;
    if never_limits(net, &below, row) {
        Ok(below)
    } else {
        Ok(Vec::new(alloc))
    }
}

// The rows right below one.
fn rows_below(alloc: Global, net: &Net, row: u32) -> Result<Vec<u32>, AllocError>
    requires { row < rows (instance_of_rows net.now) }
    ensures { IfOk result (λ below. below.items ≡ rows_below (instance_of_rows net.now) row) }
{
    let mut below = Vec::new(alloc);
    for part in 0..net.devices() + net.adapters() {
        if is_below(net, row, part) {
            below.push(part)?;
        }
    }
    Ok(below)
}

// Whether one row is right below another.
#[tactic(auto, unfolding(crate::specs::Below::is_below))]
fn is_below(net: &Net, row: u32, part: u32) -> bool
    requires { let n = instance_of_rows net.now in part < n.devices + n.adapters }
    ensures { result ≡ is_below (instance_of_rows net.now) row part }
{
    match row_above(net, part) {
        Some(above) => above == row,
        None => false,
    }
}

// The row right above one: above that of a device its adapter's, above that of an adapter its link's, if it is on one.
fn row_above(net: &Net, row: u32) -> Option<u32>
    requires { let n = instance_of_rows net.now in row < n.devices + n.adapters }
    ensures { result ≡ row_above (instance_of_rows net.now) row }
{
    if row < net.devices() {
        return Some(net.adapter_resource(net.adapter_of(row)));
    }
    let link = net.link_of(row - net.devices())?;
    Some(net.link_resource(link))
}

// Whether the row takes at least what those below it take together, in each round.
fn never_limits(net: &Net, below: &[u32], row: u32) -> bool
    requires row { row < rows (instance_of_rows net.now) }
    requires below { below.now ≡ rows_below (instance_of_rows net.now) row }
    ensures { result ≡ never_limits (instance_of_rows net.now) row }
{
    for before in 0..net.rounds() {
        if !is_enough(net, below, row, before + 1) {
            return false;
        }
    }
    true
}

// Whether the row takes at least what those take together in the round.
fn is_enough(net: &Net, below: &[u32], row: u32, round: u32) -> bool
    requires row { row < rows (instance_of_rows net.now) }
    requires below { All (λ part. part < rows (instance_of_rows net.now)) below.now }
    requires first { 1 ≤ round }
    requires last { round ≤ (instance_of_rows net.now).rounds }
    ensures { result ≡ is_enough (instance_of_rows net.now) below.now row round }
{
    taken_together(net, below, round) <= net.cap(row, round)
}

// What those rows take together in the round, at most `MAX_CAP`.
fn taken_together(net: &Net, below: &[u32], round: u32) -> u32
    requires below { All (λ part. part < rows (instance_of_rows net.now)) below.now }
    requires first { 1 ≤ round }
    requires last { round ≤ (instance_of_rows net.now).rounds }
    ensures { result ≡ together (λ part. (instance_of_rows net.now).cap part round) below.now }
{
    let mut sum = 0u32;
    for part in below {
        sum = sum.saturating_add(net.cap(*part, round)).min(MAX_CAP);
    }
    sum
}
