//! How potentials begin.

ghost use Rattle.std.specs.Prelude.{◌≡◌, nat_lt, length, map, replicate, None, IfOk};
ghost use Rattle.std.specs.List.{list_any};
ghost use Rattle.negative_cycle.specs.PotentialTable.{begun, highest_root};

use crate::arc::Arc;
use std::alloc::{AllocError, Global};

/// No arc for each node.
pub fn unrisen(alloc: Global, nodes: usize) -> Result<Vec<Option<Arc>>, AllocError>
    ensures { IfOk result (λ v. v.items ≡ replicate nodes None) }
{
    let mut preds = Vec::with_capacity(alloc, nodes)?;
    for _node in 0..nodes {
        preds.push(None)?;
    }
    Ok(preds)
}

/// Each potential, or the most that a potential is where the potentials begin to rise, if that is less.
pub fn cut(alloc: Global, potentials: &[u64], most: u64) -> Result<Vec<u64>, AllocError>
    ensures { IfOk result (λ v. v.items ≡ map (begun most) potentials.now) }
{
    let mut cut = Vec::with_capacity(alloc, potentials.len())?;
    for potential in potentials {
        cut.push(begin(*potential, most))?;
    }
    Ok(cut)
}

// A potential, or the most that a potential is where the potentials begin to rise, if that is less.
fn begin(potential: u64, most: u64) -> u64
    ensures { result ≡ begun most potential }
{
    if potential <= most / 2 {
        potential
    } else {
        most / 2
    }
}

/// Takes the arc of each node away.
pub fn forget(preds: &mut Vec<Option<Arc>>)
    ensures { preds.new.items ≡ replicate (length preds.old.items) None }
{
    for pred in preds.iter_mut() {
        *pred = None;
    }
}

/// Sets each potential to 0.
pub fn lower(potentials: &mut Vec<u64>)
    ensures { potentials.new.items ≡ replicate (length potentials.old.items) 0 }
{
    for potential in potentials.iter_mut() {
        *potential = 0;
    }
}

/// Whether a potential is too high for potentials that begin to rise.
pub fn any_high(potentials: &[u64], most: u64) -> bool
    ensures { result ≡ list_any (λ y. nat_lt (highest_root most) y) potentials.now }
{
    let root = most / 2;
    potentials.iter().any(|potential| *potential > root)
}
