//! The walk back along the predecessors: it closes a cycle, or it ends at a node whose potential never rose.

ghost use Rattle.std.specs.Prelude.{◌≡◌, ℕ, ◌<◌, length, drop, Some, IfOk};
ghost use Rattle.std.specs.Option.{IfSome, IfNone};
ghost use Rattle.negative_cycle.specs.Walks.{came_by, IsLoop, EndsAtRoot, Arc};

use crate::arc::Arc;
use std::alloc::AllocError;

/// Walks back from a node. The arcs of the walk stand in `path`; where it closes, the answer is the place in it from
/// which on they do. `places` is scratch, with a place for each node.
pub fn walk_back(
    preds: &[Option<Arc>],
    places: &mut [usize],
    start: u32,
    path: &mut Vec<Arc>,
) -> Result<Option<usize>, AllocError>
    requires start { start < length preds.now }
    requires places { length places.old ≡ length preds.now }
    requires preds { (node : ℕ) (arc : Arc) → came_by preds.now node ≡ Some arc → (arc.head ≡ node) × (arc.tail < length preds.now) }
    ensures closes { IfOk result (λ found. IfSome found (λ k. IsLoop preds.now (drop k path.new.items))) }
    ensures ends { IfOk result (λ found. IfNone found (EndsAtRoot preds.now start path.new.items)) }
    ensures len { length places.new ≡ length places.old }
{
    places.fill(0);
    path.clear();
    let mut node = start;
    while places[node as usize] == 0 {
        let Some(arc) = preds[node as usize] else {
            return Ok(None);
        };
        path.push(arc)?;
        places[node as usize] = path.len();
        node = arc.tail;
    }
    Ok(Some(places[node as usize] - 1))
}
