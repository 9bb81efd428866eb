//! Relaxation by Bellman (1958) and Ford (1956): potentials that arcs raise. Proved: an arc that raises nothing is settled; a
//! walk back along the predecessors ends within a bound, or closes a cycle that gains more than it loses.

ghost use Rattle.std.specs.Prelude.{◌≡◌, ℕ, ◌*◌, ◌/◌, ◌<◌, ◌≤◌, nat_lt, if◌then◌else◌, length, drop, map, replicate, None, IfOk};
ghost use Rattle.std.specs.List.{list_any};
ghost use Rattle.std.specs.Option.{IfSome, IfNone};
ghost use Rattle.negative_cycle.specs.Walks.{IsGainingCycle, AllCameBy};
ghost use Rattle.negative_cycle.specs.PotentialTable.{potential_of, limit, relaxed, raised, begun, highest_root};

use crate::arc::Arc;
use crate::begin::{any_high, cut, forget, lower, unrisen};
use crate::walk::walk_back;
use std::alloc::{AllocError, Global};
use std::marker::Model;

/// The most to which any potentials may rise.
pub const MAX_POTENTIAL: u64 = 1_000_000_000_000_000_000;

/// A potential for each node, and the arc by which it last rose. Potentials rise to a most, which whoever makes them chooses.
#[derive(Drop)]
pub struct Potentials {
    most: u64,
    potentials: Vec<u64>,
    preds: Vec<Option<Arc>>,
    places: Vec<usize>,
}

impl Model for Potentials {
    ghost use Rattle.std.specs.Prelude.{◌≡◌, length};
    ghost use Rattle.negative_cycle.specs.PotentialTable.{PotentialTable, IsForest};

    ghost Value = { PotentialTable };

    ghost view = { λ l. record { most = l.most; potentials = l.potentials.items; preds = l.preds.items } };

    ghost invariant = { λ l. IsForest l.most l.potentials.items l.preds.items × (length l.places.items ≡ length l.potentials.items) };
}

impl Potentials {
    /// Potentials 0, which have not risen, and rise to `most`.
    pub fn new(alloc: Global, nodes: usize, most: u64) -> Result<Potentials, AllocError>
        requires { most ≤ MAX_POTENTIAL }
        ensures { IfOk result (λ l. l ≡ record { most = most; potentials = replicate nodes 0; preds = replicate nodes None }) }
    {
        Ok(Potentials {
            most,
            potentials: vec![in alloc; 0; nodes]?,
            preds: unrisen(alloc, nodes)?,
            places: vec![in alloc; 0; nodes]?,
        })
    }

    /// These potentials, which have not risen, and rise to `most`. A potential above half of that begins there.
    pub fn start(alloc: Global, potentials: &[u64], most: u64) -> Result<Potentials, AllocError>
        requires { most ≤ MAX_POTENTIAL }
        ensures { IfOk result (λ l. l ≡ record { most = most; potentials = map (begun most) potentials.now; preds = replicate (length potentials.now) None }) }
    {
        let nodes = potentials.len();
        Ok(Potentials {
            most,
            potentials: cut(alloc, potentials, most)?,
            preds: unrisen(alloc, nodes)?,
            places: vec![in alloc; 0; nodes]?,
        })
    }

    /// The potential of a node.
    pub fn potential(&self, node: u32) -> u64
        requires { node < length self.now.potentials }
        ensures value { result ≡ potential_of self.now node }
        ensures most { result ≤ self.now.most }
    {
        self.potentials[node as usize]
    }

    /// Raises the potential of the arc's head, where the arc isn't settled, and answers the node that rose. As many arcs as there
    /// are nodes, which gain as much as this one, may gain a quarter of the most together.
    #[tactic(auto, unfolding(crate::specs::PotentialTable::relaxed, crate::specs::PotentialTable::raised))]
    pub fn relax(&mut self, arc: Arc) -> Option<u32>
        requires tail { arc.tail < length self.old.potentials }
        requires head { arc.head < length self.old.potentials }
        requires up { arc.up * length self.old.potentials ≤ self.old.most / 4 }
        ensures potentials { self.new ≡ relaxed self.old arc }
        ensures node { result ≡ raised self.old arc }
        ensures size { length self.new.potentials ≡ length self.old.potentials }
        ensures most { self.new.most ≡ self.old.most }
    {
        let tail = self.potentials[arc.tail as usize] + u64::from(arc.up);
        if tail <= self.potentials[arc.head as usize] + u64::from(arc.down) {
            return None;
        }
        let needed = tail - u64::from(arc.down);
        if needed > self.most {
            return Some(arc.tail);
        }
        self.potentials[arc.head as usize] = needed;
        self.preds[arc.head as usize] = Some(arc);
        Some(arc.head)
    }

    /// Walks back from a node along the arcs by which potentials rose. Where they close a walk, the answer is the place in
    /// `path` from which on they do.
    pub fn find_cycle(
        &mut self,
        start: u32,
        path: &mut Vec<Arc>,
    ) -> Result<Option<usize>, AllocError>
        requires { start < length self.old.potentials }
        ensures same { self.new ≡ self.old }
        ensures gains { IfOk result (λ found. IfSome found (λ k. IsGainingCycle (drop k path.new.items))) }
        ensures came { IfOk result (λ found. IfSome found (λ k. AllCameBy self.old.preds (drop k path.new.items))) }
        ensures ends { IfOk result (λ found. IfNone found (potential_of self.old start ≤ limit self.old)) }
    {
        walk_back(&self.preds, &mut self.places, start, path)
    }

    /// Forgets by which arcs the potentials rose. Potentials that are high begin at 0 again.
    pub fn restart(&mut self)
        ensures size { length self.new.potentials ≡ length self.old.potentials }
        ensures potentials { self.new ≡ record { most = self.old.most; potentials = (if list_any (λ y. nat_lt (highest_root self.old.most) y) self.old.potentials then replicate (length self.old.potentials) 0 else self.old.potentials); preds = replicate (length self.old.preds) None } }
    {
        if any_high(&self.potentials, self.most) {
            lower(&mut self.potentials);
        }
        forget(&mut self.preds);
    }
}
