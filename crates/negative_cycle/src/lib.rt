//! Bellman and Ford's search for a negative cycle (Ford 1956; Bellman 1958): potentials on the nodes of a graph are relaxed along
//! arcs until every arc is settled, or until the predecessors close a cycle that gains more than it loses. The cost of an arc
//! is what it loses less what it gains, and potentials are negated distances, so they rise.
#![tactic(auto)]

pub use arc::Arc;
pub use potentials::{MAX_POTENTIAL, Potentials};

mod arc;
mod begin;
mod potentials;
mod walk;
