//! How long a plan may take.

/// How many nodes the searches of a plan may take before it is given up. A search takes 5,000,000 to 20,000,000 of them in a second.
#[derive(Clone, Copy)]
pub struct Budget {
    /// So many all searches together.
    pub nodes: u64,
    /// And so many more for each path along which requests were moved.
    pub nodes_per_path: u64,
}
