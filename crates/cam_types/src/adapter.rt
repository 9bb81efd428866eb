//! An adapter's openings and link.

/// An adapter, by how many commands it takes at once and the link that it is on.
#[derive(Clone, Copy, Debug, PartialEq, Eq)]
pub struct Adapter {
    /// How many commands its lanes may send in a round, 1 to 255.
    pub openings: u32,
    /// The number of its link, if it is on one: a bus or fabric whose openings all adapters on it use up together.
    pub link: Option<u32>,
}
