//! How limits of latency were kept.

use wait_causes::LimitCounts;

/// How a limit of latency was kept.
#[derive(Clone, Copy)]
pub struct Limited<'a> {
    /// The word that asked for it.
    pub word: &'a str,
    /// How many requests took longer, and why.
    pub counts: LimitCounts,
}
