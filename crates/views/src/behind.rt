//! What full rows cost, by what they sent.

use wait_causes::Part;

/// What it cost the stays of a part to wait for full devices, adapters and links, by what these sent, in words.
pub(crate) fn behind_rows(part: &Part) -> [(&'static str, u64); 3] {
    [
        ("a less urgent one", part.behind.less_urgent),
        ("an equal one", part.behind.equal),
        ("more urgent ones", part.behind.more_urgent),
    ]
}
