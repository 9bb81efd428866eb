//! The count of a freeze or a release.

ghost use Rattle.std.specs.Prelude.{◌≡◌};
ghost use Rattle.event_rules.specs.Legal.{is_count};

use cam_types::MAX_FREEZES;

/// Whether that many freezes may be made or taken away at once.
pub fn is_count(count: u32) -> bool
    ensures { result ≡ is_count count }
{
    0 < count && count <= MAX_FREEZES
}
