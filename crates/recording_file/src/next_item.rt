//! Whether a name or a cap may come after the others.

ghost use Rattle.std.specs.Prelude.{◌≡◌, nat_le, ◌&&◌};
ghost use Rattle.recording_file.specs.Caps.{is_cap, is_next_cap, is_over, is_part_before, is_same_part, part_rank};
ghost use Rattle.recording_file.specs.Names.{is_name, is_named_before, is_next_name, name_rank, is_name_text};

use crate::cap::Cap;
use crate::counts::Counts;
use crate::name::{Name, NameKind};
use crate::part::{Part, PartKind};

fn name_rank(kind: NameKind) -> u32
    ensures { result ≡ name_rank kind }
{
    match kind {
        NameKind::Driver => 0,
        NameKind::Device => 1,
        NameKind::Adapter => 2,
        NameKind::Link => 3,
    }
}

fn part_rank(kind: PartKind) -> u32
    ensures { result ≡ part_rank kind }
{
    match kind {
        PartKind::Device => 0,
        PartKind::Adapter => 1,
        PartKind::Link => 2,
    }
}

fn is_named_before(name: &Name, kind: NameKind, number: u32) -> bool
    ensures { result ≡ is_named_before name.now kind number }
{
    let before = name_rank(name.kind());
    let rank = name_rank(kind);
    before < rank || (before == rank && name.number() < number)
}

/// Whether a kind's number comes after these names.
pub(crate) fn is_next_name(names: &[Name], kind: NameKind, number: u32) -> bool
    ensures { result ≡ is_next_name names.now kind number }
{
    match names.last() {
        Some(name) => is_named_before(name, kind, number),
        None => true,
    }
}

/// Whether a name may come after these.
#[tactic(auto, unfolding(crate::specs::Names::is_name))]
pub(crate) fn is_name(counts: Counts, names: &[Name], name: &Name) -> bool
    ensures { result ≡ is_name counts (names.now, name.now) }
{
    let _text = name.text();
    let (kind, number) = (name.kind(), name.number());
    number < counts.named(kind) && is_next_name(names, kind, number)
}

fn is_part_before(part: Part, other: Part) -> bool
    ensures { result ≡ is_part_before part other }
{
    let before = part_rank(part.kind);
    let rank = part_rank(other.kind);
    before < rank || (before == rank && part.number < other.number)
}

fn is_same_part(part: Part, other: Part) -> bool
    ensures { result ≡ is_same_part part other }
{
    part_rank(part.kind) == part_rank(other.kind) && part.number == other.number
}

fn is_over(cap: Cap, part: Part, first: u32) -> bool
    ensures { result ≡ is_over cap part first }
{
    is_part_before(cap.part, part) || (is_same_part(cap.part, part) && cap.last < first)
}

/// Whether a part's first round comes after these caps.
pub(crate) fn is_next_cap(caps: &[Cap], part: Part, first: u32) -> bool
    ensures { result ≡ is_next_cap caps.now part first }
{
    match caps.last() {
        Some(cap) => is_over(*cap, part, first),
        None => true,
    }
}

/// Whether a cap may come after these.
#[tactic(auto, unfolding(crate::specs::Caps::is_cap))]
pub(crate) fn is_cap(rounds: u32, counts: Counts, caps: &[Cap], cap: Cap) -> bool
    ensures { result ≡ is_cap rounds counts (caps.now, cap) }
{
    cap.part.number < counts.parts(cap.part.kind)
        && is_next_cap(caps, cap.part, cap.first)
        && is_span(rounds, cap)
}

fn is_span(rounds: u32, cap: Cap) -> bool
    ensures { result ≡ (nat_le 1 cap.first && (nat_le cap.first cap.last && (nat_le cap.last rounds && nat_le cap.most 65535))) }
{
    1 <= cap.first && cap.first <= cap.last && cap.last <= rounds && cap.most <= 65535
}
