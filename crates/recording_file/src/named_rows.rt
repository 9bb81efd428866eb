//! Reads the fields of a record that names something, or of one with a cap.

ghost use Rattle.std.specs.Prelude.{◌≡◌, ◌≢◌, ◌<◌, ◌≤◌, length, Ok, Err, IfOk, MatchOption};
ghost use Rattle.csv.specs.Records.{fields_of};
ghost use Rattle.record_text.specs.Fields.{field_of, formed};
ghost use Rattle.recording_file.specs.Rows.{named_at, capped_at, most_at};
ghost use Rattle.recording_file.specs.Words.{named_of, part_kind_of};
ghost use Rattle.recording_file.specs.Names.{named_count};
ghost use Rattle.recording_file.specs.Caps.{part_count};

use crate::counts::Counts;
use crate::name::NameKind;
use crate::part::{Part, PartKind};
use csv::ByteRecord;
use record_text::{below_at, field, is_text, number_at, unused_from, within_at};

/// What the name of a record is for, or the number of the first field that hasn't its form.
#[tactic(auto, unfolding(crate::specs::Rows::named_at))]
pub(crate) fn named_at(counts: Counts, row: &ByteRecord) -> Result<(NameKind, u32), u32>
    requires { length (fields_of row.now) ≡ 8 }
    ensures value { result ≡ named_at counts (fields_of row.now) }
    ensures below { IfOk result (λ k. k.1 < named_count counts k.0) }
{
    let kind = named_kind_at(row)?;
    let number = below_at(row, 2, counts.named(kind))?;
    Ok((kind, number))
}

fn named_kind_at(row: &ByteRecord) -> Result<NameKind, u32>
    ensures { result ≡ formed (named_of (field_of (fields_of row.now) 1)) 1 }
{
    named_of(field(row, 1)).ok_or(2)
}

#[tactic(auto, unfolding(crate::specs::Words::named_of))]
fn named_of(field: &[u8]) -> Option<NameKind>
    ensures { result ≡ named_of field.now }
{
    let kind = if is_text(field, b"driver") {
        NameKind::Driver
    } else if is_text(field, b"dev") {
        NameKind::Device
    } else if is_text(field, b"sim") {
        NameKind::Adapter
    } else if is_text(field, b"link") {
        NameKind::Link
    } else {
        return None;
    };
    Some(kind)
}

/// What the cap of a record is for, and its first round, or the number of the first field that hasn't its form.
#[tactic(auto, unfolding(crate::specs::Rows::capped_at))]
pub(crate) fn capped_at(rounds: u32, counts: Counts, row: &ByteRecord) -> Result<(Part, u32), u32>
    requires { length (fields_of row.now) ≡ 8 }
    ensures value { result ≡ capped_at rounds counts (fields_of row.now) }
    ensures below { IfOk result (λ k. k.0.number < part_count counts k.0.kind) }
    ensures within { IfOk result (λ k. (1 ≤ k.1) × (k.1 ≤ rounds)) }
{
    let kind = part_kind_at(row)?;
    let number = below_at(row, 2, counts.parts(kind))?;
    let first = within_at(row, 3, 1, rounds)?;
    Ok((Part { kind, number }, first))
}

fn part_kind_at(row: &ByteRecord) -> Result<PartKind, u32>
    ensures { result ≡ formed (part_kind_of (field_of (fields_of row.now) 1)) 1 }
{
    part_kind_of(field(row, 1)).ok_or(2)
}

#[tactic(auto, unfolding(crate::specs::Words::part_kind_of))]
fn part_kind_of(field: &[u8]) -> Option<PartKind>
    ensures { result ≡ part_kind_of field.now }
{
    let kind = if is_text(field, b"dev") {
        PartKind::Device
    } else if is_text(field, b"sim") {
        PartKind::Adapter
    } else if is_text(field, b"link") {
        PartKind::Link
    } else {
        return None;
    };
    Some(kind)
}

/// The last round of a record's cap and how many are taken, or the number of the first field that hasn't its form.
#[tactic(auto, unfolding(crate::specs::Rows::most_at))]
pub(crate) fn most_at(rounds: u32, first: u32, row: &ByteRecord) -> Result<(u32, u32), u32>
    requires { length (fields_of row.now) ≡ 8 }
    ensures value { result ≡ most_at rounds first (fields_of row.now) }
    ensures within { IfOk result (λ k. (first ≤ k.0) × (k.0 ≤ rounds) × (k.1 ≤ 65535)) }
{
    let last = within_at(row, 4, first, rounds)?;
    let most = number_at(row, 5, 65535)?;
    unused_from(row, 6)?;
    Ok((last, most))
}
