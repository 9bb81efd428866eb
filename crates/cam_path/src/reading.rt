//! Reads a path from left to right, up to its first fault.

ghost use Rattle.std.specs.Prelude.{◌≡◌, ◌≤◌, ◌+◌, length, drop, IfOk};
ghost use Rattle.std.specs.Char.{is_ascii_digit};
ghost use Rattle.std.specs.List.{prefix_len};
ghost use Rattle.cam_path.specs.Paths.{number_at, colon_at, end_at, reading};

use crate::path::CamPath;
use cam_types::read_number;

/// The path that a text spells, or the offset of its first fault.
#[tactic(auto, unfolding(crate::specs::Paths::reading))]
pub(crate) fn path_in(text: &[u8]) -> Result<CamPath, usize>
    ensures { result ≡ reading text.now }
{
    let (bus, at) = number_at(text, 0, 255)?;
    let at = colon_at(text, at)?;
    let (target, at) = number_at(text, at, 65535)?;
    let at = colon_at(text, at)?;
    let (lun, at) = number_at(text, at, 65535)?;
    end_at(text, at)?;
    Ok(CamPath {
        bus: bus as u8,
        target: target as u16,
        lun: lun as u16,
    })
}

// The number of at most `most` that the digits from an offset on spell, and the offset after them; or else the offset.
#[tactic(auto, unfolding(crate::specs::Paths::number_at))]
fn number_at(text: &[u8], at: usize, most: u16) -> Result<(u64, usize), usize>
    requires { at ≤ length text.now }
    ensures value { result ≡ number_at most text.now at }
    ensures within { IfOk result (λ r. (r.0 ≤ most) × (r.1 ≤ length text.now)) }
{
    let end = at + digits_from(text, at);
    match read_number(&text[at..end], u64::from(most)) {
        Some(number) => Ok((number, end)),
        None => Err(at),
    }
}

// How many digits stand from an offset on.
fn digits_from(text: &[u8], at: usize) -> usize
    requires { at ≤ length text.now }
    ensures count { result ≡ prefix_len is_ascii_digit (drop at text.now) }
    ensures bound { at + result ≤ length text.now }
{
    text[at..]
        .iter()
        .take_while(|byte| byte.is_ascii_digit())
        .count()
}

// The offset after the colon at this one, or else this one.
#[tactic(auto, unfolding(crate::specs::Paths::colon_at))]
fn colon_at(text: &[u8], at: usize) -> Result<usize, usize>
    requires { at ≤ length text.now }
    ensures value { result ≡ colon_at text.now at }
    ensures within { IfOk result (λ r. r ≤ length text.now) }
{
    if at < text.len() && text[at] == b':' {
        Ok(at + 1)
    } else {
        Err(at)
    }
}

// Whether the text ends at this offset, or else the offset.
#[tactic(auto, unfolding(crate::specs::Paths::end_at))]
fn end_at(text: &[u8], at: usize) -> Result<(), usize>
    ensures { result ≡ end_at text.now at }
{
    if text.len() <= at { Ok(()) } else { Err(at) }
}
