//! The front of a text that decides what the whole text is read as, where one record has too many fields.

ghost use Rattle.std.specs.Prelude.{◌≡◌, ◌⊎◌, ◌≤◌, ◌<◌, IfSome, fold, length, take, drop};
ghost use Rattle.csv.specs.Reading.{strip_bom};
ghost use Rattle.record_text.specs.Front.{IsFront};
ghost use Rattle.record_text.specs.Cuts.{CutsOff};

use crate::effect::Effect;
use crate::place::Place;

// The most fields of a record.
const MAX_FIELDS: usize = 8;

// A text of which each part of this many bytes has a line feed, and which has no quote, has no very long record.
const WINDOW: usize = 65_536;

/// All of a text, or its front up to the ninth field of its first record that has more than eight. Who refuses such a record
/// needs no more of the text, and no memory for a record of millions of fields. A text of short lines without quotes is
/// always given back as it is.
pub fn front(text: &[u8]) -> &[u8]
    ensures { IsFront text.now result.now }
{
    if is_plain(text) {
        return text;
    }
    let mark = mark_bytes(text);
    match ninth_field(&text[mark..]) {
        Some(end) => &text[..mark + end],
        None => text,
    }
}

// Whether the text has line feeds throughout and no quote.
fn is_plain(text: &[u8]) -> bool {
    text.chunks(WINDOW).all(|part| part.contains(&b'\n')) && !text.contains(&b'"')
}

// How many bytes the byte order mark at the front of the text has.
fn mark_bytes(text: &[u8]) -> usize
    ensures within { result ≤ length text.now }
    ensures rest { strip_bom text.now ≡ drop result text.now }
    ensures size { (result ≡ 0) ⊎ (result ≡ 3) }
{
    if text.starts_with(&[0xEF, 0xBB, 0xBF]) {
        3
    } else {
        0
    }
}

// Where the ninth field of a record ends, as many bytes from the first, if a record has more than eight.
fn ninth_field(text: &[u8]) -> Option<usize>
    ensures { IfSome result (λ end. (end ≤ length text.now) × (3 ≤ end) × CutsOff (take end text.now)) }
{
    let (mut place, mut fields) = (Place::RecordStart, 0);
    for (at, byte) in text.iter().enumerate() {
        let (next, effect) = place.after(*byte);
        place = next;
        fields = match effect {
            Effect::Nothing => fields,
            Effect::Field if fields == MAX_FIELDS => return Some(at + 1),
            Effect::Field => fields + 1,
            Effect::Record => 0,
        };
    }
    None
}
