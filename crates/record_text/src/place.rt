//! Where a byte of a text stands.

ghost use Rattle.std.specs.Prelude.{◌≡◌};
ghost use Rattle.csv.specs.Machine.{step};
ghost use Rattle.csv.specs.Machine as csv;
ghost use Rattle.csv.specs.Reading.{default_config};
ghost use Rattle.record_text.specs.Places.{effect_of, state_of};

use crate::effect::Effect;

/// What the bytes before a byte leave open.
#[derive(Clone, Copy)]
pub(crate) enum Place {
    /// Nothing: a record may begin.
    RecordStart,
    /// A record whose next field begins.
    FieldStart,
    /// A field without quotes.
    Field,
    /// A quoted field.
    Quoted,
    /// A quoted field after a quote, which ends it unless another follows.
    AfterQuote,
    /// Nothing, after a carriage return: a line feed belongs to it.
    AfterReturn,
}

impl Place {
    /// Where the next byte stands, and what this one ends.
    pub(crate) fn after(self, byte: u8) -> (Place, Effect)
        ensures place { state_of result.0 ≡ (step default_config (state_of self) byte).0 }
        ensures effect { result.1 ≡ effect_of (step default_config (state_of self) byte).1 }
    {
        match self {
            Place::RecordStart | Place::AfterReturn if byte == b'\r' || byte == b'\n' => {
                (Place::RecordStart, Effect::Nothing)
            }
            Place::RecordStart | Place::AfterReturn | Place::FieldStart if byte == b'"' => {
                (Place::Quoted, Effect::Nothing)
            }
            Place::Quoted if byte == b'"' => (Place::AfterQuote, Effect::Nothing),
            Place::Quoted => (Place::Quoted, Effect::Nothing),
            Place::AfterQuote if byte == b'"' => (Place::Quoted, Effect::Nothing),
            _ => in_field(byte),
        }
    }
}

// The same where the byte is one of a field without quotes.
fn in_field(byte: u8) -> (Place, Effect)
    ensures place { state_of result.0 ≡ (csv.in_field default_config byte).0 }
    ensures effect { result.1 ≡ effect_of (csv.in_field default_config byte).1 }
{
    match byte {
        b',' => (Place::FieldStart, Effect::Field),
        b'\r' => (Place::AfterReturn, Effect::Record),
        b'\n' => (Place::RecordStart, Effect::Record),
        _ => (Place::Field, Effect::Nothing),
    }
}
