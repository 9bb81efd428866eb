//! Reads sense data in its fixed and its descriptor form.

ghost use Rattle.std.specs.Prelude.{◌≡◌};
ghost use Rattle.sense_class.specs.Sense.{byte_at, fixed_sense, descriptor_sense, read_sense};

/// Sense data in the fixed or the descriptor form of SPC-4.
#[derive(Clone, Copy, Debug, PartialEq, Eq)]
pub struct Sense {
    /// Whether it is about an earlier command.
    pub deferred: bool,
    /// The sense key, 0 to 15.
    pub key: u8,
    /// The additional sense code.
    pub asc: u8,
    /// The additional sense code qualifier.
    pub ascq: u8,
}

/// Reads sense data: response codes 70h and 71h are the fixed form, 72h and 73h the descriptor form, and the odd ones
/// are deferred. There is none where the code is another, or the key's byte isn't there. An additional code that isn't
/// there is 0, a rule of this project.
#[tactic(auto, unfolding(crate::specs::Sense::read_sense))]
pub fn read_sense(bytes: &[u8]) -> Option<Sense>
    ensures { result ≡ read_sense bytes.now }
{
    match bytes.first()? & 0x7f {
        0x70 => fixed_sense(false, bytes),
        0x71 => fixed_sense(true, bytes),
        0x72 => descriptor_sense(false, bytes),
        0x73 => descriptor_sense(true, bytes),
        _ => None,
    }
}

#[tactic(auto, unfolding(crate::specs::Sense::fixed_sense))]
fn fixed_sense(deferred: bool, bytes: &[u8]) -> Option<Sense>
    ensures { result ≡ fixed_sense deferred bytes.now }
{
    let key = bytes.get(2)? & 0x0f;
    Some(Sense {
        deferred,
        key,
        asc: byte_at(bytes, 12),
        ascq: byte_at(bytes, 13),
    })
}

#[tactic(auto, unfolding(crate::specs::Sense::descriptor_sense))]
fn descriptor_sense(deferred: bool, bytes: &[u8]) -> Option<Sense>
    ensures { result ≡ descriptor_sense deferred bytes.now }
{
    let key = bytes.get(1)? & 0x0f;
    Some(Sense {
        deferred,
        key,
        asc: byte_at(bytes, 2),
        ascq: byte_at(bytes, 3),
    })
}

fn byte_at(bytes: &[u8], i: usize) -> u8
    ensures { result ≡ byte_at bytes.now i }
{
    bytes.get(i).copied().unwrap_or(0)
}
