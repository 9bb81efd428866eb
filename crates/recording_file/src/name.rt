//! Names for drivers, devices, adapters and links.

ghost use Rattle.std.specs.Prelude.{◌≡◌, false, true, IfOk, MatchOption};
ghost use Rattle.recording_file.specs.Names.{is_name_text, has_no_control};

use std::alloc::{AllocError, Global};
use std::marker::Model;

/// What a name is for. They stand in this order in a recording.
#[derive(Clone, Copy, Debug, PartialEq, Eq)]
pub enum NameKind {
    Driver,
    Device,
    Adapter,
    Link,
}

/// What people call a driver, a device, an adapter or a link.
#[derive(Debug, Drop)]
pub struct Name {
    kind: NameKind,
    number: u32,
    text: String,
}

impl Model for Name {
    ghost use Rattle.std.specs.Prelude.{◌≡◌, true, string_bytes};
    ghost use Rattle.recording_file.specs.Names.{NameValue, is_name_text};

    ghost Value = { NameValue };

    ghost view = { λ n. record { kind = n.kind; number = n.number; text = string_bytes n.text } };

    ghost invariant = { λ n. is_name_text (string_bytes n.text) ≡ true };
}

impl Name {
    /// The name of this kind and number, or none if the text isn't 1 to 64 bytes of UTF-8 without control characters
    /// (U+0000 to U+001F and U+007F to U+009F).
    ///
    /// # Errors
    ///
    /// `AllocError` if no memory is left.
    pub fn new(
        alloc: Global,
        kind: NameKind,
        number: u32,
        text: &[u8],
    ) -> Result<Option<Name>, AllocError>
        ensures { IfOk result (λ o. MatchOption o (is_name_text text.now ≡ false) (λ n. (is_name_text text.now ≡ true) × (n ≡ record { kind = kind; number = number; text = text.now }))) }
    {
        match name_text(text) {
            Some(text) => {
                let text = String::from_str(alloc, text)?;
                Ok(Some(Name { kind, number, text }))
            }
            None => Ok(None),
        }
    }

    /// What it is for.
    pub fn kind(&self) -> NameKind
        ensures { result ≡ self.now.kind }
    {
        self.kind
    }

    /// The number of what it is for.
    pub fn number(&self) -> u32
        ensures { result ≡ self.now.number }
    {
        self.number
    }

    /// The name itself, 1 to 64 bytes.
    pub fn text(&self) -> &str
        ensures same { result.now ≡ self.now.text }
        ensures form { is_name_text self.now.text ≡ true }
    {
        self.text.as_str()
    }
}

// The text, if it may be a name.
#[tactic(auto, using(crate::proofs::NameLemmas::utf8_true, crate::proofs::NameLemmas::utf8_false), unfolding(crate::specs::Names::is_name_text))]
fn name_text(text: &[u8]) -> Option<&str>
    ensures { MatchOption result (is_name_text text.now ≡ false) (λ t. (is_name_text text.now ≡ true) × (t.now ≡ text.now)) }
{
    if text.is_empty() || text.len() > 64 {
        return None;
    }
    let Ok(text) = std::str::from_utf8(text) else {
        return None;
    };
    if has_no_control(text) {
        Some(text)
    } else {
        None
    }
}

fn has_no_control(text: &str) -> bool
    ensures { result ≡ has_no_control text.now }
{
    text.chars().all(|c| !c.is_control())
}
