//! Which devices are taken, and as which ones.

use crate::words::device_numbers;

/// Devices that are taken.
#[derive(Drop)]
pub enum DevicePick {
    /// The device of this name. Major and minor number may stand with a comma or a colon between them.
    Name(String),
    /// Each device whose name matches the pattern, all as one device of the name. In a pattern `*` stands for any characters, also
    /// for none, and any other character for itself.
    Pattern { pattern: String, name: String },
}

impl DevicePick {
    /// The name by which a device is listed. None if it isn't one of these.
    pub fn listed<'a>(&'a self, device: &'a [u8]) -> Option<&'a [u8]> {
        match self {
            DevicePick::Name(name) => is_same_device(name.as_bytes(), device).then_some(device),
            DevicePick::Pattern { pattern, name } => {
                let pattern = pattern.as_bytes();
                let is_one = is_same_device(pattern, device) || matches_pattern(pattern, device);
                is_one.then_some(name.as_bytes())
            }
        }
    }

    /// The name by which these devices are listed.
    pub fn name(&self) -> &str {
        match self {
            DevicePick::Name(name) | DevicePick::Pattern { name, .. } => name.as_str(),
        }
    }
}

/// Whether two names are one, or the same two numbers: `8,16` and `8:16`.
pub fn is_same_device(one: &[u8], other: &[u8]) -> bool {
    one == other
        || match (device_numbers(one), device_numbers(other)) {
            (Some(one), Some(other)) => one == other,
            _ => false,
        }
}

// Whether a pattern matches a text.
fn matches_pattern(pattern: &[u8], text: &[u8]) -> bool {
    match pattern.iter().rposition(|byte| *byte == b'*') {
        None => pattern == text,
        Some(star) => {
            let front = pattern.get(..star).unwrap_or(b"");
            let end = pattern.get(star..).and_then(|rest| rest.get(1..));
            match text.strip_suffix(end.unwrap_or(b"")) {
                None => false,
                Some(rest) => begins_with(rest, front),
            }
        }
    }
}

// Whether a text begins with what a pattern matches. The shortest match of each piece leaves the most to the next ones.
fn begins_with(text: &[u8], pattern: &[u8]) -> bool {
    let mut rest = text;
    let mut is_first = true;
    for piece in pattern.split(|byte| *byte == b'*') {
        let found = if is_first {
            rest.strip_prefix(piece)
        } else {
            after_piece(rest, piece)
        };
        let Some(found) = found else {
            return false;
        };
        rest = found;
        is_first = false;
    }
    true
}

// What comes after the first place of a piece in a text.
fn after_piece<'a>(text: &'a [u8], piece: &[u8]) -> Option<&'a [u8]> {
    for start in 0..=text.len() {
        if let Some(rest) = text.get(start..).and_then(|end| end.strip_prefix(piece)) {
            return Some(rest);
        }
    }
    None
}
