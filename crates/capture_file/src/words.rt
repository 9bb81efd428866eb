//! The words and columns of a line.

use crate::line_fault::LineFault;
use crate::number::number;

/// The first word of a text, and what comes after it. None if there is no word.
pub fn next_word(text: &[u8]) -> Option<(&[u8], &[u8])> {
    let text = text.trim_ascii_start();
    if text.is_empty() {
        return None;
    }
    match text.iter().position(|byte| byte.is_ascii_whitespace()) {
        None => Some((text, b"")),
        Some(end) => text.split_at_checked(end),
    }
}

/// The first column of a text, without blanks around it, and what comes after its comma.
pub fn next_column(text: &[u8]) -> (&[u8], &[u8]) {
    match text.iter().position(|byte| *byte == b',') {
        None => (text.trim_ascii(), b""),
        Some(end) => (
            text.get(..end).unwrap_or(b"").trim_ascii(),
            text.get(end..)
                .and_then(|rest| rest.get(1..))
                .unwrap_or(b""),
        ),
    }
}

/// What stands between the first `[` of a text and its last `]`.
pub fn bracketed(text: &[u8]) -> Option<&[u8]> {
    let open = text.iter().position(|byte| *byte == b'[')?;
    let inner = text.get(open..)?.get(1..)?;
    let close = inner.iter().rposition(|byte| *byte == b']')?;
    inner.get(..close)
}

/// A device, a major and a minor number as `8,16`, and what comes after it.
pub fn device_word(text: &[u8]) -> Result<(&[u8], &[u8]), LineFault> {
    let (device, rest) = next_word(text).ok_or(LineFault::NotAnEvent)?;
    match device_numbers(device) {
        Some(_) if device.contains(&b',') => Ok((device, rest)),
        _ => Err(LineFault::NotAnEvent),
    }
}

/// The major and minor number of a device, as `8,16` or `8:16`.
pub fn device_numbers(text: &[u8]) -> Option<(u64, u64)> {
    let between = text.iter().position(|byte| *byte == b',' || *byte == b':')?;
    let major = number(text.get(..between)?)?;
    let minor = number(text.get(between..)?.get(1..)?)?;
    Some((major, minor))
}

/// Refuses what aren't the letters of a direction.
pub fn check_flags(flags: &[u8]) -> Result<(), LineFault> {
    if flags.iter().all(|byte| byte.is_ascii_uppercase()) {
        Ok(())
    } else {
        Err(LineFault::NotAnEvent)
    }
}
