//! Numbers and times in text.

/// The number that decimal digits spell, where it is below 2^64.
pub fn number(text: &[u8]) -> Option<u64> {
    if text.is_empty() {
        return None;
    }
    let mut value: u64 = 0;
    for byte in text {
        value = value.checked_mul(10)?.checked_add(digit(*byte)?)?;
    }
    Some(value)
}

/// The number that hexadecimal digits spell, where it is below 2^64.
pub fn hexadecimal(text: &[u8]) -> Option<u64> {
    if text.is_empty() {
        return None;
    }
    let mut value: u64 = 0;
    for byte in text {
        value = value
            .checked_mul(16)?
            .checked_add(hexadecimal_digit(*byte)?)?;
    }
    Some(value)
}

fn digit(byte: u8) -> Option<u64> {
    let digit = byte.wrapping_sub(b'0');
    (digit < 10).then_some(u64::from(digit))
}

fn hexadecimal_digit(byte: u8) -> Option<u64> {
    let letter = match byte {
        b'a'..=b'f' => byte.checked_sub(b'a')?,
        b'A'..=b'F' => byte.checked_sub(b'A')?,
        _ => return digit(byte),
    };
    Some(u64::from(letter.checked_add(10)?))
}

/// A time in nanoseconds: a decimal number of a unit, also with a fraction, of which the part below a nanosecond is dropped.
pub fn time_of(text: &[u8], unit: u64) -> Option<u64> {
    match text.iter().position(|byte| *byte == b'.') {
        None => number(text)?.checked_mul(unit),
        Some(point) => {
            let whole = number(text.get(..point)?)?.checked_mul(unit)?;
            let fraction = text.get(point..)?.get(1..)?;
            whole.checked_add(fraction_of(fraction, unit)?)
        }
    }
}

fn fraction_of(text: &[u8], unit: u64) -> Option<u64> {
    if text.is_empty() {
        return None;
    }
    let mut value: u64 = 0;
    let mut place = unit;
    for byte in text {
        place /= 10;
        let digit = digit(*byte)?;
        value = value.checked_add(digit.checked_mul(place)?)?;
    }
    Some(value)
}
