//! Writes bytes in hexadecimal digits.

ghost use Rattle.std.specs.Prelude.{◌≡◌, ◌*◌, ◌<◌, ◌≤◌, length, take};
ghost use Rattle.std.specs.Char.{digit_char};
ghost use Rattle.std.specs.List.{AllByRecursion};
ghost use Rattle.trace_file.specs.Records.{hex};

/// Bytes as two lower-case hexadecimal digits each, and how many digits these are.
pub(crate) fn hex_text(bytes: &[u8]) -> ([u8; 36], usize)
    requires { length bytes.now ≤ 18 }
    ensures text { take result.1 result.0 ≡ hex bytes.now }
    ensures count { result.1 ≡ 2 * length bytes.now }
    ensures range { AllByRecursion (λ b. b < 256) bytes.now }
{
    let mut text = [0; 36];
    for i in 0..bytes.len() {
        text[2 * i] = hex_digit(bytes[i] / 16);
        text[2 * i + 1] = hex_digit(bytes[i] % 16);
    }
    (text, 2 * bytes.len())
}

fn hex_digit(value: u8) -> u8
    requires { value < 16 }
    ensures { result ≡ digit_char value }
{
    if value < 10 { b'0' + value } else { 87 + value }
}
