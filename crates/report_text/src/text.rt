//! The pieces that lines of output are made of: words, numbers and the names of stays.

ghost use Rattle.std.specs.Prelude.{◌≡◌, ℕ, ◌+◌, ◌<◌, ◌≤◌, ◌^◌, ◌++◌, length, OnOk, IfOk, codes};
ghost use Rattle.report_text.specs.Lines.{line};
ghost use Rattle.report_text.specs.Report.{number_text};

use event_rules::Stay;
use itoa::Buffer;
use std::alloc::AllocError;

/// Puts a line of a word and a number after the text. It fails only if there is no memory.
pub fn push_line(text: &mut Vec<u8>, word: &[u8], number: u64) -> Result<(), AllocError>
    ensures text { OnOk result (text.new.items ≡ text.old.items ++ line word.now number) }
    ensures short { OnOk result (length text.new.items ≤ length text.old.items + (length word.now + 42)) }
{
    let mut digits = Buffer::new();
    text.extend_from_slice(word)?;
    text.extend_from_slice(b" ")?;
    text.extend_from_slice(digits.format(number).as_bytes())?;
    text.extend_from_slice(b"\n")?;
    Ok(())
}

/// Puts a space and a number after the text. A number below 10^n has at most n digits. It fails only if there is no
/// memory.
pub fn push_number(text: &mut Vec<u8>, number: u64) -> Result<(), AllocError>
    ensures text { OnOk result (text.new.items ≡ text.old.items ++ number_text number) }
    ensures short { OnOk result ((digits : ℕ) → 0 < digits → number < 10 ^ digits → length text.new.items ≤ length text.old.items + (digits + 1)) }
{
    let mut digits = Buffer::new();
    text.extend_from_slice(b" ")?;
    text.extend_from_slice(digits.format(number).as_bytes())?;
    Ok(())
}

/// Puts a stay's CCB and try after the text, each after a space. It fails only if there is no memory.
pub fn push_name(text: &mut Vec<u8>, stay: Stay) -> Result<(), AllocError>
    ensures text { OnOk result (text.new.items ≡ text.old.items ++ (number_text stay.ccb ++ number_text stay.attempt)) }
    ensures short { OnOk result (length text.new.items ≤ length text.old.items + 22) }
{
    push_number(text, u64::from(stay.ccb))?;
    push_number(text, u64::from(stay.attempt))?;
    Ok(())
}
