//! Reads the first seven lines of a report.

ghost use Rattle.std.specs.Prelude.{◌≡◌, ◌≢◌, ℕ, ◌+◌, ◌<◌, ◌≤◌, ◌^◌, [], ◌++◌, length, drop, get_or, decimal, IfOk, IfErr};
ghost use Rattle.report_text.specs.Words.{instance_of_rows, live_of_rows, IsSound};
ghost use Rattle.report_text.specs.Claims.{IsFirstFaulty, fault_line};
ghost use Rattle.report_text.specs.TextLines.{lines};
ghost use Rattle.report_text.specs.Report.{live_cost_of};
ghost use Rattle.report_text.specs.Reading.{HasReadTo, known_word, known_number};

use crate::limits::MAX_STATED;
use crate::lines::{after_line, line_at, line_number};
use crate::pieces::number_between;
use crate::report_fault::ReportFault;
use round_net::{Net, live_cost};

/// What the first seven lines say of the cost and of the excess, and the offset after them.
pub(crate) fn read_summary(text: &[u8], net: &Net) -> Result<(u64, u64, usize), ReportFault>
    requires { length text.now < 2 ^ 31 }
    ensures ok { IfOk result (λ r. HasReadTo net.now text.now r.0 r.1 [] [] r.2) }
    ensures err { IfErr result (λ e. IsFirstFaulty net.now text.now (fault_line e)) }
    ensures sound { IsSound (instance_of_rows net.now) (live_of_rows net.now) }
{
    let live = live_cost(net);
    let mut next = 0;
    for line in 0..5 {
        let number = known_number(net, live, line);
        next = read_known(text, next, known_word(line), number)?;
    }
    let (best, sixth) = read_stated(text, next, b"best ")?;
    let (excess, seventh) = read_stated(text, sixth, b"excess ")?;
    Ok((best, excess, seventh))
}

// The word of one of the first five lines.
fn known_word(line: u32) -> &'static [u8]
    requires { line < 5 }
    ensures { result.now ≡ known_word line }
{
    match line {
        0 => b"camaudit ",
        1 => b"commands ",
        2 => b"stays ",
        3 => b"rounds ",
        _ => b"live ",
    }
}

// The number that stands in it.
fn known_number(net: &Net, live: u64, line: u32) -> u64
    requires line { line < 5 }
    requires live { live ≡ live_cost_of net.now }
    ensures { result ≡ known_number net.now line }
{
    match line {
        0 => 1,
        1 => u64::from(net.commands()),
        2 => u64::from(net.stays()),
        3 => u64::from(net.rounds()),
        _ => live,
    }
}

// The offset after the line of this word and this number, which is due.
fn read_known(text: &[u8], at: usize, word: &[u8], number: u64) -> Result<usize, ReportFault>
    requires within { at ≤ length text.now }
    requires short { length text.now < 2 ^ 31 }
    ensures ok { IfOk result (λ next. (get_or (lines (drop at text.now)) 0 [] ≡ word.now ++ decimal number) × (lines (drop next text.now) ≡ drop 1 (lines (drop at text.now))) × (next ≤ length text.now)) }
    ensures err { IfErr result (λ e. (get_or (lines (drop at text.now)) 0 [] ≢ word.now ++ decimal number) × (fault_line e + length (lines (drop at text.now)) ≡ length (lines text.now) + 1)) }
{
    if number_between(line_at(text, at), word, b"", number) == Some(number) {
        Ok(after_line(text, at))
    } else {
        Err(ReportFault::BadLine(line_number(text, at)))
    }
}

// The number in the line of this word, which is due, and the offset after the line.
fn read_stated(text: &[u8], at: usize, word: &[u8]) -> Result<(u64, usize), ReportFault>
    requires within { at ≤ length text.now }
    requires short { length text.now < 2 ^ 31 }
    ensures ok { IfOk result (λ r. (r.0 ≤ MAX_STATED) × (get_or (lines (drop at text.now)) 0 [] ≡ word.now ++ decimal r.0) × (lines (drop r.1 text.now) ≡ drop 1 (lines (drop at text.now))) × (r.1 ≤ length text.now)) }
    ensures err { IfErr result (λ e. ((n : ℕ) → n ≤ MAX_STATED → get_or (lines (drop at text.now)) 0 [] ≢ word.now ++ decimal n) × (fault_line e + length (lines (drop at text.now)) ≡ length (lines text.now) + 1)) }
{
    match number_between(line_at(text, at), word, b"", MAX_STATED) {
        Some(number) => Ok((number, after_line(text, at))),
        None => Err(ReportFault::BadLine(line_number(text, at))),
    }
}
