//! Reads the stay lines of a report.

ghost use Rattle.std.specs.Prelude.{◌≡◌, ◌≢◌, ℕ, ◌+◌, ◌<◌, ◌≤◌, ◌^◌, [], length, drop, get_or, IfOk, IfErr};
ghost use Rattle.report_text.specs.Words.{instance_of_rows, live_of_rows, IsSound};
ghost use Rattle.report_text.specs.Limits.{max_number};
ghost use Rattle.report_text.specs.Claims.{IsFirstFaulty, fault_line};
ghost use Rattle.report_text.specs.TextLines.{lines};
ghost use Rattle.report_text.specs.Reading.{HasReadTo, stay_text};

use crate::limits::max_number;
use crate::lines::{after_line, line_at, line_number};
use crate::pieces::{after, number_between};
use crate::report::push_stay_start;
use crate::report_fault::ReportFault;
use crate::text::push_number;
use cam_types::read_number;
use round_net::Net;
use std::alloc::Global;

/// The rounds that are best for the stays by their lines, and the offset after these.
pub(crate) fn read_stays(
    alloc: Global,
    text: &[u8],
    at: usize,
    net: &Net,
) -> Result<(Vec<u32>, usize), ReportFault>
    requires within { at ≤ length text.now }
    requires short { length text.now < 2 ^ 31 }
    ensures ok { (best excess : ℕ) → HasReadTo net.now text.now best excess [] [] at → IfOk result (λ r. (length r.0.items ≡ (instance_of_rows net.now).stays) × HasReadTo net.now text.now best excess r.0.items [] r.1) }
    ensures within { IfOk result (λ r. r.1 ≤ length text.now) }
    ensures err { (best excess : ℕ) → HasReadTo net.now text.now best excess [] [] at → IfErr result (λ e. e ≢ ReportFault.OutOfMemory → IsFirstFaulty net.now text.now (fault_line e)) }
    ensures sound { IsSound (instance_of_rows net.now) (live_of_rows net.now) }
{
    let mut rounds = Vec::with_capacity(alloc, net.stays() as usize)?;
    let mut front = Vec::new(alloc);
    let mut back = Vec::new(alloc);
    let mut next = at;
    for stay in 0..net.stays() {
        let round = read_stay(text, next, net, stay, &mut front, &mut back)?;
        rounds.push(round)?;
        next = after_line(text, next);
    }
    Ok((rounds, next))
}

// The round that is best for the stay by its line, which is due. What the line has before and after the round is put into
// two buffers, whatever they had.
fn read_stay(
    text: &[u8],
    at: usize,
    net: &Net,
    stay: u32,
    front: &mut Vec<u8>,
    back: &mut Vec<u8>,
) -> Result<u32, ReportFault>
    requires within { at ≤ length text.now }
    requires short { length text.now < 2 ^ 31 }
    requires stay { stay < (instance_of_rows net.now).stays }
    requires sound { IsSound (instance_of_rows net.now) (live_of_rows net.now) }
    ensures ok { IfOk result (λ round. (round ≤ max_number (instance_of_rows net.now)) × (get_or (lines (drop at text.now)) 0 [] ≡ stay_text net.now stay round)) }
    ensures err { IfErr result (λ e. e ≢ ReportFault.OutOfMemory → ((round : ℕ) → round ≤ max_number (instance_of_rows net.now) → get_or (lines (drop at text.now)) 0 [] ≢ stay_text net.now stay round) × (fault_line e + length (lines (drop at text.now)) ≡ length (lines text.now) + 1)) }
{
    front.clear();
    push_stay_start(front, net, stay)?;
    front.extend_from_slice(b" ")?;
    back.clear();
    push_number(back, u64::from(net.weight(stay)))?;
    let line = line_at(text, at);
    let most = max_number(net);
    match number_between(line, front, back, most) {
        Some(round) => Ok(round as u32),
        None => Err(stay_fault(line, most, line_number(text, at))),
    }
}

// The fault of a line that isn't the one of the stay that is due: it may be that of another stay.
fn stay_fault(line: &[u8], most: u64, number: u32) -> ReportFault
    ensures { fault_line result ≡ number }
{
    if is_stay_line(line, most) {
        ReportFault::WrongStays(number)
    } else {
        ReportFault::BadLine(number)
    }
}

// Whether a line has the form of a stay's: a word and six numbers up to a most.
fn is_stay_line(line: &[u8], most: u64) -> bool {
    let Some(mut rest) = after(line, b"stay") else {
        return false;
    };
    for _ in 0..6 {
        let Some(field) = after(rest, b" ") else {
            return false;
        };
        let end = field_len(field);
        if read_number(&field[..end], most).is_none() {
            return false;
        }
        rest = &field[end..];
    }
    rest.is_empty()
}

// How many bytes stand before the first space, or in the whole text, if there is none.
fn field_len(text: &[u8]) -> usize
    ensures { result ≤ length text.now }
{
    for at in 0..text.len() {
        if text[at] == b' ' {
            return at;
        }
    }
    text.len()
}
