//! Reads the price lines of a report, cell by cell.

ghost use Rattle.std.specs.Prelude.{◌≡◌, ℕ, List, ◌+◌, ◌*◌, ◌<◌, ◌≤◌, ◌++◌, [], length, decimal, IfOk, IfSome, MatchOption};
ghost use Rattle.report_text.specs.Words.{rows, instance_of_rows, live_of_rows, IsConfig, IsSound};
ghost use Rattle.report_text.specs.Report.{row_text};
ghost use Rattle.report_text.specs.Reading.{HasReadTo, price_front, cells};

use crate::lines::{after_line, line_at};
use crate::pieces::after;
use crate::report::push_row;
use cam_types::read_number;
use itoa::Buffer;
use round_net::Net;
use std::alloc::{AllocError, Global};

/// How many bytes a line may have without its line feed.
const MAX_LINE: usize = 100;

/// The prices of all cells, by resource and round, the offset after their lines, and whether the line there has too large a
/// price.
pub(crate) fn read_prices(
    alloc: Global,
    text: &[u8],
    at: usize,
    net: &Net,
) -> Result<(Vec<u64>, usize, bool), AllocError>
    requires { at ≤ length text.now }
    ensures ok { (best excess : ℕ) (rounds : List ℕ) → length rounds ≡ (instance_of_rows net.now).stays → HasReadTo net.now text.now best excess rounds [] at → IfOk result (λ r. (length r.0.items ≡ cells net.now) × HasReadTo net.now text.now best excess rounds r.0.items r.1) }
    ensures within { IfOk result (λ r. r.1 ≤ length text.now) }
    ensures kept { IsConfig net.now.config }
{
    let devices = net.config().devices();
    let mut prices = Vec::new(alloc);
    let mut whose = Vec::new(alloc);
    let mut next = at;
    let mut is_too_large = false;
    for row in 0..net.rows() {
        whose.clear();
        push_row(&mut whose, devices, net.adapters(), row)?;
        let (end, is_large) = read_row(text, next, net, row, &whose, &mut prices)?;
        next = end;
        is_too_large = is_too_large || is_large;
    }
    Ok((prices, next, is_too_large))
}

// Puts the prices of a resource, whose lines begin so, after those of the resources before it.
fn read_row(
    text: &[u8],
    at: usize,
    net: &Net,
    row: u32,
    whose: &[u8],
    prices: &mut Vec<u64>,
) -> Result<(usize, bool), AllocError>
    requires within { at ≤ length text.now }
    requires row { row < rows (instance_of_rows net.now) }
    requires whose { whose.now ≡ row_text net.now.config.devices (instance_of_rows net.now).adapters row }
    requires kept { IsConfig net.now.config }
    ensures ok { (best excess : ℕ) (rounds : List ℕ) → length rounds ≡ (instance_of_rows net.now).stays → length prices.old.items ≡ row * (instance_of_rows net.now).rounds → HasReadTo net.now text.now best excess rounds prices.old.items at →
        IfOk result (λ r. (length prices.new.items ≡ (row + 1) * (instance_of_rows net.now).rounds) × HasReadTo net.now text.now best excess rounds prices.new.items r.0) }
    ensures within { IfOk result (λ r. r.0 ≤ length text.now) }
{
    let most = net.max_price();
    let mut next = at;
    let mut line = line_at(text, at);
    let mut is_too_large = false;
    for passed in 0..net.rounds() {
        let (price, is_large) = price_on(line, whose, passed + 1, most);
        if price > 0 {
            next = after_line(text, next);
            line = line_at(text, next);
        }
        is_too_large = is_too_large || is_large;
        prices.push(price)?;
    }
    Ok((next, is_too_large))
}

// The price of an opening in a round by its line, or 0 if it isn't that line, and then whether it is one with too large a
// price.
fn price_on(line: &[u8], whose: &[u8], round: u32, most: u64) -> (u64, bool)
    ensures none { result.0 ≡ 0 → (price : ℕ) → 1 ≤ price → price ≤ most → line.now ≡ price_front whose.now round ++ decimal price → ⊥ }
    ensures some { 0 < result.0 → (result.0 ≤ most) × (line.now ≡ price_front whose.now round ++ decimal result.0) }
{
    let Some(digits) = price_digits(line, whose, round) else {
        return (0, false);
    };
    match read_number(digits, most) {
        Some(price) => (price, false),
        None => (0, is_number(digits) && line.len() <= MAX_LINE),
    }
}

// What stands after the front of the price's line.
fn price_digits<'a>(line: &'a [u8], whose: &[u8], round: u32) -> Option<&'a [u8]>
    ensures spelled { IfSome result (λ rest. line.now ≡ price_front whose.now round ++ rest.now) }
    ensures read { (rest : List ℕ) → line.now ≡ price_front whose.now round ++ rest → MatchOption result ⊥ (λ r. r.now ≡ rest) }
{
    let space = after(line, whose)?;
    let number = after(space, b" ")?;
    let mut digits = Buffer::new();
    let end = after(number, digits.format(u64::from(round)).as_bytes())?;
    after(end, b" ")
}

// Whether digits spell a number.
fn is_number(digits: &[u8]) -> bool {
    !digits.is_empty()
        && digits.iter().all(|byte| byte.is_ascii_digit())
        && !(digits.len() > 1 && digits[0] == b'0')
}
