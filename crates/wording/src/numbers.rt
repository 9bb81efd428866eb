//! Numbers as people read them: with commas, as shares, and rounds in time.

use crate::making::Page;
use recording_file::{Span, TimeUnit};
use std::alloc::{AllocError, Global};

/// Puts a number on the page, with commas between its thousands.
pub fn push_number(page: &mut Page, number: u64) {
    let mut has_begun = false;
    for power in &[
        1_000_000_000_000_000_000u64,
        1_000_000_000_000_000,
        1_000_000_000_000,
        1_000_000_000,
        1_000_000,
        1_000,
        1,
    ] {
        let three = number.checked_div(*power).unwrap_or(0) % 1_000;
        if has_begun {
            page.show(format_args!(",{three:03}"));
        } else if three > 0 || *power == 1 {
            page.show(three);
            has_begun = true;
        }
    }
}

/// Puts each of these words with its number on the page, and then the last word.
pub fn push_numbers(page: &mut Page, parts: &[(&str, u64)], end: &str) {
    for (word, number) in parts {
        page.put(word);
        push_number(page, *number);
    }
    page.put(end);
}

/// Puts a number that may be below 0 on the page.
pub fn push_signed(page: &mut Page, number: i128) {
    if number < 0 {
        page.put("-");
    }
    push_number(
        page,
        u64::try_from(number.unsigned_abs()).unwrap_or(u64::MAX),
    );
}

/// How much more the second is.
pub fn shift(before: u64, after: u64) -> i128 {
    after as i128 - before as i128
}

/// Puts the share of a part in a whole on the page, in percent with a tenth.
pub fn push_share(page: &mut Page, part: u64, whole: u64) {
    let tenths = part
        .saturating_mul(1_000)
        .saturating_add(whole / 2)
        .checked_div(whole)
        .unwrap_or(0);
    page.show(format_args!("{}.{} %", tenths / 10, tenths % 10));
}

/// Puts the share of a part in a whole on the page, in percent: from 10 on to a whole number, from 1 on to a tenth, and below that to
/// the first digit that counts; of all above 0 at least 0.001.
pub fn push_rough_share(page: &mut Page, part: u64, whole: u128) {
    // In thousandths of a percent, as is the step to which it is rounded.
    let share = u128::from(part).saturating_mul(100_000);
    let step = match share.checked_div(whole) {
        Some(10_000..) => 1_000,
        Some(100..) => 100,
        Some(10..) => 10,
        _ => 1,
    };
    let each = whole.saturating_mul(step);
    let steps = share
        .saturating_add(each / 2)
        .checked_div(each)
        .unwrap_or(0)
        .max(u128::from(part > 0));
    push_thousandths(page, steps.saturating_mul(step));
    page.put(" %");
}

/// Puts how long that many rounds are on the page, in brackets, if it is known how long one is.
pub fn push_time(page: &mut Page, unit: Option<Span>, rounds: u64) {
    if let Some(span) = unit {
        page.put(" (");
        push_span(page, span, rounds);
        page.put(")");
    }
}

/// Puts how long that many rounds of this length are on the page, as `push_nanoseconds` does.
pub fn push_span(page: &mut Page, span: Span, rounds: u64) {
    push_nanoseconds(
        page,
        u128::from(nanoseconds(span)).saturating_mul(u128::from(rounds)),
    );
}

/// Puts the time at which that many rounds of this length are over on the page, from the beginning of round 1 and to a hundredth of
/// the largest unit of which there is one.
pub fn push_end(page: &mut Page, span: Span, rounds: u64) {
    push_exactly(
        page,
        u128::from(nanoseconds(span)).saturating_mul(u128::from(rounds)),
    );
}

/// Puts a time on the page: at most three digits that count, in the largest unit of which there is one, as `3.87 ms`.
pub fn push_nanoseconds(page: &mut Page, time: u128) {
    push_exactly(page, three_digits(time));
}

fn push_exactly(page: &mut Page, all: u128) {
    match all {
        0 => page.put("0 s"),
        1..=999 => page.show(format_args!("{all} ns")),
        1_000..=999_999 => push_hundredths(page, all / 10, " us"),
        1_000_000..=999_999_999 => push_hundredths(page, all / 10_000, " ms"),
        _ => push_hundredths(page, all / 10_000_000, " s"),
    }
}

// The number with three digits that count, rounded half up.
fn three_digits(number: u128) -> u128 {
    let mut first = number;
    let mut step: u128 = 1;
    for _ in 0..36 {
        if first >= 1_000 {
            first /= 10;
            step = step.saturating_mul(10);
        }
    }
    let step = step.max(1);
    (number.saturating_add(step / 2) / step).saturating_mul(step)
}

/// How long that many rounds are, if it is known how long one is, or else how many they are.
pub fn spelled(alloc: Global, unit: Option<Span>, rounds: u64) -> Result<String, AllocError> {
    let mut page = Page::new(alloc);
    match unit {
        Some(span) => push_span(&mut page, span, rounds),
        None => page.show(rounds),
    }
    page.finish()
}

/// How many nanoseconds a span has.
pub fn nanoseconds(span: Span) -> u64 {
    let each = match span.unit {
        TimeUnit::Nanosecond => 1,
        TimeUnit::Microsecond => 1_000,
        TimeUnit::Millisecond => 1_000_000,
        TimeUnit::Second => 1_000_000_000,
    };
    u64::from(span.count).saturating_mul(each)
}

// Puts that many hundredths on the page as a decimal number, with its unit.
fn push_hundredths(page: &mut Page, hundredths: u128, unit: &str) {
    push_thousandths(page, hundredths.saturating_mul(10));
    page.put(unit);
}

// Puts that many thousandths on the page as a decimal number, without zeros at its end.
fn push_thousandths(page: &mut Page, thousandths: u128) {
    push_number(page, u64::try_from(thousandths / 1_000).unwrap_or(u64::MAX));
    let rest = thousandths % 1_000;
    if rest % 10 > 0 {
        page.show(format_args!(".{rest:03}"));
    } else if rest % 100 > 0 {
        page.show(format_args!(".{:02}", rest / 10));
    } else if rest > 0 {
        page.show(format_args!(".{}", rest / 100));
    }
}

/// Puts the number of a round on the page, with the time at which it ended.
pub fn push_round(page: &mut Page, unit: Option<Span>, round: u32) {
    push_number(page, u64::from(round));
    if let Some(span) = unit {
        page.put(" (");
        push_end(page, span, u64::from(round));
        page.put(")");
    }
}

/// Puts how many rounds these are on the page, with their time.
pub fn push_rounds(page: &mut Page, unit: Option<Span>, rounds: u64) {
    push_number(page, rounds);
    page.put(if rounds == 1 { " round" } else { " rounds" });
    push_time(page, unit, rounds);
}

/// Puts a range of rounds on the page.
pub fn push_range(page: &mut Page, first: u32, last: u32) {
    page.show(first);
    if first < last {
        page.show(format_args!("-{last}"));
    }
}
