//! The lines of a text, cut one by one.

ghost use Rattle.std.specs.Prelude.{◌≡◌, ◌==◌, not, ◌+◌, ◌<◌, ◌≤◌, ◌^◌, [], length, drop, get_or};
ghost use Rattle.std.specs.List.{prefix_len};
ghost use Rattle.report_text.specs.TextLines.{lines};

/// The line that begins at an offset, without its line feed; an empty one at the end of the text.
pub(crate) fn line_at(text: &[u8], at: usize) -> &[u8]
    requires { at ≤ length text.now }
    ensures { result.now ≡ get_or (lines (drop at text.now)) 0 [] }
{
    let rest = &text[at..];
    &rest[..line_len(rest)]
}

/// The offset after the line that begins at one.
pub(crate) fn after_line(text: &[u8], at: usize) -> usize
    requires { at ≤ length text.now }
    ensures lines { lines (drop result text.now) ≡ drop 1 (lines (drop at text.now)) }
    ensures within { result ≤ length text.now }
    ensures further { at < length text.now → at < result }
{
    let end = at + line_len(&text[at..]);
    if end < text.len() { end + 1 } else { end }
}

/// The number, from 1, of the line that begins at an offset.
pub(crate) fn line_number(text: &[u8], at: usize) -> u32
    requires within { at ≤ length text.now }
    requires short { length text.now < 2 ^ 31 }
    ensures { result + length (lines (drop at text.now)) ≡ length (lines text.now) + 1 }
{
    (count_lines(text) - count_lines(&text[at..]) + 1) as u32
}

// How many lines a text has.
fn count_lines(text: &[u8]) -> usize
    ensures count { result ≡ length (lines text.now) }
    ensures few { result ≤ length text.now }
{
    let mut count = 0;
    let mut next = 0;
    for at in 0..text.len() {
        if at == next {
            next = after_line(text, at);
            count += 1;
        }
    }
    count
}

// How many bytes stand before the first line feed, or in the whole text, if there is none.
fn line_len(text: &[u8]) -> usize
    ensures count { result ≡ prefix_len (λ c. not (c == 10)) text.now }
    ensures within { result ≤ length text.now }
{
    text.iter().take_while(|byte| **byte != b'\n').count()
}
