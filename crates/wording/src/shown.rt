//! Text that may hold any character, as it is shown.

ghost use Rattle.std.specs.Prelude.{◌≡◌};
ghost use Rattle.wording.specs.Hidden.{is_hidden};

use crate::making::Page;
use std::alloc::{AllocError, Global};

/// Whether a character isn't seen itself, or changes how those beside it are shown: control characters (U+0000 to U+001F and U+007F
/// to U+009F), marks of direction, characters without width, the ends of lines and paragraphs, and tags.
pub fn is_hidden(character: char) -> bool
    ensures { result ≡ is_hidden character }
{
    character.is_control()
        || matches!(
            character,
            '\u{61c}'
                | '\u{200b}'..='\u{200f}'
                | '\u{2028}'..='\u{202e}'
                | '\u{2060}'..='\u{2064}'
                | '\u{2066}'..='\u{2069}'
                | '\u{feff}'
                | '\u{e0000}'..='\u{e007f}'
        )
}

/// A name as it is shown: hidden characters are written as Rust escapes them, as `\n` and `\u{1b}`. So it can't change a terminal's
/// state, nor what stands beside it.
pub fn shown_name(alloc: Global, name: &str) -> Result<String, AllocError> {
    let mut page = Page::new(alloc);
    page.shown(name);
    page.finish()
}

/// A text of several lines as it is shown: the same, but that line feeds stay.
pub fn shown_lines(alloc: Global, text: &str) -> Result<String, AllocError> {
    let mut page = Page::new(alloc);
    for (place, line) in text.split('\n').enumerate() {
        if place > 0 {
            page.put("\n");
        }
        page.shown(line);
    }
    page.finish()
}
