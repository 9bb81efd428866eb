//! The columns of tables.

use recording_file::Span;
use std::alloc::{AllocError, Global};
use wait_causes::Grouping;
use wording::{Captions, Page, spelled};

/// Puts each of these widths' numbers on the page, flush right after a space.
pub(crate) fn push_columns(page: &mut Page, columns: &[(usize, i128)]) {
    for (width, number) in columns {
        page.show(format_args!(" {number:>width$}", width = *width));
    }
}

/// Puts rounds on the page, or a time where a round has one, flush right in this width.
pub(crate) fn push_spelled(
    alloc: Global,
    page: &mut Page,
    unit: Option<Span>,
    rounds: u64,
    width: usize,
) -> Result<(), AllocError> {
    let shown = spelled(alloc, unit, rounds)?;
    page.show(format_args!("{shown:>width$}"));
    Ok(())
}

/// Puts what a part is called on the page, and spaces up to this width.
pub(crate) fn push_caption(
    alloc: Global,
    page: &mut Page,
    captions: Captions<'_>,
    by: Grouping,
    number: u32,
    width: usize,
) -> Result<(), AllocError> {
    let caption = captions.caption(alloc, by, number)?;
    page.show(format_args!("{caption:<width$}"));
    Ok(())
}
