//! The freezes that cost most.

use std::alloc::{AllocError, Global};
use wait_causes::{Freeze, FreezeKind, Grouping};
use wording::{Captions, Page};

// What stands above the freezes.
const HEAD: &str = "\nThe freezes that cost most:\n\n\
\x20 frozen            by        first  last      cost\n";

/// Puts at most that many of the freezes at these places on the page.
pub(crate) fn push_freezes(
    alloc: Global,
    page: &mut Page,
    captions: Captions<'_>,
    freezes: &[Freeze],
    places: &[usize],
    top: usize,
) -> Result<(), AllocError> {
    if places.is_empty() || top == 0 {
        return Ok(());
    }
    page.put(HEAD);
    for place in places.iter().take(top) {
        if let Some(freeze) = freezes.get(*place) {
            push_freeze(page, &frozen_name(alloc, captions, freeze)?, freeze);
        }
    }
    Ok(())
}

// A line on a freeze of what has this name.
fn push_freeze(page: &mut Page, name: &str, freeze: &Freeze) {
    let by = frozen_by(freeze.kind);
    page.show(format_args!("  {name:<17} {by:<8}"));
    page.show(format_args!(
        " {:>6} {:>5} {:>9}\n",
        freeze.first, freeze.last, freeze.cost
    ));
}

/// Who froze.
pub(crate) fn frozen_by(kind: FreezeKind) -> &'static str {
    match kind {
        FreezeKind::Error => "an error",
        FreezeKind::Caller | FreezeKind::Adapter => "a caller",
    }
}

/// The device or the adapter that was frozen.
pub(crate) fn frozen_name(
    alloc: Global,
    captions: Captions<'_>,
    freeze: &Freeze,
) -> Result<String, AllocError> {
    let by = match freeze.kind {
        FreezeKind::Error | FreezeKind::Caller => Grouping::Device,
        FreezeKind::Adapter => Grouping::Adapter,
    };
    captions.caption(alloc, by, freeze.number)
}
