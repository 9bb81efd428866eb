//! The table of weights.

use cam_types::Config;
use wording::Page;

/// Puts what a round of waiting costs by priority on the page, unless the weights are the standard ones.
pub(crate) fn push_weights(page: &mut Page, config: &Config) {
    if config.has_standard_weights() {
        return;
    }
    page.put("\nWhat a round of waiting costs, by priority:\n\n");
    let mut first = 0;
    for row in config.weights() {
        page.show(format_args!("  {first:>4}-{:<13} {:>9}\n", row.last, row.weight));
        first = row.last.saturating_add(1);
    }
}
