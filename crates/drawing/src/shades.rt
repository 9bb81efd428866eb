//! The causes of a device's rounds, as the shades that its bars have: all that wait for a device in a round wait for one cause.

use crate::round_range::RoundRange;
use crate::scene::Scene;
use crate::words::class_of;
use std::alloc::AllocError;
use wait_causes::{ExplainedStay, InputKind, Wait, WaitCause};
use wording::Page;

// The most rounds of a range that have a cell each, and the most cells across a longer one.
const MAX_ROUNDS: u32 = 512;

const MAX_CELLS: u32 = 128;

/// How many rounds of the range a cell stands for.
pub(crate) fn cell_rounds(range: &RoundRange) -> u32 {
    if range.rounds() <= MAX_ROUNDS {
        1
    } else {
        range.rounds().div_ceil(MAX_CELLS)
    }
}

/// The causes of a device's rounds: of each cell that of its first round in which a stay that is drawn waited.
#[derive(Drop)]
pub(crate) struct Shades {
    range: RoundRange,
    each: u32,
    causes: Vec<Option<WaitCause>>,
}

impl Shades {
    /// Those by the device's stays at these places.
    pub(crate) fn of(
        scene: &Scene,
        places: &[usize],
        device: u32,
        range: RoundRange,
    ) -> Result<Shades, AllocError> {
        let each = cell_rounds(&range);
        let cells = range.rounds().div_ceil(each.max(1)) as usize;
        let mut shades = Shades {
            range,
            each,
            causes: vec![in scene.alloc; None; cells]?,
        };
        for place in places {
            if let Some(stay) = scene.explanation.stays().get(*place)
                && stay.device == device
                && shades.lacks(stay)
            {
                shades.fill(&scene.explanation.waits(scene.alloc, *place)?);
            }
        }
        Ok(shades)
    }

    // The first of the cells of these rounds, as far as they are in the range, and the one after the last of them.
    fn cells(&self, first: u32, last: u32) -> (usize, usize) {
        let end = last.min(self.range.last).saturating_add(1);
        let from = self.range.offset(first) / self.each.max(1);
        let to = self.range.offset(end).div_ceil(self.each.max(1));
        (from as usize, to as usize)
    }

    // Whether the stay waited in a cell that has no cause yet.
    fn lacks(&self, stay: &ExplainedStay) -> bool {
        if stay.live <= stay.arrival {
            return false;
        }
        let (from, to) = self.cells(stay.arrival, stay.live.saturating_sub(1));
        match self.causes.get(from..to) {
            Some(cells) => cells.contains(&None),
            None => false,
        }
    }

    // Gives the cells of these waits their causes, unless they have one.
    fn fill(&mut self, waits: &[Wait]) {
        for wait in waits {
            if wait.first <= self.range.last && self.range.first <= wait.last {
                let (from, to) = self.cells(wait.first, wait.last);
                for at in from..to {
                    if let Some(cell) = self.causes.get_mut(at)
                        && cell.is_none()
                    {
                        *cell = Some(wait.cause);
                    }
                }
            }
        }
    }

    /// Puts the shades on the page, those of each cause together.
    pub(crate) fn push(&self, page: &mut Page, kind: InputKind) {
        for cause in &kind.causes() {
            if self.causes.contains(&Some(*cause)) {
                page.words(&["<path class='", class_of(*cause), "' d='"]);
                self.push_runs(page, *cause);
                page.put("'/>");
            }
        }
    }

    // Puts the runs of a cause's cells into the path that is open.
    fn push_runs(&self, page: &mut Page, cause: WaitCause) {
        let each = self.each as usize;
        let mut begun = None;
        for at in 0..=self.causes.len() {
            let is_here = self.causes.get(at) == Some(&Some(cause));
            match begun {
                None if is_here => begun = Some(at.saturating_mul(each)),
                Some(from) if !is_here => {
                    let to = at.saturating_mul(each).min(self.range.rounds() as usize);
                    page.show(format_args!("M{from} 0h{}", to.saturating_sub(from)));
                    begun = None;
                }
                _ => {}
            }
        }
    }
}
