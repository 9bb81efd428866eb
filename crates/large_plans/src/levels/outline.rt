//! What is known of a level of time before it is planned: what comes in each of its nodes, and what may go on from there.

ghost use Rattle.std.specs.Prelude.{◌≡◌, ◌*◌, ◌^◌, ◌<◌, IfOk};

use crate::caps::{RoundCaps, number_at};
use crate::levels::parts::{Coming, Part};
use crate::network::Network;
use std::alloc::{AllocError, Global};

/// How many blocks there are at most on the first level.
const FEW_BLOCKS: u32 = 4;

/// The most halvings that a number of rounds can take.
const MAX_HALVINGS: u32 = 31;

/// The caps and the arrivals of a level, block by block.
#[derive(Drop)]
pub struct Outline {
    /// How many blocks there are.
    pub blocks: u32,
    /// How many nodes a block has.
    pub width: u32,
    /// How many may go on from each node in its block.
    pub caps: Vec<u32>,
    comes: Vec<u32>,
}

/// Those of all levels of a part: of the level whose blocks are rounds, and then with blocks twice as long each time, until
/// there are few.
pub fn outlines(alloc: Global, network: &Network, part: &Part) -> Result<Vec<Outline>, AllocError> {
    let mut outlines = Vec::new(alloc);
    let mut outline = Outline::of_rounds(alloc, network, part)?;
    for _ in 0..MAX_HALVINGS {
        if outline.blocks <= FEW_BLOCKS {
            break;
        }
        let longer = outline.in_pairs(alloc)?;
        outlines.push(outline)?;
        outline = longer;
    }
    outlines.push(outline)?;
    Ok(outlines)
}

impl Outline {
    // That of the level whose blocks are rounds. Nodes are numbered, so that there can't be more of them than numbers.
    fn of_rounds(alloc: Global, network: &Network, part: &Part) -> Result<Outline, AllocError>
        ensures rounds { IfOk result (λ outline. outline.blocks ≡ network.now.rounds) }
        ensures numbered { IfOk result (λ outline. outline.blocks * outline.width < 2 ^ 32) }
    {
        let width = part.columns.len();
        if network.rounds.checked_mul(width).is_none() {
            return Err(AllocError);
        }
        let caps = caps_of(alloc, network, part)?;
        let mut comes = vec![in alloc; 0; caps.len()]?;
        for coming in &part.comings {
            add_coming(&mut comes, width, coming);
        }
        Ok(Outline {
            blocks: network.rounds,
            width,
            caps,
            comes,
        })
    }

    // That of the level whose blocks are each two of this one's, or the last one alone.
    fn in_pairs(&self, alloc: Global) -> Result<Outline, AllocError> {
        let blocks = self.blocks.div_ceil(2);
        Ok(Outline {
            blocks,
            width: self.width,
            caps: sums_of_pairs(alloc, &self.caps, blocks, self.width)?,
            comes: sums_of_pairs(alloc, &self.comes, blocks, self.width)?,
        })
    }

    /// How many come in a node.
    #[inline]
    pub fn comes(&self, number: u32) -> u32 {
        number_at(&self.comes, number)
    }
}

// The caps of a part, round by round.
fn caps_of(alloc: Global, network: &Network, part: &Part) -> Result<Vec<u32>, AllocError> {
    let mut round_caps = RoundCaps::new(alloc, &part.columns, part.most())?;
    let mut caps = Vec::new(alloc);
    for round in 0..network.rounds {
        round_caps.load(network, &part.columns, round);
        caps.extend_from_slice(&round_caps.tight)?;
    }
    Ok(caps)
}

fn add_coming(comes: &mut [u32], width: u32, coming: &Coming) {
    let place = (coming.round as usize)
        .saturating_mul(width as usize)
        .saturating_add(coming.column as usize);
    if let Some(count) = comes.get_mut(place) {
        *count = count.saturating_add(1);
    }
}

// The sums of the numbers of two blocks each.
fn sums_of_pairs(
    alloc: Global,
    numbers: &[u32],
    blocks: u32,
    width: u32,
) -> Result<Vec<u32>, AllocError> {
    let mut sums = Vec::with_capacity(alloc, numbers.len().div_ceil(2))?;
    for block in 0..blocks {
        let first = block.saturating_mul(2).saturating_mul(width);
        for column in 0..width {
            let here = first.saturating_add(column);
            let second = number_at(numbers, here.saturating_add(width));
            sums.push(number_at(numbers, here).saturating_add(second))?;
        }
    }
    Ok(sums)
}
