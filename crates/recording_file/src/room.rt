//! How many requests more each device, adapter and link could take in each round.

ghost use Rattle.std.specs.Prelude.{◌≡◌, ◌+◌, ◌-◌, ◌*◌, ◌<◌, ◌≤◌, [], true, length, IfOk, OnOk, OnErr, slice_index, ℕ, if◌then◌else◌, ◌++◌, replicate, List};
ghost use Rattle.cam_types.specs.Topology.{IsConfig, Topology};
ghost use Rattle.recording_file.specs.Caps.{Part, openings, cap_in, covers};
ghost use Rattle.recording_file.specs.Room.{IsCell, IsRoom, Holds, cell_of, rows_by, row_of, part_in, IsLaid, IsSized, IsTable};
ghost use Rattle.recording_file.specs.Recorded.{Request, MAX_RECORDED_ROUNDS};
ghost use Rattle.std.specs.List.{AllByRecursion};

use crate::cap::Cap;
use crate::limits::MAX_RECORDED_ROUNDS;
use crate::part::{Part, PartKind};
use cam_types::Config;
use std::alloc::{AllocError, Global};

/// How many rows the table has: of 32 devices, 8 adapters and 4 links.
const ROWS: usize = 44;

/// The row of a part.
pub(crate) fn row_of(part: Part) -> usize
    requires { part.number < rows_by part.kind }
    ensures row { result ≡ row_of part }
    ensures few { result < 44 }
{
    let number = part.number as usize;
    match part.kind {
        PartKind::Device => number,
        PartKind::Adapter => 32 + number,
        PartKind::Link => 40 + number,
    }
}

/// The place of a part's round in a table of them all: a list of 44 rows of all rounds, for 32 devices, 8 adapters and 4 links.
pub fn cell_of(rounds: u32, part: Part, round: u32) -> usize
    requires cell { IsCell rounds part round }
    requires most { rounds ≤ MAX_RECORDED_ROUNDS }
    ensures place { result ≡ cell_of rounds part round }
    ensures within { result < 44 * rounds }
{
    row_of(part) * rounds as usize + (round as usize - 1)
}

// The openings of the part of a row, and 0 where there is no such part.
fn openings_in(config: &Config, row: usize) -> u32
    requires { row < 44 }
    ensures { result ≡ openings config.now (part_in row) }
{
    if row < 32 {
        match config.devices().get(row) {
            Some(device) => device.openings,
            None => 0,
        }
    } else if row < 40 {
        config.adapter_openings(row as u32 - 32)
    } else {
        config.link_openings(row as u32 - 40)
    }
}

// The table of a configuration's openings.
fn open_room(alloc: Global, rounds: u32, config: &Config) -> Result<Vec<u32>, AllocError>
    requires some { 1 ≤ rounds }
    requires most { rounds ≤ MAX_RECORDED_ROUNDS }
    ensures { IfOk result (λ cells. Holds rounds (λ p round. openings config.now p) cells.items) }
{
    let width = rounds as usize;
    let mut cells = Vec::with_capacity(alloc, ROWS * width)?;
    for row in 0..ROWS {
        push_row(&mut cells, openings_in(config, row), width)?;
    }
    Ok(cells)
}

// Puts a row of these openings after the others.
#[tactic(auto, using(crate::proofs::RoomLemmas::one_more))]
fn push_row(cells: &mut Vec<u32>, openings: u32, width: usize) -> Result<(), AllocError>
    ensures { OnOk result (cells.new.items ≡ cells.old.items ++ replicate width openings) }
{
    for _column in 0..width {
        cells.push(openings)?;
    }
    Ok(())
}

// Lays a cap over what the table holds.
fn lay_cap(cells: &mut [u32], rounds: u32, cap: Cap)
    requires size { length cells.old ≡ 44 * rounds }
    requires part { cap.part.number < rows_by cap.part.kind }
    requires some { 1 ≤ cap.first }
    requires order { cap.first ≤ cap.last }
    requires last { cap.last ≤ rounds }
    requires most { rounds ≤ MAX_RECORDED_ROUNDS }
    ensures { (f : Part → ℕ → ℕ) → Holds rounds f cells.old → Holds rounds (λ p round. if covers p round cap then cap.most else f p round) cells.new }
{
    let start = cell_of(rounds, cap.part, cap.first);
    let end = cell_of(rounds, cap.part, cap.last);
    for at in start..end + 1 {
        cells[at] = cap.most;
    }
}

// Lays all caps over what the table holds, the last one first.
fn lay_caps(cells: &mut [u32], rounds: u32, caps: &[Cap])
    requires size { length cells.old ≡ 44 * rounds }
    requires caps { AllByRecursion (IsLaid rounds) caps.now }
    requires most { rounds ≤ MAX_RECORDED_ROUNDS }
    ensures { (c : Topology) → Holds rounds (λ p round. openings c p) cells.old → Holds rounds (cap_in c caps.now) cells.new }
{
    let mut left = caps.len();
    while left > 0 {
        left -= 1;
        lay_cap(cells, rounds, caps[left]);
    }
}

/// The table of a configuration and its caps, before any request.
pub(crate) fn new_room(
    alloc: Global,
    rounds: u32,
    config: &Config,
    caps: &[Cap],
) -> Result<Vec<u32>, AllocError>
    requires some { 1 ≤ rounds }
    requires most { rounds ≤ MAX_RECORDED_ROUNDS }
    requires caps { AllByRecursion (IsLaid rounds) caps.now }
    ensures { IfOk result (λ cells. IsRoom rounds config.now caps.now [] cells.items) }
{
    let mut cells = open_room(alloc, rounds, config)?;
    lay_caps(&mut cells, rounds, caps);
    Ok(cells)
}

/// Fills the table, unless it has cells.
pub(crate) fn fill_room(
    alloc: Global,
    room: &mut Vec<u32>,
    rounds: u32,
    config: &Config,
    caps: &[Cap],
) -> Result<(), AllocError>
    requires some { 1 ≤ rounds }
    requires most { rounds ≤ MAX_RECORDED_ROUNDS }
    requires caps { AllByRecursion (IsLaid rounds) caps.now }
    requires size { IsSized rounds room.old.items }
    ensures size { OnOk result (length room.new.items ≡ 44 * rounds) }
    ensures filled { OnOk result ((requests : List Request) → IsTable rounds config.now caps.now requests room.old.items → IsRoom rounds config.now caps.now requests room.new.items) }
    ensures err { OnErr result (room.new.items ≡ room.old.items) }
{
    if room.is_empty() {
        *room = new_room(alloc, rounds, config, caps)?;
    }
    Ok(())
}
