//! Where a round of a row stands in one list of them all.

ghost use Rattle.std.specs.Prelude.{◌≡◌, ◌≤◌};
ghost use Rattle.round_net.specs.declared.limits.TheConstants.{MAX_NET_ROUNDS};
ghost use Rattle.round_net.specs.Rows.{cell};

/// Where a round of a row stands in a list that has all rounds of the first row, then those of the second one, and so on.
/// Rounds are numbered from 1, rows from 0.
#[tactic(auto, using(crate::proofs::CellLemmas::product_fits))]
pub fn cell(rounds: u32, row: u32, round: u32) -> usize
    requires rounds { rounds ≤ MAX_NET_ROUNDS }
    ensures { result ≡ cell rounds row round }
{
    row as usize * rounds as usize + (round as usize).saturating_sub(1)
}
