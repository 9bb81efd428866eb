//! How long stays waited for those of one number, and what that cost.

ghost use Rattle.std.specs.Prelude.{◌≡◌, ◌+◌, ◌<◌, ◌≤◌, ℕ, map, count_by, length, Option, IfOk};
ghost use Rattle.std.specs.List.{range_with_len};
ghost use Rattle.wait_causes.specs.Parts.{IsLight};
ghost use Rattle.wait_causes.specs.Tables.{stays_of, greatest};
ghost use Rattle.wait_causes.specs.Totals.{totals_by};
ghost use Rattle.wait_causes.specs.BlameAmounts.{amounts_of, with_stay, is_who, due, IsSmall};
ghost use Rattle.wait_causes.specs.BlameLists.{stays_in, who_in, AreTotals};

use crate::blame::totals::rounds_between;
use crate::explained_stay::ExplainedStay;
use crate::explanation::Explanation;
use crate::table::Grouping;
use std::alloc::{AllocError, Global};

/// How long some stays waited for those of one number.
#[derive(Clone, Copy)]
pub(crate) struct Amounts {
    /// The rounds that they waited so.
    pub(crate) waited: u64,
    /// Those in which they need not have waited any more.
    pub(crate) avoidable: u64,
    /// The weighted rounds of `waited`.
    pub(crate) cost: u64,
}

impl Amounts {
    // Those of no stay.
    const NONE: Amounts = Amounts {
        waited: 0,
        avoidable: 0,
        cost: 0,
    };

    // These and those of one more stay, by the totals of its device.
    fn with(self, stay: &ExplainedStay, totals: &[usize]) -> Amounts
        requires first { 1 ≤ stay.now.arrival }
        requires last { stay.now.live ≤ length totals.now }
        requires light { IsLight stay.now }
        requires totals { (of : ℕ → Option ℕ) × (m : Option ℕ) × (totals.now ≡ totals_by (count_by (is_who m)) of (length totals.now)) }
        requires room { IsSmall 4611686018427387904 self }
        ensures found { (who : ℕ → ℕ → Option ℕ) (m : Option ℕ) → totals.now ≡ totals_by (count_by (is_who m)) (who stay.now.device) (length totals.now) → result ≡ with_stay who m self stay.now }
        ensures small { (most : ℕ) → IsSmall most self → IsSmall (most + 4398046511104) result }
    {
        let waited = rounds_between(totals, stay.arrival, stay.live);
        let avoidable = rounds_between(totals, due(stay), stay.live);
        Amounts {
            waited: self.waited + waited,
            avoidable: self.avoidable + avoidable,
            cost: self.cost + u64::from(stay.weight) * waited,
        }
    }
}

// The round from which on the stay need not have waited.
fn due(stay: &ExplainedStay) -> u32
    ensures { result ≡ due stay.now }
{
    stay.arrival.max(stay.pace.unwrap_or(stay.best))
}

/// Those of the stays of each number up to the greatest, by the totals of all devices.
pub(crate) fn amounts_of(
    alloc: Global,
    explanation: &Explanation,
    totals: &[Vec<usize>],
    by: Grouping,
    count: usize,
) -> Result<Vec<Amounts>, AllocError>
    requires count { greatest by (stays_in explanation.now) < count }
    requires totals { (m : Option ℕ) × AreTotals explanation.now by m totals.now }
    ensures { IfOk result (λ amounts. (m : Option ℕ) → AreTotals explanation.now by m totals.now → amounts.items ≡ map (λ n. amounts_of (who_in explanation.now by) m (stays_of by (stays_in explanation.now) n)) (range_with_len 0 count)) }
{
    let mut amounts = vec![in alloc; Amounts::NONE; count]?;
    for stay in explanation.stays() {
        let at = by.number(stay) as usize;
        amounts[at] = amounts[at].with(stay, &totals[stay.device as usize]);
    }
    Ok(amounts)
}
