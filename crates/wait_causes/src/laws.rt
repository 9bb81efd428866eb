//! What adds up in an explanation, and in two side by side.

ghost use Rattle.wait_causes.specs.BehindLaws.{BehindAddsUp};
ghost use Rattle.wait_causes.specs.FreezeLaws.{FreezesAddUp};
ghost use Rattle.wait_causes.specs.PairLaws.{PairsAddUp, RowsPairOnce};
ghost use Rattle.wait_causes.specs.TableLaws.{RowsAddUp};

/// What the freezes of a kind cost adds up to what all stays waited for its cause.
pub fn freezes_add_up()
    ensures { FreezesAddUp }
{}

/// The rows of each table have together as many stays as the whole, as many rounds and weighted rounds, and of each cause as
/// much.
pub fn rows_add_up()
    ensures { RowsAddUp }
{}

/// The rounds of each stay behind less urgent, equal and more urgent ones are together those in which its device, its adapter
/// or the link was full; and so are the costs of each part.
pub fn behind_adds_up()
    ensures { BehindAddsUp }
{}

/// Of rounds, weighted rounds and each cause's cost, the rows of a table before a change have together what the whole before
/// has, and those after it what the whole after has.
pub fn pairs_add_up()
    ensures { PairsAddUp }
{}

/// Each row of the table before and each of the table after stands in exactly one pair.
pub fn rows_pair_once()
    ensures { RowsPairOnce }
{}
