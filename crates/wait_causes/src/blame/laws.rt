//! What the rows of a table of blame add up to.

ghost use Rattle.wait_causes.specs.BlameLaws.{BlameAddsUp};

/// Of each number the rows have together all rounds that its stays waited, and all weighted rounds: so all rows have together
/// what the live schedule costs.
pub fn blame_adds_up()
    ensures { BlameAddsUp }
{}
