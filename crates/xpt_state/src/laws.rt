//! What holds of sends and of idle lanes.

ghost use Rattle.xpt_state.specs.Laws.{IdleIsNoNext, NextIsUnrefused, LaneIsRefusedAsItsSends, LegalIsNext, LegalSendIsMade};

/// An adapter's lane is idle exactly where no stay's turn has come.
pub fn idle_where_there_is_no_head()
    ensures { IdleIsNoNext }
{}

/// Where a lane isn't refused, no send of its adapter's next stay is.
pub fn next_is_unrefused()
    ensures { NextIsUnrefused }
{}

/// Where a lane is refused, each of its sends is, for the same cause.
pub fn lane_is_refused_as_its_sends()
    ensures { LaneIsRefusedAsItsSends }
{}

/// A lane sends no CCB but the one whose turn it is on its adapter.
pub fn only_the_next_is_sent()
    ensures { LegalIsNext }
{}

/// Where a send isn't refused, the lane that asks for its next command gets that of the CCB.
pub fn legal_sends_are_made()
    ensures { LegalSendIsMade }
{}
