//! What a script has of what was recorded.

ghost use Rattle.conversions.specs.Laws.{SubmitsAreInOrder, SubmitsAreInTheirRounds, RequestsAreInTheirRounds, AnswersAreThoseServed, PlainIsExact};

/// Each driver calls for its submits in the history, in their order, and for nothing else.
pub fn submits_are_in_order()
    ensures { SubmitsAreInOrder }
{}

/// Each driver asks for its submits in the rounds of the history.
pub fn submits_are_in_their_rounds()
    ensures { SubmitsAreInTheirRounds }
{}

/// Each driver asks for its requests in the rounds in which they arrived.
pub fn requests_are_in_their_rounds()
    ensures { RequestsAreInTheirRounds }
{}

/// A lane gives its k-th command the outcome that its k-th command had in the history.
pub fn answers_are_those_served()
    ensures { AnswersAreThoseServed }
{}

/// If each answer is plain, each command came out plainly in the history, and does so in each run.
pub fn plain_is_exact()
    ensures { PlainIsExact }
{}
