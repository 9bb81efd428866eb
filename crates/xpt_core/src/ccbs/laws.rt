//! What holds of the cases of each legal list of events.

ghost use Rattle.xpt_core.specs.Laws.{FirstCaseRecovers, FirstCaseFailedFirst, AskedDecisionsAreTaken, DecisionsEndCases, FailuresAreClassed};

/// While a CCB waits for a decision, there is a first case, and that one waits.
pub fn first_case_recovers()
    ensures { FirstCaseRecovers }
{}

/// Of the CCBs that wait for a decision, the first case is the one whose failure came first.
pub fn first_case_failed_first()
    ensures { FirstCaseFailedFirst }
{}

/// While there is room for one more event and one more stay, the decision that a case's class asks for is taken.
pub fn asked_decisions_are_taken()
    ensures { AskedDecisionsAreTaken }
{}

/// A decision takes its CCB out of the cases.
pub fn decisions_end_cases()
    ensures { DecisionsEndCases }
{}

/// The class of a case is that of its failure, after the requeues that counted before it.
pub fn failures_are_classed()
    ensures { FailuresAreClassed }
{}
