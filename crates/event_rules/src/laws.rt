//! What holds of each legal list of events.

ghost use Rattle.event_rules.specs.Laws.{LegalIsUnrefused, LegalIsWithin, EachIsLegal, SendsStandFree, RequeuesCountByClass, NarrowerIsLegal, StaysAreInRange};

/// By any rules, what each kind of event asks of those before it is what no cause of a refusal denies.
pub fn legal_is_unrefused()
    ensures { LegalIsUnrefused }
{}

/// In each legal list a send stands where no freeze of its device or adapter stands and both have an opening left.
pub fn sends_stand_free()
    ensures { SendsStandFree }
{}

/// In each legal list the requeues that count as retries are those after a result whose class says so.
pub fn requeues_count_by_class()
    ensures { RequeuesCountByClass }
{}

/// What is legal by a transport's own limits is legal in a history.
pub fn narrower_is_legal()
    ensures { NarrowerIsLegal }
{}

/// In each legal list a stay is of a CCB that was submitted to a device of the configuration with a priority and
/// retries that there are.
pub fn stays_are_in_range()
    ensures { StaysAreInRange }
{}

/// Legal events are no more than their rules allow, nor are their rounds, their stays and the CCBs alive.
pub fn legal_is_within()
    ensures { LegalIsWithin }
{}

/// Each event of a legal list is legal after those before it.
pub fn each_is_legal()
    ensures { EachIsLegal }
{}
