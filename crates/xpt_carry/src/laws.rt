//! What a transport that goes on has of the one that ended.

ghost use Rattle.xpt_carry.specs.Laws.{QueuesAreKept, CcbsAreKept, OpeningsAreKept, CallersFreezesAreKept, AdaptersFreezesAreKept, NoErrorFreezes, FreezesAreKept, RoomIsEnough, FewEventsAreCarried};

/// The queue of each device has the same commands, in the same order, as that of the old transport after a tick: their
/// drivers, priorities and flags, and the retries that are left.
pub fn queues_are_kept()
    ensures { QueuesAreKept }
{}

/// CCB number k is what is left of the CCB that stay number k of those carried over was of.
pub fn ccbs_are_kept()
    ensures { CcbsAreKept }
{}

/// Each device has the openings that the old transport's would have after a tick.
pub fn openings_are_kept()
    ensures { OpeningsAreKept }
{}

/// Each device has the freezes that its callers had made.
pub fn callers_freezes_are_kept()
    ensures { CallersFreezesAreKept }
{}

/// Each adapter has the freezes that its callers had made.
pub fn adapters_freezes_are_kept()
    ensures { AdaptersFreezesAreKept }
{}

/// No device has a freeze by an error.
pub fn no_error_freezes()
    ensures { NoErrorFreezes }
{}

/// Each device has as many freezes as it had, if no CCB waits for a decision.
pub fn freezes_are_kept()
    ensures { FreezesAreKept }
{}

/// Limits that let 2 rounds open, and as many CCBs, stays and events as are carried over, refuse nothing.
pub fn room_is_enough()
    ensures { RoomIsEnough }
{}

/// At most two events for each device, one for each adapter, a tick, and one for each stay are carried over.
pub fn few_events_are_carried()
    ensures { FewEventsAreCarried }
{}
