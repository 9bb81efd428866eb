//! What holds of the pointers of CCBs.

ghost use Rattle.camxpt_c.specs.Laws.{SubmitsGiveTheirPointer, PointersStay, PointersGoOn};

/// The CCB of a submit has the pointer that the submit was given.
pub fn submits_give_their_pointer()
    ensures { SubmitsGiveTheirPointer }
{}

/// No event changes the pointer of a CCB that is there.
pub fn pointers_stay()
    ensures { PointersStay }
{}

/// After a carry each CCB has the pointer that the CCB of its old number had.
pub fn pointers_go_on()
    ensures { PointersGoOn }
{}
