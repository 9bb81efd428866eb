//! A parser of records.

ghost use Rattle.std.specs.Prelude.{◌≡◌, ◌≢◌, ℕ, List, Result, Err, IfOk};
ghost use Rattle.csv.specs.Records.{fields_of};

use csv::ByteRecord;
use std::alloc::Global;

/// What was parsed so far, to which one more record is applied.
pub trait Parser: Sized + Drop {
    /// Why a record isn't taken.
    type Fault: Drop;

    /// The parser after a record of this number with these fields.
    ghost step: { ℕ → Self → List (List ℕ) → Result Self Self.Fault };

    /// What each parser keeps.
    ghost is_sound: { Self → Type 0 };

    /// The fault where memory is refused.
    ghost refused: { Self.Fault };

    /// That no memory is left.
    fn out_of_memory() -> Self::Fault
        ensures { result ≡ refused };

    /// Takes the record of this number, or answers its fault.
    fn take(self, alloc: Global, number: u32, row: &ByteRecord) -> Result<Self, Self::Fault>
        requires { is_sound self }
        ensures value { result ≢ Err refused → result ≡ step number self (fields_of row.now) }
        ensures sound { IfOk result (λ s. is_sound s) };
}
