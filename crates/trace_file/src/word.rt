//! The words of a trace's records.

use record_text::is_text;

/// What the first field of a trace's record names.
#[derive(Clone, Copy)]
pub(crate) enum TraceWord {
    Sim,
    Dev,
    Lane,
    Submit,
    Send,
    Done,
    Requeue,
    Finish,
    Freeze,
    Release,
    FreezeSim,
    ReleaseSim,
    Adjust,
    Tick,
    Weight,
    Link,
}

impl TraceWord {
    ghost use Rattle.std.specs.Prelude.{◌≡◌, ◌∷◌, [], bytes_eq, find};
    ghost use Rattle.trace_file.specs.Words.{spelled, word_of, word_rank};

    /// The word that a field spells.
    #[tactic(auto, unfolding(crate::specs::Words::word_of))]
    pub(crate) fn of(field: &[u8]) -> Option<TraceWord>
        ensures { result ≡ word_of field.now }
    {
        let word = if is_text(field, b"sim") {
            TraceWord::Sim
        } else if is_text(field, b"dev") {
            TraceWord::Dev
        } else if is_text(field, b"lane") {
            TraceWord::Lane
        } else if is_text(field, b"submit") {
            TraceWord::Submit
        } else if is_text(field, b"send") {
            TraceWord::Send
        } else if is_text(field, b"done") {
            TraceWord::Done
        } else if is_text(field, b"requeue") {
            TraceWord::Requeue
        } else if is_text(field, b"finish") {
            TraceWord::Finish
        } else {
            return TraceWord::of_rest(field);
        };
        Some(word)
    }

    // The same of the words that come after `finish`.
    #[tactic(auto, unfolding(crate::specs::Words::word_of))]
    fn of_rest(field: &[u8]) -> Option<TraceWord>
        ensures { result ≡ find (λ w. bytes_eq field.now (spelled w)) (TraceWord.Freeze ∷ TraceWord.Release ∷ TraceWord.FreezeSim ∷ TraceWord.ReleaseSim ∷ TraceWord.Adjust ∷ TraceWord.Tick ∷ TraceWord.Weight ∷ TraceWord.Link ∷ []) }
    {
        let word = if is_text(field, b"freeze") {
            TraceWord::Freeze
        } else if is_text(field, b"release") {
            TraceWord::Release
        } else if is_text(field, b"sfreeze") {
            TraceWord::FreezeSim
        } else if is_text(field, b"srelease") {
            TraceWord::ReleaseSim
        } else if is_text(field, b"adjust") {
            TraceWord::Adjust
        } else if is_text(field, b"tick") {
            TraceWord::Tick
        } else if is_text(field, b"weight") {
            TraceWord::Weight
        } else if is_text(field, b"link") {
            TraceWord::Link
        } else {
            return None;
        };
        Some(word)
    }

    /// Where a record of this word stands: rows of weights, links, adapters, devices, lanes and events come in this order.
    pub(crate) fn rank(self) -> u32
        ensures { result ≡ word_rank self }
    {
        match self {
            TraceWord::Weight => 0,
            TraceWord::Link => 1,
            TraceWord::Sim => 2,
            TraceWord::Dev => 3,
            TraceWord::Lane => 4,
            _ => 5,
        }
    }
}
