//! The words of a script's records.

use record_text::is_text;

/// What the first field of a script's record names, after the configuration.
#[derive(Clone, Copy)]
pub(crate) enum ScriptWord {
    Submit,
    Freeze,
    Release,
    FreezeSim,
    ReleaseSim,
    Adjust,
    Pause,
    Answer,
}

impl ScriptWord {
    ghost use Rattle.std.specs.Prelude.{◌≡◌};
    ghost use Rattle.trace_file.specs.ScriptRows.{script_word_of};
    ghost use Rattle.trace_file.specs.Scenarios.{is_answer_word};

    /// The word that a field spells.
    #[tactic(auto, unfolding(crate::specs::ScriptRows::script_word_of))]
    pub(crate) fn of(field: &[u8]) -> Option<ScriptWord>
        ensures { result ≡ script_word_of field.now }
    {
        let word = if is_text(field, b"submit") {
            ScriptWord::Submit
        } else if is_text(field, b"freeze") {
            ScriptWord::Freeze
        } else if is_text(field, b"release") {
            ScriptWord::Release
        } else if is_text(field, b"sfreeze") {
            ScriptWord::FreezeSim
        } else if is_text(field, b"srelease") {
            ScriptWord::ReleaseSim
        } else if is_text(field, b"adjust") {
            ScriptWord::Adjust
        } else if is_text(field, b"pause") {
            ScriptWord::Pause
        } else if is_text(field, b"answer") {
            ScriptWord::Answer
        } else {
            return None;
        };
        Some(word)
    }

    /// Whether it is of a lane's answer, and not of a driver's step.
    pub(crate) fn is_answer(self) -> bool
        ensures { result ≡ is_answer_word self }
    {
        matches!(self, ScriptWord::Answer)
    }
}
