//! The words and classes of causes and freezes.

use wait_causes::{FreezeKind, WaitCause};

/// The class by which the style sheet knows a cause.
pub(crate) fn class_of(cause: WaitCause) -> &'static str {
    match cause {
        WaitCause::Error => "er",
        WaitCause::Caller => "ca",
        WaitCause::AdapterFrozen => "az",
        WaitCause::DeviceStopped => "ds",
        WaitCause::AdapterStopped => "as",
        WaitCause::LinkStopped => "ls",
        WaitCause::DeviceFull => "df",
        WaitCause::AdapterFull => "af",
        WaitCause::LinkFull => "lf",
        WaitCause::NotAsked => "na",
    }
}

/// What froze, in words.
pub(crate) fn freeze_words(kind: FreezeKind) -> &'static str {
    match kind {
        FreezeKind::Error => "frozen by an error",
        FreezeKind::Caller => "frozen by a caller",
        FreezeKind::Adapter => "adapter frozen by a caller",
    }
}
