//! What people who look after storage call the causes.

use round_net::WaitCause;
use wait_causes::InputKind;

/// The cause in the words of people who look after storage. A trace says what its transport knew. Of a recording they say what
/// was seen: by completions, whether there was room; without them only whether others were started.
pub fn plain_words(kind: InputKind, completions: bool, cause: WaitCause) -> &'static str {
    match (kind, cause) {
        (InputKind::Recording, cause) if completions => seen_words(cause),
        (_, WaitCause::Error) => "frozen for error recovery",
        (_, WaitCause::Caller) => "frozen by the driver",
        (_, WaitCause::AdapterFrozen) => "host frozen by the driver",
        (_, WaitCause::DeviceStopped) => "none was started",
        (_, WaitCause::AdapterStopped) => "none was started on the host",
        (_, WaitCause::LinkStopped) => "none was started over the link",
        (InputKind::Recording, WaitCause::DeviceFull) => "others were started",
        (InputKind::Recording, WaitCause::AdapterFull) => "others were started on the host",
        (InputKind::Recording, WaitCause::LinkFull) => "others were started over the link",
        (InputKind::Trace, WaitCause::DeviceFull) => "queue depth reached",
        (InputKind::Trace, WaitCause::AdapterFull) => "host tags used",
        (InputKind::Trace, WaitCause::LinkFull) => "all that the link takes was used",
        (_, WaitCause::NotAsked) => "could start, and nobody asked",
    }
}

// What is seen of a recording that says when requests were completed.
fn seen_words(cause: WaitCause) -> &'static str {
    match cause {
        WaitCause::DeviceStopped => "it took nothing, and no start more would have fit",
        WaitCause::AdapterStopped => "the host took nothing",
        WaitCause::LinkStopped => "the link took nothing",
        WaitCause::DeviceFull => "slots came free, and others took them",
        WaitCause::AdapterFull => "others took what the host takes",
        WaitCause::LinkFull => "others took what the link takes",
        WaitCause::NotAsked => "there was room, and the scheduler held back",
        WaitCause::Error | WaitCause::Caller | WaitCause::AdapterFrozen => "frozen",
    }
}
