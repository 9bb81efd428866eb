//! The glossary of the page.

use crate::scene::Scene;
use wait_causes::{InputKind, WaitCause};
use wording::{Page, plain_words};

// The words of all pages, those that storage people use first: before those of full devices and adapters and after them.
const WORDS: &str = "<section id='words'><h2>Words</h2>\n<dl>\
<dt>request in queue (stay)</dt><dd>one passage of a request through its device's queue, from the round in which it came to the one in which it was sent</dd>\
<dt>recorded wait (live)</dt><dd>what was waited, as it happened; as a cost, each round times the weight of the request's priority</dd>\
<dt>least possible (best)</dt><dd>what a best schedule of the same requests costs, with the same openings; that it is best is proved</dd>\
<dt>avoidable (excess)</dt><dd>recorded less least possible; exact of the whole, while a part's is that of one best schedule</dd>";

const MORE_WORDS: &str =
    "<dt>could start and nobody asked (not asked)</dt><dd>there was an opening, and the request wasn't sent</dd>\
<dt>priority class (run level)</dt><dd>0, the most urgent, to 4: 256 priorities each</dd>\
<dt>behind less urgent, equal, more urgent</dt><dd>what a full device, adapter or link sent in the round in the request's place</dd>";

const TRACE: &str =
    "<dt>frozen for error recovery (held by an error)</dt><dd>a request of the device had failed and waited for a decision</dd>\
<dt>frozen by the driver (frozen by a caller)</dt><dd>a caller had stopped the device's queue; <b>adapter frozen</b> if it was the adapter</dd>";

const RECORDING: &str =
    "<dt>none was started (device stopped, adapter stopped)</dt><dd>it took no request in the round; a recording doesn't say why</dd>";

// The words of links, where there are some.
const LINKS: &str =
    "<dt>link full, link stopped</dt><dd>the same of the link that the adapter is on</dd>";

const END: &str =
    "</dl>\n<p><code>camxpt explain --json</code> has all numbers of this page, and every request with its waits.</p></section>\n";

/// Puts what the words mean on the page.
pub(crate) fn push_words(page: &mut Page, scene: &Scene) {
    let (full, rest) = match scene.explanation.kind() {
        InputKind::Trace => (
            "the device had taken as many requests in the round as it takes",
            TRACE,
        ),
        InputKind::Recording => (
            "as many of the device's requests were started in the round as the recording says that it took",
            RECORDING,
        ),
    };
    page.put(WORDS);
    push_full(page, scene, WaitCause::DeviceFull, full);
    push_full(
        page,
        scene,
        WaitCause::AdapterFull,
        "the same of the adapter",
    );
    page.words(&[MORE_WORDS, rest]);
    if WaitCause::LinkFull.can_hold(scene.net.config()) {
        page.put(LINKS);
    }
    page.put(END);
}

// Puts the words of full devices or adapters on the page, with what they mean.
fn push_full(page: &mut Page, scene: &Scene, cause: WaitCause, meant: &str) {
    let completions = scene.whole.latency.is_some();
    let plain = plain_words(scene.explanation.kind(), completions, cause);
    page.words(&["<dt>", plain, " (", cause.name(), ")</dt><dd>"]);
    page.words(&[meant, "</dd>"]);
}
