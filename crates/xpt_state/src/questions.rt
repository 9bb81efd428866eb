//! What a transport's answers ask of its state.

ghost use Rattle.std.specs.Prelude.{◌≡◌, ◌<◌, length, is_some};
ghost use Rattle.event_rules.specs.Head.{head};
ghost use Rattle.xpt_state.specs.Idle.{takes_more};

use xpt_core::State;

/// Whether the adapter takes one more command in this round: an opening of it is left, and of its link, if it is on one.
pub(crate) fn takes_more(state: &State, adapter: u32) -> bool
    requires { adapter < length state.now.config.adapters }
    ensures { result ≡ takes_more state.now.config state.now.events adapter }
{
    state.queues().has_opening(adapter) && state.queues().link_has_opening(adapter)
}

/// Whether the adapter has something to send; one that isn't there has nothing.
pub(crate) fn has_head(state: &State, adapter: u32) -> bool
    ensures { result ≡ is_some (head state.now.config state.now.events adapter) }
{
    let adapter_count = state.config().adapters().len();
    (adapter as usize) < adapter_count && state.queues().next(adapter).is_some()
}
