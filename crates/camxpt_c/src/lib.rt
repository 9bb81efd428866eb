//! The transport for C: a function for each call, over a handle that C allocates. `c/camxpt.h` is its header.
#![tactic(auto)]

mod body;
mod calls;
mod carrying;
mod closing;
mod codes;
mod configs;
mod event_shapes;
mod events;
mod handle;
mod laws;
mod opening;
mod port;
mod questions;
mod raw_box;
mod record_fault;
mod record_shapes;
mod recorder_body;
mod recorder_calls;
mod recorder_handle;
mod recorder_port;
mod recording;
mod recording_items;
mod sending;
mod shapes;
mod tracing;
