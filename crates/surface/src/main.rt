//! Makes calls that no other program makes itself: of the parts that a transport is made of, of nets and of checks, crate by
//! crate. It prints a line for each crate, of what its calls answer: who changes a call breaks this program. With the word
//! `refused` it makes calls that take memory, each once more if it got none.
#![tactic(auto)]

use anyhow::Result;
use cam_ccb_calls::call_cam_ccb;
use cam_path_calls::call_cam_path;
use cam_types_calls::call_cam_types;
use camq_heap_calls::call_camq_heap;
use dev_queue_calls::call_dev_queue;
use price_check_calls::call_price_check;
use refused_memory::call_refused;
use round_net_calls::call_round_net;
use sense_class_calls::call_sense_class;
use sim_queue_calls::call_sim_queue;
use std::env;

mod cam_ccb_calls;
mod cam_path_calls;
mod cam_types_calls;
mod camq_heap_calls;
mod dev_queue_calls;
mod price_check_calls;
mod refused_memory;
mod refused_seats;
mod round_net_calls;
mod sense_class_calls;
mod sim_queue_calls;
mod tell;
mod texts;

fn main(rt: HostRuntime) -> Result<()> {
    if is_of_refused_memory(&rt)? {
        return call_refused(&rt, &rt);
    }
    call_cam_types(&rt)?;
    call_cam_path(&rt)?;
    call_cam_ccb(&rt)?;
    call_camq_heap(&rt)?;
    call_dev_queue(&rt)?;
    call_sim_queue(&rt)?;
    call_sense_class(&rt)?;
    call_round_net(&rt)?;
    call_price_check(&rt)
}

// Whether the first word asks for the calls for which memory may be refused.
fn is_of_refused_memory(rt: &HostRuntime) -> Result<bool> {
    let words: Vec<String> = env::args(rt)?.collect(rt.alloc())?;
    match words.get(1) {
        Some(word) => Ok(word.as_str() == "refused"),
        None => Ok(false),
    }
}
