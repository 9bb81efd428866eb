//! The transport that threads share: a lock round a transport, seats whose receipts tell what each actor did, and the one
//! history in which they all did it.
#![tactic(auto)]

pub use epoch::Epoch;
pub use fault::{GatherFault, SeatsFull, SharedFault};
pub use receipt::Receipt;
pub use seat::{Seat, SeatName};
pub use shared::SharedXpt;
pub use wait_event::WaitEvent;
pub use xpt_state::Reply;

mod compare;
mod epoch;
mod fault;
mod gather;
mod kept;
mod notifications;
mod receipt;
mod replay;
mod seat;
mod shared;
mod sleepers;
mod wait_event;
