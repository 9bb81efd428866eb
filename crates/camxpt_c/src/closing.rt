//! Closes a transport.

ghost use Rattle.std.specs.Prelude.{◌≡◌, None, MatchOption};
ghost use Rattle.camxpt_c.specs.declared.codes.TheConstants.{OK, E_CLOSED};

use crate::codes::{E_CLOSED, OK};
use crate::handle::CamXpt;
use std::alloc::Global;

/// Closes the handle and frees all memory of its transport. A closed handle stays closed.
#[unsafe(no_mangle)]
pub extern "C" fn camxpt_raw_close(alloc: Global, handle: &mut CamXpt) -> i32
    ensures closed { handle.new.body.kept ≡ None }
    ensures code { MatchOption handle.old.body.kept (result ≡ E_CLOSED) (λ _. result ≡ OK) }
{
    match handle.take(alloc) {
        Some(_) => OK,
        None => E_CLOSED,
    }
}
