//! The text of an object.

ghost use Rattle.std.specs.Prelude.{◌≡◌, string_bytes, IfOk};
ghost use Rattle.json.specs.Lex.{tokens};
ghost use Rattle.json.specs.Print.{print};

use serde::Serialize;
use std::alloc::{AllocError, Global};

/// The object as JSON without spaces, line feeds or other control characters.
pub(crate) fn line<T: Serialize>(alloc: Global, object: &T) -> Result<String, AllocError>
    ensures { IfOk result (λ s. string_bytes s ≡ print (tokens (string_bytes s))) }
{
    match serde_json::to_string(alloc, object) {
        Ok(text) => Ok(text),
        Err(_) => Err(AllocError),
    }
}
