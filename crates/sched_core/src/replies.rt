//! What a step gives.
ghost use Rattle.std.specs.Prelude.{◌≡◌, ◌∷◌, [], None, Some, IfOk};
ghost use Rattle.lsp_types.specs.Bodies.{error_body};
ghost use Rattle.sched_core.specs.Bodies.{log_body as log_bytes};

use crate::bodies::log_body;
use crate::{BytesList, Exit, Written};
use base_core::{Bytes, NoMem};
use lsp_types::{ErrorCode, Id, encode_error};
use std::alloc::Global;

pub(crate) fn one_body(alloc: Global, body: Bytes) -> Result<BytesList, NoMem>
    ensures { IfOk result (λ bodies. bodies ≡ body ∷ []) }
{
    let mut bodies = BytesList::new(alloc);
    bodies.push(body)?;
    Ok(bodies)
}

/// These bodies, and the session goes on.
pub(crate) fn written(bodies: BytesList) -> Written
    ensures bodies { result.bodies ≡ bodies }
    ensures exit { result.exit ≡ None }
{
    Written { bodies, exit: None }
}

/// Nothing is written, and the session goes on.
pub(crate) fn silent(alloc: Global) -> Written
    ensures bodies { result.bodies ≡ [] }
    ensures exit { result.exit ≡ None }
{
    written(BytesList::new(alloc))
}

/// Nothing is written, and the session ends.
pub(crate) fn leaves(alloc: Global, exit: Exit) -> Written
    ensures bodies { result.bodies ≡ [] }
    ensures exit { result.exit ≡ Some exit }
{
    Written {
        bodies: BytesList::new(alloc),
        exit: Some(exit),
    }
}

/// One body, and the session goes on.
pub(crate) fn answer(alloc: Global, body: Bytes) -> Result<Written, NoMem>
    ensures bodies { IfOk result (λ w. w.bodies ≡ body ∷ []) }
    ensures exit { IfOk result (λ w. w.exit ≡ None) }
{
    Ok(written(one_body(alloc, body)?))
}

/// A notification is refused, and the client's log says why.
pub(crate) fn refuse(alloc: Global, why: &str) -> Result<Written, NoMem>
    ensures bodies { IfOk result (λ w. w.bodies ≡ log_bytes why.now ∷ []) }
    ensures exit { IfOk result (λ w. w.exit ≡ None) }
{
    answer(alloc, log_body(alloc, why)?)
}

/// A request is answered with an error.
pub(crate) fn answer_error(alloc: Global, id: &Id, code: ErrorCode) -> Result<Written, NoMem>
    ensures bodies { IfOk result (λ w. w.bodies ≡ error_body id.now code ∷ []) }
    ensures exit { IfOk result (λ w. w.exit ≡ None) }
{
    answer(alloc, encode_error(alloc, id, code)?)
}
