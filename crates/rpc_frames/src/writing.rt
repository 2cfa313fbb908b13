//! The frame of a body.
ghost use Rattle.std.specs.Prelude.{◌≡◌, IfOk};
ghost use Rattle.rpc_frames.specs.Frames.{framed};

use base_core::{Bytes, NoMem};
use std::alloc::Global;

/// The frame of a body: `Content-Length: N`, an empty line, and the body.
pub fn write_frame(alloc: Global, body: &[u8]) -> Result<Bytes, NoMem>
    ensures { IfOk result (λ frame. frame ≡ framed body.now) }
{
    let length = body.len();
    let header = format!(in alloc; "Content-Length: {length}\r\n\r\n")?;
    let mut frame = Vec::with_capacity(alloc, header.len().saturating_add(length))?;
    frame.extend_from_slice(header.as_bytes())?;
    frame.extend_from_slice(body)?;
    Ok(Bytes::from_vec(frame))
}
