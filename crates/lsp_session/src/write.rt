//! The frames of bodies are written.
ghost use Rattle.std.specs.Prelude.{◌≡◌};
ghost use Rattle.std.specs.List.{flat_map};
ghost use Rattle.base_core.specs.Writes.{Writes};
ghost use Rattle.rpc_frames.specs.Frames.{framed};

use base_core::{Bytes, Halt, Sink, write_all};
use rpc_frames::write_frame;
use std::alloc::Global;

/// Writes the frame of a body.
pub fn write_body<S: Sink>(alloc: Global, out: &mut S, body: &[u8]) -> Result<(), Halt>
    ensures { Writes S.written S.faults out.old out.new result (framed body.now) }
{
    let Ok(frame) = write_frame(alloc, body) else {
        return Err(Halt::NoMem);
    };
    write_all(out, frame.as_slice())
}

/// Writes the frames of bodies, one after another.
pub fn write_bodies<S: Sink>(alloc: Global, out: &mut S, bodies: &[Bytes]) -> Result<(), Halt>
    ensures { Writes S.written S.faults out.old out.new result (flat_map framed bodies.now) }
{
    for body in bodies {
        write_body(alloc, out, body.as_slice())?;
    }
    Ok(())
}
