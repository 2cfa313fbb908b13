//! How a session ends.
ghost use Rattle.std.specs.Prelude.{◌≡◌, Ok, Err};
ghost use Rattle.lsp_session.specs.Status.{kind_of, result_status, IsStatus};

use base_core::{Halt, Status};
use sched_core::Exit;

/// How a session ends where memory serves and each put is taken.
#[derive(Clone, Copy, Debug, PartialEq, Eq)]
pub enum Ending {
    Exit(Exit),
    LinkFailed,
    LinkEnded,
    /// The bytes that came are no frames.
    FrameFault,
    /// As many bytes came as a session takes.
    TakenLimit,
}

fn status(end: Ending) -> Status
    ensures { result ≡ kind_of end }
{
    match end {
        Ending::Exit(Exit::Clean) => Status::Done,
        Ending::Exit(Exit::Early) => Status::LeftEarly,
        Ending::LinkFailed => Status::LinkFailed,
        Ending::LinkEnded => Status::LinkEnded,
        Ending::FrameFault => Status::FrameFault,
        Ending::TakenLimit => Status::TakenLimit,
    }
}

/// The exit status.
pub fn number(end: Result<Ending, Halt>) -> u8
    ensures value { result ≡ result_status end }
    ensures known { IsStatus result }
{
    match end {
        Ok(ending) => status(ending).number(),
        Err(halt) => halt.status().number(),
    }
}
