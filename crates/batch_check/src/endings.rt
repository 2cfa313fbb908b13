//! How the check of a file ends.
ghost use Rattle.std.specs.Prelude.{◌≡◌};
ghost use Rattle.batch_check.specs.Status.{kind_of, result_status, IsStatus};

use base_core::{Halt, Status};

/// How the check of a file ends where memory serves and each put is taken.
#[derive(Clone, Copy, Debug, PartialEq, Eq)]
pub enum Ending {
    /// All files were reported, without an error or an admission.
    Clean,
    /// All files were reported, and some have an error or an admission.
    Unclean,
    /// A file was not read.
    NotRead,
    /// A file is no text of at most 1,048,576 bytes.
    NotText,
}

fn status(end: Ending) -> Status
    ensures { result ≡ kind_of end }
{
    match end {
        Ending::Clean => Status::Done,
        Ending::Unclean => Status::Unclean,
        Ending::NotRead => Status::NotRead,
        Ending::NotText => Status::NotText,
    }
}

/// The exit status.
pub fn number(end: Result<Ending, Halt>) -> u8
    ensures value { result ≡ result_status end }
    ensures known { IsStatus result }
{
    match end {
        Ok(ending) => status(ending).number(),
        Err(halt) => halt.status().number(),
    }
}
