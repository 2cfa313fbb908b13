//! The files that the program reads.
ghost use Rattle.std.specs.Prelude.{◌≡◌, ℕ, Option, List, ◌≤◌, length, IfOk, IfSome};
ghost use Rattle.std.specs.Result.{IsErrOf};
ghost use Rattle.base_core.specs.declared.mem_files.FileItem.{FileItem};
ghost use Rattle.base_core.specs.declared.limits.TheConstants.{TEXT_LIMIT};
ghost use Rattle.base_core.specs.Faults.{Rose};
ghost use Rattle.base_core.specs.Files.{IsReadOf, IsCalmRead, file_at};

use crate::Bytes;
use std::alloc::Global;
use thiserror::Error;

/// Why a file's bytes were not given.
#[derive(Clone, Copy, Debug, PartialEq, Eq, Error)]
pub enum FileFault {
    #[error("not read")]
    Failed,
    #[error("too long")]
    TooLong,
    #[error("out of memory")]
    NoMem,
}

/// The files that the program reads. A set may tell what it holds; one that does not still counts
/// its faults, and that count never falls.
pub trait FileSet {
    /// The files by name, where the set tells them. The first of a name counts.
    ghost content: { Self → Option (List FileItem) };

    /// How often a read has failed. At the end of its type the count stands still.
    ghost faults: { Self → ℕ };

    /// All bytes of a file of at most `TEXT_LIMIT`.
    fn read(&mut self, alloc: Global, name: &str) -> Result<Bytes, FileFault>
        ensures same { content self.new ≡ content self.old }
        ensures told { IfSome (content self.old) (λ files. IsReadOf (file_at files name.now) result) }
        ensures bounded { IfOk result (λ bytes. length bytes ≤ TEXT_LIMIT) }
        ensures later { faults self.old ≤ faults self.new }
        ensures failed { IsErrOf result FileFault.Failed → Rose (faults self.old) (faults self.new) }
        ensures calm { IsCalmRead result (faults self.old) (faults self.new) };
}
