//! The files of the system.
ghost use Rattle.std.specs.Prelude.{◌≡◌, ◌≤◌, None, length, vec_len, IfOk};
ghost use Rattle.std.specs.Result.{IsErrOf};
ghost use Rattle.base_core.specs.declared.limits.TheConstants.{TEXT_LIMIT};

use crate::{Bytes, FileFault, FileSet, TEXT_LIMIT};
use std::alloc::Global;
use std::fs;
use std::io::Read;
use std::rt::Files;

/// The files of the system. It tells no content; each file that can't be opened or read counts as
/// a fault.
#[derive(Drop)]
pub struct DirFiles<'a, R: Files> {
    rt: &'a R,
    faults: u64,
}

impl<'a, R: Files> DirFiles<'a, R> {
    pub fn new(rt: &'a R) -> DirFiles<'a, R>
        ensures { result.faults ≡ 0 }
    {
        DirFiles { rt, faults: 0 }
    }
}

/// How many bytes are asked for at a time.
const PIECE: usize = 65_536;

/// All that a reader still gives, if that is at most `TEXT_LIMIT` bytes.
fn read_all<F: Read>(alloc: Global, file: &mut F) -> Result<Vec<u8>, FileFault>
    ensures { IfOk result (λ bytes. vec_len bytes ≤ TEXT_LIMIT) }
{
    let mut all = Vec::new(alloc);
    let mut piece = [0u8; PIECE];
    for _ in 0..u64::MAX {
        let Ok(count) = file.read(&mut piece) else {
            return Err(FileFault::Failed);
        };
        if count == 0 {
            return Ok(all);
        }
        if count > TEXT_LIMIT - all.len() {
            return Err(FileFault::TooLong);
        }
        if all.extend_from_slice(&piece[..count]).is_err() {
            return Err(FileFault::NoMem);
        }
    }
    Err(FileFault::Failed)
}

fn read_file<R: Files>(rt: &R, alloc: Global, name: &str) -> Result<Bytes, FileFault>
    ensures { IfOk result (λ bytes. length bytes ≤ TEXT_LIMIT) }
{
    let Ok(mut file) = fs::open(rt, name) else {
        return Err(FileFault::Failed);
    };
    let all = read_all(alloc, &mut file)?;
    Ok(Bytes::from_vec(all))
}

impl<'a, R: Files> FileSet for DirFiles<'a, R> {
    ghost content = { λ _. None };

    ghost faults = { λ s. s.faults };

    fn read(&mut self, alloc: Global, name: &str) -> Result<Bytes, FileFault> {
        let answer = read_file(self.rt, alloc, name);
        if let Err(FileFault::Failed) = answer {
            self.faults = self.faults.saturating_add(1);
        }
        answer
    }
}
