//! Files in memory.
ghost use Rattle.std.specs.Prelude.{◌≡◌, Option, Some, IsNone};
ghost use Rattle.std.specs.Option.{option_copied};
ghost use Rattle.base_core.specs.Files.{file_at};
ghost use Rattle.base_core.specs.MemFiles.{mem_files_content, mem_files_faults};

use crate::{Bytes, FileFault, FileSet, List, TEXT_LIMIT, Text};
use std::alloc::Global;

/// A file in memory. One without content is a failure when it is read.
#[derive(Debug, Drop)]
pub struct FileItem {
    pub name: Text,
    pub content: Option<Bytes>,
}

/// Files in order. The first of a name counts.
pub type FileList = List<FileItem>;

/// Files in memory, which tell what they hold.
#[derive(Debug, Drop)]
pub struct MemFiles {
    files: FileList,
    faults: u64,
}

impl MemFiles {
    pub fn new(files: FileList) -> MemFiles
        ensures content { mem_files_content result ≡ files }
        ensures faults { mem_files_faults result ≡ 0 }
    {
        MemFiles { files, faults: 0 }
    }

    /// How many reads have failed.
    pub fn faults(&self) -> u64
        ensures { result ≡ mem_files_faults self.now }
    {
        self.faults
    }
}

/// The content of the first file of a name.
fn find<'a>(files: &'a [FileItem], name: &str) -> Option<&'a Bytes>
    ensures { option_copied result ≡ file_at files.now name.now }
{
    for file in files {
        if file.name.as_str() == name {
            return file.content.as_ref();
        }
    }
    None
}

impl FileSet for MemFiles {
    ghost content = { λ s. Some (mem_files_content s) };

    ghost faults = { λ s. mem_files_faults s };

    fn read(&mut self, alloc: Global, name: &str) -> Result<Bytes, FileFault> {
        let Some(bytes) = find(self.files.as_slice(), name) else {
            self.faults = self.faults.saturating_add(1);
            return Err(FileFault::Failed);
        };
        if bytes.as_slice().len() > TEXT_LIMIT {
            return Err(FileFault::TooLong);
        }
        match Bytes::copy(alloc, bytes.as_slice()) {
            Ok(bytes) => Ok(bytes),
            Err(_) => Err(FileFault::NoMem),
        }
    }
}
