//! Files in memory.
use base_core::{Bytes, FileItem, FileList, FileSet, MemFiles, Text};
use std::test::Fail;

#[test]
fn files_are_read_by_their_first_name(rt: HostRuntime) -> Result<(), Fail> {
    let mut listed = FileList::new(rt.alloc());
    for content in [b"one", b"two"] {
        listed.push(FileItem {
            name: Text::copy(rt.alloc(), "a.v")?,
            content: Some(Bytes::copy(rt.alloc(), content)?),
        })?;
    }
    listed.push(FileItem {
        name: Text::copy(rt.alloc(), "b.v")?,
        content: None,
    })?;
    let mut files = MemFiles::new(listed);
    assert_eq!(rt;
        files.read(rt.alloc(), "a.v")?.as_slice(),
        b"one".as_slice()
    );
    assert_eq!(rt; files.faults(), 0);
    assert!(rt; files.read(rt.alloc(), "b.v").is_err());
    assert!(rt; files.read(rt.alloc(), "c.v").is_err());
    assert_eq!(rt; files.faults(), 2);
    Ok(())
}
