//! What comes of a file.
use crate::digests::FileDigest;
use base_core::Text;

/// A file's report.
#[derive(Debug, Drop)]
pub struct FileReport {
    pub digest: FileDigest,
    pub lines: Text,
}

/// What comes of a file where memory serves.
#[derive(Debug, Drop)]
pub enum Outcome {
    Reported(FileReport),
    NotRead,
    /// It is no text of at most 1,048,576 bytes.
    NotText,
}

/// What a file brings to the check of the files behind it.
#[derive(Clone, Copy, Debug, PartialEq, Eq)]
pub enum Next {
    /// It was reported, and whether it is clean.
    Reported(bool),
    NotRead,
    NotText,
}
