//! What a sentence is told to its author.
use base_core::{List, Text};

/// What a sentence is told to its author. Offsets are bytes from the sentence's start.
#[derive(Debug, Drop)]
pub struct RelDiag {
    /// Error 1, warning 2, information 3 (LSP 3.17, "DiagnosticSeverity").
    pub severity: u8,
    pub code: u16,
    pub from: u32,
    pub to: u32,
    pub text: Text,
}

/// Diagnostics in order.
pub type DiagList = List<RelDiag>;
