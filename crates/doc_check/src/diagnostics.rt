//! What is told of a text.
use base_core::{Duplicate, List, NoMem, Text};
use prover_iface::OutlineList;
use sentence_split::SpanList;
use std::alloc::Global;

/// What is told of a text to its author. Offsets are bytes from the text's start.
#[derive(Debug, Drop)]
pub struct AbsDiag {
    /// Error 1, warning 2, information 3 (LSP 3.17, "DiagnosticSeverity").
    pub severity: u8,
    pub code: u16,
    pub from: u32,
    pub to: u32,
    pub text: Text,
}

impl Duplicate for AbsDiag {
    fn duplicate(&self, _alloc: Global) -> Result<AbsDiag, NoMem> {
        Ok(AbsDiag {
            severity: self.severity,
            code: self.code,
            from: self.from,
            to: self.to,
            text: self.text.share()?,
        })
    }
}

/// Diagnostics in order.
pub type AbsDiagList = List<AbsDiag>;

/// What is told of a text, and what it declares.
#[derive(Debug, Drop)]
pub struct Report {
    pub diags: AbsDiagList,
    pub outline: OutlineList,
    /// The places of its sentences, in order.
    pub spans: SpanList,
}
