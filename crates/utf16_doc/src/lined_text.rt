//! A text with the ends of its lines, and one edit of it.

ghost use Rattle.std.specs.Prelude.{◌≡◌, ◌<◌, ◌≤◌, length, IfOk, string_bytes};
ghost use Rattle.std.specs.Result.{IsErrOf};
ghost use Rattle.utf16_doc.specs.Indexed.{IsLined};

use crate::DocStop;
use crate::lines::line_ends;
use base_core::{NoMem, TEXT_LIMIT};
use std::alloc::Global;
use std::marker::Model;

/// A text of at most `TEXT_LIMIT` bytes with the ends of its lines, which contracts see as the text.
#[derive(Debug, Drop)]
pub struct LinedText {
    text: String,
    ends: Vec<u32>,
}

impl Model for LinedText {
    ghost use Rattle.std.specs.Prelude.{ℕ, List, string_bytes};
    ghost use Rattle.utf16_doc.specs.Indexed.{IsLined};

    ghost Value = { List ℕ };

    ghost view = { λ l. string_bytes l.text };

    ghost invariant = { λ l. IsLined (string_bytes l.text) l.ends.items };
}

impl LinedText {
    /// TooLong comes exactly where the text has over `TEXT_LIMIT` bytes.
    pub fn new(alloc: Global, text: String) -> Result<LinedText, DocStop>
        ensures text { IfOk result (λ lined. lined ≡ string_bytes text) }
        ensures short { IfOk result (λ lined. length (string_bytes text) ≤ TEXT_LIMIT) }
        ensures too_long { IsErrOf result DocStop.TooLong → TEXT_LIMIT < length (string_bytes text) }
        ensures no_range { IsErrOf result DocStop.RangeReversed → ⊥ }
    {
        if text.len() > TEXT_LIMIT {
            return Err(DocStop::TooLong);
        }
        let ends = line_ends(alloc, text.as_bytes())?;
        Ok(LinedText { text, ends })
    }

    pub fn copy(&self, alloc: Global) -> Result<LinedText, NoMem>
        ensures { IfOk result (λ lined. lined ≡ self.now) }
    {
        let text = String::from_str(alloc, self.text.as_str())?;
        let mut ends = Vec::with_capacity(alloc, self.ends.len())?;
        ends.extend_from_slice(self.ends.as_slice())?;
        Ok(LinedText { text, ends })
    }

    pub fn as_str(&self) -> &str
        ensures text { result.now ≡ self.now }
        ensures short { length self.now ≤ TEXT_LIMIT }
    {
        self.text.as_str()
    }

    /// The offsets at which end marks of lines end.
    pub fn ends(&self) -> &[u32]
        ensures { IsLined self.now result.now }
    {
        self.ends.as_slice()
    }
}
