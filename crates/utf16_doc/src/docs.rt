//! Documents: texts with what it takes to find positions in them at once, and their edits.

ghost use Rattle.std.specs.Prelude.{◌≡◌, ◌<◌, ◌≤◌, length, take, IfOk};
ghost use Rattle.std.specs.Result.{IsErrOf};
ghost use Rattle.std.specs.Str.{IsCharBoundary};
ghost use Rattle.utf16_doc.specs.Positions.{position_at, offset_at};
ghost use Rattle.utf16_doc.specs.Edits.{changes_in, Changes};

use crate::edits::changes_in;
use crate::lined_text::LinedText;
use crate::positions::{offset_in, position_in};
use crate::units::unit_checkpoints;
use crate::{DocStop, Encoding};
use base_core::{ChangeList, NoMem, Position, TEXT_LIMIT};
use std::alloc::Global;
use std::marker::Model;

/// A text of at most `TEXT_LIMIT` bytes, and what its characters are counted in.
#[derive(Debug, Drop)]
pub struct Doc {
    encoding: Encoding,
    lined: LinedText,
    /// Units before each block of bytes.
    checkpoints: Vec<u32>,
}

impl Model for Doc {
    ghost use Rattle.utf16_doc.specs.Indexed.{Document};
    ghost use Rattle.utf16_doc.specs.Units.{AreCheckpoints};

    ghost Value = { Document };

    ghost view = { λ d. record { encoding = d.encoding; text = d.lined } };

    ghost invariant = { λ d. AreCheckpoints d.encoding d.lined d.checkpoints.items };
}

impl Doc {
    /// TooLong comes exactly where the text has over `TEXT_LIMIT` bytes.
    pub fn new(alloc: Global, text: &str, encoding: Encoding) -> Result<Doc, DocStop>
        ensures text { IfOk result (λ doc. doc ≡ record { encoding = encoding; text = text.now }) }
        ensures short { IfOk result (λ doc. length text.now ≤ TEXT_LIMIT) }
        ensures too_long { IsErrOf result DocStop.TooLong → TEXT_LIMIT < length text.now }
        ensures no_range { IsErrOf result DocStop.RangeReversed → ⊥ }
    {
        if text.len() > TEXT_LIMIT {
            return Err(DocStop::TooLong);
        }
        let lined = LinedText::new(alloc, String::from_str(alloc, text)?)?;
        let checkpoints = unit_checkpoints(alloc, encoding, text.as_bytes())?;
        Ok(Doc {
            encoding,
            lined,
            checkpoints,
        })
    }

    /// A copy of the document, line ends and units included.
    pub fn copy(&self, alloc: Global) -> Result<Doc, NoMem>
        ensures { IfOk result (λ doc. doc ≡ self.now) }
    {
        let lined = self.lined.copy(alloc)?;
        let mut checkpoints = Vec::with_capacity(alloc, self.checkpoints.len())?;
        checkpoints.extend_from_slice(self.checkpoints.as_slice())?;
        Ok(Doc {
            encoding: self.encoding,
            lined,
            checkpoints,
        })
    }

    pub fn text(&self) -> &str
        ensures text { result.now ≡ self.now.text }
        ensures short { length self.now.text ≤ TEXT_LIMIT }
    {
        self.lined.as_str()
    }

    pub fn encoding(&self) -> Encoding
        ensures { result ≡ self.now.encoding }
    {
        self.encoding
    }

    /// The position of an offset in bytes. An offset inside a character counts that character.
    pub fn position_of(&self, offset: usize) -> Position
        requires { offset ≤ length self.now.text }
        ensures { result ≡ position_at self.now.encoding self.now.text offset }
    {
        let text = self.lined.as_str().as_bytes();
        let ends = self.lined.ends();
        position_in(
            self.encoding,
            text,
            ends,
            self.checkpoints.as_slice(),
            offset,
        )
    }

    /// The offset in bytes of a position. A line past the last means the text's end, a character past the line's
    /// length that length without its end mark, and a character inside another's units the start of that one.
    pub fn offset_of(&self, position: Position) -> usize
        ensures offset { result ≡ offset_at self.now.encoding self.now.text position }
        ensures boundary { IsCharBoundary self.now.text result }
    {
        let text = self.lined.as_str().as_bytes();
        offset_in(self.encoding, text, self.lined.ends(), position)
    }

    /// Makes the changes, each in the text that those before it left, and gives the first byte at which old and new
    /// text may differ. The first refusal refuses them all: `RangeReversed` where a range ends before it starts, and
    /// `TooLong` where a change leads to over `TEXT_LIMIT` bytes. Then the document is as before.
    pub fn apply(&mut self, alloc: Global, changes: &ChangeList) -> Result<u32, DocStop>
        ensures changed { Changes (changes_in self.old.encoding self.old.text changes.now) self.old result self.new }
        ensures alike { IfOk result (λ first. take first self.new.text ≡ take first self.old.text) }
        ensures within { IfOk result (λ first. first ≤ length self.old.text) }
    {
        let encoding = self.encoding;
        let length = self.lined.as_str().len();
        match changes.as_slice() {
            [] => Ok(length as u32),
            [change, others @ ..] => {
                let (lined, first) = changes_in(alloc, encoding, &self.lined, change, others)?;
                let checkpoints = unit_checkpoints(alloc, encoding, lined.as_str().as_bytes())?;
                self.lined = lined;
                self.checkpoints = checkpoints;
                Ok(first as u32)
            }
        }
    }
}
