//! What an entry is found by.
ghost use Rattle.std.specs.Prelude.{◌≡◌, IfOk};

use base_core::{Kind, NoMem, Text};

/// A sentence, and the number of what it was reached from: 0 for the start.
#[derive(Debug, Drop, PartialEq, Eq, Hash)]
pub struct Key {
    pub from: u64,
    pub kind: Kind,
    pub text: Text,
}

impl Key {
    /// The same key once more. Its text is not copied.
    pub fn share(&self) -> Result<Key, NoMem>
        ensures { IfOk result (λ key. key ≡ self.now) }
    {
        let text = self.text.share()?;
        Ok(Key {
            from: self.from,
            kind: self.kind,
            text,
        })
    }
}
