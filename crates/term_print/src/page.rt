//! A text that is given up once it is too long.
ghost use Rattle.std.specs.Prelude.{◌≡◌, [], OnOk, IfOk, Some};
ghost use Rattle.term_print.specs.Pages.{added, text_or_large};

use base_core::{NoMem, PRINTED_BYTES_LIMIT, Text};
use std::alloc::Global;
use std::marker::Model;

/// A text that grows up to the limit of printed bytes and is given up beyond it, which contracts
/// see as its bytes, or none where it was given up.
#[derive(Drop)]
pub struct Page {
    text: String,
    is_full: bool,
}

impl Model for Page {
    ghost use Rattle.std.specs.Prelude.{ℕ, List, Option, Some, None, string_bytes, if◌then◌else◌, length, ◌≤◌};
    ghost use Rattle.base_core.specs.declared.limits.TheConstants.{PRINTED_BYTES_LIMIT};

    ghost Value = { Option (List ℕ) };

    ghost view = { λ p. if p.is_full then None else Some (string_bytes p.text) };

    ghost invariant = { λ p. length (string_bytes p.text) ≤ PRINTED_BYTES_LIMIT };
}

impl Page {
    pub fn new(alloc: Global) -> Page
        ensures { result ≡ Some [] }
    {
        Page {
            text: String::new(alloc),
            is_full: false,
        }
    }

    /// Writes more behind what stands there. What would be too long is not built.
    pub fn put(&mut self, more: &str) -> Result<(), NoMem>
        ensures { OnOk result (self.new ≡ added self.old more.now) }
    {
        if self.is_full {
            return Ok(());
        }
        if more.len() > PRINTED_BYTES_LIMIT - self.text.len() {
            self.is_full = true;
            return Ok(());
        }
        self.text.push_str(more)?;
        Ok(())
    }

    /// The text, or what stands for one that was given up.
    pub fn into_text(self, alloc: Global) -> Result<Text, NoMem>
        ensures { IfOk result (λ text. text ≡ text_or_large self) }
    {
        if self.is_full {
            return Text::copy(alloc, "<large>");
        }
        Text::from_string(alloc, self.text)
    }
}
