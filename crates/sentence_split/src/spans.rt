//! Sentences by their places.
ghost use Rattle.std.specs.Prelude.{◌≡◌, ◌≤◌, ◌++◌, [], ◌∷◌, take, length, IfOk, OnOk};

use base_core::{Kind, NoMem};
use std::alloc::Global;
use std::marker::Model;

/// Where a sentence stands: from one byte of the text up to another, and its kind.
#[derive(Clone, Copy, Debug, PartialEq, Eq)]
pub struct Span {
    pub from: u32,
    pub to: u32,
    pub kind: Kind,
}

/// The sentences of a text, in order.
#[derive(Debug, Drop)]
pub struct SpanList {
    items: Vec<Span>,
}

impl Model for SpanList {
    ghost use Rattle.std.specs.Prelude.{List};
    ghost use Rattle.sentence_split.specs.declared.spans.Span.{Span};

    ghost Value = { List Span };

    ghost view = { λ a. a.items.items };
}

impl SpanList {
    pub fn new(alloc: Global) -> SpanList
        ensures { result ≡ [] }
    {
        SpanList {
            items: Vec::new(alloc),
        }
    }

    pub fn push(&mut self, item: Span) -> Result<(), NoMem>
        ensures { OnOk result (self.new ≡ self.old ++ item ∷ []) }
    {
        self.items.push(item)?;
        Ok(())
    }

    /// The first so many.
    pub(crate) fn first(&self, alloc: Global, count: usize) -> Result<SpanList, NoMem>
        requires { count ≤ length self.now }
        ensures { IfOk result (λ spans. spans ≡ take count self.now) }
    {
        let mut items = Vec::new(alloc);
        items.extend_from_slice(&self.items.as_slice()[..count])?;
        Ok(SpanList { items })
    }

    pub fn as_slice(&self) -> &[Span]
        ensures { result.now ≡ self.now }
    {
        self.items.as_slice()
    }
}
