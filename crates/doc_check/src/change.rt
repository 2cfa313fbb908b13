//! The text of a document changes.
ghost use Rattle.std.specs.Prelude.{◌≡◌, ℕ, ◌≤◌, List, All, take, min, length, OnOk, OnErr};
ghost use Rattle.std.specs.List.{common_prefix_len};
ghost use Rattle.base_core.specs.declared.limits.TheConstants.{TEXT_LIMIT};
ghost use Rattle.sentence_split.specs.Sentences.{sentences};
ghost use Rattle.sentence_split.specs.Within.{IsSpanOf};
ghost use Rattle.prover_iface.specs.Sentences.{Sentence};
ghost use Rattle.memo_table.specs.Table.{with_rows};
ghost use Rattle.memo_table.specs.Fits.{Fits};
ghost use Rattle.doc_check.specs.Check.{sentence_at};
ghost use Rattle.doc_check.specs.Document.{parts, taken, same_sentence, changed};
ghost use Rattle.doc_check.specs.Stands.{Follows, Stands};

use crate::DocCheck;
use base_core::{NoMem, Text};
use memo_table::MemoTable;
use prover_iface::Prover;
use sentence_split::{Span, SpanList, resplit};
use std::alloc::Global;

impl<P: Prover> DocCheck<P> {
    /// Another text, which differs from this one at no byte before the first that was changed. The sentences
    /// stay finished that both texts begin with.
    pub fn change(&mut self, alloc: Global, text: Text, first_changed: u32) -> Result<(), NoMem>
        requires short { length text ≤ TEXT_LIMIT }
        requires same { take first_changed self.old.text ≡ take first_changed text }
        ensures new { OnOk result (self.new ≡ changed text self.old) }
        ensures unchanged { OnErr result (self.new ≡ self.old) }
    {
        let spans = resplit(alloc, text.as_str(), &self.spans, first_changed)?;
        let kept = common(
            self.text.as_str(),
            &self.spans,
            text.as_str(),
            &spans,
            self.finished.len(),
        );
        self.text = text;
        self.spans = spans;
        self.finished.truncate(kept);
        Ok(())
    }

    /// Another text of at most `TEXT_LIMIT` bytes, which differs from this one at no byte before the first that
    /// was changed. The sentences stay finished that both texts begin with, and then those are taken that the
    /// table has kept.
    pub fn set_text(
        &mut self,
        alloc: Global,
        text: Text,
        first_changed: u32,
        prover: &P,
        table: &mut MemoTable<P::State>,
    ) -> Result<(), NoMem>
        requires short { length text ≤ TEXT_LIMIT }
        requires same { take first_changed self.old.text ≡ take first_changed text }
        requires stands { Stands P.meaning P.means table.old self.old }
        ensures text { OnOk result (self.new.text ≡ text) }
        ensures check { OnOk result (self.new ≡ (taken (changed text self.old) table.old.rows).doc) }
        ensures rows { OnOk result (table.new ≡ with_rows table.old (taken (changed text self.old) table.old.rows).rows) }
        ensures stands { (prefix : ℕ → List Sentence) → Fits P.meaning P.means prefix table.old
            → Follows prefix table.old.given self.old
            → Fits P.meaning P.means prefix table.new × Follows prefix table.new.given self.new }
    {
        self.change(alloc, text, first_changed)?;
        self.take_kept(alloc, prover, table)
    }
}

/// Whether two texts have the same sentence at a place.
fn is_same(text: &str, span: &Span, other: &str, place: &Span) -> bool
    requires span { IsSpanOf text.now span.now }
    requires place { IsSpanOf other.now place.now }
    ensures { result ≡ same_sentence (sentence_at text.now span.now) (sentence_at other.now place.now) }
{
    span.kind == place.kind
        && text[span.from as usize..span.to as usize]
            == other[place.from as usize..place.to as usize]
}

/// How many sentences two texts begin with, at most so many.
fn common(text: &str, spans: &SpanList, other: &str, places: &SpanList, most: usize) -> usize
    requires placed { All (IsSpanOf text.now) spans.now }
    requires split { spans.now ≡ sentences 0 0 text.now }
    requires others_placed { All (IsSpanOf other.now) places.now }
    requires other_split { places.now ≡ sentences 0 0 other.now }
    requires few { most ≤ length spans.now }
    ensures { result ≡ min most (common_prefix_len same_sentence (parts text.now) (parts other.now)) }
{
    let places = places.as_slice();
    let spans = spans.as_slice();
    let both = most.min(places.len());
    for place in 0..both {
        if !is_same(text, &spans[place], other, &places[place]) {
            return place;
        }
    }
    both
}
