//! A document over a table of finished sentences: what the table has kept is taken from it, and the other
//! sentences are run one after another and entered.
ghost use Rattle.std.specs.Prelude.{◌≡◌, ◌<◌, ◌≤◌, ◌++◌, [], ◌∷◌, All, false, map, length, slice_index_or, slice_get, IfOk, OnOk, OnErr, option_copied};
ghost use Rattle.base_core.specs.declared.limits.TheConstants.{TEXT_LIMIT};
ghost use Rattle.sentence_split.specs.Sentences.{sentences};
ghost use Rattle.sentence_split.specs.Within.{IsSpanOf};
ghost use Rattle.doc_check.specs.Check.{sentence_at, span_of, count};
ghost use Rattle.doc_check.specs.Document.{doc, state_at, done, all_done, last_of, next_of, next_key, state_here, with_number};

use crate::finished::Finished;
use base_core::{NoMem, Text};
use memo_table::Key;
use prover_iface::Prover;
use sentence_split::{Span, SpanList, split};
use std::alloc::Global;
use std::marker::Model;

/// A text that is checked sentence by sentence over a table, which other documents share.
#[derive(Drop)]
pub struct DocCheck<P: Prover> {
    pub(crate) text: Text,
    pub(crate) spans: SpanList,
    /// The state before any sentence.
    first: P::State,
    /// The finished sentences, which are the first ones.
    pub(crate) finished: Vec<Finished<P::State>>,
}

impl<P: Prover> Model for DocCheck<P> {
    ghost use Rattle.std.specs.Prelude.{map};
    ghost use Rattle.doc_check.specs.Document.{Doc, doc};
    ghost use Rattle.doc_check.specs.Stands.{IsDoc};

    ghost Value = { Doc };

    ghost view = { λ d. doc d.text (map (λ f. f.number) d.finished.items) };

    ghost invariant = { λ d.
        IsDoc P.means d.text d.spans (P.meaning d.first) (map (λ f. (P.meaning f.state, f.diags)) d.finished.items) };
}

impl<P: Prover> DocCheck<P> {
    /// A text of at most `TEXT_LIMIT` bytes of which no sentence is finished, over the prover's first state.
    pub fn begun(
        alloc: Global,
        text: Text,
        prover: &P,
        first: &P::State,
    ) -> Result<DocCheck<P>, NoMem>
        requires short { length text ≤ TEXT_LIMIT }
        requires first { P.meaning first.now ≡ P.means.first }
        ensures { IfOk result (λ d. d ≡ doc text []) }
    {
        let spans = split(alloc, text.as_str())?;
        let first = prover.share(first)?;
        Ok(DocCheck {
            text,
            spans,
            first,
            finished: Vec::new(alloc),
        })
    }

    pub fn text(&self) -> &Text
        ensures text { result.now ≡ self.now.text }
        ensures short { length self.now.text ≤ TEXT_LIMIT }
    {
        &self.text
    }

    /// How many sentences are finished.
    pub fn done(&self) -> usize
        ensures done { result ≡ done self.now }
        ensures few { result ≤ count self.now.text }
    {
        self.finished.len()
    }

    /// How many sentences the text has.
    pub fn count(&self) -> usize
        ensures { result ≡ count self.now.text }
    {
        self.spans.as_slice().len()
    }

    /// Whether all sentences are finished.
    pub fn is_ended(&self) -> bool
        ensures { result ≡ all_done self.now }
    {
        self.count() <= self.done()
    }

    /// The number that stands for the first so many sentences.
    pub fn number(&self, sentences: usize) -> u64
        requires some { 0 < sentences }
        requires finished { sentences ≤ done self.now }
        ensures { result ≡ slice_index_or (0 ∷ self.now.numbers) sentences 0 }
    {
        self.finished[sentences - 1].number
    }

    /// Adds the numbers that stand for its finished sentences.
    pub fn add_numbers(&self, numbers: &mut Vec<u64>) -> Result<(), NoMem>
        ensures { OnOk result (numbers.new.items ≡ numbers.old.items ++ self.now.numbers) }
    {
        add_all(numbers, self.finished.as_slice())
    }

    /// The place of the sentence of a number, from 0 on.
    pub fn span(&self, number: usize) -> Option<&Span>
        ensures { option_copied result ≡ slice_get (sentences 0 0 self.now.text) number }
    {
        self.spans.as_slice().get(number)
    }

    /// The state behind the first so many sentences.
    pub fn state_after(&self, sentences: usize) -> &P::State
        requires { sentences ≤ done self.now }
        ensures { P.meaning result.now ≡ state_at P.means self.now.text sentences }
    {
        if sentences == 0 {
            return &self.first;
        }
        &self.finished[sentences - 1].state
    }

    /// The number of the last finished sentence.
    pub(crate) fn last(&self) -> u64
        ensures { result ≡ last_of self.now.numbers }
    {
        let done = self.done();
        if done == 0 {
            return 0;
        }
        self.number(done)
    }

    /// What the next sentence is found by.
    pub(crate) fn next_key(&self, alloc: Global) -> Result<Key, NoMem>
        requires { all_done self.now ≡ false }
        ensures { IfOk result (λ key. key ≡ next_key self.now) }
    {
        key_at(
            alloc,
            self.text.as_str(),
            &self.spans,
            self.done(),
            self.last(),
        )
    }

    /// The next sentence is finished.
    pub(crate) fn put(&mut self, finished: Finished<P::State>) -> Result<(), NoMem>
        requires left { all_done self.old ≡ false }
        requires state { P.meaning finished.state ≡ P.means.after (state_here P.means self.old) (next_of self.old) }
        requires diags { finished.diags ≡ P.means.diagnosed (state_here P.means self.old) (next_of self.old) }
        ensures new { OnOk result (self.new ≡ with_number finished.number self.old) }
        ensures unchanged { OnErr result (self.new ≡ self.old) }
    {
        self.finished.push(finished)?;
        Ok(())
    }
}

/// What the sentence at a place is found by, where it is reached from a number.
fn key_at(
    alloc: Global,
    text: &str,
    spans: &SpanList,
    place: usize,
    from: u64,
) -> Result<Key, NoMem>
    requires within { place < length spans.now }
    requires placed { All (IsSpanOf text.now) spans.now }
    ensures from { IfOk result (λ key. key.from ≡ from) }
    ensures kind { IfOk result (λ key. key.kind ≡ (sentence_at text.now (span_of spans.now place)).kind) }
    ensures text { IfOk result (λ key. key.text ≡ (sentence_at text.now (span_of spans.now place)).text) }
{
    let span = &spans.as_slice()[place];
    let text = Text::copy(alloc, &text[span.from as usize..span.to as usize])?;
    Ok(Key {
        from,
        kind: span.kind,
        text,
    })
}

/// Adds the numbers of finished sentences.
fn add_all<S: Drop>(numbers: &mut Vec<u64>, finished: &[Finished<S>]) -> Result<(), NoMem>
    ensures { OnOk result (numbers.new.items ≡ numbers.old.items ++ map (λ f. f.number) finished.now) }
{
    for one in finished {
        numbers.push(one.number)?;
    }
    Ok(())
}
