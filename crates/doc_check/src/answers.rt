//! What is told of a document.
ghost use Rattle.std.specs.Prelude.{◌≡◌, ℕ, ◌<◌, ◌≤◌, List, All, true, false, length, IfOk};
ghost use Rattle.sentence_split.specs.Sentences.{sentences};
ghost use Rattle.sentence_split.specs.Within.{IsSpanOf};
ghost use Rattle.doc_check.specs.Check.{span_of, count, checked, goals_behind, started, IsPlaced};
ghost use Rattle.doc_check.specs.Document.{done, all_done, next_span};

use crate::reporting::report_diags;
use crate::{AbsDiagList, DocCheck, Report};
use base_core::NoMem;
use prover_iface::{GoalsView, OutlineList, Prover};
use sentence_split::SpanList;
use std::alloc::Global;

impl<P: Prover> DocCheck<P> {
    /// The byte at which the first sentence that isn't finished begins.
    pub fn next_from(&self) -> usize
        requires { all_done self.now ≡ false }
        ensures from { result ≡ (next_span self.now).from }
        ensures within { result ≤ length self.now.text }
    {
        next_from(&self.spans, self.done(), self.text.as_str().len())
    }

    /// How many sentences start at or before an offset.
    pub fn started(&self, offset: usize) -> usize
        ensures started { result ≡ started self.now.text offset }
        ensures few { result ≤ count self.now.text }
    {
        self.spans
            .as_slice()
            .iter()
            .filter(|span| span.from as usize <= offset)
            .count()
    }

    /// The byte at which the sentence of a number begins; 0 where there is none.
    pub fn begin_of(&self, number: usize) -> usize
        ensures begin { result ≡ (span_of (sentences 0 0 self.now.text) number).from }
        ensures within { result ≤ length self.now.text }
    {
        begin_in(&self.spans, number, self.text.as_str().len())
    }

    /// The byte behind the sentence of a number; 0 where there is none.
    pub fn end_of(&self, number: usize) -> usize
        ensures end { result ≡ (span_of (sentences 0 0 self.now.text) number).to }
        ensures within { result ≤ length self.now.text }
    {
        end_in(&self.spans, number, self.text.as_str().len())
    }

    /// The goals behind the first so many sentences.
    pub fn goals(
        &self,
        alloc: Global,
        prover: &P,
        sentences: usize,
    ) -> Result<Option<GoalsView>, NoMem>
        requires { sentences ≤ done self.now }
        ensures { IfOk result (λ goals. goals ≡ goals_behind P.means self.now.text sentences) }
    {
        prover.goals(alloc, self.state_after(sentences))
    }

    /// What the text declares.
    pub fn outline(&self, alloc: Global, prover: &P) -> Result<OutlineList, NoMem>
        requires { all_done self.now ≡ true }
        ensures { IfOk result (λ outline. outline ≡ (checked P.means self.now.text).outline) }
    {
        prover.outline(alloc, self.state_after(self.done()))
    }

    /// All that is told of the text, in order.
    pub fn diags(&self, alloc: Global, prover: &P) -> Result<AbsDiagList, NoMem>
        requires { all_done self.now ≡ true }
        ensures diags { IfOk result (λ diags. diags ≡ (checked P.means self.now.text).diags) }
        ensures placed { IfOk result (λ diags. All (IsPlaced (length self.now.text)) diags) }
    {
        let last = self.state_after(self.done());
        report_diags(
            alloc,
            prover,
            last,
            self.text.as_str(),
            &self.spans,
            self.finished.as_slice(),
        )
    }

    /// All that is told of the text, and what it declares.
    pub fn report(&self, alloc: Global, prover: &P) -> Result<Report, NoMem>
        requires { all_done self.now ≡ true }
        ensures report { IfOk result (λ report. report ≡ checked P.means self.now.text) }
        ensures placed { IfOk result (λ report. All (IsPlaced (length self.now.text)) report.diags) }
    {
        let last = self.state_after(self.done());
        let diags = report_diags(
            alloc,
            prover,
            last,
            self.text.as_str(),
            &self.spans,
            self.finished.as_slice(),
        )?;
        let outline = self.outline(alloc, prover)?;
        let spans = same_places(alloc, &self.spans)?;
        Ok(Report {
            diags,
            outline,
            spans,
        })
    }
}

/// Where the sentence of a number begins.
fn next_from(spans: &SpanList, number: usize, len: usize) -> usize
    requires within { number < length spans.now }
    requires placed { (text : List ℕ) × (length text ≡ len) × All (IsSpanOf text) spans.now }
    ensures from { result ≡ (span_of spans.now number).from }
    ensures placed { result ≤ len }
{
    spans.as_slice()[number].from as usize
}

/// The same places once more.
fn same_places(alloc: Global, spans: &SpanList) -> Result<SpanList, NoMem>
    ensures { IfOk result (λ places. places ≡ spans.now) }
{
    let mut places = SpanList::new(alloc);
    for span in spans.as_slice() {
        places.push(*span)?;
    }
    Ok(places)
}

/// Where the sentence of a number begins; 0 where there is none.
fn begin_in(spans: &SpanList, number: usize, len: usize) -> usize
    requires { (text : List ℕ) × (length text ≡ len) × All (IsSpanOf text) spans.now }
    ensures begin { result ≡ (span_of spans.now number).from }
    ensures within { result ≤ len }
{
    match spans.as_slice().get(number) {
        Some(span) => span.from as usize,
        None => 0,
    }
}

/// Where the sentence of a number ends; 0 where there is none.
fn end_in(spans: &SpanList, number: usize, len: usize) -> usize
    requires { (text : List ℕ) × (length text ≡ len) × All (IsSpanOf text) spans.now }
    ensures end { result ≡ (span_of spans.now number).to }
    ensures within { result ≤ len }
{
    match spans.as_slice().get(number) {
        Some(span) => span.to as usize,
        None => 0,
    }
}
