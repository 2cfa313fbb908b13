//! What is told of a document that is checked to its end.
ghost use Rattle.std.specs.Prelude.{◌≡◌, ◌<◌, ◌≤◌, ◌++◌, [], All, map, length, slice_index_or, IfOk, OnOk};
ghost use Rattle.base_core.specs.declared.limits.TheConstants.{TEXT_LIMIT};
ghost use Rattle.sentence_split.specs.Within.{IsSpanOf};
ghost use Rattle.prover_iface.specs.Laws.{IsDiag};
ghost use Rattle.doc_check.specs.Check.{sentence_at, shifted, state_after, checked, IsPlaced};
ghost use Rattle.doc_check.specs.Stands.{IsDoc};

use crate::AbsDiagList;
use crate::finished::Finished;
use crate::sentences::{add_left_open, add_shifted};
use base_core::NoMem;
use prover_iface::{Prover, RelDiag};
use sentence_split::{Span, SpanList};
use std::alloc::Global;

/// What is told of the finished sentence of a number.
fn told_of<S: Drop>(finished: &[Finished<S>], place: usize) -> &[RelDiag]
    requires { place < length finished.now }
    ensures { result.now ≡ slice_index_or (map (λ f. f.diags) finished.now) place [] }
{
    finished[place].diags.as_slice()
}

/// Adds what is told of a sentence, at its place in the text.
fn add_told(
    alloc: Global,
    diags: &mut AbsDiagList,
    text: &str,
    span: &Span,
    told: &[RelDiag],
) -> Result<(), NoMem>
    requires short { length text.now ≤ TEXT_LIMIT }
    requires span { IsSpanOf text.now span.now }
    requires told { All (IsDiag (sentence_at text.now span.now).text) told.now }
    ensures { OnOk result (diags.new ≡ diags.old ++ map (shifted span.now.from) told.now) }
{
    add_shifted(
        alloc,
        diags,
        told,
        span.from,
        (span.to - span.from) as usize,
    )
}

/// What is told of all sentences, and last the refusal of a proof that is left open.
pub(crate) fn report_diags<P: Prover>(
    alloc: Global,
    prover: &P,
    last: &P::State,
    text: &str,
    spans: &SpanList,
    finished: &[Finished<P::State>],
) -> Result<AbsDiagList, NoMem>
    requires kept { IsDoc P.means text.now spans.now P.means.first (map (λ f. (P.meaning f.state, f.diags)) finished.now) }
    requires all { length finished.now ≡ length spans.now }
    requires last { P.meaning last.now ≡ state_after P.means text.now spans.now }
    ensures diags { IfOk result (λ diags. diags ≡ (checked P.means text.now).diags) }
    ensures placed { IfOk result (λ diags. All (IsPlaced (length text.now)) diags) }
{
    let mut diags = AbsDiagList::new(alloc);
    let places = spans.as_slice();
    for place in 0..finished.len() {
        let told = told_of(finished, place);
        add_told(alloc, &mut diags, text, &places[place], told)?;
    }
    add_left_open(alloc, &mut diags, prover.left_open(last), places)?;
    Ok(diags)
}
