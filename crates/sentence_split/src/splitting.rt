//! From a text to its sentences.
ghost use Rattle.std.specs.Prelude.{◌≡◌, ℕ, List, ◌^◌, ◌<◌, ◌≤◌, ◌++◌, nat_lt, drop, length, All, IfOk};
ghost use Rattle.std.specs.List.{prefix_len};
ghost use Rattle.sentence_split.specs.declared.spans.Span.{Span};
ghost use Rattle.sentence_split.specs.Sentences.{sentences};
ghost use Rattle.sentence_split.specs.Split.{IsSplit};
ghost use Rattle.sentence_split.specs.Resplit.{WasSplit};
ghost use Rattle.sentence_split.specs.Within.{IsSpanOf};

use crate::pieces::{Piece, first_piece};
use crate::{Span, SpanList};
use base_core::NoMem;
use std::alloc::Global;

/// The sentences of a text. Each is a shortest stretch that ends one (Rocq manual, "Lexical
/// conventions").
pub fn split(alloc: Global, text: &str) -> Result<SpanList, NoMem>
    requires { length text.now < 2 ^ 32 }
    ensures same { IfOk result (λ spans. spans ≡ sentences 0 0 text.now) }
    ensures split { IfOk result (λ spans. IsSplit (length text.now) text.now spans) }
    ensures spans { IfOk result (All (IsSpanOf text.now)) }
{
    split_behind(text, SpanList::new(alloc), 0)
}

/// The sentences of a text that differs from an earlier one at no byte before the first that was changed.
/// Those of the earlier text that ended before that byte are kept. A sentence that ends just there isn't:
/// its period wants a blank or the text's end behind it.
pub fn resplit(
    alloc: Global,
    text: &str,
    old: &SpanList,
    first_changed: u32,
) -> Result<SpanList, NoMem>
    requires short { length text.now < 2 ^ 32 }
    requires was { WasSplit text.now first_changed old.now }
    ensures same { IfOk result (λ spans. spans ≡ sentences 0 0 text.now) }
    ensures split { IfOk result (λ spans. IsSplit (length text.now) text.now spans) }
    ensures spans { IfOk result (All (IsSpanOf text.now)) }
{
    let bound = text.len().min(first_changed as usize);
    let kept = count_before(old.as_slice(), bound);
    if kept == 0 {
        return split(alloc, text);
    }
    let from = old.as_slice()[kept - 1].to as usize;
    split_behind(text, old.first(alloc, kept)?, from)
}

/// How many of the first spans end before a byte.
fn count_before(spans: &[Span], byte: usize) -> usize
    ensures { result ≡ prefix_len (λ span. nat_lt span.to byte) spans.now }
{
    spans
        .iter()
        .take_while(|span| (span.to as usize) < byte)
        .count()
}

/// The sentences of a text, of which those before a byte are known.
fn split_behind(text: &str, known: SpanList, from: usize) -> Result<SpanList, NoMem>
    requires short { length text.now < 2 ^ 32 }
    requires within { from ≤ length text.now }
    requires known { known ++ sentences from 0 (drop from text.now) ≡ sentences 0 0 text.now }
    ensures same { IfOk result (λ spans. spans ≡ sentences 0 0 text.now) }
    ensures split { IfOk result (λ spans. IsSplit (length text.now) text.now spans) }
    ensures spans { IfOk result (All (IsSpanOf text.now)) }
{
    let text = text.as_bytes();
    let mut spans = known;
    let mut at = from;
    while at < text.len() {
        match first_piece(&text[at..]) {
            Piece::Gap(len) => at += len,
            Piece::Sentence(kind, len) => {
                spans.push(Span {
                    from: at as u32,
                    to: (at + len) as u32,
                    kind,
                })?;
                at += len;
            }
        }
    }
    Ok(spans)
}

/// A law: each text has one split, and the function `sentences` gives it. It does nothing.
pub fn law_of_splits()
    ensures splits { (text : List ℕ) → IsSplit (length text) text (sentences 0 0 text) }
    ensures one { (text : List ℕ) (spans : List Span) → IsSplit (length text) text spans → spans ≡ sentences 0 0 text }
{}
