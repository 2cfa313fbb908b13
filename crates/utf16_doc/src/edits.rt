//! Edits of a text.

ghost use Rattle.std.specs.Prelude.{◌≡◌, ◌≤◌, ◌∷◌, take, length, IfOk, string_bytes};
ghost use Rattle.std.specs.Str.{IsCharBoundary};
ghost use Rattle.utf16_doc.specs.Edits.{replaced, limited, edit, change_in, changes_from, changes_in, GivesText, GivesEdit};

use crate::lined_text::LinedText;
use crate::positions::offset_in;
use crate::{DocStop, Encoding};
use base_core::{Change, TEXT_LIMIT};
use std::alloc::Global;

/// The text with what stands between two offsets replaced, unless that is over the limit.
fn replace(alloc: Global, text: &str, from: usize, to: usize, new: &str) -> Result<String, DocStop>
    requires ordered { from ≤ to }
    requires starts { IsCharBoundary text.now from }
    requires ends { IsCharBoundary text.now to }
    requires short { length text.now ≤ TEXT_LIMIT }
    ensures { GivesText from (limited (replaced text.now from to new.now) from) string_bytes result }
{
    let kept = from + (text.len() - to);
    if new.len() > TEXT_LIMIT - kept {
        return Err(DocStop::TooLong);
    }
    let mut edited = String::with_capacity(alloc, kept + new.len())?;
    edited.push_str(&text[..from])?;
    edited.push_str(new)?;
    edited.push_str(&text[to..])?;
    Ok(edited)
}

/// The edit between two offsets, and the first of them.
fn edit(
    alloc: Global,
    text: &LinedText,
    from: usize,
    to: usize,
    new: &str,
) -> Result<(LinedText, usize), DocStop>
    requires starts { IsCharBoundary text.now from }
    requires ends { IsCharBoundary text.now to }
    ensures { GivesEdit (edit text.now from to new.now) result }
{
    if to < from {
        return Err(DocStop::RangeReversed);
    }
    let edited = replace(alloc, text.as_str(), from, to, new)?;
    let lined = LinedText::new(alloc, edited)?;
    Ok((lined, from))
}

/// The text after a change, and where the change starts.
fn change_in(
    alloc: Global,
    encoding: Encoding,
    text: &LinedText,
    change: &Change,
) -> Result<(LinedText, usize), DocStop>
    ensures { GivesEdit (change_in encoding text.now change.now) result }
{
    let new = change.text.as_str();
    let bytes = text.as_str().as_bytes();
    match change.range {
        None => edit(alloc, text, 0, bytes.len(), new),
        Some(range) => {
            let from = offset_in(encoding, bytes, text.ends(), range.from_pos);
            let to = offset_in(encoding, bytes, text.ends(), range.to_pos);
            edit(alloc, text, from, to, new)
        }
    }
}

/// The text after further changes, and the least offset at which one of them or of those before starts.
fn changes_from(
    alloc: Global,
    encoding: Encoding,
    text: LinedText,
    first: usize,
    changes: &[Change],
) -> Result<(LinedText, usize), DocStop>
    ensures { GivesEdit (changes_from encoding (record { text = text; first = first }) changes.now) result }
{
    let mut text = text;
    let mut first = first;
    for change in changes {
        let (edited, start) = change_in(alloc, encoding, &text, change)?;
        text = edited;
        first = first.min(start);
    }
    Ok((text, first))
}

/// The text after one change and then others, and the least offset at which one of them starts.
pub fn changes_in(
    alloc: Global,
    encoding: Encoding,
    text: &LinedText,
    change: &Change,
    others: &[Change],
) -> Result<(LinedText, usize), DocStop>
    ensures edited { GivesEdit (changes_in encoding text.now (change.now ∷ others.now)) result }
    ensures alike { IfOk result (λ p. take p.1 p.0 ≡ take p.1 text.now) }
    ensures within { IfOk result (λ p. p.1 ≤ length text.now) }
{
    let (edited, start) = change_in(alloc, encoding, text, change)?;
    let first = text.as_str().len().min(start);
    changes_from(alloc, encoding, edited, first, others)
}
