//! One sentence at its place in a text.
ghost use Rattle.std.specs.Prelude.{◌≡◌, ◌+◌, ◌^◌, ◌<◌, ◌≤◌, ◌++◌, All, map, length, IfOk, IfSome, OnOk};
ghost use Rattle.doc_check.specs.Check.{shifted, whole_error, left_open};

use crate::{AbsDiag, AbsDiagList};
use base_core::refusal_codes::{PROOF_NOT_ENDED, refusal_text};
use base_core::{NoMem, Text};
use prover_iface::RelDiag;
use sentence_split::Span;
use std::alloc::Global;

/// Adds what is told of a sentence, at its place in the text.
pub(crate) fn add_shifted(
    alloc: Global,
    diags: &mut AbsDiagList,
    given: &[RelDiag],
    by: u32,
    len: usize,
) -> Result<(), NoMem>
    requires short { by + len < 2 ^ 32 }
    requires within { All (λ diag. (diag.from ≤ len) × (diag.to ≤ len)) given.now }
    ensures { OnOk result (diags.new ≡ diags.old ++ map (shifted by) given.now) }
{
    for diag in given {
        diags.push(AbsDiag {
            severity: diag.severity,
            code: diag.code,
            from: by + diag.from,
            to: by + diag.to,
            text: Text::copy(alloc, diag.text.as_str())?,
        })?;
    }
    Ok(())
}

/// A refusal at a whole sentence.
fn whole_error(alloc: Global, code: u16, span: &Span) -> Result<AbsDiag, NoMem>
    ensures { IfOk result (λ diag. diag ≡ whole_error code span.now) }
{
    Ok(AbsDiag {
        severity: 1,
        code,
        from: span.from,
        to: span.to,
        text: Text::copy(alloc, refusal_text(code))?,
    })
}

/// Refuses the proof that the text leaves open, at the sentence of that number, which began it.
pub(crate) fn add_left_open(
    alloc: Global,
    diags: &mut AbsDiagList,
    opened: Option<u32>,
    spans: &[Span],
) -> Result<(), NoMem>
    requires { IfSome opened (λ n. n < length spans.now) }
    ensures diags { OnOk result (diags.new ≡ diags.old ++ left_open opened spans.now) }
    ensures known { IfSome opened (λ n. n < length spans.now) }
{
    if let Some(number) = opened {
        let diag = whole_error(alloc, PROOF_NOT_ENDED, &spans[number as usize])?;
        diags.push(diag)?;
    }
    Ok(())
}
