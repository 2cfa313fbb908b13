//! What the author of a sentence is told.
ghost use Rattle.std.specs.Prelude.{◌≡◌, ◌^◌, ◌<◌, [], ◌∷◌, length, map, IfOk};
ghost use Rattle.vernac_exec.specs.Diagnostics.{limit_code, error_at, answer_at, told_stop, severity_of, note_at, told_entry, told};

use crate::deed::Deed;
use base_core::refusal_codes::{
    DEPTH_BUDGET, GOAL_ADMITTED, SIZE_BUDGET, STEP_BUDGET, TERM_AND_TYPE, THEOREM_ADMITTED,
    refusal_text,
};
use base_core::{Limit, NoMem, Place, Stop, Text};
use prover_iface::{DiagList, ItemKind, RelDiag};
use std::alloc::Global;

/// The refusal that the end of a budget is.
fn limit_code(limit: Limit) -> u16
    ensures { result ≡ limit_code limit }
{
    match limit {
        Limit::StepLimit => STEP_BUDGET,
        Limit::DepthLimit => DEPTH_BUDGET,
        Limit::SizeLimit => SIZE_BUDGET,
    }
}

/// An error at a place of a sentence.
fn error_at(alloc: Global, sentence: &str, code: u16, place: Place) -> Result<RelDiag, NoMem>
    requires { length sentence.now < 2 ^ 32 }
    ensures { IfOk result (λ diag. diag ≡ error_at sentence.now code place) }
{
    let text = Text::copy(alloc, refusal_text(code))?;
    match place {
        Place::Whole => Ok(RelDiag {
            severity: 1,
            code,
            from: 0,
            to: sentence.len() as u32,
            text,
        }),
        Place::Part { from, to } => Ok(RelDiag {
            severity: 1,
            code,
            from,
            to,
            text,
        }),
    }
}

/// What a sentence answers, at the whole of it.
fn answer_at(sentence: &str, text: &Text) -> Result<RelDiag, NoMem>
    requires { length sentence.now < 2 ^ 32 }
    ensures { IfOk result (λ diag. diag ≡ answer_at sentence.now text.now) }
{
    Ok(RelDiag {
        severity: 3,
        code: TERM_AND_TYPE,
        from: 0,
        to: sentence.len() as u32,
        text: text.share()?,
    })
}

/// One diagnostic.
fn only(alloc: Global, diag: RelDiag) -> Result<DiagList, NoMem>
    ensures { IfOk result (λ diags. diags ≡ diag ∷ []) }
{
    let mut diags = DiagList::new(alloc);
    diags.push(diag)?;
    Ok(diags)
}

/// Why a sentence is refused.
fn told_stop(alloc: Global, sentence: &str, stop: Stop) -> Result<DiagList, NoMem>
    requires { length sentence.now < 2 ^ 32 }
    ensures { IfOk result (λ diags. diags ≡ told_stop sentence.now stop) }
{
    match stop {
        Stop::Refused(refusal) => {
            only(
                alloc,
                error_at(alloc, sentence, refusal.code, refusal.place)?,
            )
        }
        Stop::Out(limit) => {
            only(
                alloc,
                error_at(alloc, sentence, limit_code(limit), Place::Whole)?,
            )
        }
        Stop::NoMem => Ok(DiagList::new(alloc)),
    }
}

/// Refusals are errors, and the numbers from 90 on warnings.
fn severity_of(code: u16) -> u8
    ensures { result ≡ severity_of code }
{
    if code < GOAL_ADMITTED { 1 } else { 2 }
}

/// A refusal or a warning of a sentence that does something all the same.
fn note_at(alloc: Global, sentence: &str, code: u16) -> Result<RelDiag, NoMem>
    requires { length sentence.now < 2 ^ 32 }
    ensures { IfOk result (λ diag. diag ≡ note_at sentence.now code) }
{
    Ok(RelDiag {
        severity: severity_of(code),
        code,
        from: 0,
        to: sentence.len() as u32,
        text: Text::copy(alloc, refusal_text(code))?,
    })
}

fn notes_at(alloc: Global, sentence: &str, codes: &[u16]) -> Result<DiagList, NoMem>
    requires { length sentence.now < 2 ^ 32 }
    ensures { IfOk result (λ diags. diags ≡ map (note_at sentence.now) codes.now) }
{
    let mut diags = DiagList::new(alloc);
    for code in codes {
        diags.push(note_at(alloc, sentence, *code)?)?;
    }
    Ok(diags)
}

/// Of what is entered, only a theorem that is admitted is told.
fn told_entry(alloc: Global, sentence: &str, kind: ItemKind) -> Result<DiagList, NoMem>
    requires { length sentence.now < 2 ^ 32 }
    ensures { IfOk result (λ diags. diags ≡ told_entry sentence.now kind) }
{
    match kind {
        ItemKind::Admitted => only(alloc, note_at(alloc, sentence, THEOREM_ADMITTED)?),
        ItemKind::Axiom => Ok(DiagList::new(alloc)),
        ItemKind::Definition => Ok(DiagList::new(alloc)),
        ItemKind::Inductive => Ok(DiagList::new(alloc)),
        ItemKind::Theorem => Ok(DiagList::new(alloc)),
    }
}

/// What is told of a sentence that was answered so.
pub fn diagnostics_of(
    alloc: Global,
    sentence: &str,
    answer: &Result<Deed, Stop>,
) -> Result<DiagList, NoMem>
    requires { length sentence.now < 2 ^ 32 }
    ensures { IfOk result (λ diags. diags ≡ told sentence.now answer.now) }
{
    match answer {
        Ok(Deed::Declares { kind, .. }) => told_entry(alloc, sentence, *kind),
        Ok(Deed::Answers(text)) => only(alloc, answer_at(sentence, text)?),
        Ok(Deed::Begins { .. }) => Ok(DiagList::new(alloc)),
        Ok(Deed::GoesOn { told, .. }) => notes_at(alloc, sentence, told.as_slice()),
        Ok(Deed::Passes) => Ok(DiagList::new(alloc)),
        Ok(Deed::Drops) => Ok(DiagList::new(alloc)),
        Err(stop) => told_stop(alloc, sentence, *stop),
    }
}
