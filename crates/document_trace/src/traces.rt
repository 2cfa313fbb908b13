//! A document is run sentence by sentence.
ghost use Rattle.std.specs.Prelude.{◌≡◌, ◌<◌, ◌≤◌, All, length, string_bytes};
ghost use Rattle.base_core.specs.declared.limits.TheConstants.{TEXT_LIMIT};
ghost use Rattle.sentence_split.specs.Within.{IsSpanOf};

use crate::lines::{add_diag, add_goals, add_item, add_left_open, add_sentence};
use base_core::{COST_LIMIT, NoMem, Steps};
use prover_iface::{Outcome, Prover};
use sentence_split::{Span, split};
use std::alloc::Global;
use std::sync::ledger::{Blank, Ledger};

/// Runs the sentence at a place of a text and adds what is told of it: the state behind it.
fn run_sentence<P: Prover, C: Ledger>(
    alloc: Global,
    prover: &P,
    state: &P::State,
    text: &str,
    span: &Span,
    lines: &mut String,
    steps: &mut Steps<C>,
) -> Result<P::State, NoMem>
    requires short { length text.now ≤ TEXT_LIMIT }
    requires span { IsSpanOf text.now span.now }
{
    let sentence = &text[span.from as usize..span.to as usize];
    match prover.exec(alloc, state, span.kind, sentence, COST_LIMIT, steps)? {
        Outcome::Done { state, diags, cost } => {
            add_sentence(lines, span.kind, cost, sentence)?;
            for diag in diags.as_slice() {
                add_diag(lines, diag)?;
            }
            if let Some(goals) = prover.goals(alloc, &state)? {
                add_goals(lines, &goals)?;
            }
            Ok(state)
        }
        Outcome::Interrupted => prover.share(state),
    }
}

/// Runs all sentences from the first state on: the state behind them.
fn run_all<P: Prover, C: Ledger>(
    alloc: Global,
    prover: &P,
    text: &str,
    spans: &[Span],
    lines: &mut String,
    steps: &mut Steps<C>,
) -> Result<P::State, NoMem>
    requires short { length text.now ≤ TEXT_LIMIT }
    requires spans { All (IsSpanOf text.now) spans.now }
{
    let mut state = prover.initial(alloc, steps)?;
    for span in spans {
        state = run_sentence(alloc, prover, &state, text, span, lines, steps)?;
    }
    Ok(state)
}

/// The lines of a text, with work that is counted.
fn lines_of<P: Prover, C: Ledger>(
    alloc: Global,
    prover: &P,
    text: &str,
    steps: &mut Steps<C>,
) -> Result<String, NoMem>
    requires { length text.now ≤ TEXT_LIMIT }
{
    let spans = split(alloc, text)?;
    let mut lines = String::new(alloc);
    let state = run_all(alloc, prover, text, spans.as_slice(), &mut lines, steps)?;
    add_left_open(&mut lines, prover.left_open(&state))?;
    let outline = prover.outline(alloc, &state)?;
    for item in outline.as_slice() {
        add_item(&mut lines, item)?;
    }
    Ok(lines)
}

/// The lines of a text: each sentence with its cost, each followed by what is told of it and by the goals behind
/// it, and last what the text declares.
pub fn traced<C: Ledger, P: Prover>(
    alloc: Global,
    prover: &P,
    text: &String,
    blank: Blank,
) -> Result<String, NoMem>
    requires short { length (string_bytes text.now) ≤ TEXT_LIMIT }
    requires name { blank.name ≡ C.name }
    requires parts { blank.parts ≡ C.parts }
    requires some { 0 < C.parts }
{
    let mut steps: Steps<C> = Steps::new(blank);
    lines_of(alloc, prover, text.as_str(), &mut steps)
}
