//! Generated documents: made, checked, edited, and checked again.
ghost use Rattle.std.specs.Prelude.{◌≡◌, ◌≢◌, ℕ, ◌+◌, ◌≤◌, ◌++◌, [], ◌∷◌, Contains, length, string_bytes, IfOk, OnOk};
ghost use Rattle.std.specs.Result.{IsErrOf};
ghost use Rattle.base_core.specs.declared.limits.TheConstants.{TEXT_LIMIT};
ghost use Rattle.base_core.specs.Faults.{Rose};
ghost use Rattle.prover_iface.specs.Exec.{Worked};
ghost use Rattle.doc_check.specs.Check.{whole_cost};
ghost use Rattle.doc_gen.specs.declared.generating.TheConstants.{GENERATED_LIMIT};
ghost use Rattle.doc_gen.specs.Generated.{generated};
ghost use Rattle.fleche_main.specs.Generated.{edited, is_theorem, theorem_count, counts_of, checked_line, again_line, count_lines, generated_lines, Tells, WorksWithin, end_status};

use base_core::{Halt, NoMem, Sink, Status, Steps, Text, write_all};
use batch_check::error_count;
use doc_check::CheckedText;
use doc_gen::generate;
use prover_iface::{ItemKind, OutlineItem, Prover};
use std::alloc::{AllocError, Global};
use std::sync::ledger::Ledger;

/// What is counted of a generated document.
#[derive(Clone, Copy, Debug)]
pub struct Counts {
    pub sentences: usize,
    pub errors: usize,
    pub theorems: usize,
    /// How many sentences stand finished, without work, when a comment is put in front.
    pub kept: usize,
}

/// The text with a comment in front, which changes no sentence.
fn edited(alloc: Global, text: &str) -> Result<Text, NoMem>
    ensures { IfOk result (λ made. made ≡ edited text.now) }
{
    let mut made = String::new(alloc);
    made.push_str("(* edit *)\n")?;
    made.push_str(text)?;
    Text::from_string(alloc, made)
}

fn is_theorem(kind: ItemKind) -> bool
    ensures { result ≡ is_theorem kind }
{
    match kind {
        ItemKind::Axiom => false,
        ItemKind::Definition => false,
        ItemKind::Inductive => false,
        ItemKind::Theorem => true,
        ItemKind::Admitted => false,
    }
}

fn theorem_count(items: &[OutlineItem]) -> usize
    ensures { result ≡ theorem_count items.now }
{
    items.iter().filter(|item| is_theorem(item.kind)).count()
}

/// Checks a text, edits it, and counts.
fn counts_of<P: Prover, C: Ledger>(
    alloc: Global,
    prover: &P,
    text: Text,
    steps: &mut Steps<C>,
) -> Result<Counts, NoMem>
    requires { length text + 11 ≤ TEXT_LIMIT }
    ensures counts { IfOk result (λ counts. counts ≡ counts_of P.means text) }
    ensures work { Worked (whole_cost P.means text) steps.old steps.new result }
{
    let again = edited(alloc, text.as_str())?;
    let mut check = CheckedText::new(alloc, prover, text, steps)?;
    let report = check.report(alloc, prover)?;
    let sentences = check.count();
    check.edit(alloc, prover, again)?;
    Ok(Counts {
        sentences,
        errors: error_count(report.diags.as_slice()),
        theorems: theorem_count(report.outline.as_slice()),
        kept: check.done(),
    })
}

/// `gen N: S sentences E errors T theorems`.
fn add_checked(lines: &mut String, number: u32, counts: Counts) -> Result<(), AllocError>
    ensures { OnOk result (string_bytes lines.new ≡ string_bytes lines.old ++ checked_line number counts) }
{
    let sentences = counts.sentences;
    let errors = counts.errors;
    let theorems = counts.theorems;
    write!(
        lines,
        "gen {number}: {sentences} sentences {errors} errors {theorems} theorems\n"
    )
}

/// `again N: K of S kept`.
fn add_again(lines: &mut String, number: u32, counts: Counts) -> Result<(), AllocError>
    ensures { OnOk result (string_bytes lines.new ≡ string_bytes lines.old ++ again_line number counts) }
{
    let kept = counts.kept;
    let sentences = counts.sentences;
    write!(lines, "again {number}: {kept} of {sentences} kept\n")
}

/// Both lines.
fn count_lines(alloc: Global, number: u32, counts: Counts) -> Result<String, AllocError>
    ensures { IfOk result (λ lines. string_bytes lines ≡ count_lines number counts) }
{
    let mut lines = String::new(alloc);
    add_checked(&mut lines, number, counts)?;
    add_again(&mut lines, number, counts)?;
    Ok(lines)
}

/// Makes a document of so many lemmas, checks it, edits it, and tells what was counted.
fn generated_lines<P: Prover, C: Ledger>(
    alloc: Global,
    prover: &P,
    number: u32,
    steps: &mut Steps<C>,
) -> Result<String, NoMem>
    requires { number ≤ GENERATED_LIMIT }
    ensures lines { IfOk result (λ lines. string_bytes lines ≡ generated_lines P.means number) }
    ensures work { Worked (whole_cost P.means (generated number)) steps.old steps.new result }
{
    let text = generate(alloc, number)?;
    let counts = counts_of(alloc, prover, text, steps)?;
    let lines = count_lines(alloc, number, counts)?;
    Ok(lines)
}

/// Writes what was counted of a document of so many lemmas.
pub fn write_generated<S: Sink, P: Prover, C: Ledger>(
    alloc: Global,
    prover: &P,
    number: u32,
    out: &mut S,
    steps: &mut Steps<C>,
) -> Result<(), Halt>
    requires { number ≤ GENERATED_LIMIT }
    ensures told { Tells (generated_lines P.means number) result (S.written out.old) (S.written out.new) }
    ensures failed { IsErrOf result Halt.SinkFailed → Rose (S.faults out.old) (S.faults out.new) }
    ensures work { WorksWithin (whole_cost P.means (generated number)) steps.old steps.new }
{
    let lines = generated_lines(alloc, prover, number, steps)?;
    write_all(out, lines.as_str().as_bytes())
}

/// The exit status of `gen`.
pub fn status_of(end: Result<(), Halt>) -> u8
    ensures value { result ≡ end_status end }
    ensures known { Contains (0 ∷ 4 ∷ 5 ∷ []) result }
{
    match end {
        Ok(()) => Status::Done.number(),
        Err(halt) => halt.status().number(),
    }
}
