//! The lines that are written for a file.
ghost use Rattle.std.specs.Prelude.{◌≡◌, ◌==◌, ◌++◌, ◌+◌, ◌<◌, ◌≤◌, All, IfOk, OnOk, length, string_bytes};
ghost use Rattle.utf16_doc.specs.declared.encoding.Encoding.TheVariants.{Utf16};
ghost use Rattle.doc_check.specs.Check.{IsPlaced};
ghost use Rattle.batch_check.specs.Reports.{severity_word, diag_line, diag_lines, kind_word, item_line, item_lines};
ghost use Rattle.batch_check.specs.Reports.{is_admitted, error_count, admission_count, end_line, file_report};

use doc_check::{AbsDiag, Report};
use prover_iface::{ItemKind, OutlineItem, add_listed_axioms};
use std::alloc::{AllocError, Global};
use utf16_doc::Doc;

fn severity_word(severity: u8) -> &'static str
    ensures { result.now ≡ severity_word severity }
{
    match severity {
        1 => "error",
        2 => "warning",
        _ => "info",
    }
}

/// `FILE:L:C: SEV CODE: TEXT`, with line and character from 1.
fn add_diag(lines: &mut String, name: &str, doc: &Doc, diag: &AbsDiag) -> Result<(), AllocError>
    requires within { diag.now.from ≤ length doc.now.text }
    requires units { doc.now.encoding ≡ Utf16 }
    ensures { OnOk result (string_bytes lines.new ≡ string_bytes lines.old ++ diag_line name.now doc.now.text diag.now) }
{
    let at = doc.position_of(diag.from as usize);
    let line = u64::from(at.line) + 1;
    let character = u64::from(at.character) + 1;
    let severity = severity_word(diag.severity);
    let code = diag.code;
    let text = diag.text.as_str();
    write!(
        lines,
        "{name}:{line}:{character}: {severity} {code}: {text}\n"
    )
}

fn add_diags(lines: &mut String, name: &str, doc: &Doc, diags: &[AbsDiag]) -> Result<(), AllocError>
    requires placed { All (IsPlaced (length doc.now.text)) diags.now }
    requires units { doc.now.encoding ≡ Utf16 }
    ensures { OnOk result (string_bytes lines.new ≡ string_bytes lines.old ++ diag_lines name.now doc.now.text diags.now) }
{
    for diag in diags {
        add_diag(lines, name, doc, diag)?;
    }
    Ok(())
}

fn kind_word(kind: ItemKind) -> &'static str
    ensures { result.now ≡ kind_word kind }
{
    match kind {
        ItemKind::Axiom => "axiom",
        ItemKind::Definition => "definition",
        ItemKind::Inductive => "inductive",
        ItemKind::Theorem => "theorem",
        ItemKind::Admitted => "admitted",
    }
}

/// `FILE: KIND NAME : STATEMENT`, and the listed axioms.
fn add_item(lines: &mut String, name: &str, item: &OutlineItem) -> Result<(), AllocError>
    ensures { OnOk result (string_bytes lines.new ≡ string_bytes lines.old ++ item_line name.now item.now) }
{
    let kind = kind_word(item.kind);
    let declared = item.name.as_str();
    let statement = item.statement.as_str();
    write!(lines, "{name}: {kind} {declared} : {statement}")?;
    add_listed_axioms(lines, item)?;
    write!(lines, "\n")
}

fn add_items(lines: &mut String, name: &str, items: &[OutlineItem]) -> Result<(), AllocError>
    ensures { OnOk result (string_bytes lines.new ≡ string_bytes lines.old ++ item_lines name.now items.now) }
{
    for item in items {
        add_item(lines, name, item)?;
    }
    Ok(())
}

/// How many diagnostics are errors.
pub fn error_count(diags: &[AbsDiag]) -> usize
    ensures { result ≡ error_count diags.now }
{
    diags.iter().filter(|diag| diag.severity == 1).count()
}

fn is_admitted(kind: ItemKind) -> bool
    ensures { result ≡ is_admitted kind }
{
    match kind {
        ItemKind::Axiom => false,
        ItemKind::Definition => false,
        ItemKind::Inductive => false,
        ItemKind::Theorem => false,
        ItemKind::Admitted => true,
    }
}

/// How many declarations are admitted.
pub(crate) fn admission_count(items: &[OutlineItem]) -> usize
    ensures { result ≡ admission_count items.now }
{
    items.iter().filter(|item| is_admitted(item.kind)).count()
}

/// `FILE: end E errors A admissions`.
fn add_end(
    lines: &mut String,
    name: &str,
    errors: usize,
    admissions: usize,
) -> Result<(), AllocError>
    ensures { OnOk result (string_bytes lines.new ≡ string_bytes lines.old ++ end_line name.now errors admissions) }
{
    write!(
        lines,
        "{name}: end {errors} errors {admissions} admissions\n"
    )
}

/// All lines of a file: its diagnostics, its outline, the totals.
pub(crate) fn report_lines(
    alloc: Global,
    name: &str,
    doc: &Doc,
    report: &Report,
) -> Result<String, AllocError>
    requires placed { All (IsPlaced (length doc.now.text)) report.now.diags }
    requires units { doc.now.encoding ≡ Utf16 }
    ensures { IfOk result (λ lines. string_bytes lines ≡ file_report name.now doc.now.text report.now) }
{
    let mut lines = String::new(alloc);
    let diags = report.diags.as_slice();
    let items = report.outline.as_slice();
    add_diags(&mut lines, name, doc, diags)?;
    add_items(&mut lines, name, items)?;
    add_end(&mut lines, name, error_count(diags), admission_count(items))?;
    Ok(lines)
}
