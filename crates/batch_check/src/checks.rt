//! A file is checked.
ghost use Rattle.std.specs.Prelude.{◌≡◌, ◌≢◌, ◌≤◌, Ok, length, IfSome, IfOk};
ghost use Rattle.base_core.specs.declared.limits.TheConstants.{TEXT_LIMIT};
ghost use Rattle.base_core.specs.Faults.{Rose};
ghost use Rattle.base_core.specs.Files.{file_at};
ghost use Rattle.utf16_doc.specs.declared.encoding.Encoding.TheVariants.{Utf16};
ghost use Rattle.doc_check.specs.Check.{checked};
ghost use Rattle.batch_check.specs.Outcome.{text_outcome, bytes_outcome, file_outcome};

use crate::digests::digest_of;
use crate::outcomes::{FileReport, Outcome};
use crate::reports::report_lines;
use base_core::{FileFault, FileSet, NoMem, Steps, Text};
use doc_check::check_text;
use prover_iface::Prover;
use std::alloc::Global;
use std::str;
use std::sync::ledger::Ledger;
use utf16_doc::{Doc, DocStop, Encoding};

/// Checks a text and makes its report.
fn check_doc<P: Prover, C: Ledger>(
    alloc: Global,
    prover: &P,
    name: &str,
    doc: &Doc,
    steps: &mut Steps<C>,
) -> Result<Outcome, NoMem>
    requires { doc.now.encoding ≡ Utf16 }
    ensures told { IfOk result (λ outcome. outcome ≡ text_outcome (checked P.means) name.now doc.now.text) }
    ensures read { result ≢ Ok Outcome.NotRead }
{
    let report = check_text(alloc, prover, doc.text(), steps)?;
    let digest = digest_of(alloc, name, &report)?;
    let lines = report_lines(alloc, name, doc, &report)?;
    let lines = Text::from_string(alloc, lines)?;
    Ok(Outcome::Reported(FileReport { digest, lines }))
}

/// Checks a file's bytes, if they are a text.
fn check_bytes<P: Prover, C: Ledger>(
    alloc: Global,
    prover: &P,
    name: &str,
    bytes: &[u8],
    steps: &mut Steps<C>,
) -> Result<Outcome, NoMem>
    requires { length bytes.now ≤ TEXT_LIMIT }
    ensures told { IfOk result (λ outcome. outcome ≡ bytes_outcome (checked P.means) name.now bytes.now) }
    ensures read { result ≢ Ok Outcome.NotRead }
{
    let Ok(text) = str::from_utf8(bytes) else {
        return Ok(Outcome::NotText);
    };
    match Doc::new(alloc, text, Encoding::Utf16) {
        Ok(doc) => check_doc(alloc, prover, name, &doc, steps),
        Err(DocStop::NoMem) => Err(NoMem),
        Err(_) => Ok(Outcome::NotText),
    }
}

/// Reads a file and checks it.
pub(crate) fn check_file<F: FileSet, P: Prover, C: Ledger>(
    alloc: Global,
    prover: &P,
    name: &str,
    files: &mut F,
    steps: &mut Steps<C>,
) -> Result<Outcome, NoMem>
    ensures told { IfSome (F.content files.old) (λ listed.
        IfOk result (λ outcome. outcome ≡ file_outcome (checked P.means) name.now (file_at listed name.now))) }
    ensures same { F.content files.new ≡ F.content files.old }
    ensures later { F.faults files.old ≤ F.faults files.new }
    ensures not_read { result ≡ Ok Outcome.NotRead → Rose (F.faults files.old) (F.faults files.new) }
{
    match files.read(alloc, name) {
        Ok(bytes) => check_bytes(alloc, prover, name, bytes.as_slice(), steps),
        Err(FileFault::Failed) => Ok(Outcome::NotRead),
        Err(FileFault::TooLong) => Ok(Outcome::NotText),
        Err(FileFault::NoMem) => Err(NoMem),
    }
}
