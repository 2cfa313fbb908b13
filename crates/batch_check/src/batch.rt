//! Files are checked one after another.
ghost use Rattle.std.specs.Prelude.{◌≡◌, ◌≢◌, ◌≤◌, Ok, map, IfSome};
ghost use Rattle.std.specs.Result.{IsErrOf};
ghost use Rattle.base_core.specs.Faults.{Rose};
ghost use Rattle.base_core.specs.Files.{file_at};
ghost use Rattle.doc_check.specs.Check.{checked};
ghost use Rattle.batch_check.specs.Outcome.{file_outcome};
ghost use Rattle.batch_check.specs.declared.outcomes.Outcome.TheVariants.{Reported as IsReported};
ghost use Rattle.batch_check.specs.Batch.{Brings, Checks, files_batch, with_clean};

use crate::checks::check_file;
use crate::digests::is_clean;
use crate::endings::Ending;
use crate::observers::Observer;
use crate::outcomes::{FileReport, Next, Outcome};
use crate::showing::{show_all, write_summaries};
use crate::writing::write_whole;
use base_core::{FileSet, Halt, NoMem, Sink, Steps, Text};
use prover_iface::Prover;
use std::alloc::Global;
use std::sync::ledger::Ledger;

/// Writes a file's report and shows it to each observer.
fn publish<S: Sink, O: Observer>(
    alloc: Global,
    report: &FileReport,
    out: &mut S,
    watch: &mut Vec<O>,
) -> Result<Next, Halt>
    ensures told { Brings (IsReported report.now) result (S.written out.old) (S.written out.new)
        (map O.shown watch.old.items) (map O.shown watch.new.items) }
    ensures named { map O.title watch.new.items ≡ map O.title watch.old.items }
    ensures later { S.faults out.old ≤ S.faults out.new }
    ensures failed { IsErrOf result Halt.SinkFailed → Rose (S.faults out.old) (S.faults out.new) }
    ensures read { result ≢ Ok Next.NotRead }
{
    if !write_whole(out, report.lines.as_str().as_bytes()) {
        return Err(Halt::SinkFailed);
    }
    match show_all(alloc, watch, &report.digest) {
        Ok(()) => {}
        Err(NoMem) => return Err(Halt::NoMem),
    }
    Ok(Next::Reported(is_clean(&report.digest)))
}

/// Checks a file, writes its report and shows it to each observer.
fn check_next<F: FileSet, S: Sink, P: Prover, O: Observer, C: Ledger>(
    alloc: Global,
    name: &str,
    files: &mut F,
    out: &mut S,
    prover: &P,
    watch: &mut Vec<O>,
    steps: &mut Steps<C>,
) -> Result<Next, Halt>
    ensures told { IfSome (F.content files.old) (λ listed.
        Brings (file_outcome (checked P.means) name.now (file_at listed name.now)) result
        (S.written out.old) (S.written out.new)
        (map O.shown watch.old.items) (map O.shown watch.new.items)) }
    ensures same { F.content files.new ≡ F.content files.old }
    ensures named { map O.title watch.new.items ≡ map O.title watch.old.items }
    ensures later { S.faults out.old ≤ S.faults out.new }
    ensures failed { IsErrOf result Halt.SinkFailed → Rose (S.faults out.old) (S.faults out.new) }
    ensures reads { F.faults files.old ≤ F.faults files.new }
    ensures not_read { result ≡ Ok Next.NotRead → Rose (F.faults files.old) (F.faults files.new) }
{
    match check_file(alloc, prover, name, files, steps) {
        Ok(Outcome::Reported(report)) => publish(alloc, &report, out, watch),
        Ok(Outcome::NotRead) => Ok(Next::NotRead),
        Ok(Outcome::NotText) => Ok(Next::NotText),
        Err(NoMem) => Err(Halt::NoMem),
    }
}

/// How the check ends with one report more.
fn with_clean(ending: Ending, clean: bool) -> Ending
    ensures { result ≡ with_clean ending clean }
{
    if clean { ending } else { Ending::Unclean }
}

/// Checks the files of these names in order, writes the report of each, and shows it to each observer. The first file
/// that gives no report ends the check. Behind the last report come the observers' summaries.
pub fn check_files<F: FileSet, S: Sink, P: Prover, O: Observer, C: Ledger>(
    alloc: Global,
    names: &[Text],
    files: &mut F,
    out: &mut S,
    prover: &P,
    watch: &mut Vec<O>,
    steps: &mut Steps<C>,
) -> Result<Ending, Halt>
    // Where the files are told: how it ends, and what it has written and shown.
    ensures told { IfSome (F.content files.old) (λ listed. Checks (files_batch P.means listed names.now) result
        (S.written out.old) (S.written out.new) (map O.told watch.new.items)
        (map O.shown watch.old.items) (map O.shown watch.new.items)) }

    // Each observer stays in its place, with its name.
    ensures named { map O.title watch.new.items ≡ map O.title watch.old.items }

    // The sink fails, and a file isn't read, only where a fault more is counted.
    ensures failed { IsErrOf result Halt.SinkFailed → Rose (S.faults out.old) (S.faults out.new) }
    ensures not_read { result ≡ Ok Ending.NotRead → Rose (F.faults files.old) (F.faults files.new) }
{
    let mut ending = Ending::Clean;
    for name in names {
        match check_next(alloc, name.as_str(), files, out, prover, watch, steps) {
            Ok(Next::Reported(clean)) => ending = with_clean(ending, clean),
            Ok(Next::NotRead) => return Ok(Ending::NotRead),
            Ok(Next::NotText) => return Ok(Ending::NotText),
            Err(Halt::NoMem) => return Err(Halt::NoMem),
            Err(Halt::SinkFailed) => return Err(Halt::SinkFailed),
        }
    }
    match write_summaries(alloc, watch, out) {
        Ok(()) => Ok(ending),
        Err(halt) => Err(halt),
    }
}
