//! The files that a command line asks to check.
ghost use Rattle.std.specs.Prelude.{◌≡◌, ◌⊎◌, ◌++◌, Ok, Err, map, filter, string_bytes, IfSome, IfOk, MatchOption, None, Some};
ghost use Rattle.std.specs.Result.{IsErrOf};
ghost use Rattle.base_core.specs.Faults.{Rose};
ghost use Rattle.fleche_main.specs.Words.{asked, is_listed, are_listed, documents_named, names_of};
ghost use Rattle.batch_check.specs.Batch.{files_batch, Checks};
ghost use Rattle.fleche_main.specs.Run.{is_wanted, IsUnbegun};

use crate::words::{are_files, behind_pairs, is_flag, names_of};
use base_core::{FileSet, Halt, NoMem, Sink, Steps, Text, TextList};
use batch_check::{Ending, Observer, check_files, is_known, keep_named};
use prover_iface::Prover;
use std::alloc::Global;
use std::sync::ledger::Ledger;

/// Whether an observer has this title.
fn is_title<O: Observer>(watch: &[O], name: &str) -> bool
    ensures { result ≡ is_listed (map O.title watch.now) name.now }
{
    is_known(watch, name)
}

/// Whether there is an observer of each name in the pairs `--observe NAME` at the front.
fn are_known<O: Observer>(watch: &[O], words: &[String]) -> bool
    ensures { result ≡ are_listed (map O.title watch.now) (names_of (map string_bytes words.now)) }
{
    let mut rest = words;
    while let [flag, name, behind @ ..] = rest {
        if !is_flag(flag.as_str()) {
            return true;
        }
        if !is_title(watch, name.as_str()) {
            return false;
        }
        rest = behind;
    }
    true
}

/// The words behind `check`, if the command line asks to check files.
pub fn documents_named<'a, O: Observer>(words: &'a [String], watch: &[O]) -> Option<&'a [String]>
    ensures { let titles = map O.title watch.now in
        MatchOption result (documents_named titles (map string_bytes words.now) ≡ None)
        (λ behind. documents_named titles (map string_bytes words.now) ≡ Some (asked (map string_bytes behind.now))) }
{
    match words {
        [command, behind @ ..]
            if command.as_str() == "check"
                && are_files(behind_pairs(behind))
                && are_known(watch, behind) => { Some(behind) }
        _ => None,
    }
}

/// Words as a list.
fn texts_of(alloc: Global, words: &[String]) -> Result<TextList, NoMem>
    ensures { IfOk result (λ texts. texts ≡ map string_bytes words.now) }
{
    let mut texts = TextList::new(alloc);
    for word in words {
        texts.push(Text::copy(alloc, word.as_str())?)?;
    }
    Ok(texts)
}

/// Checks the files that the words behind `check` name, for the observers that they name: the others are taken out.
pub fn check_documents<S: Sink, F: FileSet, P: Prover, O: Observer, C: Ledger>(
    alloc: Global,
    prover: &P,
    words: &[String],
    files: &mut F,
    out: &mut S,
    watch: &mut Vec<O>,
    steps: &mut Steps<C>,
) -> Result<Ending, Halt>
    ensures told { let asked = asked (map string_bytes words.now) in
        let kept = filter (λ o. is_wanted asked.names (O.title o)) watch.old.items in
        IsUnbegun result (S.written out.old) (S.written out.new) watch.old.items watch.new.items
        ⊎ ((map O.title watch.new.items ≡ map O.title kept)
        × IfSome (F.content files.old) (λ listed. Checks (files_batch P.means listed asked.files) result
        (S.written out.old) (S.written out.new) (map O.told watch.new.items)
        (map O.shown kept) (map O.shown watch.new.items))) }
    ensures failed { IsErrOf result Halt.SinkFailed → Rose (S.faults out.old) (S.faults out.new) }
    ensures not_read { result ≡ Ok Ending.NotRead → Rose (F.faults files.old) (F.faults files.new) }
{
    let names = names_of(alloc, words)?;
    let documents = texts_of(alloc, behind_pairs(words))?;
    keep_named(watch, names.as_slice());
    check_files(
        alloc,
        documents.as_slice(),
        files,
        out,
        prover,
        watch,
        steps,
    )
}
