//! The words of a command line are run.
ghost use Rattle.std.specs.Prelude.{◌≡◌, ◌↔◌, ◌⊎◌, ℕ, List, Bool, filter, map, string_bytes, IfSome};
ghost use Rattle.base_core.specs.Faults.{Rose};
ghost use Rattle.cic_prover.specs.Exec.{means};
ghost use Rattle.cic_prover.specs.Soundness.{DocumentsAreSound};
ghost use Rattle.batch_check.specs.Batch.{files_batch, Checks};
ghost use Rattle.fleche_main.specs.Words.{Asked, form_of, NoForm, Documents, Generated, Session};
ghost use Rattle.fleche_main.specs.Generated.{IsGenerated};
ghost use Rattle.fleche_main.specs.Run.{IsSession, HasStatus, ByStatus, IsUnbegun, is_wanted};

use crate::documents::{check_documents, documents_named};
use crate::generated::{status_of, write_generated};
use crate::words::{number_named, session_named};
use base_core::{FileSet, Link, Sink, Status, Steps};
use batch_check::{Observer, number};
use cic_prover::{CicProver, law_of_soundness};
use doc_gen::GENERATED_LIMIT;
use lsp_session::serve;
use std::alloc::Global;
use std::sync::ledger::Ledger;

/// Runs the words of a command line, and answers the exit status. `watch` has the observers that the words may name.
pub fn run<L: Link, S: Sink, F: FileSet, O: Observer, C: Ledger>(
    alloc: Global,
    words: &[String],
    link: &mut L,
    out: &mut S,
    files: &mut F,
    watch: &mut Vec<O>,
    steps: &mut Steps<C>,
) -> u8
    // 2 comes exactly where the words are no form, and then nothing is polled, read, written or shown.
    ensures form { (result ≡ 2) ↔ (form_of (map O.title watch.old.items) (map string_bytes words.now) ≡ NoForm) }
    ensures no_form { result ≡ 2 →
        (link.new ≡ link.old) × (out.new ≡ out.old) × (files.new ≡ files.old) × (watch.new ≡ watch.old) }

    // Files are checked: where they are told, the run ends, writes and shows as they decide. The observers that the words
    // don't name are taken out.
    ensures check { let form = form_of (map O.title watch.old.items) (map string_bytes words.now) in
        (asked : Asked) → form ≡ Documents asked →
        let kept = filter (λ o. is_wanted asked.names (O.title o)) watch.old.items in
        ByStatus result (λ end. IsUnbegun end (S.written out.old) (S.written out.new) watch.old.items watch.new.items
        ⊎ ((map O.title watch.new.items ≡ map O.title kept)
        × IfSome (F.content files.old) (λ listed. Checks (files_batch means listed asked.files) end
        (S.written out.old) (S.written out.new) (map O.told watch.new.items)
        (map O.shown kept) (map O.shown watch.new.items)))) }
    ensures check_polls { let form = form_of (map O.title watch.old.items) (map string_bytes words.now) in
        (asked : Asked) → form ≡ Documents asked → link.new ≡ link.old }

    // A document is made, checked and edited: what is counted is written, and the edit brings no work.
    ensures generated { let form = form_of (map O.title watch.old.items) (map string_bytes words.now) in
        (count : ℕ) → form ≡ Generated count →
        IsGenerated means count result steps.old steps.new (S.written out.old) (S.written out.new) }
    ensures generated_touches { let form = form_of (map O.title watch.old.items) (map string_bytes words.now) in
        (count : ℕ) → form ≡ Generated count →
        (link.new ≡ link.old) × (files.new ≡ files.old) × (watch.new ≡ watch.old) }

    // A session: where link and sink tell, what is written is what the plain session writes.
    ensures serve { let form = form_of (map O.title watch.old.items) (map string_bytes words.now) in
        (paced : Bool) → form ≡ Session paced →
        IsSession paced result steps.old steps.new (S.written out.old) (S.written out.new)
        (L.polls link.old) (L.polls link.new) }
    ensures serve_touches { let form = form_of (map O.title watch.old.items) (map string_bytes words.now) in
        (paced : Bool) → form ≡ Session paced → (files.new ≡ files.old) × (watch.new ≡ watch.old) }

    // What is shown of any text is sound: each row of its outline has derivations in the written rules, all the way down
    // to the axioms that are listed with it, and to itself where it is taken for granted.
    ensures sound { DocumentsAreSound }

    // 3, 5 and 9 come only where the link, the sink or the files count a fault more.
    ensures link { result ≡ 3 → Rose (L.faults link.old) (L.faults link.new) }
    ensures sink { result ≡ 5 → Rose (S.faults out.old) (S.faults out.new) }
    ensures not_read { result ≡ 9 → Rose (F.faults files.old) (F.faults files.new) }
    ensures statuses { HasStatus (form_of (map O.title watch.old.items) (map string_bytes words.now)) result }
{
    law_of_soundness();
    if let Some(paced) = session_named(words) {
        return serve(alloc, link, out, paced, CicProver::new(), steps);
    }
    if let Some(count) = number_named(GENERATED_LIMIT, words) {
        return status_of(write_generated(alloc, &CicProver::new(), count, out, steps));
    }
    match documents_named(words, watch.as_slice()) {
        Some(behind) => number(check_documents(
            alloc,
            &CicProver::new(),
            behind,
            files,
            out,
            watch,
            steps,
        )),
        None => Status::NoForm.number(),
    }
}
