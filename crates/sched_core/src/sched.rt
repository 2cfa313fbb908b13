//! A session, and what is kept of the finished sentences of its documents.
ghost use Rattle.std.specs.Prelude.{◌≡◌, ◌≤◌, ◌<◌, ◌∷◌, ◌++◌, [], true, false, not, length, map, filter, remove, take, IfOk, OnOk};
ghost use Rattle.base_core.specs.declared.limits.TheConstants.{TEXT_LIMIT};
ghost use Rattle.prover_iface.specs.Exec.{Worked};
ghost use Rattle.doc_check.specs.Check.{views};
ghost use Rattle.doc_check.specs.Document.{doc};
ghost use Rattle.sched_core.specs.Session.{fresh, document_at, set_documents, set_phase, set_waiting, update, AreShort};
ghost use Rattle.sched_core.specs.Waiting.{answer, chooses, is_ready, is_ready_for};
ghost use Rattle.sched_core.specs.Trim.{numbers_in_use, trim};
ghost use Rattle.sched_core.specs.Messages.{set_running};
ghost use Rattle.sched_core.specs.Documents.{restarted, status_bodies};
ghost use Rattle.sched_core.specs.Done.{take_kept, came};
ghost use Rattle.sched_core.specs.Work.{is_shut_down, all_ended, spent_on, ran_on};
ghost use Rattle.sched_core.specs.Work.{progress_since, pair_at_end};

use crate::BytesList;
use crate::lookup::first_unended;
use crate::open_document::{NewText, OpenDocument};
use crate::phase::Phase;
use crate::waiting::{Choice, Waiting, drop_chosen};
use base_core::{Bytes, NoMem, Steps, Text};
use doc_check::DocCheck;
use memo_table::MemoTable;
use prover_iface::Prover;
use std::alloc::Global;
use std::marker::Model;
use std::sync::ledger::Ledger;
use utf16_doc::Encoding;

/// A session, and what is kept of the finished sentences of its documents.
#[derive(Drop)]
pub struct Sched<P: Prover> {
    prover: P,
    /// What came of finished sentences, of all documents.
    table: MemoTable<P::State>,
    paced: bool,
    phase: Phase,
    encoding: Encoding,
    /// In the order of their opening.
    documents: Vec<OpenDocument<P>>,
    /// Requests about documents, in the order of their arrival.
    waiting: Vec<Waiting>,
}

impl<P: Prover> Model for Sched<P> {
    ghost use Rattle.sched_core.specs.Session.{Session, Holds, held_in};

    ghost Value = { Session };

    ghost view = { λ s. record {
      paced = s.paced;
      phase = s.phase;
      encoding = s.encoding;
      documents = s.documents.items;
      waiting = s.waiting.items;
      held = held_in s.table;
    } };

    ghost invariant = { λ s. Holds P.meaning P.means s.table s.documents.items };
}

/// The numbers of the finished sentences of documents.
fn numbers_in_use<P: Prover>(
    alloc: Global,
    documents: &[OpenDocument<P>],
) -> Result<Vec<u64>, NoMem>
    ensures { IfOk result (λ numbers. numbers.items ≡ numbers_in_use documents.now) }
{
    let mut numbers = Vec::new(alloc);
    for document in documents {
        document.add_numbers(&mut numbers)?;
    }
    Ok(numbers)
}

fn is_shut_down(phase: Phase) -> bool
    ensures { result ≡ is_shut_down phase }
{
    matches!(phase, Phase::ShutDown)
}

impl<P: Prover> Sched<P> {
    /// A session in which nothing is open. A paced one runs sentences where units are granted; another runs
    /// them while nothing comes.
    pub fn new<C: Ledger>(
        alloc: Global,
        prover: P,
        paced: bool,
        steps: &mut Steps<C>,
    ) -> Result<Sched<P>, NoMem>
        ensures begun { IfOk result (λ s. s ≡ fresh paced) }
        ensures work { Worked P.means.first_cost steps.old steps.new result }
    {
        let first = prover.initial(alloc, steps)?;
        let table = MemoTable::new(alloc, first)?;
        Ok(Sched {
            prover,
            table,
            paced,
            phase: Phase::Fresh,
            encoding: Encoding::Utf16,
            documents: Vec::new(alloc),
            waiting: Vec::new(alloc),
        })
    }

    /// Whether every open text is checked to its end, or none is checked any more.
    pub fn all_ended(&self) -> bool
        ensures { result ≡ all_ended self.now }
    {
        is_shut_down(self.phase()) || first_unended(self.documents()).is_none()
    }

    pub fn phase(&self) -> Phase
        ensures { result ≡ self.now.phase }
    {
        self.phase
    }

    /// The prover of its documents.
    pub fn prover(&self) -> &P {
        &self.prover
    }

    /// Whether it is paced.
    pub fn is_paced(&self) -> bool
        ensures { result ≡ self.now.paced }
    {
        self.paced
    }

    /// What characters are counted in.
    pub fn encoding(&self) -> Encoding
        ensures { result ≡ self.now.encoding }
    {
        self.encoding
    }

    /// The session runs, with its characters counted so.
    pub(crate) fn set_running(&mut self, encoding: Encoding)
        ensures { self.new ≡ set_running encoding self.old }
    {
        self.phase = Phase::Running;
        self.encoding = encoding;
    }

    pub(crate) fn set_phase(&mut self, phase: Phase)
        ensures { self.new ≡ set_phase phase self.old }
    {
        self.phase = phase;
    }

    pub(crate) fn documents(&self) -> &[OpenDocument<P>]
        ensures documents { result.now ≡ self.now.documents }
        ensures short { AreShort self.now.documents }
    {
        self.documents.as_slice()
    }

    /// The requests that wait, in the order of their arrival.
    pub(crate) fn waiting(&self) -> &[Waiting]
        ensures { result.now ≡ self.now.waiting }
    {
        self.waiting.as_slice()
    }

    /// A request more waits.
    pub(crate) fn add_waiting(&mut self, request: Waiting) -> Result<(), NoMem>
        ensures { OnOk result (self.new ≡ set_waiting (self.old.waiting ++ request ∷ []) self.old) }
    {
        self.waiting.push(request)?;
        Ok(())
    }

    /// The requests that are meant wait no longer.
    pub(crate) fn drop_chosen(&mut self, choice: &Choice)
        ensures { self.new ≡ set_waiting (filter (λ w. not (chooses choice.now w)) self.old.waiting) self.old }
    {
        drop_chosen(&mut self.waiting, choice);
    }

    /// The request at a place waits no longer.
    pub(crate) fn drop_waiting(&mut self, place: usize)
        requires { place < length self.old.waiting }
        ensures { self.new ≡ set_waiting (remove self.old.waiting place) self.old }
    {
        let _request = self.waiting.remove(place);
    }

    /// The requests about the document at a place that can be answered wait no longer.
    pub(crate) fn drop_ready_at(&mut self, place: usize)
        requires { place < length self.old.documents }
        ensures { let ready = is_ready_for (document_at self.old place) in
            self.new ≡ set_waiting (filter (λ w. not (ready w)) self.old.waiting) self.old }
    {
        self.documents[place].drop_ready(&mut self.waiting);
    }

    /// Adds the answers to the requests about the document at a place that can be answered.
    pub(crate) fn add_answers_at(
        &self,
        alloc: Global,
        place: usize,
        bodies: &mut BytesList,
    ) -> Result<(), NoMem>
        requires { place < length self.now.documents }
        ensures { let d = document_at self.now place in
            let ready = filter (is_ready_for d) self.now.waiting in
            OnOk result (bodies.new ≡ bodies.old ++ map (answer (views P.means) d) ready) }
    {
        self.document(place)
            .add_answers(alloc, &self.prover, self.waiting(), bodies)
    }

    /// The answer to a request about the document at a place.
    pub(crate) fn answer_at(
        &self,
        alloc: Global,
        place: usize,
        request: &Waiting,
    ) -> Result<Bytes, NoMem>
        requires within { place < length self.now.documents }
        requires ready { is_ready (document_at self.now place) request.now ≡ true }
        ensures { IfOk result (λ b. b ≡ answer (views P.means) (document_at self.now place) request.now) }
    {
        self.document(place).answer(alloc, &self.prover, request)
    }

    /// The table forgets the finished sentences that no open document uses.
    pub(crate) fn trim(&mut self, alloc: Global) -> Result<(), NoMem>
        ensures { OnOk result (self.new ≡ trim self.old) }
    {
        let hold = numbers_in_use(alloc, self.documents.as_slice())?;
        self.table.trim(alloc, hold.as_slice())
    }

    /// The document at a place.
    pub(crate) fn document(&self, place: usize) -> &OpenDocument<P>
        requires { place < length self.now.documents }
        ensures { result.now ≡ document_at self.now place }
    {
        &self.documents[place]
    }

    /// A text of which no sentence is finished.
    pub(crate) fn begin(&self, alloc: Global, text: Text) -> Result<DocCheck<P>, NoMem>
        requires { length text ≤ TEXT_LIMIT }
        ensures { IfOk result (λ check. check ≡ doc text []) }
    {
        DocCheck::begun(alloc, text, &self.prover, self.table.root())
    }

    /// A document more, of which no sentence is finished.
    pub(crate) fn keep(&mut self, document: OpenDocument<P>) -> Result<(), NoMem>
        requires short { length document.check.text ≤ TEXT_LIMIT }
        requires none { document.check.numbers ≡ [] }
        ensures { OnOk result (self.new ≡ set_documents (self.old.documents ++ document ∷ []) self.old) }
    {
        self.documents.push(document)?;
        Ok(())
    }

    /// A new version of the document at a place.
    pub(crate) fn restart(
        &mut self,
        alloc: Global,
        place: usize,
        version: i32,
        new: NewText,
    ) -> Result<(), NoMem>
        requires within { place < length self.old.documents }
        requires alike { let old = document_at self.old place in
            take new.first_changed old.check.text ≡ take new.first_changed new.doc.text }
        ensures { OnOk result (self.new ≡ update place (restarted version new.doc.encoding new.doc.text) self.old) }
    {
        let _text = new.doc.text();
        self.documents[place].replace(alloc, version, new)
    }

    /// The document at a place takes the sentences that the table has kept.
    pub(crate) fn take_kept_at(&mut self, alloc: Global, place: usize) -> Result<(), NoMem>
        requires { place < length self.old.documents }
        ensures { let taken = take_kept (document_at self.old place).check self.old.held in
            OnOk result (self.new ≡ came place taken self.old) }
    {
        self.documents[place].take_kept(alloc, &self.prover, &mut self.table)
    }

    /// One document less.
    pub(crate) fn forget(&mut self, place: usize)
        requires { place < length self.old.documents }
        ensures { self.new ≡ set_documents (remove self.old.documents place) self.old }
    {
        let _document = self.documents.remove(place);
    }

    /// Units for the document at a place.
    pub(crate) fn spend_at<C: Ledger>(
        &mut self,
        alloc: Global,
        place: usize,
        units: u32,
        steps: &mut Steps<C>,
    ) -> Result<(), NoMem>
        requires { place < length self.old.documents }
        ensures spent { let spent = spent_on (views P.means) units (document_at self.old place) self.old.held in
            OnOk result (self.new ≡ came place spent self.old) }
        ensures work { let spent = spent_on (views P.means) units (document_at self.old place) self.old.held in
            Worked spent.work steps.old steps.new result }
    {
        self.documents[place].spend(alloc, &self.prover, &mut self.table, units, steps)
    }

    /// The document at a place takes the sentences that the table has kept. Then its next sentence is finished, if
    /// there is one.
    pub(crate) fn run_next_at<C: Ledger>(
        &mut self,
        alloc: Global,
        place: usize,
        steps: &mut Steps<C>,
    ) -> Result<(), NoMem>
        requires { place < length self.old.documents }
        ensures ran { let ran = ran_on (views P.means) (document_at self.old place) self.old.held in
            OnOk result (self.new ≡ came place ran self.old) }
        ensures work { let ran = ran_on (views P.means) (document_at self.old place) self.old.held in
            Worked ran.work steps.old steps.new result }
    {
        self.documents[place].run_next(alloc, &self.prover, &mut self.table, steps)
    }

    /// Adds what the document at a place says of how far it is.
    pub(crate) fn add_status_at(
        &self,
        alloc: Global,
        place: usize,
        bodies: &mut BytesList,
    ) -> Result<(), NoMem>
        requires { place < length self.now.documents }
        ensures { let told = status_bodies (views P.means) (document_at self.now place) in
            OnOk result (bodies.new ≡ bodies.old ++ told) }
    {
        self.document(place).add_status(alloc, &self.prover, bodies)
    }

    /// How far it came, where so many sentences were finished before.
    pub(crate) fn progress_at(
        &self,
        alloc: Global,
        place: usize,
        before: usize,
    ) -> Result<BytesList, NoMem>
        requires { place < length self.now.documents }
        ensures { IfOk result (λ bodies. bodies ≡ progress_since (views P.means) before (document_at self.now place)) }
    {
        self.document(place)
            .progress_since(alloc, &self.prover, before)
    }

    /// The end pair where it is ended.
    pub(crate) fn pair_at(&self, alloc: Global, place: usize) -> Result<BytesList, NoMem>
        requires { place < length self.now.documents }
        ensures { IfOk result (λ bodies. bodies ≡ pair_at_end (views P.means) (document_at self.now place)) }
    {
        self.document(place).pair_at_end(alloc, &self.prover)
    }
}
