//! An open document, with what is kept of its finished sentences.
ghost use Rattle.std.specs.Prelude.{◌≡◌, ◌≤◌, ◌++◌, ◌∷◌, [], true, false, not, take, length, map, filter, if◌then◌else◌, IfOk, OnOk, OnErr};
ghost use Rattle.std.specs.Str.{bytes_eq};
ghost use Rattle.prover_iface.specs.Exec.{Works, Worked};
ghost use Rattle.doc_check.specs.Check.{views};
ghost use Rattle.doc_check.specs.Document.{doc, done, all_done, taken};
ghost use Rattle.doc_check.specs.Stands.{Stands, Advanced, cost_here};
ghost use Rattle.sched_core.specs.Bodies.{ended_body as ended_bytes};
ghost use Rattle.serde_json.specs.View.{view};
ghost use Rattle.sched_core.specs.Session.{held_in};
ghost use Rattle.sched_core.specs.Waiting.{answer, can_tell, is_ready, is_ready_for, told_of, wanted_at};
ghost use Rattle.sched_core.specs.Documents.{text_behind, Edits, restarted, progress_from, diags_of, no_diags, status_bodies, end_pair};
ghost use Rattle.sched_core.specs.Done.{take_kept, with_check};
ghost use Rattle.sched_core.specs.Coming.{Comes, Carries};
ghost use Rattle.sched_core.specs.Work.{progress_since, pair_at_end, spent_on, ran_on};

use crate::BytesList;
use crate::bodies::{diags_body, ended_body, progress_body};
use crate::replies::one_body;
use crate::waiting::{Question, Waiting, is_about};
use base_core::{Bytes, COST_LIMIT, ChangeList, NoMem, Position, Steps, Text};
use doc_check::{Advance, DocCheck};
use goals_query::{goals_value, symbols_value};
use lsp_types::encode_result;
use memo_table::MemoTable;
use prover_iface::Prover;
use serde_json::Value;
use std::alloc::Global;
use std::marker::Model;
use std::sync::ledger::Ledger;
use utf16_doc::{Doc, DocStop};

/// The text of a new version, and the first byte at which it may differ from the one before.
#[derive(Drop)]
pub(crate) struct NewText {
    pub(crate) doc: Doc,
    pub(crate) first_changed: u32,
}

/// A document that the client opened.
#[derive(Drop)]
pub(crate) struct OpenDocument<P: Prover> {
    uri: Text,
    version: i32,
    /// The text with its positions.
    doc: Doc,
    check: DocCheck<P>,
}

impl<P: Prover> Model for OpenDocument<P> {
    ghost use Rattle.std.specs.Prelude.{◌≡◌};
    ghost use Rattle.sched_core.specs.Session.{Document};

    ghost Value = { Document };

    ghost view = { λ d. record { uri = d.uri; version = d.version; encoding = d.doc.encoding; check = d.check } };

    ghost invariant = { λ d. d.doc.text ≡ d.check.text };
}

impl<P: Prover> OpenDocument<P> {
    pub(crate) fn new(uri: Text, version: i32, doc: Doc, check: DocCheck<P>) -> OpenDocument<P>
        requires { doc.text ≡ check.text }
        ensures { result ≡ record { uri = uri; version = version; encoding = doc.encoding; check = check } }
    {
        OpenDocument {
            uri,
            version,
            doc,
            check,
        }
    }

    /// Whether this is its name: names are compared byte by byte.
    pub(crate) fn is_named(&self, uri: &str) -> bool
        ensures { result ≡ bytes_eq self.now.uri uri.now }
    {
        self.uri.as_str() == uri
    }

    pub(crate) fn version(&self) -> i32
        ensures { result ≡ self.now.version }
    {
        self.version
    }

    pub(crate) fn uri(&self) -> &Text
        ensures { result.now ≡ self.now.uri }
    {
        &self.uri
    }

    /// Whether all sentences are finished.
    pub(crate) fn is_ended(&self) -> bool
        ensures { result ≡ all_done self.now.check }
    {
        self.check.is_ended()
    }

    /// The text behind changes.
    pub(crate) fn edited(&self, alloc: Global, changes: &ChangeList) -> Result<NewText, DocStop>
        ensures edits { Edits (text_behind changes.now self.now) self.now.encoding result }
        ensures alike { IfOk result (λ new. take new.first_changed self.now.check.text ≡ take new.first_changed new.doc.text) }
    {
        let mut doc = self.doc.copy(alloc)?;
        match doc.apply(alloc, changes) {
            Ok(first_changed) => Ok(NewText { doc, first_changed }),
            Err(stop) => Err(stop),
        }
    }

    /// How many sentences are finished.
    pub(crate) fn done(&self) -> usize
        ensures { result ≡ done self.now.check }
    {
        self.check.done()
    }

    /// A new version. The sentences stay finished that both texts begin with.
    pub(crate) fn replace(&mut self, alloc: Global, version: i32, new: NewText) -> Result<(), NoMem>
        requires { take new.first_changed self.old.check.text ≡ take new.first_changed new.doc.text }
        ensures new { OnOk result (self.new ≡ restarted version new.doc.encoding new.doc.text self.old) }
        ensures unchanged { OnErr result (self.new ≡ self.old) }
    {
        let text = Text::copy(alloc, new.doc.text())?;
        self.check.change(alloc, text, new.first_changed)?;
        self.version = version;
        self.doc = new.doc;
        Ok(())
    }

    /// Progress from the first sentence that isn't finished on.
    fn progress(&self, alloc: Global) -> Result<Bytes, NoMem>
        requires { all_done self.now.check ≡ false }
        ensures { IfOk result (λ b. b ≡ progress_from self.now) }
    {
        let from = self.check.next_from();
        progress_body(alloc, self.uri.as_str(), self.version, &self.doc, from)
    }

    /// Progress of which nothing is left.
    fn ended(&self, alloc: Global) -> Result<Bytes, NoMem>
        ensures { IfOk result (λ b. b ≡ ended_bytes self.now.uri self.now.version) }
    {
        ended_body(alloc, self.uri.as_str(), self.version)
    }

    /// The diagnostics of the text.
    fn diags(&self, alloc: Global, prover: &P) -> Result<Bytes, NoMem>
        requires { all_done self.now.check ≡ true }
        ensures { IfOk result (λ b. b ≡ diags_of (views P.means) self.now) }
    {
        let diags = self.check.diags(alloc, prover)?;
        diags_body(
            alloc,
            self.uri.as_str(),
            self.version,
            &self.doc,
            diags.as_slice(),
        )
    }

    /// Diagnostics that take all earlier ones back.
    pub(crate) fn no_diags(&self, alloc: Global) -> Result<Bytes, NoMem>
        ensures { IfOk result (λ b. b ≡ no_diags self.now) }
    {
        diags_body(alloc, self.uri.as_str(), self.version, &self.doc, &[])
    }

    /// Takes the sentences that the table has kept.
    pub(crate) fn take_kept(
        &mut self,
        alloc: Global,
        prover: &P,
        table: &mut MemoTable<P::State>,
    ) -> Result<(), NoMem>
        requires stands { Stands P.meaning P.means table.old self.old.check }
        ensures comes { Comes (take_kept self.old.check (held_in table.old)) self.old result self.new (held_in table.new) }
        ensures carries { Carries P.meaning P.means table.old table.new self.old.check self.new.check }
    {
        self.check.take_kept(alloc, prover, table)
    }

    /// Takes the sentences that the table has kept, and then finishes the next one, if there is one and it costs
    /// at most these units.
    fn advance<C: Ledger>(
        &mut self,
        alloc: Global,
        prover: &P,
        table: &mut MemoTable<P::State>,
        units: u32,
        steps: &mut Steps<C>,
    ) -> Result<Advance, NoMem>
        requires stands { Stands P.meaning P.means table.old self.old.check }
        ensures advances { Advanced P.meaning P.means units table.old self.old.check result table.new self.new.check }
        ensures same { self.new ≡ with_check self.new.check self.old }
        ensures carries { Carries P.meaning P.means table.old table.new self.old.check self.new.check }
        ensures work { Works (cost_here P.means (taken self.old.check table.old.rows).doc) units steps.old steps.new result }
    {
        self.check.advance(alloc, prover, table, units, steps)
    }

    /// Takes the sentences that the table has kept, and then finishes the next one, if there is one.
    pub(crate) fn run_next<C: Ledger>(
        &mut self,
        alloc: Global,
        prover: &P,
        table: &mut MemoTable<P::State>,
        steps: &mut Steps<C>,
    ) -> Result<(), NoMem>
        requires stands { Stands P.meaning P.means table.old self.old.check }
        ensures comes { let ran = ran_on (views P.means) self.old (held_in table.old) in
            Comes ran self.old result self.new (held_in table.new) }
        ensures carries { Carries P.meaning P.means table.old table.new self.old.check self.new.check }
        ensures work { Worked (ran_on (views P.means) self.old (held_in table.old)).work steps.old steps.new result }
    {
        match self.advance(alloc, prover, table, COST_LIMIT, steps)? {
            Advance::Ended => Ok(()),
            Advance::Finished { spent: _ } => Ok(()),
            Advance::Interrupted => unreachable!(),
        }
    }

    /// Finishes sentences as long as these units suffice. Those that the table has kept cost none.
    pub(crate) fn spend<C: Ledger>(
        &mut self,
        alloc: Global,
        prover: &P,
        table: &mut MemoTable<P::State>,
        units: u32,
        steps: &mut Steps<C>,
    ) -> Result<(), NoMem>
        requires stands { Stands P.meaning P.means table.old self.old.check }
        ensures comes { let spent = spent_on (views P.means) units self.old (held_in table.old) in
            Comes spent self.old result self.new (held_in table.new) }
        ensures carries { Carries P.meaning P.means table.old table.new self.old.check self.new.check }
        ensures work { Worked (spent_on (views P.means) units self.old (held_in table.old)).work steps.old steps.new result }
    {
        let mut left = units;
        loop {
            match self.advance(alloc, prover, table, left, steps)? {
                Advance::Finished { spent } => left -= spent,
                Advance::Ended => return Ok(()),
                Advance::Interrupted => return Ok(()),
            }
        }
    }

    /// Adds the end pair: nothing is left to be checked, and the diagnostics.
    fn add_end_pair(&self, alloc: Global, prover: &P, bodies: &mut BytesList) -> Result<(), NoMem>
        requires { all_done self.now.check ≡ true }
        ensures { OnOk result (bodies.new ≡ bodies.old ++ end_pair (views P.means) self.now) }
    {
        bodies.push(self.ended(alloc)?)?;
        bodies.push(self.diags(alloc, prover)?)
    }

    /// The end pair.
    fn end_pair(&self, alloc: Global, prover: &P) -> Result<BytesList, NoMem>
        requires { all_done self.now.check ≡ true }
        ensures { IfOk result (λ bodies. bodies ≡ end_pair (views P.means) self.now) }
    {
        let mut bodies = BytesList::new(alloc);
        self.add_end_pair(alloc, prover, &mut bodies)?;
        Ok(bodies)
    }

    /// Adds how far it is: the end pair, or what is left.
    pub(crate) fn add_status(
        &self,
        alloc: Global,
        prover: &P,
        bodies: &mut BytesList,
    ) -> Result<(), NoMem>
        ensures { OnOk result (bodies.new ≡ bodies.old ++ status_bodies (views P.means) self.now) }
    {
        if self.is_ended() {
            return self.add_end_pair(alloc, prover, bodies);
        }
        bodies.push(self.progress(alloc)?)
    }

    /// Behind how many sentences the goals at a position are: behind those that start at or before it, or all but the last.
    pub(crate) fn wanted_at(&self, at: Position, after: bool) -> usize
        ensures { result ≡ wanted_at self.now at after }
    {
        let started = self.check.started(self.doc.offset_of(at));
        if after {
            started
        } else {
            started.saturating_sub(1)
        }
    }

    /// Whether so many sentences are finished that a question can be answered.
    fn can_tell(&self, question: &Question) -> bool
        ensures { result ≡ can_tell self.now question.now }
    {
        match question {
            Question::Outline => self.is_ended(),
            Question::Goals { sentences, .. } => *sentences <= self.done(),
        }
    }

    /// Whether a request about it can be answered.
    pub(crate) fn is_ready(&self, request: &Waiting) -> bool
        ensures { result ≡ is_ready self.now request.now }
    {
        self.can_tell(&request.question)
    }

    /// Whether a request is about it, and can be answered.
    pub(crate) fn is_ready_for(&self, request: &Waiting) -> bool
        ensures { result ≡ is_ready_for self.now request.now }
    {
        is_about(request, self.uri.as_str()) && self.is_ready(request)
    }

    /// What is asked of it.
    fn told_of(&self, alloc: Global, prover: &P, question: &Question) -> Result<Value, NoMem>
        requires { can_tell self.now question.now ≡ true }
        ensures { IfOk result (λ v. view v ≡ told_of (views P.means) self.now question.now) }
    {
        match question {
            Question::Outline => symbols_value(alloc, &self.doc, &self.check, prover),
            Question::Goals { at, sentences } => goals_value(
                alloc,
                &self.check,
                prover,
                self.uri.as_str(),
                self.version,
                *at,
                *sentences,
            ),
        }
    }

    /// The answer to a request about it.
    pub(crate) fn answer(
        &self,
        alloc: Global,
        prover: &P,
        request: &Waiting,
    ) -> Result<Bytes, NoMem>
        requires { is_ready self.now request.now ≡ true }
        ensures { IfOk result (λ b. b ≡ answer (views P.means) self.now request.now) }
    {
        let told = self.told_of(alloc, prover, &request.question)?;
        encode_result(alloc, &request.id, told)
    }

    /// Adds the answer to a request, where it is about this document and can be given.
    fn add_answer(
        &self,
        alloc: Global,
        prover: &P,
        request: &Waiting,
        bodies: &mut BytesList,
    ) -> Result<(), NoMem>
        ensures { let told = answer (views P.means) self.now request.now in
            OnOk result (bodies.new ≡ bodies.old ++ (if is_ready_for self.now request.now then told ∷ [] else [])) }
    {
        if !self.is_ready_for(request) {
            return Ok(());
        }
        bodies.push(self.answer(alloc, prover, request)?)
    }

    /// Adds the answers to those requests that are about this document and can be answered, in order.
    pub(crate) fn add_answers(
        &self,
        alloc: Global,
        prover: &P,
        waiting: &[Waiting],
        bodies: &mut BytesList,
    ) -> Result<(), NoMem>
        ensures { let ready = filter (is_ready_for self.now) waiting.now in
            OnOk result (bodies.new ≡ bodies.old ++ map (answer (views P.means) self.now) ready) }
    {
        for request in waiting {
            self.add_answer(alloc, prover, request, bodies)?;
        }
        Ok(())
    }

    /// Drops the requests that are about this document and can be answered.
    pub(crate) fn drop_ready(&self, waiting: &mut Vec<Waiting>)
        ensures { waiting.new.items ≡ filter (λ w. not (is_ready_for self.now w)) waiting.old.items }
    {
        waiting.retain(|request| !self.is_ready_for(request));
    }

    /// Adds the numbers of its finished sentences.
    pub(crate) fn add_numbers(&self, numbers: &mut Vec<u64>) -> Result<(), NoMem>
        ensures { OnOk result (numbers.new.items ≡ numbers.old.items ++ self.now.check.numbers) }
    {
        self.check.add_numbers(numbers)
    }

    /// How far it came, where so many sentences were finished before.
    pub(crate) fn progress_since(
        &self,
        alloc: Global,
        prover: &P,
        before: usize,
    ) -> Result<BytesList, NoMem>
        ensures { IfOk result (λ bodies. bodies ≡ progress_since (views P.means) before self.now) }
    {
        if self.is_ended() {
            return self.end_pair(alloc, prover);
        }
        if before < self.done() {
            return one_body(alloc, self.progress(alloc)?);
        }
        Ok(BytesList::new(alloc))
    }

    /// The end pair where it is ended, and nothing else.
    pub(crate) fn pair_at_end(&self, alloc: Global, prover: &P) -> Result<BytesList, NoMem>
        ensures { IfOk result (λ bodies. bodies ≡ pair_at_end (views P.means) self.now) }
    {
        if self.is_ended() {
            return self.end_pair(alloc, prover);
        }
        Ok(BytesList::new(alloc))
    }
}
