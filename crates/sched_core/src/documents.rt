//! Documents are opened, changed and closed.
ghost use Rattle.std.specs.Prelude.{◌≡◌, ◌≤◌, ◌<◌, [], length, take};
ghost use Rattle.base_core.specs.declared.limits.TheConstants.{TEXT_LIMIT};
ghost use Rattle.doc_check.specs.Check.{views};
ghost use Rattle.sched_core.specs.Step.{Adds, Makes};
ghost use Rattle.sched_core.specs.Session.{document_at, unchecked};
ghost use Rattle.sched_core.specs.Documents.{settle, did_open, add, did_change, change_at, begin_again, renew, did_close, take_away, close_at};

use crate::lookup::place_of;
use crate::open_document::{NewText, OpenDocument};
use crate::replies::{refuse, written};
use crate::sched::Sched;
use crate::{BytesList, Written};
use base_core::{ChangeList, DOCUMENT_LIMIT, NoMem, Text};
use prover_iface::Prover;
use std::alloc::Global;
use utf16_doc::{Doc, DocStop};

impl<P: Prover> Sched<P> {
    /// The document at a place takes the sentences that are kept, and says how far it is.
    fn settle(&mut self, alloc: Global, place: usize, bodies: &mut BytesList) -> Result<(), NoMem>
        requires { place < length self.old.documents }
        ensures { Adds (settle (views P.means) place self.old) bodies.old result bodies.new self.new }
    {
        self.take_kept_at(alloc, place)?;
        self.add_status_at(alloc, place, bodies)
    }

    /// A document more, which takes the sentences that are kept.
    fn add(&mut self, alloc: Global, document: OpenDocument<P>) -> Result<Written, NoMem>
        requires short { length document.check.text ≤ TEXT_LIMIT }
        requires none { document.check.numbers ≡ [] }
        ensures { Makes (add (views P.means) document self.old) result self.new }
    {
        let place = self.documents().len();
        self.keep(document)?;
        let mut bodies = BytesList::new(alloc);
        self.settle(alloc, place, &mut bodies)?;
        Ok(written(bodies))
    }

    /// A document of this text is opened.
    fn open_text(
        &mut self,
        alloc: Global,
        uri: Text,
        version: i32,
        text: Text,
        doc: Doc,
    ) -> Result<Written, NoMem>
        requires same { doc.text ≡ text }
        requires short { length text ≤ TEXT_LIMIT }
        ensures { Makes (add (views P.means) (unchecked uri version doc.encoding text) self.old) result self.new }
    {
        let check = self.begin(alloc, text)?;
        self.add(alloc, OpenDocument::new(uri, version, doc, check))
    }

    /// A document is opened.
    pub(crate) fn open(
        &mut self,
        alloc: Global,
        uri: Text,
        version: i32,
        text: Text,
    ) -> Result<Written, NoMem>
        ensures { Makes (did_open (views P.means) uri version text self.old) result self.new }
    {
        if place_of(self.documents(), uri.as_str()).is_some() {
            return refuse(alloc, "document already open");
        }
        if self.documents().len() >= DOCUMENT_LIMIT {
            return refuse(alloc, "too many documents");
        }
        match Doc::new(alloc, text.as_str(), self.encoding()) {
            Ok(doc) => self.open_text(alloc, uri, version, text, doc),
            Err(DocStop::NoMem) => Err(NoMem),
            Err(_) => refuse(alloc, "text too long"),
        }
    }

    /// A new version of the document at a place, which takes the sentences that are kept.
    fn begin_again(
        &mut self,
        alloc: Global,
        place: usize,
        version: i32,
        new: NewText,
        bodies: &mut BytesList,
    ) -> Result<(), NoMem>
        requires within { place < length self.old.documents }
        requires same { new.doc.encoding ≡ (document_at self.old place).encoding }
        requires alike { let old = document_at self.old place in
            take new.first_changed old.check.text ≡ take new.first_changed new.doc.text }
        ensures { let begun = begin_again (views P.means) place version new.doc.text self.old in
            Adds begun bodies.old result bodies.new self.new }
    {
        self.restart(alloc, place, version, new)?;
        self.settle(alloc, place, bodies)
    }

    /// The same, and the requests about it are refused.
    fn renew(
        &mut self,
        alloc: Global,
        place: usize,
        version: i32,
        new: NewText,
    ) -> Result<Written, NoMem>
        requires within { place < length self.old.documents }
        requires same { new.doc.encoding ≡ (document_at self.old place).encoding }
        requires alike { let old = document_at self.old place in
            take new.first_changed old.check.text ≡ take new.first_changed new.doc.text }
        ensures { Makes (renew (views P.means) place version new.doc.text self.old) result self.new }
    {
        let mut bodies = BytesList::new(alloc);
        self.outdate_at(alloc, place, &mut bodies)?;
        self.begin_again(alloc, place, version, new, &mut bodies)?;
        Ok(written(bodies))
    }

    /// The document at a place is changed to a version.
    fn change_at(
        &mut self,
        alloc: Global,
        place: usize,
        version: i32,
        changes: &ChangeList,
    ) -> Result<Written, NoMem>
        requires { place < length self.old.documents }
        ensures { Makes (change_at (views P.means) version changes.now place self.old) result self.new }
    {
        if version <= self.document(place).version() {
            return refuse(alloc, "version not greater");
        }
        match self.document(place).edited(alloc, changes) {
            Ok(new) => self.renew(alloc, place, version, new),
            Err(DocStop::RangeReversed) => refuse(alloc, "range reversed"),
            Err(DocStop::TooLong) => refuse(alloc, "text too long"),
            Err(DocStop::NoMem) => Err(NoMem),
        }
    }

    /// A document is changed.
    pub(crate) fn change(
        &mut self,
        alloc: Global,
        uri: &str,
        version: i32,
        changes: &ChangeList,
    ) -> Result<Written, NoMem>
        ensures { Makes (did_change (views P.means) uri.now version changes.now self.old) result self.new }
    {
        match place_of(self.documents(), uri) {
            Some(place) => self.change_at(alloc, place, version, changes),
            None => refuse(alloc, "unknown document"),
        }
    }

    /// The document at a place is taken away.
    fn take_away(
        &mut self,
        alloc: Global,
        place: usize,
        bodies: &mut BytesList,
    ) -> Result<(), NoMem>
        requires { place < length self.old.documents }
        ensures { Adds (take_away place self.old) bodies.old result bodies.new self.new }
    {
        bodies.push(self.document(place).no_diags(alloc)?)?;
        self.forget(place);
        Ok(())
    }

    /// The document at a place is closed.
    fn close_at(&mut self, alloc: Global, place: usize) -> Result<Written, NoMem>
        requires { place < length self.old.documents }
        ensures { Makes (close_at place self.old) result self.new }
    {
        let mut bodies = BytesList::new(alloc);
        self.outdate_at(alloc, place, &mut bodies)?;
        self.take_away(alloc, place, &mut bodies)?;
        Ok(written(bodies))
    }

    /// A document is closed.
    pub(crate) fn close(&mut self, alloc: Global, uri: &str) -> Result<Written, NoMem>
        ensures { Makes (did_close uri.now self.old) result self.new }
    {
        match place_of(self.documents(), uri) {
            Some(place) => self.close_at(alloc, place),
            None => refuse(alloc, "unknown document"),
        }
    }
}
