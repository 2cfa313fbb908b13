//! Requests about documents: each is answered at once, or waits.
ghost use Rattle.std.specs.Prelude.{◌≡◌, ◌<◌, length};
ghost use Rattle.doc_check.specs.Check.{views};
ghost use Rattle.sched_core.specs.Step.{Adds, Makes};
ghost use Rattle.sched_core.specs.Session.{document_at};
ghost use Rattle.sched_core.specs.Waiting.{answer_ready, ask_at, ask_goals, ask_outline, cancel, cancel_all, outdate, refuse_those, request_for, chooses, wait_for};

use crate::lookup::place_of;
use crate::replies::{answer, answer_error, silent};
use crate::sched::Sched;
use crate::waiting::{Choice, Question, Waiting, add_refusals, place_of_id};
use crate::{BytesList, Written};
use base_core::{NoMem, Position, Text, WAITING_LIMIT};
use lsp_types::{ErrorCode, Id};
use prover_iface::Prover;
use std::alloc::Global;

impl<P: Prover> Sched<P> {
    /// The requests that are meant are refused.
    fn refuse_those(
        &mut self,
        alloc: Global,
        choice: &Choice,
        code: ErrorCode,
        bodies: &mut BytesList,
    ) -> Result<(), NoMem>
        ensures { Adds (refuse_those (chooses choice.now) code self.old) bodies.old result bodies.new self.new }
    {
        add_refusals(alloc, self.waiting(), choice, code, bodies)?;
        self.drop_chosen(choice);
        Ok(())
    }

    /// The requests about the document at a place are refused, since its text is another now.
    pub(crate) fn outdate_at(
        &mut self,
        alloc: Global,
        place: usize,
        bodies: &mut BytesList,
    ) -> Result<(), NoMem>
        requires { place < length self.old.documents }
        ensures { Adds (outdate (document_at self.old place).uri self.old) bodies.old result bodies.new self.new }
    {
        let uri = self.document(place).uri().share()?;
        self.refuse_those(
            alloc,
            &Choice::About(uri),
            ErrorCode::ContentModified,
            bodies,
        )
    }

    /// All requests that wait are refused.
    pub(crate) fn cancel_all(&mut self, alloc: Global, bodies: &mut BytesList) -> Result<(), NoMem>
        ensures { Adds (cancel_all self.old) bodies.old result bodies.new self.new }
    {
        self.refuse_those(
            alloc,
            &Choice::Everyone,
            ErrorCode::RequestCancelled,
            bodies,
        )
    }

    /// The requests about the document at a place that can be answered are.
    pub(crate) fn answer_ready(
        &mut self,
        alloc: Global,
        place: usize,
        bodies: &mut BytesList,
    ) -> Result<(), NoMem>
        requires { place < length self.old.documents }
        ensures { Adds (answer_ready (views P.means) place self.old) bodies.old result bodies.new self.new }
    {
        self.add_answers_at(alloc, place, bodies)?;
        self.drop_ready_at(place);
        Ok(())
    }

    /// The earliest request of an id is refused.
    pub(crate) fn cancel(&mut self, alloc: Global, id: &Id) -> Result<Written, NoMem>
        ensures { Makes (cancel id.now self.old) result self.new }
    {
        match place_of_id(self.waiting(), id) {
            None => Ok(silent(alloc)),
            Some(place) => {
                self.drop_waiting(place);
                answer_error(alloc, id, ErrorCode::RequestCancelled)
            }
        }
    }

    /// A request waits, where not too many do.
    fn wait_for(&mut self, alloc: Global, request: Waiting) -> Result<Written, NoMem>
        ensures { Makes (wait_for request self.old) result self.new }
    {
        if self.waiting().len() >= WAITING_LIMIT {
            return answer_error(alloc, &request.id, ErrorCode::TooManyWaiting);
        }
        self.add_waiting(request)?;
        Ok(silent(alloc))
    }

    /// A request about the document at a place.
    fn ask_at(&mut self, alloc: Global, place: usize, request: Waiting) -> Result<Written, NoMem>
        requires { place < length self.old.documents }
        ensures { Makes (ask_at (views P.means) place request self.old) result self.new }
    {
        if !self.document(place).is_ready(&request) {
            return self.wait_for(alloc, request);
        }
        answer(alloc, self.answer_at(alloc, place, &request)?)
    }

    /// What a document declares.
    pub(crate) fn ask_outline(&mut self, alloc: Global, id: Id, uri: Text) -> Result<Written, NoMem>
        ensures { Makes (ask_outline (views P.means) id uri self.old) result self.new }
    {
        let Some(place) = place_of(self.documents(), uri.as_str()) else {
            return answer_error(alloc, &id, ErrorCode::InvalidParams);
        };
        let question = Question::Outline;
        self.ask_at(alloc, place, Waiting { id, uri, question })
    }

    /// The goals at a position of a document.
    pub(crate) fn ask_goals(
        &mut self,
        alloc: Global,
        id: Id,
        uri: Text,
        at: Position,
        after: bool,
    ) -> Result<Written, NoMem>
        ensures { Makes (ask_goals (views P.means) id uri at after self.old) result self.new }
    {
        let Some(place) = place_of(self.documents(), uri.as_str()) else {
            return answer_error(alloc, &id, ErrorCode::InvalidParams);
        };
        let sentences = self.document(place).wanted_at(at, after);
        let question = Question::Goals { at, sentences };
        self.ask_at(alloc, place, Waiting { id, uri, question })
    }
}
