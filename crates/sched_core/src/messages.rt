//! Messages, by the phase of the session.
ghost use Rattle.std.specs.Prelude.{◌≡◌, ◌+◌, ◌≤◌, Ok, if◌then◌else◌};
ghost use Rattle.prover_iface.specs.Exec.{Worked};
ghost use Rattle.doc_check.specs.Check.{views};
ghost use Rattle.sched_core.specs.Step.{Makes, stays};
ghost use Rattle.sched_core.specs.Trim.{trim};
ghost use Rattle.sched_core.specs.Messages.{initialize, shut_down, request, request_fresh, request_running, notify, notify_exit, notify_grant, notify_running};
ghost use Rattle.sched_core.specs.Messages.{unknown_in, bad_params_in, encoding_of, refuse_body, hear};

use crate::bodies::initialize_body;
use crate::phase::Phase;
use crate::replies::{answer, answer_error, leaves, refuse, silent, written};
use crate::sched::Sched;
use crate::{BytesList, Exit, Written};
use base_core::{NoMem, Steps};
use lsp_types::{Call, DecodeFault, ErrorCode, Id, Incoming, Note, encode_result};
use prover_iface::Prover;
use serde_json::Value;
use std::alloc::Global;
use std::sync::ledger::Ledger;
use utf16_doc::Encoding;

/// The error of a request that is none of those that are heard.
fn unknown_in(phase: Phase) -> ErrorCode
    ensures { result ≡ unknown_in phase }
{
    match phase {
        Phase::Fresh => ErrorCode::ServerNotInitialized,
        Phase::Running => ErrorCode::MethodNotFound,
        Phase::ShutDown => ErrorCode::InvalidRequest,
    }
}

/// The error of a request whose members are bad.
fn bad_params_in(initialize: bool, phase: Phase) -> ErrorCode
    ensures { result ≡ bad_params_in initialize phase }
{
    match phase {
        Phase::Fresh => if initialize {
            ErrorCode::InvalidParams
        } else {
            ErrorCode::ServerNotInitialized
        },
        Phase::Running => if initialize {
            ErrorCode::InvalidRequest
        } else {
            ErrorCode::InvalidParams
        },
        Phase::ShutDown => ErrorCode::InvalidRequest,
    }
}

/// What characters are counted in, by what the client asks for.
fn encoding_of(utf8: bool) -> Encoding
    ensures { result ≡ encoding_of utf8 }
{
    if utf8 {
        Encoding::Utf8
    } else {
        Encoding::Utf16
    }
}

impl<P: Prover> Sched<P> {
    /// The session begins.
    fn initialize(&mut self, alloc: Global, id: &Id, encoding: Encoding) -> Result<Written, NoMem>
        ensures { Makes (initialize id.now encoding self.old) result self.new }
    {
        self.set_running(encoding);
        answer(alloc, initialize_body(alloc, id, encoding)?)
    }

    /// The session is shut down.
    fn shut_down(&mut self, alloc: Global, id: &Id) -> Result<Written, NoMem>
        ensures { Makes (shut_down id.now self.old) result self.new }
    {
        let mut bodies = BytesList::new(alloc);
        self.cancel_all(alloc, &mut bodies)?;
        self.set_phase(Phase::ShutDown);
        bodies.push(encode_result(alloc, id, Value::Null)?)?;
        Ok(written(bodies))
    }

    fn request_fresh(&mut self, alloc: Global, id: &Id, call: &Call) -> Result<Written, NoMem>
        ensures { Makes (request_fresh id.now call.now self.old) result self.new }
    {
        match call {
            Call::Initialize { utf8 } => self.initialize(alloc, id, encoding_of(*utf8)),
            Call::Shutdown => answer_error(alloc, id, ErrorCode::ServerNotInitialized),
            Call::Symbols { .. } => answer_error(alloc, id, ErrorCode::ServerNotInitialized),
            Call::Goals { .. } => answer_error(alloc, id, ErrorCode::ServerNotInitialized),
        }
    }

    fn request_running(&mut self, alloc: Global, id: Id, call: Call) -> Result<Written, NoMem>
        ensures { Makes (request_running (views P.means) id call self.old) result self.new }
    {
        match call {
            Call::Initialize { .. } => answer_error(alloc, &id, ErrorCode::InvalidRequest),
            Call::Shutdown => self.shut_down(alloc, &id),
            Call::Symbols { uri } => self.ask_outline(alloc, id, uri),
            Call::Goals { uri, at, after } => self.ask_goals(alloc, id, uri, at, after),
        }
    }

    /// A request.
    fn request(&mut self, alloc: Global, id: Id, call: Call) -> Result<Written, NoMem>
        ensures { Makes (request (views P.means) id call self.old) result self.new }
    {
        match self.phase() {
            Phase::Fresh => self.request_fresh(alloc, &id, &call),
            Phase::Running => self.request_running(alloc, id, call),
            Phase::ShutDown => answer_error(alloc, &id, ErrorCode::InvalidRequest),
        }
    }

    /// Finished sentences that no open document uses are forgotten.
    fn forget_unused(&mut self, alloc: Global) -> Result<Written, NoMem>
        ensures { Makes (stays (trim self.old)) result self.new }
    {
        self.trim(alloc)?;
        Ok(silent(alloc))
    }

    /// Units, which are for a paced session alone.
    fn notify_grant<C: Ledger>(
        &mut self,
        alloc: Global,
        uri: &str,
        units: u32,
        steps: &mut Steps<C>,
    ) -> Result<Written, NoMem>
        ensures made { Makes (notify_grant (views P.means) uri.now units self.old) result self.new }
        ensures work { Worked (notify_grant (views P.means) uri.now units self.old).work steps.old steps.new result }
    {
        if self.is_paced() {
            self.grant(alloc, uri, units, steps)
        } else {
            Ok(silent(alloc))
        }
    }

    /// A notification where `exit` alone is heard.
    fn notify_exit(&self, alloc: Global, exit: Exit, note: &Note) -> Written
        ensures { Makes (notify_exit exit note.now self.now) (Ok result) self.now }
    {
        match note {
            Note::Exit => leaves(alloc, exit),
            _ => silent(alloc),
        }
    }

    /// A notification between `initialize` and `shutdown`.
    fn notify_running<C: Ledger>(
        &mut self,
        alloc: Global,
        note: Note,
        steps: &mut Steps<C>,
    ) -> Result<Written, NoMem>
        ensures made { Makes (notify_running (views P.means) note self.old) result self.new }
        ensures work { Worked (notify_running (views P.means) note self.old).work steps.old steps.new result }
    {
        match note {
            Note::Initialized => Ok(silent(alloc)),
            Note::Exit => Ok(leaves(alloc, Exit::Early)),
            Note::Cancel { id } => self.cancel(alloc, &id),
            Note::DidOpen { uri, version, text } => self.open(alloc, uri, version, text),
            Note::DidChange {
                uri,
                version,
                changes,
            } => self.change(alloc, uri.as_str(), version, &changes),
            Note::DidClose { uri } => self.close(alloc, uri.as_str()),
            Note::Grant { uri, units } => self.notify_grant(alloc, uri.as_str(), units, steps),
            Note::Trim => self.forget_unused(alloc),
            Note::Other => Ok(silent(alloc)),
            Note::BadNote => refuse(alloc, "invalid params"),
        }
    }

    /// A notification.
    fn notify<C: Ledger>(
        &mut self,
        alloc: Global,
        note: Note,
        steps: &mut Steps<C>,
    ) -> Result<Written, NoMem>
        ensures made { Makes (notify (views P.means) note self.old) result self.new }
        ensures work { Worked (notify (views P.means) note self.old).work steps.old steps.new result }
    {
        match self.phase() {
            Phase::Fresh => Ok(self.notify_exit(alloc, Exit::Early, &note)),
            Phase::Running => self.notify_running(alloc, note, steps),
            Phase::ShutDown => Ok(self.notify_exit(alloc, Exit::Clean, &note)),
        }
    }

    /// A body that is no message that can be obeyed.
    fn refuse_body(&mut self, alloc: Global, fault: &DecodeFault) -> Result<Written, NoMem>
        ensures { Makes (refuse_body fault.now self.old) result self.new }
    {
        match fault {
            DecodeFault::NotJson => answer_error(alloc, &Id::Null, ErrorCode::ParseError),
            DecodeFault::NotRequest(id) => answer_error(alloc, id, ErrorCode::InvalidRequest),
            DecodeFault::BadParams { id, initialize } => {
                answer_error(alloc, id, bad_params_in(*initialize, self.phase()))
            }
            DecodeFault::UnknownMethod(id) => answer_error(alloc, id, unknown_in(self.phase())),
            DecodeFault::NoMem => Err(NoMem),
        }
    }

    /// A message.
    pub(crate) fn hear<C: Ledger>(
        &mut self,
        alloc: Global,
        message: Result<Incoming, DecodeFault>,
        steps: &mut Steps<C>,
    ) -> Result<Written, NoMem>
        ensures made { Makes (hear (views P.means) message self.old) result self.new }
        ensures work { Worked (hear (views P.means) message self.old).work steps.old steps.new result }
    {
        match message {
            Ok(Incoming::Request { id, call }) => self.request(alloc, id, call),
            Ok(Incoming::Note(note)) => self.notify(alloc, note, steps),
            Ok(Incoming::Reply) => Ok(silent(alloc)),
            Err(fault) => self.refuse_body(alloc, &fault),
        }
    }
}
