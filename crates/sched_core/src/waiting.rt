//! Requests about documents that wait until enough sentences are finished.
ghost use Rattle.std.specs.Prelude.{◌≡◌, ◌++◌, ◌∷◌, ◌<◌, [], length, map, filter, not, position, if◌then◌else◌, OnOk, IfSome};
ghost use Rattle.lsp_types.specs.Bodies.{error_body};
ghost use Rattle.sched_core.specs.Waiting.{same_id, is_about, chooses};

use crate::BytesList;
use base_core::{NoMem, Position, Text};
use lsp_types::{ErrorCode, Id, encode_error};
use std::alloc::Global;

/// What is asked of a document.
#[derive(Debug, Drop)]
pub(crate) enum Question {
    /// What it declares.
    Outline,
    /// The goals behind so many sentences.
    Goals {
        /// The position, as it was sent.
        at: Position,
        sentences: usize,
    },
}

/// A request about a document.
#[derive(Debug, Drop)]
pub(crate) struct Waiting {
    pub(crate) id: Id,
    /// The document's name.
    pub(crate) uri: Text,
    pub(crate) question: Question,
}

/// Which requests are meant.
#[derive(Debug, Drop)]
pub(crate) enum Choice {
    Everyone,
    /// Those about the document of this name.
    About(Text),
}

/// Whether two ids are the same.
pub(crate) fn is_same_id(one: &Id, other: &Id) -> bool
    ensures { result ≡ same_id one.now other.now }
{
    match one {
        Id::Number(n) => match other {
            Id::Number(m) => *n == *m,
            Id::Word(_) => false,
            Id::Null => false,
        },
        Id::Word(word) => match other {
            Id::Number(_) => false,
            Id::Word(also) => word.as_str() == also.as_str(),
            Id::Null => false,
        },
        Id::Null => match other {
            Id::Number(_) => false,
            Id::Word(_) => false,
            Id::Null => true,
        },
    }
}

/// Whether a request is about the document of a name: names are compared byte by byte.
pub(crate) fn is_about(request: &Waiting, uri: &str) -> bool
    ensures { result ≡ is_about uri.now request.now }
{
    request.uri.as_str() == uri
}

/// Whether a request is meant.
fn is_chosen(choice: &Choice, request: &Waiting) -> bool
    ensures { result ≡ chooses choice.now request.now }
{
    match choice {
        Choice::Everyone => true,
        Choice::About(uri) => is_about(request, uri.as_str()),
    }
}

/// Adds the refusal of a request, where it is meant.
fn add_refusal(
    alloc: Global,
    request: &Waiting,
    choice: &Choice,
    code: ErrorCode,
    bodies: &mut BytesList,
) -> Result<(), NoMem>
    ensures { let due = if chooses choice.now request.now then error_body request.now.id code ∷ [] else [] in
        OnOk result (bodies.new ≡ bodies.old ++ due) }
{
    if !is_chosen(choice, request) {
        return Ok(());
    }
    bodies.push(encode_error(alloc, &request.id, code)?)
}

/// Adds the refusals of those requests that are meant, in order.
pub(crate) fn add_refusals(
    alloc: Global,
    waiting: &[Waiting],
    choice: &Choice,
    code: ErrorCode,
    bodies: &mut BytesList,
) -> Result<(), NoMem>
    ensures { let meant = filter (chooses choice.now) waiting.now in
        OnOk result (bodies.new ≡ bodies.old ++ map (λ w. error_body w.id code) meant) }
{
    for request in waiting {
        add_refusal(alloc, request, choice, code, bodies)?;
    }
    Ok(())
}

/// Drops the requests that are meant.
pub(crate) fn drop_chosen(waiting: &mut Vec<Waiting>, choice: &Choice)
    ensures { waiting.new.items ≡ filter (λ w. not (chooses choice.now w)) waiting.old.items }
{
    waiting.retain(|request| !is_chosen(choice, request));
}

/// The place of the earliest request of an id.
pub(crate) fn place_of_id(waiting: &[Waiting], id: &Id) -> Option<usize>
    ensures place { result ≡ position (λ w. same_id w.id id.now) waiting.now }
    ensures within { IfSome result (λ place. place < length waiting.now) }
{
    for place in 0..waiting.len() {
        if is_same_id(&waiting[place].id, id) {
            return Some(place);
        }
    }
    None
}
