//! Laws of the plain session that the other clauses cite, for the proofs above this crate. Each
//! function does nothing.

ghost use Rattle.lsp_session.specs.Causes.{EndingsHaveCauses, StatusesHaveCauses, CleanExits, NoExits};
ghost use Rattle.lsp_session.specs.Causes.{WholeSessionsEndClean, TakenSessionsEndClean, GivenSessionsEndClean, ServedSessionsHaveCauses};
ghost use Rattle.lsp_session.specs.Waits.{SessionsWaitForNobody, SessionsForgetNone, SessionsAnswerFirst};
ghost use Rattle.lsp_session.specs.Waits.{ServedSessionsWaitForNobody, BrokenSessionsWaitForNobody};

/// Each ending of a session comes exactly where the polls of its call brought its cause.
pub fn law_of_endings()
    ensures { EndingsHaveCauses }
{}

/// So does each exit status.
pub fn law_of_statuses()
    ensures { StatusesHaveCauses }
{}

/// An exit is clean exactly where `initialize`, `shutdown` and `exit` came in this order, with no
/// `exit` before.
pub fn law_of_exits()
    ensures clean { CleanExits }
    ensures none { NoExits }
{}

/// A session that came whole ends with a clean exit. So does one that a link gives whole, as long as
/// the link does not fail.
pub fn law_of_completeness()
    ensures ending { WholeSessionsEndClean }
    ensures taken { TakenSessionsEndClean }
    ensures given { GivenSessionsEndClean }
{}

/// All this of a session over a link and a sink, by its status and the polls of its call.
pub fn law_of_serving()
    ensures { ServedSessionsHaveCauses }
{}

/// In a session that isn't paced, every request that waits is answered before the link is asked to wait: no request
/// waits at a poll that may wait, and none is forgotten. So it is in a session that is broken off.
pub fn law_of_waiting()
    ensures runs { SessionsWaitForNobody }
    ensures forgets { SessionsForgetNone }
    ensures answers { SessionsAnswerFirst }
    ensures served { ServedSessionsWaitForNobody }
    ensures broken { BrokenSessionsWaitForNobody }
{}
