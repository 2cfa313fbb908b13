//! Sessions: each message and each idle step changes the open documents, and what is said of a text is
//! what checking it from its beginning says, though the finished sentences are kept.
#![tactic(auto)]

mod bodies;
mod documents;
mod events;
mod laws;
mod lookup;
mod messages;
mod open_document;
mod phase;
mod replies;
mod requests;
mod sched;
mod steps;
mod waiting;
mod work;

pub use events::{BytesList, Event, Exit, Written};
pub use laws::{law_of_idle_steps, law_of_waiting};
pub use phase::Phase;
pub use sched::Sched;
