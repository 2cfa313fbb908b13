//! The loop of a session: it polls a link, takes a step for each message that came, and writes what a step gives
//! before the next poll.
#![tactic(auto)]

mod endings;
mod laws;
mod machine;
mod messages;
mod session;
mod turns;
mod write;

pub use laws::{
    law_of_completeness, law_of_endings, law_of_exits, law_of_serving, law_of_statuses,
    law_of_waiting,
};
pub use session::{serve, serve_within};
