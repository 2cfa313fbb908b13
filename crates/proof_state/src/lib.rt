//! Proofs under way: a statement, and a term for it with numbered holes, one for each goal.
//!
//! A state is a value that shares what it has in common with those before it: a step gives a new one, and the
//! old one stays.
#![tactic(auto)]

mod closing;
mod goals;
mod laws;
mod numbering;
mod parts;
mod sketch;
mod state;

pub use goals::{GOAL_LIMIT, Goal};
pub use laws::{law_of_scopes, law_of_steps};
pub use sketch::{Sketch, SketchNode};
pub use state::{Filling, ProofState, Refined};
