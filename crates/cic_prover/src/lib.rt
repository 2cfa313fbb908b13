//! The prover: what a sentence declares or answers, and why it is refused, from the state that the
//! prelude leaves.
#![tactic(auto)]

mod first;
mod prelude;
mod prover;
mod soundness;

pub use prover::CicProver;
pub use soundness::law_of_soundness;
