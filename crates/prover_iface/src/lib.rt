//! What every prover offers: it runs one sentence in a state and gives a state, diagnostics and a
//! cost. It names no text that a sentence stands in.
#![tactic(auto)]

mod diagnostics;
mod goals;
mod listings;
mod outline;
mod prover;

pub use diagnostics::{DiagList, RelDiag};
pub use goals::{GoalView, GoalsView, HypView, HypViewList, LevelList, ViewList};
pub use listings::add_listed_axioms;
pub use outline::{ItemKind, OutlineItem, OutlineList};
pub use prover::{Outcome, Prover};
