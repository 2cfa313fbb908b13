//! The proof moves `simpl` and `unfold`: a goal that is computed further, by the rules or by one definition.
#![tactic(auto)]

mod cases;
mod contractions;
mod firing;
mod heads;
mod laws;
mod lookups;
mod moves;
mod refolding;
mod refolds;
mod refusals;
mod simplification;
mod unfold_move;
mod unfolding;

pub use laws::law_of_fuel;
pub use moves::run_compute;
