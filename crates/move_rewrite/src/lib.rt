//! The proof move `rewrite`: all subterms of a goal that are one side of an equation become the other.
#![tactic(auto)]

mod arguments;
mod equations;
mod laws;
mod moves;
mod refusals;
mod replacing;
mod rewriting;
mod searching;
mod sketches;

pub use laws::law_of_fuel;
pub use moves::run_rewrite;
