//! The proof moves `destruct` and `induction`: a goal by the constructors of a hypothesis' inductive type.
#![tactic(auto)]

mod branches;
mod cases;
mod claims;
mod elimination;
mod generalised;
mod instances;
mod introduction;
mod laws;
mod motives;
mod moves;
mod refusals;
mod sites;
mod subjects;
mod terms;

pub use laws::{law_of_fuel, law_of_scopes};
pub use moves::run_elim;
