//! The basic proof moves: `intro`, `intros`, `exact`, `apply`, `assumption`, `split`, `left`, `right`,
//! `reflexivity` and `admit`.
#![tactic(auto)]

mod applying;
mod constructing;
mod equality;
mod introduction;
mod laws;
mod moves;
mod opening;
mod refusals;
mod whole_terms;

pub use applying::{argument, filled, lifted};
pub use laws::law_of_fuel;
pub use moves::run_basic;
