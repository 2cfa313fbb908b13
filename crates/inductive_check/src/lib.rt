//! Inductive types: the test of a declaration, and the entries that it gives, with the types of its
//! eliminators.
#![tactic(auto)]

mod elimination;
mod entries;
mod families;
mod forms;
mod labels;
mod levels;
mod names;
mod parts;
mod sorts;

pub use entries::eliminators;
pub use families::check_inductive;
