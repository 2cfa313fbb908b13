//! Terms as texts, with the operators of the prelude and with names that are free.
#![tactic(auto)]

mod named;
mod operations;
mod page;
mod print;
mod scope;
mod spine;
mod write;

pub use print::print_term;
