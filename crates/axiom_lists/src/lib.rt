//! The axioms that the globals of an environment rest on, all at once: each list is put together from those of
//! the globals that are used, and is shared where it is the same.
#![tactic(auto)]

mod axiom_list;
mod lists;

pub use axiom_list::AxiomList;
pub use lists::{axiom_lists, axioms_of};
