//! Names that are taken, names that are free, and the automatic names of binders.
#![tactic(auto)]

mod names;
mod naming;

pub use names::Names;
pub use naming::{automatic, free_name, head_constant, initial};
