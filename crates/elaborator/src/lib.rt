//! Elaboration: the terms that trees as they are written mean, in an environment and a context.
#![tactic(auto)]

mod arrangement;
mod binders;
mod calls;
mod constructors;
mod elaborate;
mod laws;
mod names;
mod openings;
mod scope;
mod spine;

pub use binders::{Binding, close};
pub use calls::{elab, open_groups};
pub use constructors::elab_constructor;
pub use laws::law_of_fuel;
