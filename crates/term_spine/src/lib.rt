//! Terms as heads with arguments, values put in for all variables of a context, and the globals of
//! a term: what reduction, inference, elimination and printing do to terms.
#![tactic(auto)]

mod arguments;
mod global_places;
mod instantiation;
mod laws;
mod spines;

pub use arguments::Arguments;
pub use global_places::globals;
pub use instantiation::instantiate;
pub use laws::{law_of_globals, law_of_instantiation, law_of_spines};
pub use spines::{Spine, spine_of};
