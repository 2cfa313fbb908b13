//! Matching: values for a pattern's variables with which it is a term, up to conversion. Proof moves that
//! apply or rewrite find their arguments by it.
#![tactic(auto)]

mod filling;
mod laws;
mod lowering;
mod matches;
mod values;

pub use filling::{fill, has_unset};
pub use laws::{law_of_fuel, law_of_values};
pub use lowering::without_binders;
pub use matches::matches as match_terms;
pub use values::Values;
