//! What terms are by the rules of reduction: weak head form and conversion, with their exact cost
//! in units.
#![tactic(auto)]

mod blockers;
pub mod cases;
pub mod contractions;
mod conversion;
pub mod iota;
pub mod lookups;
mod reduction;
mod sides;
mod unfoldings;

pub use conversion::conv;
pub use reduction::whnf;
