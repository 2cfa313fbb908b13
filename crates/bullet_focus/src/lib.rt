//! Which goals of a proof under way are in focus, and which wait behind bullets and braces.
//!
//! Goals are numbers; what they say is another layer's. A state is a value that shares what it has in common
//! with those before it: a step gives a new one, and the old one stays.
#![tactic(auto)]

mod focus;
mod laws;
mod levels;
mod stack;

pub use focus::{Focus, Focused};
pub use laws::law_of_goals;
pub use levels::{Level, Opener};
pub use stack::{GoalStack, Stack};
