//! Makes a large document from a number.
#![tactic(auto)]

mod generating;

pub use generating::{GENERATED_LIMIT, generate};
