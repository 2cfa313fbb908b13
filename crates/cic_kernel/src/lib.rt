//! The kernel: inference of types, checks, and what may be declared.
#![tactic(auto)]

mod declarations;
mod inference;
mod kernel;

pub use kernel::{Kernel, check, declare, infer};
