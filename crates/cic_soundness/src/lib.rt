//! What the kernel's judgements answer is derivable by the written rules of typing, and what it
//! declares is grounded: laws of the definitions that each kernel is proved to meet.
#![tactic(auto)]

mod laws;

pub use laws::{law_of_conversion, law_of_declarations, law_of_growth, law_of_inference};
