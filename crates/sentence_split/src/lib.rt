//! The sentences of a text: stretches that end in a period, bullets and braces, with blanks and
//! comments between them.
#![tactic(auto)]

mod bytes;
mod pieces;
mod scan;
mod spans;
mod splitting;

pub use spans::{Span, SpanList};
pub use splitting::{law_of_splits, resplit, split};
