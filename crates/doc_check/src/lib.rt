//! Checks the sentences of a text one after another, by any prover.
#![tactic(auto)]

mod advance;
mod answers;
mod change;
mod checking;
mod diagnostics;
mod document;
mod finished;
mod kept;
mod reporting;
mod sentences;

pub use advance::Advance;
pub use checking::{CheckedText, check_text};
pub use diagnostics::{AbsDiag, AbsDiagList, Report};
pub use document::DocCheck;
