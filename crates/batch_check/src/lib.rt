//! Checks files, writes the report of each, and shows its digest to observers, whose summaries come last.
#![tactic(auto)]

mod axiom_list;
mod batch;
mod checks;
mod digests;
mod endings;
mod keeping;
mod observers;
mod outcomes;
mod reports;
mod showing;
mod tally;
mod writing;

pub use axiom_list::AxiomList;
pub use batch::check_files;
pub use digests::FileDigest;
pub use endings::{Ending, number};
pub use keeping::{is_known, keep_named};
pub use observers::Observer;
pub use reports::error_count;
pub use tally::Tally;
