//! Texts as editors count them: lines, and units of UTF-8 or UTF-16 from a line's start; and edits by such positions.
#![tactic(auto)]

mod docs;
mod edits;
mod encoding;
mod laws;
mod lined_text;
mod lines;
mod positions;
mod stops;
mod units;

pub use docs::Doc;
pub use encoding::Encoding;
pub use laws::{law_of_offsets, law_of_units};
pub use stops::DocStop;
