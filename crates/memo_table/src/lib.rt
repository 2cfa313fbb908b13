//! The table of finished sentences: what came of each, by the sentence and what stood before it. It holds a
//! bounded number of them, and lets go of the one that was used longest ago.
#![tactic(auto)]

mod key;
mod laws;
mod slots;
mod table;

pub use key::Key;
pub use laws::{law_of_calls, law_of_entries, law_of_numbers, law_of_plain_entries};
pub use slots::Entry;
pub use table::{Kept, MemoTable};
