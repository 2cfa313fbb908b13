//! Answers about a document as JSON values: its goals at a position, and what it declares. Positions, ranges and
//! documents as they stand in messages.
#![tactic(auto)]

mod goals;
mod places;
mod symbols;

pub use goals::{goals_value, view_value};
pub use places::{document_value, position_value, range_value};
pub use symbols::symbols_value;
