//! The parser of proof moves: a token list to its one move, or the leftmost refusal.
#![tactic(auto)]

mod cursor;
mod laws;
mod mark;
mod move_word;
mod names;
mod parsing;
mod rows;

pub use laws::{law_of_moves, one_move, one_move_answer};
pub use parsing::parse_move;
