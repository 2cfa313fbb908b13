//! The parser of terms and commands: a token list to its one tree, or the leftmost refusal.
#![tactic(auto)]

mod atoms;
mod binders;
mod commands;
mod cursor;
mod grammar;
mod laws;
mod number;
mod operators;
mod parsing;
mod rule;
mod sign;

pub use laws::{
    law_of_answers, law_of_commands, law_of_term_places, one_answer, one_command,
    one_command_answer, one_tree,
};
pub use parsing::{Parsed, parse_command, parse_term};
