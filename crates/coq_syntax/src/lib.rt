//! The tokens of a sentence, and the trees of terms, commands and proof moves with their grammar.
#![tactic(auto)]

mod binder_rows;
mod characters;
mod command;
mod command_words;
mod comments;
mod laws;
mod moves;
mod numbers;
mod pieces;
mod readings;
mod rooms;
mod token;
mod tokenizing;
mod tree;
mod walk;
mod words;

pub use command::{AssumptionWord, Command, CommandForm, Constructor, StatementWord};
pub use command_words::{CommandWord, command_word, is_command};
pub use laws::{
    law_of_commands_and_moves, law_of_examples, law_of_levels, law_of_places,
    law_of_sentence_tokens, law_of_tokens,
};
pub use moves::{Direction, MoveForm, MoveTree, Pattern, PatternCase};
pub use numbers::number_value;
pub use readings::{next_place, place_of, word_of};
pub use token::{Token, TokenKind, TokenList};
pub use tokenizing::tokens;
pub use tree::{Annotation, Argument, Binders, Group, GroupList, Node, SurfaceTerm};
pub use walk::node_count;
pub use words::{BoundName, TokenPlace, Word};
