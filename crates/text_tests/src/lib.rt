//! Worked rows of the text crates: positions, sentences, tokens, and the trees of terms, commands and proof moves.
#![tactic(auto)]

#[cfg(test)]
mod commands;
#[cfg(test)]
mod edits;
#[cfg(test)]
mod moves;
#[cfg(test)]
mod nesting;
#[cfg(test)]
mod reading;
#[cfg(test)]
mod rows;
#[cfg(test)]
mod terms;
#[cfg(test)]
mod texts;
#[cfg(test)]
mod tokenizing;
#[cfg(test)]
mod walks;
