//! Tests of the wire's crates, through public calls alone: frames and messages.
#![tactic(auto)]

#[cfg(test)]
mod frames;
#[cfg(test)]
mod messages;
