//! What no clause says of the ground: worked examples of the outside in memory, and of shared maps and lists.
#![tactic(auto)]

#[cfg(test)]
mod files;
#[cfg(test)]
mod links;
#[cfg(test)]
mod shared;
#[cfg(test)]
mod sinks;
