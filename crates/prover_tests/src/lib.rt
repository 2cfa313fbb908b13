//! What no clause says of the prover's crates: worked examples, through their public calls.
#![tactic(auto)]

#[cfg(test)]
mod focus;
#[cfg(test)]
mod proofs;
