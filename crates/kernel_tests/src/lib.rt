//! Tests of the crates of the kernel, by public calls alone.
#![tactic(auto)]

#[cfg(test)]
mod families;
#[cfg(test)]
mod judges;
#[cfg(test)]
mod notation;
#[cfg(test)]
mod rules;
#[cfg(test)]
mod spines;
#[cfg(test)]
mod terms;
