//! Lists and maps that share their nodes: a change gives a new value, and the old one stays.
#![tactic(auto)]

mod balance;
mod list;
mod map;

pub use list::SharedList;
pub use map::SharedMap;
