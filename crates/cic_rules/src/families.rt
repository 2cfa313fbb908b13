//! What the test of an inductive type finds and gives.

use crate::decls::InductiveDecl;
use base_core::{List, NumberList};
use core_term::Sort;

/// A list of sorts.
pub type SortList = List<Sort>;

/// The sort of a row of products, and what was found on the way.
#[derive(Drop)]
pub struct RowSorts {
    pub sort: Sort,
    /// The sorts of the leading domains, the first first.
    pub domains: SortList,
    /// For each domain the sort of what stands behind it.
    pub tails: SortList,
    /// The places of the globals that were used, ascending.
    pub used: NumberList,
}

/// An inductive type that passed its test.
#[derive(Drop)]
pub struct CheckedInductive {
    pub decl: InductiveDecl,
    /// Where the type is to stand.
    pub place: u32,
    /// The places of the globals that were used but the type itself, ascending.
    pub used: NumberList,
    /// The sorts that its eliminators may go into.
    pub sorts: SortList,
}
