//! The written rules of the kernel: contexts, environments, reduction, conversion, inference and
//! declarations, as definitions on plain trees that the crates above are proved to meet.
#![tactic(auto)]

mod context;
mod context_lookups;
mod decls;
mod entries;
mod env;
mod families;
mod fuel;
mod judge;
mod judgements;
mod laws;
mod rows;
mod shapes;
mod unions;

pub use context::{Context, Hyp};
pub use decls::{ContextList, Ctor, CtorList, Decl, InductiveDecl};
pub use entries::{Entry, EntryKind, EntryList};
pub use env::GlobalEnv;
pub use families::{CheckedInductive, RowSorts, SortList};
pub use fuel::Fuel;
pub use judge::{Answer, Arrow, Declares, Inferred, InferredSort, Judge, Mode};
pub use judgements::{check, compare_cost, converts, sort_of, type_of_sort};
pub use laws::{
    law_of_axioms, law_of_declarations, law_of_families, law_of_fuel, law_of_names, law_of_rows,
    law_of_scopes,
};
pub use rows::row_of;
pub use shapes::FamilyShape;
pub use unions::{has_all, union, unite};
