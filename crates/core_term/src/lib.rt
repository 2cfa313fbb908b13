//! Terms of the calculus, shared and measured, with their sorts: what the rules of the kernel
//! are written about.
#![tactic(auto)]

mod equal;
mod laws;
mod lift;
mod measures;
mod sorts;
mod stops;
mod subst;
mod terms;

pub use laws::{
    law_of_closed_terms, law_of_lifts, law_of_measures, law_of_names, law_of_room, law_of_sorts,
    law_of_substitutions,
};
pub use measures::Measure;
pub use sorts::{Sort, product_sort, sort_le};
pub use stops::TermStop;
pub use terms::{Node, Term};
