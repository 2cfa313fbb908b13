//! Laws of the definitions that the other clauses cite, for the proofs above this crate. Each
//! function does nothing.

ghost use Rattle.term_spine.specs.SpineLaws.{SpinesAreTerms, InstantiationKeeps, PlacesAreListed};

/// A term is its head applied to its arguments, and the measures of the whole are told by theirs.
pub fn law_of_spines()
    ensures { SpinesAreTerms }
{}

/// What values for all variables of a context do to a term: what is left alone, which variables
/// and what depth the answer has, and so when `instantiate` may be called.
pub fn law_of_instantiation()
    ensures { InstantiationKeeps }
{}

/// The globals of a term are listed by their places, each once, and no others.
pub fn law_of_globals()
    ensures { PlacesAreListed }
{}
