//! Laws of the definitions that the other clauses cite, for the proofs above this crate. Each
//! function holds for all terms, and does nothing.

ghost use Rattle.core_term.specs.SortLaws.{IsSortOrder, ProductIsMonotone, ProductKeepsLevels};
ghost use Rattle.core_term.specs.TermLaws.{LiftsCommute, LeavesAlone, SubstUndoesLift, SubstsCommute, KeepMeasures, MayBeCalled, NamesAside};

/// `sort_le` is an order, and `product_sort` goes with it.
pub fn law_of_sorts()
    ensures order { IsSortOrder }
    ensures monotone { ProductIsMonotone }
    ensures levels { ProductKeepsLevels }
{}

/// How lifts come together.
pub fn law_of_lifts()
    ensures { LiftsCommute }
{}

/// A term without the variables that a lift or a substitution is about is left alone.
pub fn law_of_closed_terms()
    ensures { LeavesAlone }
{}

/// A value put in for the variable that a lift made room for gives the term back.
pub fn law_of_room()
    ensures { SubstUndoesLift }
{}

/// How lifts and substitutions come together.
pub fn law_of_substitutions()
    ensures { SubstsCommute }
{}

/// What lifts and substitutions do to size, depth and free variables, and so when they may be
/// called.
pub fn law_of_measures()
    ensures measures { KeepMeasures }
    ensures conditions { MayBeCalled }
{}

/// Terms are equal where they are one term without the names of their binders, and no name changes
/// what a lift or a substitution does, nor any measure.
pub fn law_of_names()
    ensures { NamesAside }
{}
