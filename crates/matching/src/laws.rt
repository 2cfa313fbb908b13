//! Laws of the definitions, for the proofs above this crate. Each function does nothing.
ghost use Rattle.matching.specs.Laws.{FuelOfMatch, LowersUndoLifts, MatchesExtend, MatchesSettle};

/// Under a lower limit a match answers the same for as many units, or it ends at the limit of units, and
/// under the higher one it spends more than the lower.
pub fn law_of_fuel()
    ensures { FuelOfMatch }
{}

/// A match sets values that were unset and changes no other, and leaves no variable of its pattern unset; a value
/// stands outside of the binders that the match has passed.
pub fn law_of_values()
    ensures lowered { LowersUndoLifts }
    ensures kept { MatchesExtend }
    ensures settled { MatchesSettle }
{}
