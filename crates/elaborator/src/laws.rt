//! Laws of the definitions that the other clauses cite, for the proofs above this crate. Each
//! function does nothing.
ghost use Rattle.elaborator.specs.Laws.{FuelOfElaboration, FuelOfGroups};

/// Under a lower limit elaboration answers the same for as many units, or it ends at the limit of
/// units, and under the higher one it spends more than the lower. One that ends at the limit of
/// units has none left.
pub fn law_of_fuel()
    ensures terms { FuelOfElaboration }
    ensures groups { FuelOfGroups }
{}
