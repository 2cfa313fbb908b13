//! Laws of the definitions, for the proofs above this crate. Each function does nothing.
ghost use Rattle.move_rewrite.specs.Laws.{FuelOfMoves};

/// Under a lower limit a move does the same for as many units, or it ends at the limit of units, and
/// under the higher one it spends more than the lower. One that ends at the limit of units has none left.
#[tactic(auto, using(crate::proofs::FuelOfRewriting::fuel_of_moves))]
pub fn law_of_fuel()
    ensures { FuelOfMoves }
{}
