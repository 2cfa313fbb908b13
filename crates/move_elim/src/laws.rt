//! Laws of the definitions, for the proofs above this crate. Each function does nothing.
ghost use Rattle.move_elim.specs.Laws.{FuelOfEliminations, ScopeOfEliminations};

/// Under a lower limit a move does the same for as many units, or it ends at the limit of units, and
/// under the higher one it spends more than the lower. One that ends at the limit of units has none left.
#[tactic(auto, using(crate::proofs::FuelOfEliminations::fuel_of_eliminations))]
pub fn law_of_fuel()
    ensures { FuelOfEliminations }
{}

/// What a move gives for a goal is in scope, and each of its goals stands in the context of its hole, names aside.
#[tactic(auto, using(crate::proofs::ScopesOfEliminations::scope_of_eliminations))]
pub fn law_of_scopes()
    ensures { ScopeOfEliminations }
{}
