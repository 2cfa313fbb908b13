//! Laws of the definitions that are asked of a prover, for the proofs above this crate. The function
//! does nothing.
ghost use Rattle.vernac_exec.specs.ProverLaws.{DiagsArePlaced, RowsArePast, ProofsArePast};

/// What is told of a sentence stands at whole characters of it, and what a state declares is by
/// sentences before, as is the proof under way.
pub fn law_of_prover()
    ensures placed { DiagsArePlaced }
    ensures declared { RowsArePast }
    ensures opened { ProofsArePast }
{}
