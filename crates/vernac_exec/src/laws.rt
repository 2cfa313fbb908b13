//! Laws of the definitions, for the proofs above this crate. Each function does nothing.
ghost use Rattle.vernac_exec.specs.Laws.{FuelOfSentences, CostsAreBounded, OneRunDecides, SentencesKeepStates, SentencesKeepProofs};

/// Under a lower limit a sentence does the same for as many units, or it ends at the limit of units,
/// and under the higher one it spends more than the lower. So one run, with the units that are handed
/// in, tells whether its cost fits.
pub fn law_of_units()
    ensures fuel { FuelOfSentences }
    ensures costs { CostsAreBounded }
    ensures decided { OneRunDecides }
{}

/// A sentence adds globals behind those that were there, and a row for the first of them, or it begins,
/// takes on or drops a proof, or it leaves all but the count. What is true of each environment that the
/// program holds stays true; the goals in focus stay the unsolved ones; a proof under way stays one, and
/// its goals stay in scope.
pub fn law_of_states()
    ensures states { SentencesKeepStates }
    ensures proofs { SentencesKeepProofs }
{}
