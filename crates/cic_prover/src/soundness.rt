//! What a document shows is sound, for the proofs above this crate. The function does nothing.
ghost use Rattle.cic_prover.specs.Soundness.{DocumentsAreSound};

/// From the prelude on, whatever sentences are run, the environment stays well formed, and each
/// declaration that is shown is grounded in its listed axioms, an axiom in itself besides.
pub fn law_of_soundness()
    ensures { DocumentsAreSound }
{}
