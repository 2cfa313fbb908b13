//! What is shown is sound, for the proofs above this crate. The function does nothing.
ghost use Rattle.vernac_exec.specs.Soundness.{StatesAreSound};

/// A sentence keeps the environment of a state well formed, and each row of the outline a row of it. Each
/// row of such a state is grounded in its listed axioms, or where it is an axiom or an admitted
/// theorem, in them together with itself.
pub fn law_of_soundness()
    ensures { StatesAreSound }
{}
