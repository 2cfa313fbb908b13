//! The judgements are sound, for the proofs above this crate. Each function does nothing.

ghost use Rattle.cic_soundness.specs.Laws.{ReductionIsSound, ConversionIsSound, TypesAreSound, SortsAreSound, ChecksAreSound, DerivationsStay, DeclareKeepsForm, EntriesAreGrounded};

/// Weak head reduction converts a term, and what conversion says Yes to is convertible, or below.
pub fn law_of_conversion()
    ensures reduction { ReductionIsSound }
    ensures yes { ConversionIsSound }
{}

/// A type that is inferred is derivable in each well formed context, over the names used there and
/// here. So is the sort of a type, and the type that a term is checked against.
pub fn law_of_inference()
    ensures types { TypesAreSound }
    ensures sorts { SortsAreSound }
    ensures checks { ChecksAreSound }
{}

/// Derivations stand over more names and in longer environments.
pub fn law_of_growth()
    ensures { DerivationsStay }
{}

/// Declarations keep an environment well formed, and each entry of such a one is grounded in its
/// axioms, or where it is an assumption itself, in them together with itself.
pub fn law_of_declarations()
    ensures environments { DeclareKeepsForm }
    ensures entries { EntriesAreGrounded }
{}
