//! What a sentence does.
use crate::state::Theorem;
use base_core::{List, Text};
use bullet_focus::Focus;
use cic_rules::GlobalEnv;
use proof_state::ProofState;
use prover_iface::ItemKind;

/// Numbers of refusals and warnings, in order.
pub type CodeList = List<u16>;

/// What a sentence does that nothing refuses.
#[derive(Drop)]
pub enum Deed {
    /// It gives this environment, and no proof is under way any more. The outline has the first of the
    /// globals that were added.
    Declares {
        kind: ItemKind,
        env: GlobalEnv,
    },
    /// It answers this text, and declares nothing.
    Answers(Text),
    /// It begins the proof of a theorem.
    Begins {
        theorem: Theorem,
        proof: ProofState,
    },
    /// The proof under way goes on so, and these numbers are told of the sentence.
    GoesOn {
        proof: ProofState,
        focus: Focus,
        told: CodeList,
    },
    /// It leaves all as it is.
    Passes,
    /// It drops the proof under way.
    Drops,
}
