//! Running one sentence: what it declares or answers, what its author is told, and what it costs.
//! A state has the environment, the outline, and the proof under way, if there is one.
#![tactic(auto)]

mod commands;
mod contexts;
mod deed;
mod diagnostics;
mod entering;
mod exec;
mod families;
mod laws;
mod moves;
mod names;
mod outline;
mod prover_laws;
mod proving;
mod reading;
mod sentences;
mod soundness;
mod state;
mod views;

pub use deed::{CodeList, Deed};
pub use diagnostics::diagnostics_of;
pub use exec::exec_sentence;
pub use laws::{law_of_states, law_of_units};
pub use prover_laws::law_of_prover;
pub use reading::Reading;
pub use soundness::law_of_soundness;
pub use state::{OpenProof, ProverState, Row, State, Theorem};
