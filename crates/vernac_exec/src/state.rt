//! What the sentences so far leave.
ghost use Rattle.std.specs.Prelude.{◌≡◌, ◌^◌, ◌<◌, IfOk};
ghost use Rattle.vernac_exec.specs.States.{over, passed, began, went_on, dropped, declared, entered_as_admitted, done, refused, behind, opened_by, next_row};
ghost use Rattle.vernac_exec.specs.Standing.{HaveGoals, IsDeedIn};

use crate::deed::Deed;
use crate::reading::{Reading, is_end_of};
use base_core::{NoMem, Stop, Text};
use bullet_focus::Focus;
use cic_rules::GlobalEnv;
use core_term::Term;
use proof_state::ProofState;
use prover_iface::ItemKind;
use shared_map::SharedList;
use std::alloc::Global;
use std::marker::Model;

/// An entry of the outline. Its name, its statement and the axioms that it rests on are told from the
/// environment when they are asked for.
#[derive(Clone, Copy, Debug, PartialEq, Eq)]
pub struct Row {
    pub kind: ItemKind,
    /// The place of its global.
    pub place: u32,
    /// The number, from 0, of the sentence that declares it or begins its proof.
    pub first: u32,
    /// The number of the sentence that enters it.
    pub last: u32,
}

/// A theorem whose proof is under way.
#[derive(Drop)]
pub struct Theorem {
    pub(crate) name: Text,
    /// Its statement, as products over its groups.
    pub(crate) ty: Term,
    /// The environment with the theorem as an admitted one, as it is entered where its proof is refused.
    pub(crate) admitted: GlobalEnv,
}

/// A proof under way.
#[derive(Drop)]
pub struct OpenProof {
    pub(crate) theorem: Theorem,
    /// The number of the sentence that began it.
    pub(crate) first: u32,
    pub(crate) proof: ProofState,
    pub(crate) focus: Focus,
}

/// What the sentences so far leave, part by part.
#[derive(Drop)]
pub struct State {
    pub(crate) env: GlobalEnv,
    /// In the order of their declaration.
    pub(crate) outline: SharedList<Row>,
    /// How many sentences were run, refused ones too. It stands still at 2^32 - 1.
    pub(crate) count: u32,
    pub(crate) opened: Option<OpenProof>,
}

/// What the sentences so far leave. A sentence gives a new state that shares what it has in common
/// with the old one, and the old one stays.
#[derive(Drop)]
pub struct ProverState {
    pub(crate) state: State,
}

impl Model for ProverState {
    ghost use Rattle.vernac_exec.specs.declared.state.State.{State};
    ghost use Rattle.vernac_exec.specs.contracts.state.State as held;
    ghost use Rattle.vernac_exec.specs.Standing.{HaveGoals};

    ghost Value = { State };

    ghost coded = { held.the_row.coded };

    ghost view = { λ s. s.state };

    /// Each goal of the proof under way speaks of its hypotheses and of globals alone.
    ghost invariant = { λ s. HaveGoals s.state.env s.state.opened };
}

impl ProverState {
    /// The state with an environment, before any sentence.
    pub fn over(env: GlobalEnv) -> ProverState
        ensures { result ≡ over env }
    {
        ProverState {
            state: State {
                env,
                outline: SharedList::empty(),
                count: 0,
                opened: None,
            },
        }
    }

    pub fn env(&self) -> &GlobalEnv
        ensures { result.now ≡ self.now.env }
    {
        &self.state.env
    }

    /// The number of the sentence that began the proof under way.
    pub fn left_open(&self) -> Option<u32>
        ensures { result ≡ opened_by self.now.opened }
    {
        match &self.state.opened {
            Some(open) => Some(open.first),
            None => None,
        }
    }

    /// The same state once more.
    pub fn share(&self) -> Result<ProverState, NoMem>
        ensures { IfOk result (λ s. s ≡ self.now) }
    {
        let state = self.state.share()?;
        Ok(ProverState { state })
    }

    /// The state behind a sentence that was read and answered so.
    #[tactic(auto, using(crate::proofs::Holding::done_held, crate::proofs::Holding::refused_held))]
    pub fn behind(
        &self,
        alloc: Global,
        reading: &Result<Reading, Stop>,
        answer: Result<Deed, Stop>,
    ) -> Result<ProverState, NoMem>
        requires { IfOk answer (IsDeedIn self.now.env) }
        ensures { IfOk result (λ s. s ≡ behind self.now reading.now answer) }
    {
        let state = match answer {
            Ok(deed) => self.state.done(alloc, deed)?,
            Err(_) => self.state.refused(alloc, reading)?,
        };
        Ok(ProverState { state })
    }
}

impl State {
    fn share(&self) -> Result<State, NoMem>
        ensures { IfOk result (λ s. s ≡ self.now) }
    {
        Ok(State {
            env: self.env.share()?,
            outline: self.outline.share()?,
            count: self.count,
            opened: share_opened(&self.opened)?,
        })
    }

    /// The state behind a sentence that leaves all but the count.
    fn passed(&self) -> Result<State, NoMem>
        ensures { IfOk result (λ s. s ≡ passed self.now) }
    {
        Ok(State {
            env: self.env.share()?,
            outline: self.outline.share()?,
            count: self.count.saturating_add(1),
            opened: share_opened(&self.opened)?,
        })
    }

    /// The state behind a sentence that begins a proof.
    fn began(&self, alloc: Global, theorem: Theorem, proof: ProofState) -> Result<State, NoMem>
        ensures { IfOk result (λ s. s ≡ began self.now theorem proof) }
    {
        let focus = Focus::begin(alloc, 0)?;
        let open = OpenProof {
            theorem,
            first: self.count,
            proof,
            focus,
        };
        Ok(State {
            env: self.env.share()?,
            outline: self.outline.share()?,
            count: self.count.saturating_add(1),
            opened: Some(open),
        })
    }

    /// The state behind a step of the proof under way.
    fn went_on(&self, proof: ProofState, focus: Focus) -> Result<State, NoMem>
        ensures { IfOk result (λ s. s ≡ went_on self.now proof focus) }
    {
        let opened = match &self.opened {
            Some(open) => Some(open.with(proof, focus)?),
            None => None,
        };
        Ok(State {
            env: self.env.share()?,
            outline: self.outline.share()?,
            count: self.count.saturating_add(1),
            opened,
        })
    }

    /// The state without the proof under way.
    fn dropped(&self) -> Result<State, NoMem>
        ensures { IfOk result (λ s. s ≡ dropped self.now) }
    {
        Ok(State {
            env: self.env.share()?,
            outline: self.outline.share()?,
            count: self.count.saturating_add(1),
            opened: None,
        })
    }

    /// The row of what the next sentence declares at the next place.
    fn next_row(&self, kind: ItemKind) -> Row
        ensures { result ≡ next_row self.now kind }
    {
        let first = match &self.opened {
            Some(open) => open.first,
            None => self.count,
        };
        Row {
            kind,
            place: self.env.len(),
            first,
            last: self.count,
        }
    }

    /// The state behind a sentence that gives this environment.
    fn declared(&self, alloc: Global, kind: ItemKind, env: GlobalEnv) -> Result<State, NoMem>
        ensures { IfOk result (λ s. s ≡ declared self.now kind env) }
    {
        let row = self.next_row(kind);
        let outline = self.outline.with_last(alloc, row)?;
        Ok(State {
            env,
            outline,
            count: self.count.saturating_add(1),
            opened: None,
        })
    }

    /// The state with the theorem of the proof under way as an admitted one.
    fn entered_as_admitted(&self, alloc: Global) -> Result<State, NoMem>
        ensures { IfOk result (λ s. s ≡ entered_as_admitted self.now self.now.opened) }
    {
        match &self.opened {
            Some(open) => {
                let env = open.theorem.admitted.share()?;
                self.declared(alloc, ItemKind::Admitted, env)
            }
            None => self.passed(),
        }
    }

    /// The state behind a sentence that nothing refused.
    fn done(&self, alloc: Global, deed: Deed) -> Result<State, NoMem>
        ensures { IfOk result (λ s. s ≡ done self.now deed) }
    {
        match deed {
            Deed::Declares { kind, env } => self.declared(alloc, kind, env),
            Deed::Answers(_) => self.passed(),
            Deed::Begins { theorem, proof } => self.began(alloc, theorem, proof),
            Deed::GoesOn {
                proof,
                focus,
                told: _,
            } => self.went_on(proof, focus),
            Deed::Passes => self.passed(),
            Deed::Drops => self.dropped(),
        }
    }

    /// The state behind a sentence that was refused, or that a limit ended.
    fn refused(&self, alloc: Global, reading: &Result<Reading, Stop>) -> Result<State, NoMem>
        ensures { IfOk result (λ s. s ≡ refused self.now reading.now) }
    {
        if is_end_of(reading) {
            return self.entered_as_admitted(alloc);
        }
        self.passed()
    }
}

impl Theorem {
    /// The same theorem once more, by a few counts.
    pub(crate) fn share(&self) -> Result<Theorem, NoMem>
        ensures { IfOk result (λ t. t ≡ self.now) }
    {
        Ok(Theorem {
            name: self.name.share()?,
            ty: self.ty.share()?,
            admitted: self.admitted.share()?,
        })
    }
}

impl OpenProof {
    pub(crate) fn share(&self) -> Result<OpenProof, NoMem>
        ensures { IfOk result (λ o. o ≡ self.now) }
    {
        let proof = self.proof.share()?;
        let focus = self.focus.share()?;
        self.with(proof, focus)
    }

    /// The proof after a step.
    fn with(&self, proof: ProofState, focus: Focus) -> Result<OpenProof, NoMem>
        ensures { IfOk result (λ o. o ≡ record self.now { proof = proof; focus = focus }) }
    {
        let theorem = self.theorem.share()?;
        Ok(OpenProof {
            theorem,
            first: self.first,
            proof,
            focus,
        })
    }
}

fn share_opened(opened: &Option<OpenProof>) -> Result<Option<OpenProof>, NoMem>
    ensures { IfOk result (λ same. same ≡ opened.now) }
{
    match opened {
        Some(open) => Ok(Some(open.share()?)),
        None => Ok(None),
    }
}
