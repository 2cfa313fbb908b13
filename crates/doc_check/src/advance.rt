//! A document runs its next sentence.
ghost use Rattle.std.specs.Prelude.{◌≡◌, ℕ, ◌+◌, ◌<◌, ◌≤◌, List, All, false, length, None, IfOk, OnOk, OnErr, ◌⊎◌};
ghost use Rattle.base_core.specs.declared.limits.TheConstants.{TEXT_LIMIT};
ghost use Rattle.sentence_split.specs.Within.{IsSpanOf};
ghost use Rattle.prover_iface.specs.Sentences.{Sentence};
ghost use Rattle.prover_iface.specs.Exec.{Answers, Works};
ghost use Rattle.memo_table.specs.Entries.{number_of};
ghost use Rattle.memo_table.specs.Fits.{Fits};
ghost use Rattle.doc_check.specs.Check.{sentence_at, span_of};
ghost use Rattle.doc_check.specs.Document.{all_done, next_of, next_key, state_here, with_number, taken, IsTaken};
ghost use Rattle.doc_check.specs.Stands.{Follows, Stands, Moved, IsKept, Runs, Advanced, cost_here};

use crate::DocCheck;
use crate::finished::{Finished, copy_of};
use base_core::{NoMem, Steps};
use memo_table::{Kept, MemoTable};
use prover_iface::{DiagList, Outcome, Prover};
use sentence_split::SpanList;
use std::alloc::Global;
use std::sync::ledger::Ledger;

/// What became of a call to finish one more sentence.
#[derive(Clone, Copy, Debug, PartialEq, Eq)]
pub enum Advance {
    /// There is none.
    Ended,
    /// It is finished, at this cost.
    Finished { spent: u32 },
    /// It costs more than the units, and nothing came of it.
    Interrupted,
}

impl<P: Prover> DocCheck<P> {
    /// Runs the next sentence.
    fn run<C: Ledger>(
        &self,
        alloc: Global,
        prover: &P,
        units: u32,
        steps: &mut Steps<C>,
    ) -> Result<Outcome<P::State>, NoMem>
        requires { all_done self.now ≡ false }
        ensures answer { IfOk result (Answers P.meaning P.means (state_here P.means self.now) (next_of self.now) units) }
        ensures work { Works (P.means.cost (state_here P.means self.now) (next_of self.now)) units
            steps.old steps.new result }
    {
        run_at(
            alloc,
            prover,
            self.state_after(self.done()),
            self.text.as_str(),
            &self.spans,
            self.done(),
            units,
            steps,
        )
    }

    /// What came of the next sentence, as a table keeps it.
    fn made(
        &self,
        alloc: Global,
        prover: &P,
        state: &P::State,
        diags: &DiagList,
        cost: u32,
    ) -> Result<Kept<P::State>, NoMem>
        ensures before { IfOk result (λ made. P.meaning made.before ≡ state_here P.means self.now) }
        ensures state { IfOk result (λ made. P.meaning made.state ≡ P.meaning state.now) }
        ensures diags { IfOk result (λ made. made.diags ≡ diags.now) }
        ensures cost { IfOk result (λ made. made.cost ≡ cost) }
    {
        let before = prover.share(self.state_after(self.done()))?;
        let state = prover.share(state)?;
        let diags = copy_of(alloc, diags.as_slice())?;
        Ok(Kept {
            state,
            diags,
            cost,
            before,
        })
    }

    /// The next sentence is finished: what came of it is entered.
    fn keep(
        &mut self,
        alloc: Global,
        prover: &P,
        table: &mut MemoTable<P::State>,
        state: P::State,
        diags: DiagList,
        cost: u32,
    ) -> Result<(), NoMem>
        requires left { all_done self.old ≡ false }
        requires absent { number_of (next_key self.old) table.old.rows ≡ None }
        requires state { P.meaning state ≡ P.means.after (state_here P.means self.old) (next_of self.old) }
        requires diags { diags ≡ P.means.diagnosed (state_here P.means self.old) (next_of self.old) }
        requires cost { cost ≡ P.means.cost (state_here P.means self.old) (next_of self.old) }
        ensures new { OnOk result (self.new ≡ with_number (table.old.given + 1) self.old) }
        ensures kept { OnOk result (IsKept P.meaning P.means table.old table.new self.old) }
        ensures unchanged { OnErr result (self.new ≡ self.old) }
        ensures grown { (table.new ≡ table.old) ⊎ IsKept P.meaning P.means table.old table.new self.old }
    {
        let key = self.next_key(alloc)?;
        let made = self.made(alloc, prover, &state, &diags, cost)?;
        let number = table.keep(key, made)?;
        self.put(Finished {
            number,
            state,
            diags,
        })
    }

    /// Runs the next sentence, if there is one and it costs at most these units, and enters what came of it.
    fn run_one<C: Ledger>(
        &mut self,
        alloc: Global,
        prover: &P,
        table: &mut MemoTable<P::State>,
        units: u32,
        steps: &mut Steps<C>,
    ) -> Result<Advance, NoMem>
        requires none { IsTaken self.old table.old.rows }
        ensures runs { Runs P.meaning P.means units table.old self.old result table.new self.new }
        ensures text { self.new.text ≡ self.old.text }
        ensures work { Works (cost_here P.means self.old) units steps.old steps.new result }
        ensures moved { (prefix : ℕ → List Sentence) → Fits P.meaning P.means prefix table.old
            → Follows prefix table.old.given self.old
            → Moved P.meaning P.means prefix table.old table.new self.new }
    {
        if self.is_ended() {
            return Ok(Advance::Ended);
        }
        match self.run(alloc, prover, units, steps)? {
            Outcome::Done { state, diags, cost } => {
                self.keep(alloc, prover, table, state, diags, cost)?;
                Ok(Advance::Finished { spent: cost })
            }
            Outcome::Interrupted => Ok(Advance::Interrupted),
        }
    }

    /// Takes the sentences that the table has kept, and then runs the next one, if there is one and it costs
    /// at most these units.
    pub fn advance<C: Ledger>(
        &mut self,
        alloc: Global,
        prover: &P,
        table: &mut MemoTable<P::State>,
        units: u32,
        steps: &mut Steps<C>,
    ) -> Result<Advance, NoMem>
        requires stands { Stands P.meaning P.means table.old self.old }
        ensures advances { Advanced P.meaning P.means units table.old self.old result table.new self.new }
        ensures text { self.new.text ≡ self.old.text }
        ensures work { Works (cost_here P.means (taken self.old table.old.rows).doc) units
            steps.old steps.new result }
        ensures moved { (prefix : ℕ → List Sentence) → Fits P.meaning P.means prefix table.old
            → Follows prefix table.old.given self.old
            → Moved P.meaning P.means prefix table.old table.new self.new }
    {
        self.take_kept(alloc, prover, table)?;
        self.run_one(alloc, prover, table, units, steps)
    }
}

/// Runs the sentence at a place in a state.
fn run_at<P: Prover, C: Ledger>(
    alloc: Global,
    prover: &P,
    state: &P::State,
    text: &str,
    spans: &SpanList,
    place: usize,
    units: u32,
    steps: &mut Steps<C>,
) -> Result<Outcome<P::State>, NoMem>
    requires short { length text.now ≤ TEXT_LIMIT }
    requires within { place < length spans.now }
    requires placed { All (IsSpanOf text.now) spans.now }
    ensures answer { let s = sentence_at text.now (span_of spans.now place) in
        IfOk result (Answers P.meaning P.means (P.meaning state.now) s units) }
    ensures work { let s = sentence_at text.now (span_of spans.now place) in
        Works (P.means.cost (P.meaning state.now) s) units steps.old steps.new result }
{
    let span = &spans.as_slice()[place];
    let sentence = &text[span.from as usize..span.to as usize];
    prover.exec(alloc, state, span.kind, sentence, units, steps)
}
