//! A whole text at once.
ghost use Rattle.std.specs.Prelude.{◌≡◌, ◌+◌, ◌≤◌, All, true, false, length, IfOk, OnOk};
ghost use Rattle.base_core.specs.declared.limits.TheConstants.{TEXT_LIMIT};
ghost use Rattle.prover_iface.specs.Exec.{Worked};
ghost use Rattle.doc_check.specs.Check.{count, checked, whole_cost, IsPlaced};
ghost use Rattle.doc_check.specs.Document.{done, all_done, taken, kept_of, changed, with_number};
ghost use Rattle.doc_check.specs.Stands.{cost_here};
ghost use Rattle.doc_check.specs.Checked.{IsChecked, IsUnderWay, cost_left};

use crate::{Advance, DocCheck, Report};
use base_core::{COST_LIMIT, NoMem, Steps, Text};
use memo_table::MemoTable;
use prover_iface::Prover;
use std::alloc::Global;
use std::marker::Model;
use std::sync::ledger::Ledger;

/// A text that was checked to its end over a table of its own, and then perhaps edited.
#[derive(Drop)]
pub struct CheckedText<P: Prover> {
    check: DocCheck<P>,
    table: MemoTable<P::State>,
}

impl<P: Prover> Model for CheckedText<P> {
    ghost use Rattle.memo_table.specs.declared.table.Kept.{Kept};
    ghost use Rattle.doc_check.specs.Document.{Took, took};
    ghost use Rattle.doc_check.specs.Stands.{Stands};

    ghost Value = { Took (Kept P.State) };

    ghost view = { λ c. took c.check c.table.rows };

    ghost invariant = { λ c. Stands P.meaning P.means c.table c.check };
}

impl<P: Prover> CheckedText<P> {
    /// Checks a text from its beginning to its end.
    pub fn new<C: Ledger>(
        alloc: Global,
        prover: &P,
        text: Text,
        steps: &mut Steps<C>,
    ) -> Result<CheckedText<P>, NoMem>
        requires { length text ≤ TEXT_LIMIT }
        ensures text { IfOk result (λ c. c.doc.text ≡ text) }
        ensures checked { IfOk result IsChecked }
        ensures work { Worked (whole_cost P.means text) steps.old steps.new result }
    {
        let first = prover.initial(alloc, steps)?;
        let mut table = MemoTable::new(alloc, first)?;
        let mut check = DocCheck::begun(alloc, text, prover, table.root())?;
        run_all(alloc, prover, &mut check, &mut table, steps)?;
        Ok(CheckedText { check, table })
    }

    /// How many sentences the text has.
    pub fn count(&self) -> usize
        ensures { result ≡ count self.now.doc.text }
    {
        self.check.count()
    }

    /// How many sentences are finished: all of them, where the text was not edited.
    pub fn done(&self) -> usize
        ensures { result ≡ done self.now.doc }
    {
        self.check.done()
    }

    /// All that is told of the text, and what it declares.
    pub fn report(&self, alloc: Global, prover: &P) -> Result<Report, NoMem>
        requires { all_done self.now.doc ≡ true }
        ensures report { IfOk result (λ report. report ≡ checked P.means self.now.doc.text) }
        ensures placed { IfOk result (λ report. All (IsPlaced (length self.now.doc.text)) report.diags) }
    {
        self.check.report(alloc, prover)
    }

    /// Another text. The sentences stay finished that both texts begin with, and those that the table has; none
    /// is run.
    pub fn edit(&mut self, alloc: Global, prover: &P, text: Text) -> Result<(), NoMem>
        requires { length text ≤ TEXT_LIMIT }
        ensures text { OnOk result (self.new.doc.text ≡ text) }
        ensures taken { OnOk result (self.new ≡ taken (changed text self.old.doc) self.old.rows) }
        ensures kept { OnOk result (IsChecked self.old → done self.new.doc ≡ kept_of self.old.doc.text text) }
    {
        self.check.set_text(alloc, text, 0, prover, &mut self.table)
    }
}

/// Finishes the next sentence, whatever it costs.
fn run_next<P: Prover, C: Ledger>(
    alloc: Global,
    prover: &P,
    check: &mut DocCheck<P>,
    table: &mut MemoTable<P::State>,
    steps: &mut Steps<C>,
) -> Result<(), NoMem>
    requires left { all_done check.old ≡ false }
    requires way { IsUnderWay P.meaning P.means table.old check.old }
    ensures way { OnOk result (IsUnderWay P.meaning P.means table.new check.new) }
    ensures next { OnOk result (check.new ≡ with_number (done check.old + 1) check.old) }
    ensures work { Worked (cost_here P.means check.old) steps.old steps.new result }
{
    match check.advance(alloc, prover, table, COST_LIMIT, steps) {
        Ok(Advance::Finished { spent: _ }) => Ok(()),
        Ok(Advance::Ended) => unreachable!(),
        Ok(Advance::Interrupted) => unreachable!(),
        Err(error) => Err(error),
    }
}

/// Finishes all sentences.
fn run_all<P: Prover, C: Ledger>(
    alloc: Global,
    prover: &P,
    check: &mut DocCheck<P>,
    table: &mut MemoTable<P::State>,
    steps: &mut Steps<C>,
) -> Result<(), NoMem>
    requires { IsUnderWay P.meaning P.means table.old check.old }
    ensures text { OnOk result (check.new.text ≡ check.old.text) }
    ensures way { OnOk result (IsUnderWay P.meaning P.means table.new check.new) }
    ensures ended { OnOk result (all_done check.new ≡ true) }
    ensures work { Worked (cost_left P.means check.old) steps.old steps.new result }
{
    while !check.is_ended() {
        match run_next(alloc, prover, check, table, steps) {
            Ok(()) => {}
            Err(error) => return Err(error),
        }
    }
    Ok(())
}

/// Checks a text from its beginning.
pub fn check_text<P: Prover, C: Ledger>(
    alloc: Global,
    prover: &P,
    text: &str,
    steps: &mut Steps<C>,
) -> Result<Report, NoMem>
    requires { length text.now ≤ TEXT_LIMIT }
    ensures report { IfOk result (λ report. report ≡ checked P.means text.now) }
    ensures placed { IfOk result (λ report. All (IsPlaced (length text.now)) report.diags) }
    ensures work { Worked (whole_cost P.means text.now) steps.old steps.new result }
{
    let text = Text::copy(alloc, text)?;
    let checked = CheckedText::new(alloc, prover, text, steps)?;
    checked.report(alloc, prover)
}
