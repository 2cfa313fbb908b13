//! A document takes the sentences that its table has kept.
ghost use Rattle.std.specs.Prelude.{◌≡◌, ℕ, ◌≤◌, [], List, false, length, IfOk, OnOk, OnErr};
ghost use Rattle.base_core.specs.declared.limits.TheConstants.{TEXT_LIMIT};
ghost use Rattle.prover_iface.specs.Sentences.{Sentence};
ghost use Rattle.memo_table.specs.Table.{with_rows};
ghost use Rattle.memo_table.specs.Fits.{Fits};
ghost use Rattle.doc_check.specs.Document.{doc, all_done, with_number, taken, took, IsTaken};
ghost use Rattle.doc_check.specs.Stands.{Follows, Stands, IsHeld, TookOne};

use crate::DocCheck;
use crate::finished::from_kept;
use base_core::{NoMem, Text};
use memo_table::MemoTable;
use prover_iface::Prover;
use std::alloc::Global;

impl<P: Prover> DocCheck<P> {
    /// The next sentence is finished by the entry of a number.
    fn take_number(
        &mut self,
        alloc: Global,
        prover: &P,
        table: &MemoTable<P::State>,
        number: u64,
    ) -> Result<(), NoMem>
        requires left { all_done self.old ≡ false }
        requires held { IsHeld P.meaning P.means table.now.rows number self.old }
        ensures new { OnOk result (self.new ≡ with_number number self.old) }
        ensures unchanged { OnErr result (self.new ≡ self.old) }
    {
        match table.entry(number) {
            Some(kept) => self.put(from_kept(alloc, prover, number, kept)?),
            None => unreachable!(),
        }
    }

    /// Takes the next sentence, where the table has it.
    fn take_one(
        &mut self,
        alloc: Global,
        prover: &P,
        table: &mut MemoTable<P::State>,
    ) -> Result<bool, NoMem>
        requires stands { Stands P.meaning P.means table.old self.old }
        ensures same { OnOk result (taken self.new table.new.rows ≡ taken self.old table.old.rows) }
        ensures one { IfOk result (λ more. TookOne more self.old self.new) }
        ensures none { IfOk result (λ more. more ≡ false → IsTaken self.new table.new.rows) }
        ensures text { self.new.text ≡ self.old.text }
        ensures rows { table.new ≡ with_rows table.old table.new.rows }
        ensures stands { (prefix : ℕ → List Sentence) → Fits P.meaning P.means prefix table.old
            → Follows prefix table.old.given self.old
            → Fits P.meaning P.means prefix table.new × Follows prefix table.old.given self.new }
    {
        if self.is_ended() {
            return Ok(false);
        }
        let key = self.next_key(alloc)?;
        match table.look(&key) {
            Some(number) => {
                self.take_number(alloc, prover, table, number)?;
                Ok(true)
            }
            None => Ok(false),
        }
    }

    /// Takes sentences as long as the table has the next one.
    pub fn take_kept(
        &mut self,
        alloc: Global,
        prover: &P,
        table: &mut MemoTable<P::State>,
    ) -> Result<(), NoMem>
        requires stands { Stands P.meaning P.means table.old self.old }
        ensures taken { OnOk result (took self.new table.new.rows ≡ taken self.old table.old.rows) }
        ensures none { OnOk result (IsTaken self.new table.new.rows) }
        ensures text { self.new.text ≡ self.old.text }
        ensures rows { table.new ≡ with_rows table.old table.new.rows }
        ensures stands { (prefix : ℕ → List Sentence) → Fits P.meaning P.means prefix table.old
            → Follows prefix table.old.given self.old
            → Fits P.meaning P.means prefix table.new × Follows prefix table.old.given self.new }
    {
        loop {
            if !self.take_one(alloc, prover, table)? {
                return Ok(());
            }
        }
    }

    /// A text of at most `TEXT_LIMIT` bytes, of which the sentences are finished that the table has kept.
    pub fn new(
        alloc: Global,
        text: Text,
        prover: &P,
        table: &mut MemoTable<P::State>,
    ) -> Result<DocCheck<P>, NoMem>
        requires short { length text ≤ TEXT_LIMIT }
        requires table { Stands P.meaning P.means table.old (doc text []) }
        ensures check { IfOk result (λ d. d ≡ (taken (doc text []) table.old.rows).doc) }
        ensures rows { OnOk result (table.new ≡ with_rows table.old (taken (doc text []) table.old.rows).rows) }
        ensures stands { (prefix : ℕ → List Sentence) → Fits P.meaning P.means prefix table.old
            → Fits P.meaning P.means prefix table.new × IfOk result (Follows prefix table.new.given) }
    {
        let mut check = DocCheck::begun(alloc, text, prover, table.root())?;
        check.take_kept(alloc, prover, table)?;
        Ok(check)
    }
}
