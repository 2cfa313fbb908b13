//! The table itself.
ghost use Rattle.std.specs.Prelude.{◌≡◌, ℕ, ◌+◌, ◌≤◌, [], None, nat_eq, length, option_copied, IfOk, OnOk, OnErr};
ghost use Rattle.std.specs.List.{list_any, IsDistinct};
ghost use Rattle.std.specs.Map.{keys_of};
ghost use Rattle.base_core.specs.declared.limits.TheConstants.{TABLE_LIMIT};
ghost use Rattle.memo_table.specs.Entries.{number_of, made_of, touched, trimmed};
ghost use Rattle.memo_table.specs.Table.{table, with_rows, with_kept, IsCounted};

use crate::key::Key;
use crate::slots::Slots;
use base_core::NoMem;
use prover_iface::DiagList;
use std::alloc::Global;
use std::collections::HashSet;
use std::marker::Model;

/// What came of a sentence.
#[derive(Debug, Drop)]
pub struct Kept<S: Drop> {
    /// The state behind it.
    pub state: S,
    /// What is told of it.
    pub diags: DiagList,
    pub cost: u32,
    /// The state that it was run in.
    pub before: S,
}

/// The table. Number 0 stands for no sentence, and the state there is the first one.
#[derive(Drop)]
pub struct MemoTable<S: Drop> {
    root: S,
    given: u64,
    slots: Slots<Kept<S>>,
}

impl<S: Drop> Model for MemoTable<S> {
    ghost use Rattle.memo_table.specs.Table.{Table, table, IsCounted};

    ghost Value = { Table S };

    ghost view = { λ t. table t.root t.given t.slots };

    ghost invariant = { λ t. IsCounted t.given t.slots };
}

impl<S: Drop> MemoTable<S> {
    /// A table of no entries.
    pub fn new(alloc: Global, root: S) -> Result<MemoTable<S>, NoMem>
        ensures { IfOk result (λ t. t ≡ table root 0 []) }
    {
        let slots = Slots::new(alloc)?;
        Ok(MemoTable {
            root,
            given: 0,
            slots,
        })
    }

    /// The first state.
    pub fn root(&self) -> &S
        ensures { result.now ≡ self.now.root }
    {
        &self.root
    }

    /// How many numbers were given. They are 1 and on.
    pub fn given(&self) -> u64
        ensures given { result ≡ self.now.given }
        ensures counted { IsCounted self.now.given self.now.rows }
    {
        self.given
    }

    /// How many entries are held.
    pub fn len(&self) -> usize
        ensures len { result ≡ length self.now.rows }
        ensures few { result ≤ TABLE_LIMIT }
        ensures apart { IsDistinct nat_eq (keys_of self.now.rows) }
    {
        self.slots.len()
    }

    /// The number of the key's entry, which becomes the most recently used.
    #[tactic(auto, using(crate::proofs::Counting::counted_touched))]
    pub fn look(&mut self, key: &Key) -> Option<u64>
        ensures number { result ≡ number_of key.now self.old.rows }
        ensures touched { self.new ≡ with_rows self.old (touched key.now self.old.rows) }
    {
        self.slots.touch(key)
    }

    /// What the entry of a number holds. No entry has the number 0.
    pub fn entry(&self, number: u64) -> Option<&Kept<S>>
        ensures made { option_copied result ≡ made_of number self.now.rows }
        ensures none { number ≡ 0 → option_copied result ≡ None }
    {
        self.slots.made(number)
    }

    /// Enters what came of a sentence, under the next number. Behind the last number there is want of memory.
    pub fn keep(&mut self, key: Key, made: Kept<S>) -> Result<u64, NoMem>
        requires absent { number_of key self.old.rows ≡ None }
        ensures number { IfOk result (λ number. number ≡ self.old.given + 1) }
        ensures kept { OnOk result (self.new ≡ with_kept self.old key made) }
        ensures unchanged { OnErr result (self.new ≡ self.old) }
    {
        let Some(number) = self.given.checked_add(1) else {
            return Err(NoMem);
        };
        self.slots.put(number, key, made)?;
        self.given = number;
        Ok(number)
    }

    /// Keeps the entries whose number is in the list, in their order.
    #[tactic(auto, using(crate::proofs::Counting::counted_trimmed))]
    pub fn trim(&mut self, alloc: Global, hold: &[u64]) -> Result<(), NoMem>
        ensures trimmed { OnOk result (self.new ≡ with_rows self.old (trimmed hold.now self.old.rows)) }
        ensures unchanged { OnErr result (self.new ≡ self.old) }
    {
        let hold = numbers_of(alloc, hold)?;
        self.slots.retain(&hold);
        Ok(())
    }
}

/// The numbers of a list, to be asked for.
fn numbers_of(alloc: Global, numbers: &[u64]) -> Result<HashSet<u64>, NoMem>
    ensures { IfOk result (λ set. (n : ℕ) → list_any (nat_eq n) set.keys ≡ list_any (nat_eq n) numbers.now) }
{
    let mut set = HashSet::new(alloc);
    for number in numbers {
        set.insert(*number)?;
    }
    Ok(set)
}
