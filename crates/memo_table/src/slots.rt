//! Entries by their numbers and by their keys, the most recently used first.
ghost use Rattle.std.specs.Prelude.{◌≡◌, ◌-◌, ◌≤◌, [], None, nat_eq, length, take, option_map, option_copied, IfOk, OnOk, OnErr};
ghost use Rattle.std.specs.Map.{lookup, keys_of};
ghost use Rattle.std.specs.List.{IsDistinct};
ghost use Rattle.lru.specs.LruCache.{promoted, last_entry};
ghost use Rattle.base_core.specs.declared.limits.TheConstants.{TABLE_LIMIT};
ghost use Rattle.memo_table.specs.Entries.{entry_of, number_of, made_of, touched, entered, trimmed, IsTurn};

use crate::key::Key;
use base_core::{NoMem, TABLE_LIMIT};
use lru::LruCache;
use std::alloc::Global;
use std::collections::{HashMap, HashSet};
use std::marker::Model;
use std::num::NonZeroUsize;

/// An entry: its key, and what came of it. Its number stands beside it.
#[derive(Debug, Drop)]
pub struct Entry<M: Drop> {
    pub key: Key,
    pub made: M,
}

/// The entries.
#[derive(Drop)]
pub struct Slots<M: Drop> {
    cache: LruCache<u64, Entry<M>>,
    numbers: HashMap<Key, u64>,
}

impl<M: Drop> Model for Slots<M> {
    ghost use Rattle.std.specs.Prelude.{ℕ, List};
    ghost use Rattle.memo_table.specs.declared.slots.Entry.{Entry};
    ghost use Rattle.memo_table.specs.Index.{IsIndexed};

    ghost Value = { List (ℕ × Entry M) };

    ghost view = { λ s. s.cache.entries };

    ghost invariant = { λ s. IsIndexed s.cache s.numbers };
}

impl<M: Drop> Slots<M> {
    /// No entries.
    pub fn new(alloc: Global) -> Result<Slots<M>, NoMem>
        ensures { IfOk result (λ slots. slots ≡ []) }
    {
        let Some(limit) = NonZeroUsize::new(TABLE_LIMIT) else {
            unreachable!()
        };
        Ok(Slots {
            cache: LruCache::sparse(alloc, limit)?,
            numbers: HashMap::new(alloc),
        })
    }

    /// How many entries there are.
    pub fn len(&self) -> usize
        ensures len { result ≡ length self.now }
        ensures few { result ≤ TABLE_LIMIT }
        ensures apart { IsDistinct nat_eq (keys_of self.now) }
    {
        self.cache.len()
    }

    /// The number of the key's entry.
    pub fn number(&self, key: &Key) -> Option<u64>
        ensures { result ≡ number_of key.now self.now }
    {
        numbers_are_apart(&self.cache);
        let number = *self.numbers.get(key)?;
        let entry = self.cache.peek(&number)?;
        if entry.key == *key {
            Some(number)
        } else {
            None
        }
    }

    /// The number of the key's entry, which becomes the most recently used.
    pub fn touch(&mut self, key: &Key) -> Option<u64>
        ensures number { result ≡ number_of key.now self.old }
        ensures touched { self.new ≡ touched key.now self.old }
    {
        let found = self.number(key)?;
        self.promote(found);
        Some(found)
    }

    /// What the entry of a number holds.
    pub fn made(&self, number: u64) -> Option<&M>
        ensures { option_copied result ≡ made_of number self.now }
    {
        let entry = self.cache.peek(&number)?;
        Some(&entry.made)
    }

    /// Puts an entry of a new number and a new key first. The last one goes where there are too many.
    pub fn put(&mut self, number: u64, key: Key, made: M) -> Result<(), NoMem>
        requires new_number { lookup (nat_eq number) self.old ≡ None }
        requires new_key { number_of key self.old ≡ None }
        ensures entered { OnOk result (self.new ≡ entered TABLE_LIMIT (number, entry_of key made) self.old) }
        ensures unchanged { OnErr result (self.new ≡ self.old) }
    {
        numbers_are_apart(&self.cache);
        let shared = key.share()?;
        self.numbers.insert(shared, number)?;
        match self.cache.push(number, Entry { key, made }) {
            Ok(None) => Ok(()),
            Ok(Some((_, oldest))) => {
                self.numbers.remove(&oldest.key);
                Ok(())
            }
            Err(failed) => {
                let (_, entry) = failed.value;
                self.numbers.remove(&entry.key);
                Err(NoMem)
            }
        }
    }

    /// Keeps the entries whose number is in the set, in their order.
    pub fn retain(&mut self, hold: &HashSet<u64>)
        ensures { self.new ≡ trimmed hold.now.keys self.old }
    {
        for _turn in 0..self.len() {
            self.turn(hold);
        }
    }

    fn turn(&mut self, hold: &HashSet<u64>)
        ensures { IsTurn hold.now.keys self.old self.new }
    {
        let Some(number) = self.last() else {
            return;
        };
        if hold.contains(&number) {
            self.promote(number);
        } else {
            self.drop_last();
        }
    }

    fn last(&self) -> Option<u64>
        ensures number { result ≡ option_map (λ e. e.0) (last_entry self.now) }
        ensures apart { IsDistinct nat_eq (keys_of self.now) }
    {
        numbers_are_apart(&self.cache);
        let (number, _) = self.cache.peek_lru()?;
        Some(*number)
    }

    fn promote(&mut self, number: u64)
        ensures { self.new ≡ promoted (nat_eq number) self.old }
    {
        self.cache.promote(&number);
    }

    fn drop_last(&mut self)
        ensures { self.new ≡ take (length self.old - 1) self.old }
    {
        numbers_are_apart(&self.cache);
        if let Some((_, dropped)) = self.cache.pop_lru() {
            self.numbers.remove(&dropped.key);
        }
    }
}

/// No number stands twice.
fn numbers_are_apart<M: Drop>(cache: &LruCache<u64, Entry<M>>)
    ensures { IsDistinct nat_eq (keys_of cache.now.entries) }
{
    let _ = cache.len();
}
