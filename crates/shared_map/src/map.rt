//! Maps that share their nodes.
ghost use Rattle.std.specs.Prelude.{◌≡◌, ◌+◌, ◌*◌, ◌^◌, ◌<◌, ◌≤◌, [], length, IfOk};
ghost use Rattle.std.specs.Option.{option_copied};
ghost use Rattle.shared_map.specs.Entries.{look, put, IsInOrder, PutsOnly};

use crate::balance::{balanced, fork};
use crate::list::{LEN_LIMIT, Node, SharedList};
use base_core::NoMem;
use std::alloc::Global;
use std::cmp::Ordering;
use std::marker::Model;
use std::rc::Rc;

/// A map that shares its nodes with the maps that it was made from. `get` and `with` take a number
/// of comparisons that is logarithmic in the length, `len` and `share` one step.
#[derive(Drop)]
pub struct SharedMap<K: Ord + Drop, V: Drop> {
    entries: SharedList<(K, V)>,
}

impl<K: Ord + Drop, V: Drop> Model for SharedMap<K, V> {
    ghost use Rattle.std.specs.Prelude.{List};
    ghost use Rattle.std.specs.Coded.{coded_list, coded×};
    ghost use Rattle.shared_map.specs.Entries.{IsInOrder};

    ghost Value = { List (K × V) };

    ghost coded = { coded_list (coded× K.code V.code) };

    ghost view = { λ m. m.entries };

    ghost invariant = { λ m. IsInOrder K.cmp m.entries };
}

impl<K: Ord + Drop, V: Drop> SharedMap<K, V> {
    /// No entries. It takes no memory.
    pub fn empty() -> SharedMap<K, V>
        ensures { result ≡ [] }
    {
        SharedMap {
            entries: SharedList::empty(),
        }
    }

    /// How many items there are. It takes one step.
    pub fn len(&self) -> usize
        ensures count { result ≡ length self.now }
        ensures order { IsInOrder K.cmp self.now }
    {
        self.entries.len()
    }

    /// How many nodes stand in one another at the deepest place, which bounds how deep a drop
    /// recurses. It visits every node.
    pub fn depth(&self) -> usize
        ensures small { result ≤ length self.now }
        ensures enough { length self.now < 2 ^ result }
        ensures logarithmic { 4 ^ result ≤ (length self.now + 1) * 3 ^ result }
    {
        self.entries.depth()
    }

    /// The value at a key that compares as equal.
    pub fn get(&self, k: &K) -> Option<&V>
        ensures { option_copied result ≡ look K.cmp self.now k.now }
    {
        look_up(&self.entries, k)
    }

    /// The same map once more, by one more count of its root.
    pub fn share(&self) -> Result<SharedMap<K, V>, NoMem>
        ensures { IfOk result (λ map. map ≡ self.now) }
    {
        let entries = self.entries.share()?;
        Ok(SharedMap { entries })
    }

    /// The map with a pair, in the place of one whose key compares as equal. A map of 2^60 entries
    /// answers `NoMem`.
    pub fn with(&self, alloc: Global, k: K, v: V) -> Result<SharedMap<K, V>, NoMem>
        ensures entries { IfOk result (λ map. map ≡ put K.cmp self.now (k, v)) }
        ensures values { IfOk result (λ map. PutsOnly K.cmp self.now map k v) }
    {
        if self.len() >= LEN_LIMIT {
            return Err(NoMem);
        }
        let entry = Rc::new(alloc, (k, v))?;
        let entries = put_entry(alloc, &self.entries, entry)?;
        Ok(SharedMap { entries })
    }
}

#[tactic(auto, using(crate::proofs::EntriesLaws::in_order_front, crate::proofs::EntriesLaws::in_order_back))]
fn look_up<'a, K: Ord + Drop, V: Drop>(entries: &'a SharedList<(K, V)>, k: &K) -> Option<&'a V>
    requires order { IsInOrder K.cmp entries.now }
    ensures { option_copied result ≡ look K.cmp entries.now k.now }
{
    match &entries.node {
        Node::Leaf => None,
        Node::Fork(branch) => match k.cmp(&branch.item.0) {
            Ordering::Less => look_up(&branch.left, k),
            Ordering::Equal => Some(&branch.item.1),
            Ordering::Greater => look_up(&branch.right, k),
        },
    }
}

#[tactic(auto, using(crate::proofs::EntriesLaws::in_order_front, crate::proofs::EntriesLaws::in_order_back))]
fn put_entry<K: Ord + Drop, V: Drop>(
    alloc: Global,
    entries: &SharedList<(K, V)>,
    entry: Rc<(K, V)>,
) -> Result<SharedList<(K, V)>, NoMem>
    requires order { IsInOrder K.cmp entries.now }
    requires room { length entries.now < 2 ^ 60 }
    ensures put { IfOk result (λ list. list ≡ put K.cmp entries.now entry.value) }
    ensures kept { IfOk result (λ list. length entries.now ≤ length list) }
    ensures grown { IfOk result (λ list. length list ≤ length entries.now + 1) }
{
    match &entries.node {
        Node::Leaf => fork(alloc, SharedList::empty(), entry, SharedList::empty()),
        Node::Fork(branch) => match entry.0.cmp(&branch.item.0) {
            Ordering::Less => {
                let left = put_entry(alloc, &branch.left, entry)?;
                balanced(alloc, left, branch.item.clone()?, branch.right.share()?)
            }
            Ordering::Equal => fork(alloc, branch.left.share()?, entry, branch.right.share()?),
            Ordering::Greater => {
                let right = put_entry(alloc, &branch.right, entry)?;
                balanced(alloc, branch.left.share()?, branch.item.clone()?, right)
            }
        },
    }
}
