//! Lists that share their nodes.
ghost use Rattle.std.specs.Prelude.{◌≡◌, ◌+◌, ◌*◌, ◌^◌, ◌<◌, ◌≤◌, [], ◌∷◌, ◌++◌, length, IfOk, slice_get, slice_set, insert};
ghost use Rattle.std.specs.Option.{option_copied};

use crate::balance::{balanced, fork};
use base_core::NoMem;
use std::alloc::Global;
use std::marker::Model;
use std::rc::Rc;

/// A list that shares its nodes with the lists that it was made from: a change copies the path to
/// one node and leaves the old list as it was. Each call takes a time that is logarithmic in the
/// length, but for `len` and `share`, which take one step, and `depth`.
///
/// It is a search tree by place in which a side has at most three times the weight of the other
/// (Adams, "Implementing sets efficiently in a functional language", 1992).
#[derive(Drop)]
#[cycle(list)]
pub struct SharedList<T: Drop> {
    pub(crate) node: Node<T>,
}

#[derive(Drop)]
#[cycle(list)]
pub(crate) enum Node<T: Drop> {
    Leaf,
    Fork(Rc<Branch<T>>),
}

#[derive(Drop)]
#[cycle(list)]
pub(crate) struct Branch<T: Drop> {
    pub(crate) left: SharedList<T>,
    pub(crate) item: Rc<T>,
    pub(crate) right: SharedList<T>,
    pub(crate) len: usize,
}

impl<T: Drop> Model for SharedList<T> {
    ghost use Rattle.std.specs.Prelude.{List, length};
    ghost use Rattle.std.specs.Coded.{coded_list};

    ghost Value = { List T };

    ghost coded = { coded_list T.code };

    ghost use Rattle.shared_map.specs.Balance.{items_of, IsBalanced};

    ghost view = { λ m. items_of m.node };

    ghost invariant = { λ m. IsBalanced m.node };

    ghost size = { length };

    ghost use Rattle.std.proofs.Common.{arith, length-append};

    ghost size_decreases = { λ m h. Prim.grind (arith, length-append) };
}

/// The greatest length of a list. No memory holds so many nodes.
pub(crate) const LEN_LIMIT: usize = 1 << 60;

impl<T: Drop> SharedList<T> {
    /// No items. It takes no memory.
    pub fn empty() -> SharedList<T>
        ensures { result ≡ [] }
    {
        SharedList { node: Node::Leaf }
    }

    /// How many items there are. It takes one step.
    pub fn len(&self) -> usize
        ensures count { result ≡ length self.now }
        ensures room { result ≤ 2 ^ 60 }
    {
        match &self.node {
            Node::Leaf => 0,
            Node::Fork(branch) => branch.len,
        }
    }

    /// How many nodes stand in one another at the deepest place, which bounds how deep a drop
    /// recurses. It visits every node.
    pub fn depth(&self) -> usize
        ensures small { result ≤ length self.now }
        ensures enough { length self.now < 2 ^ result }
        ensures logarithmic { 4 ^ result ≤ (length self.now + 1) * 3 ^ result }
    {
        match &self.node {
            Node::Leaf => 0,
            Node::Fork(branch) => branch.left.depth().max(branch.right.depth()) + 1,
        }
    }

    /// The item at a place, counted from 0.
    pub fn get(&self, at: usize) -> Option<&T>
        ensures { option_copied result ≡ slice_get self.now at }
    {
        match &self.node {
            Node::Leaf => None,
            Node::Fork(branch) => {
                let before = branch.left.len();
                if at < before {
                    branch.left.get(at)
                } else if at == before {
                    Some(&branch.item)
                } else {
                    branch.right.get(at - before - 1)
                }
            }
        }
    }

    /// The same list once more, by one more count of its root.
    pub fn share(&self) -> Result<SharedList<T>, NoMem>
        ensures { IfOk result (λ list. list ≡ self.now) }
    {
        match &self.node {
            Node::Leaf => Ok(SharedList::empty()),
            Node::Fork(branch) => {
                let branch = branch.clone()?;
                Ok(SharedList {
                    node: Node::Fork(branch),
                })
            }
        }
    }

    /// The list with another item at a place.
    pub fn with_set(&self, alloc: Global, at: usize, item: T) -> Result<SharedList<T>, NoMem>
        requires { at < length self.now }
        ensures { IfOk result (λ list. list ≡ slice_set self.now at item) }
    {
        let item = Rc::new(alloc, item)?;
        self.set_item(alloc, at, item)
    }

    /// The list with one more item at a place; the items from there on move up by one. A list of
    /// 2^60 items answers `NoMem`.
    pub fn with_insert(&self, alloc: Global, at: usize, item: T) -> Result<SharedList<T>, NoMem>
        requires { at ≤ length self.now }
        ensures { IfOk result (λ list. list ≡ insert self.now at item) }
    {
        if self.len() >= LEN_LIMIT {
            return Err(NoMem);
        }
        let item = Rc::new(alloc, item)?;
        self.insert_item(alloc, at, item)
    }

    /// The list with one more item before all others.
    pub fn with_first(&self, alloc: Global, item: T) -> Result<SharedList<T>, NoMem>
        ensures { IfOk result (λ list. list ≡ item ∷ self.now) }
    {
        self.with_insert(alloc, 0, item)
    }

    /// The list with one more item after all others.
    pub fn with_last(&self, alloc: Global, item: T) -> Result<SharedList<T>, NoMem>
        ensures { IfOk result (λ list. list ≡ self.now ++ (item ∷ [])) }
    {
        self.with_insert(alloc, self.len(), item)
    }

    fn set_item(&self, alloc: Global, at: usize, item: Rc<T>) -> Result<SharedList<T>, NoMem>
        requires { at < length self.now }
        ensures { IfOk result (λ list. list ≡ slice_set self.now at item.value) }
    {
        match &self.node {
            Node::Leaf => unreachable!(),
            Node::Fork(branch) => {
                let before = branch.left.len();
                if at < before {
                    let left = branch.left.set_item(alloc, at, item)?;
                    fork(alloc, left, branch.item.clone()?, branch.right.share()?)
                } else if at == before {
                    fork(alloc, branch.left.share()?, item, branch.right.share()?)
                } else {
                    let right = branch.right.set_item(alloc, at - before - 1, item)?;
                    fork(alloc, branch.left.share()?, branch.item.clone()?, right)
                }
            }
        }
    }

    fn insert_item(&self, alloc: Global, at: usize, item: Rc<T>) -> Result<SharedList<T>, NoMem>
        requires place { at ≤ length self.now }
        requires room { length self.now < 2 ^ 60 }
        ensures { IfOk result (λ list. list ≡ insert self.now at item.value) }
    {
        match &self.node {
            Node::Leaf => fork(alloc, SharedList::empty(), item, SharedList::empty()),
            Node::Fork(branch) => {
                let before = branch.left.len();
                if at <= before {
                    let left = branch.left.insert_item(alloc, at, item)?;
                    balanced(alloc, left, branch.item.clone()?, branch.right.share()?)
                } else {
                    let right = branch.right.insert_item(alloc, at - before - 1, item)?;
                    balanced(alloc, branch.left.share()?, branch.item.clone()?, right)
                }
            }
        }
    }
}
