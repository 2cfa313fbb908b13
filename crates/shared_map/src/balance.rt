//! Putting a node over two sides so that they stay balanced.
ghost use Rattle.std.specs.Prelude.{◌≡◌, ◌+◌, ◌^◌, ◌<◌, ◌∷◌, ◌++◌, length, IfOk};
ghost use Rattle.shared_map.specs.Balance.{AreBalanced, AreNearlyBalanced, LeansLeft};

use crate::list::{Branch, Node, SharedList};
use base_core::NoMem;
use std::alloc::Global;
use std::rc::Rc;

/// Two lists that balance each other, and an item between them.
pub(crate) fn fork<T: Drop>(
    alloc: Global,
    left: SharedList<T>,
    item: Rc<T>,
    right: SharedList<T>,
) -> Result<SharedList<T>, NoMem>
    requires even { AreBalanced (length left) (length right) }
    requires room { length left + length right < 2 ^ 60 }
    ensures { IfOk result (λ list. list ≡ left ++ (item.value ∷ right)) }
{
    let len = left.len() + right.len() + 1;
    let branch = Rc::new(
        alloc,
        Branch {
            left,
            item,
            right,
            len,
        },
    )?;
    Ok(SharedList {
        node: Node::Fork(branch),
    })
}

/// The same of two lists of which one may have one item too many.
pub(crate) fn balanced<T: Drop>(
    alloc: Global,
    left: SharedList<T>,
    item: Rc<T>,
    right: SharedList<T>,
) -> Result<SharedList<T>, NoMem>
    requires near { AreNearlyBalanced (length left) (length right) }
    requires room { length left + length right < 2 ^ 60 }
    ensures { IfOk result (λ list. list ≡ left ++ (item.value ∷ right)) }
{
    let before = left.len();
    let after = right.len();
    if before > 3 * after + 2 {
        turn_right(alloc, &left, item, right)
    } else if after > 3 * before + 2 {
        turn_left(alloc, left, item, &right)
    } else {
        fork(alloc, left, item, right)
    }
}

/// Moves a part of the left side over to the right: its right side, or, where that is too heavy
/// against its left one, a part of that.
fn turn_right<T: Drop>(
    alloc: Global,
    left: &SharedList<T>,
    item: Rc<T>,
    right: SharedList<T>,
) -> Result<SharedList<T>, NoMem>
    requires leans { LeansLeft (length left.now) (length right) }
    requires room { length left.now + length right < 2 ^ 60 }
    ensures { IfOk result (λ list. list ≡ left.now ++ (item.value ∷ right)) }
{
    let Node::Fork(outer) = &left.node else {
        unreachable!()
    };
    let middle: &SharedList<T> = &outer.right;
    if middle.len() <= 2 * outer.left.len() + 1 {
        let right = fork(alloc, middle.share()?, item, right)?;
        return fork(alloc, outer.left.share()?, outer.item.clone()?, right);
    }
    let Node::Fork(inner) = &middle.node else {
        unreachable!()
    };
    let first = fork(
        alloc,
        outer.left.share()?,
        outer.item.clone()?,
        inner.left.share()?,
    )?;
    let second = fork(alloc, inner.right.share()?, item, right)?;
    fork(alloc, first, inner.item.clone()?, second)
}

/// Moves a part of the right side over to the left.
fn turn_left<T: Drop>(
    alloc: Global,
    left: SharedList<T>,
    item: Rc<T>,
    right: &SharedList<T>,
) -> Result<SharedList<T>, NoMem>
    requires leans { LeansLeft (length right.now) (length left) }
    requires room { length left + length right.now < 2 ^ 60 }
    ensures { IfOk result (λ list. list ≡ left ++ (item.value ∷ right.now)) }
{
    let Node::Fork(outer) = &right.node else {
        unreachable!()
    };
    let middle: &SharedList<T> = &outer.left;
    if middle.len() <= 2 * outer.right.len() + 1 {
        let left = fork(alloc, left, item, middle.share()?)?;
        return fork(alloc, left, outer.item.clone()?, outer.right.share()?);
    }
    let Node::Fork(inner) = &middle.node else {
        unreachable!()
    };
    let first = fork(alloc, left, item, inner.left.share()?)?;
    let second = fork(
        alloc,
        inner.right.share()?,
        outer.item.clone()?,
        outer.right.share()?,
    )?;
    fork(alloc, first, inner.item.clone()?, second)
}
