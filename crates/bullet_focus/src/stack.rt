//! Lists that change at their front and share what they have in common.
ghost use Rattle.std.specs.Prelude.{◌≡◌, ◌+◌, ◌<◌, [], ◌∷◌, ◌++◌, length, drop, take, slice_get, IfOk};
ghost use Rattle.std.specs.Option.{option_copied};

use base_core::{NoMem, NumberList};
use shared_map::SharedList;
use std::alloc::Global;
use std::marker::Model;

/// Items, the newest first, which contracts see as that list. What is put on or taken off gives a new stack, and
/// the old one stays. Each call takes a time that is logarithmic in the length, but for `len`, `share` and
/// `behind`, which take one step.
///
/// What was taken off stays in memory until another item is put in its place.
#[derive(Drop)]
pub struct Stack<T: Drop> {
    items: SharedList<T>,
    /// How many of the items, from the first, are taken off.
    start: usize,
}

/// The numbers of goals.
pub type GoalStack = Stack<u32>;

impl<T: Drop> Model for Stack<T> {
    ghost use Rattle.std.specs.Prelude.{◌≤◌, List, length, drop};
    ghost use Rattle.std.specs.Coded.{coded_list};

    ghost Value = { List T };

    ghost coded = { coded_list T.code };

    ghost view = { λ s. drop s.start s.items };

    ghost invariant = { λ s. s.start ≤ length s.items };
}

impl<T: Drop> Stack<T> {
    /// No items. It takes no memory.
    pub fn empty() -> Stack<T>
        ensures { result ≡ [] }
    {
        Stack {
            items: SharedList::empty(),
            start: 0,
        }
    }

    /// How many items there are.
    pub fn len(&self) -> usize
        ensures { result ≡ length self.now }
    {
        self.items.len() - self.start
    }

    /// The item at a place: 0 is the newest.
    #[tactic(auto, using(crate::proofs::Fronts::get_behind, crate::proofs::Fronts::get_past))]
    pub fn get(&self, at: usize) -> Option<&T>
        ensures { option_copied result ≡ slice_get self.now at }
    {
        if at >= self.items.len() - self.start {
            return None;
        }
        self.items.get(self.start + at)
    }

    /// The same stack once more, by one more count.
    pub fn share(&self) -> Result<Stack<T>, NoMem>
        ensures { IfOk result (λ stack. stack ≡ self.now) }
    {
        let items = self.items.share()?;
        Ok(Stack {
            items,
            start: self.start,
        })
    }

    /// The stack with one more item before all others.
    pub fn with_first(&self, alloc: Global, item: T) -> Result<Stack<T>, NoMem>
        ensures { IfOk result (λ stack. stack ≡ item ∷ self.now) }
    {
        if self.start == 0 {
            let items = self.items.with_first(alloc, item)?;
            return Ok(Stack { items, start: 0 });
        }
        let start = self.start - 1;
        let items = self.items.with_set(alloc, start, item)?;
        Ok(Stack { items, start })
    }

    /// The items behind the one at a place.
    pub fn behind(&self, at: usize) -> Result<Stack<T>, NoMem>
        requires { at < length self.now }
        ensures { IfOk result (λ stack. stack ≡ drop (at + 1) self.now) }
    {
        let items = self.items.share()?;
        Ok(Stack {
            items,
            start: self.start + at + 1,
        })
    }
}

/// The first goal alone, or none.
pub(crate) fn first_alone(alloc: Global, goals: &GoalStack) -> Result<GoalStack, NoMem>
    ensures { IfOk result (λ stack. stack ≡ take 1 goals.now) }
{
    match goals.get(0) {
        Some(goal) => Stack::empty().with_first(alloc, *goal),
        None => Ok(Stack::empty()),
    }
}

/// The stack with more goals before all others, in their order.
pub(crate) fn with_all_first(
    alloc: Global,
    goals: &[u32],
    others: GoalStack,
) -> Result<GoalStack, NoMem>
    ensures { IfOk result (λ stack. stack ≡ goals.now ++ others) }
{
    let mut rest = goals;
    let mut stack = others;
    while let Some((goal, before)) = rest.split_last() {
        stack = stack.with_first(alloc, *goal)?;
        rest = before;
    }
    Ok(stack)
}

/// Puts the goals of a stack behind others.
pub(crate) fn append(all: &mut NumberList, goals: &GoalStack) -> Result<(), NoMem>
    ensures { IfOk result (λ _. all.new ≡ all.old ++ goals.now) }
{
    for at in 0..goals.len() {
        let Some(goal) = goals.get(at) else {
            unreachable!()
        };
        all.push(*goal)?;
    }
    Ok(())
}
