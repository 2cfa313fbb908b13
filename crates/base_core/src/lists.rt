//! An owned list, which contracts see as that list.
ghost use Rattle.std.specs.Prelude.{◌≡◌, ◌++◌, [], ◌∷◌, length, IfOk, OnOk};

use crate::NoMem;
use std::alloc::Global;
use std::marker::Model;

/// Items in order. A crate names its own lists, as `NumberList`.
#[derive(Debug, Drop)]
pub struct List<T: Drop> {
    items: Vec<T>,
}

impl<T: Drop> Model for List<T> {
    ghost use Rattle.std.specs.Prelude.{List};
    ghost use Rattle.std.specs.Coded.{coded_list};

    ghost Value = { List T };

    ghost coded = { coded_list T.code };

    ghost view = { λ a. a.items.items };
}

/// What can be made once more. It differs from `Clone` in that it takes the allocator.
pub trait Duplicate: Drop {
    /// The same value once more.
    fn duplicate(&self, alloc: Global) -> Result<Self, NoMem>
        ensures { IfOk result (λ copy. copy ≡ self.now) };
}

impl<T: Drop> List<T> {
    /// No items. It takes no memory yet.
    pub fn new(alloc: Global) -> List<T>
        ensures { result ≡ [] }
    {
        List {
            items: Vec::new(alloc),
        }
    }

    /// The items of a vector.
    pub fn from_vec(items: Vec<T>) -> List<T>
        ensures { result ≡ items.items }
    {
        List { items }
    }

    /// Puts one item behind the others.
    pub fn push(&mut self, item: T) -> Result<(), NoMem>
        ensures { OnOk result (self.new ≡ self.old ++ item ∷ []) }
    {
        self.items.push(item)?;
        Ok(())
    }

    /// All items.
    pub fn as_slice(&self) -> &[T]
        ensures { result.now ≡ self.now }
    {
        self.items.as_slice()
    }

    /// How many items there are.
    pub fn len(&self) -> usize
        ensures { result ≡ length self.now }
    {
        self.items.len()
    }
}

impl<T: Copy + Drop> List<T> {
    /// The items of a slice.
    pub fn copy(alloc: Global, items: &[T]) -> Result<List<T>, NoMem>
        ensures { IfOk result (λ list. list ≡ items.now) }
    {
        let mut all = Vec::new(alloc);
        all.extend_from_slice(items)?;
        Ok(List { items: all })
    }
}

impl<T: Duplicate> List<T> {
    /// The same items once more.
    pub fn copied(&self, alloc: Global) -> Result<List<T>, NoMem>
        ensures { IfOk result (λ list. list ≡ self.now) }
    {
        let mut items = Vec::new(alloc);
        for item in self.items.as_slice() {
            items.push(item.duplicate(alloc)?)?;
        }
        Ok(List { items })
    }
}

/// Numbers in order, as of calls or of places.
pub type NumberList = List<u32>;

/// An owned list of bytes.
pub type Bytes = List<u8>;
