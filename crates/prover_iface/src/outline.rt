//! What a document declares.
use base_core::{Duplicate, List, NoMem, Text, TextList};
use std::alloc::Global;

/// What a declaration is.
#[derive(Clone, Copy, Debug, PartialEq, Eq)]
pub enum ItemKind {
    Axiom,
    Definition,
    Inductive,
    Theorem,
    Admitted,
}

/// A declaration of a document.
#[derive(Debug, Drop)]
pub struct OutlineItem {
    pub kind: ItemKind,
    pub name: Text,
    pub statement: Text,
    /// The names of the axioms that it rests on.
    pub axioms: TextList,
    /// The number, from 0, of the sentence that declares it or begins its proof.
    pub first: u32,
    /// The number of the sentence that enters it.
    pub last: u32,
}

impl Duplicate for OutlineItem {
    fn duplicate(&self, alloc: Global) -> Result<OutlineItem, NoMem> {
        Ok(OutlineItem {
            kind: self.kind,
            name: self.name.share()?,
            statement: self.statement.share()?,
            axioms: self.axioms.copied(alloc)?,
            first: self.first,
            last: self.last,
        })
    }
}

/// Declarations in order.
pub type OutlineList = List<OutlineItem>;
