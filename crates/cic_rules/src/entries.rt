//! Entries of an environment.
ghost use Rattle.std.specs.Prelude.{◌≡◌, ◌++◌, [], ◌∷◌, OnOk};

use base_core::{NoMem, NumberList, Text};
use core_term::{Sort, Term};
use std::alloc::Global;
use std::marker::Model;

/// A global: its type, how it was declared, and the places of the globals that its declaration
/// was judged with.
#[derive(Drop)]
pub struct Entry {
    pub name: Text,
    pub ty: Term,
    pub kind: EntryKind,
    pub used: NumberList,
}

/// How a global was declared.
#[derive(Drop)]
pub enum EntryKind {
    Assumed,
    /// A theorem without a proof.
    Admitted,
    /// Reduction looks into the body of a transparent definition only.
    Defined { body: Term, opaque: bool },
    /// An inductive type with so many constructors.
    Inductive(u32),
    /// The constructor with this index of the inductive type at a place.
    Constructor { of: u32, index: u32 },
    /// The eliminator into this sort of the inductive type at a place.
    Eliminator { of: u32, sort: Sort },
}

/// A list of entries, as of an inductive type with its constructors and eliminators.
#[derive(Drop)]
pub struct EntryList {
    items: Vec<Entry>,
}

impl Model for EntryList {
    ghost use Rattle.std.specs.Prelude.{List};
    ghost use Rattle.cic_rules.specs.declared.entries.Entry.{Entry};
    ghost use Rattle.std.specs.Coded.{coded_list};
    ghost use Rattle.cic_rules.specs.contracts.entries.Entry as entry;

    ghost Value = { List Entry };

    ghost coded = { coded_list entry.the_row.coded };

    ghost view = { λ a. a.items.items };
}

impl EntryList {
    pub fn new(alloc: Global) -> EntryList
        ensures { result ≡ [] }
    {
        EntryList {
            items: Vec::new(alloc),
        }
    }

    pub fn push(&mut self, item: Entry) -> Result<(), NoMem>
        ensures { OnOk result (self.new ≡ self.old ++ item ∷ []) }
    {
        self.items.push(item)?;
        Ok(())
    }

    pub fn as_slice(&self) -> &[Entry]
        ensures { result.now ≡ self.now }
    {
        self.items.as_slice()
    }

    pub fn into_vec(self) -> Vec<Entry>
        ensures { result.items ≡ self }
    {
        self.items
    }
}
