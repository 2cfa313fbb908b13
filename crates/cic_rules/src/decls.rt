//! Declarations, as they are asked for.
ghost use Rattle.std.specs.Prelude.{◌≡◌, ◌++◌, [], ◌∷◌, None, OnOk};
ghost use Rattle.cic_rules.specs.Contexts.{AreParams};

use crate::context::Hyp;
use base_core::{List, NoMem, Text};
use core_term::Term;
use std::alloc::Global;
use std::marker::Model;

/// What a sentence asks to be declared. All terms stand in the empty context.
#[derive(Drop)]
pub enum Decl {
    Assume {
        name: Text,
        ty: Term,
    },
    Define {
        name: Text,
        ty: Option<Term>,
        body: Term,
        opaque: bool,
    },
    /// A theorem without a proof.
    Admit {
        name: Text,
        ty: Term,
    },
    Induct(InductiveDecl),
}

/// An inductive type. Its arity stands in the context of the parameters; the type of a constructor
/// does too, with the type itself as the global at the next place.
#[derive(Drop)]
pub struct InductiveDecl {
    pub name: Text,
    /// Oldest first.
    pub params: ContextList,
    pub arity: Term,
    pub ctors: CtorList,
}

/// A constructor of an inductive type.
#[derive(Drop)]
pub struct Ctor {
    pub name: Text,
    pub ty: Term,
}

/// The parameters of an inductive type, oldest first: hypotheses without definitions.
#[derive(Drop)]
pub struct ContextList {
    items: Vec<Hyp>,
}

impl Model for ContextList {
    ghost use Rattle.std.specs.Prelude.{List};
    ghost use Rattle.cic_rules.specs.declared.context.Hyp.{Hyp};
    ghost use Rattle.std.specs.Coded.{coded_list};
    ghost use Rattle.cic_rules.specs.contracts.context.Hyp as hyp;

    ghost Value = { List Hyp };

    ghost coded = { coded_list hyp.the_row.coded };

    ghost view = { λ a. a.items.items };

    ghost use Rattle.cic_rules.specs.Contexts.{AreParams};

    ghost invariant = { λ a. AreParams a.items.items };
}

impl ContextList {
    pub fn new(alloc: Global) -> ContextList
        ensures { result ≡ [] }
    {
        ContextList {
            items: Vec::new(alloc),
        }
    }

    #[tactic(auto, using(crate::proofs::ContextLaws::params_last))]
    pub fn push(&mut self, item: Hyp) -> Result<(), NoMem>
        requires { item.value ≡ None }
        ensures { OnOk result (self.new ≡ self.old ++ item ∷ []) }
    {
        self.items.push(item)?;
        Ok(())
    }

    pub fn as_slice(&self) -> &[Hyp]
        ensures items { result.now ≡ self.now }
        ensures params { AreParams self.now }
    {
        self.items.as_slice()
    }
}

/// A list of constructors.
pub type CtorList = List<Ctor>;
