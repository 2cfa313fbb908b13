//! A family in an environment.
ghost use Rattle.std.specs.Prelude.{◌≡◌, [], ◌∷◌, IfOk, codes};
ghost use Rattle.core_term.specs.Tree.{Sorted};

use base_core::{NumberList, Text};
use cic_rules::{ContextList, CtorList, Entry, EntryKind, EntryList, GlobalEnv, InductiveDecl};
use core_term::{Sort, Term};
use std::alloc::Global;
use std::test::Fail;

// Inductive empty : Prop := .
fn declaration(alloc: Global) -> Result<InductiveDecl, Fail>
    ensures { IfOk result (λ d. d ≡ record {
      name = codes "empty";
      params = [];
      arity = Sorted Sort.PropSort;
      ctors = [];
    }) }
{
    let name = Text::copy(alloc, "empty")?;
    let arity = Term::sort(alloc, Sort::PropSort)?;
    Ok(InductiveDecl {
        name,
        params: ContextList::new(alloc),
        arity,
        ctors: CtorList::new(alloc),
    })
}

fn entries(alloc: Global) -> Result<EntryList, Fail>
    ensures { IfOk result (λ es. es ≡ record {
      name = codes "empty";
      ty = Sorted Sort.PropSort;
      kind = EntryKind.Inductive 0;
      used = [];
    } ∷ []) }
{
    let mut entries = EntryList::new(alloc);
    entries.push(Entry {
        name: Text::copy(alloc, "empty")?,
        ty: Term::sort(alloc, Sort::PropSort)?,
        kind: EntryKind::Inductive(0),
        used: NumberList::new(alloc),
    })?;
    Ok(entries)
}

#[test]
fn families(rt: HostRuntime) -> Result<(), Fail> {
    let alloc = rt.alloc();
    let decl = declaration(alloc)?;
    let env = GlobalEnv::empty().with_inductive(alloc, decl, entries(alloc)?);
    let Ok(env) = env else {
        return Err(Fail::from("no environment"));
    };
    assert_eq!(rt; env.len(), 1);
    assert!(rt; env.inductive(0).is_some());
    Ok(())
}
