//! The names of an inductive declaration.
ghost use Rattle.std.specs.Prelude.{◌≡◌, ◌++◌, IfOk, OnOk};
ghost use Rattle.cic_rules.specs.Eliminators.{eliminator_name};
ghost use Rattle.cic_rules.specs.Inductive.{names_of, has_twice, any_taken, ctor_names};

use base_core::{NoMem, Text};
use cic_rules::{Ctor, GlobalEnv, InductiveDecl};
use core_term::Sort;
use fresh_names::Names;
use std::alloc::Global;

/// The name of the eliminator into a sort.
pub(crate) fn eliminator_name(alloc: Global, d: &InductiveDecl, sort: Sort) -> Result<Text, NoMem>
    ensures { IfOk result (λ name. name ≡ eliminator_name d.now sort) }
{
    let mut name = String::from_str(alloc, d.name.as_str())?;
    match sort {
        Sort::PropSort => name.push_str("_ind")?,
        Sort::SetSort => name.push_str("_rec")?,
        Sort::TypeSort(_) => name.push_str("_rect")?,
    }
    Text::from_string(alloc, name)
}

/// The names of a declaration: the type, its constructors and its three eliminators.
pub(crate) fn names_of(alloc: Global, d: &InductiveDecl) -> Result<Vec<Text>, NoMem>
    ensures { IfOk result (λ names. names.items ≡ names_of d.now) }
{
    let mut names = Vec::new(alloc);
    names.push(d.name.share()?)?;
    add_ctors(d.ctors.as_slice(), &mut names)?;
    names.push(eliminator_name(alloc, d, Sort::PropSort)?)?;
    names.push(eliminator_name(alloc, d, Sort::SetSort)?)?;
    names.push(eliminator_name(alloc, d, Sort::TypeSort(1))?)?;
    Ok(names)
}

fn add_ctors(ctors: &[Ctor], names: &mut Vec<Text>) -> Result<(), NoMem>
    ensures { OnOk result (names.new.items ≡ names.old.items ++ ctor_names ctors.now) }
{
    for ctor in ctors {
        names.push(ctor.name.share()?)?;
    }
    Ok(())
}

/// Whether a name stands twice among these.
pub(crate) fn has_twice(alloc: Global, names: &[Text]) -> Result<bool, NoMem>
    ensures { IfOk result (λ twice. twice ≡ has_twice names.now) }
{
    let mut behind = Names::empty();
    let mut at = names.len();
    while at > 0 {
        at -= 1;
        let name = &names[at];
        if behind.has(name) {
            return Ok(true);
        }
        behind = behind.with(alloc, name)?;
    }
    Ok(false)
}

/// Whether a global has one of these names.
pub(crate) fn any_taken(env: &GlobalEnv, names: &[Text]) -> bool
    ensures { result ≡ any_taken env.now names.now }
{
    for name in names {
        if env.place_of(name).is_some() {
            return true;
        }
    }
    false
}
