//! Names of binders in the types of eliminators.
ghost use Rattle.std.specs.Prelude.{◌≡◌, length, IfOk};
ghost use Rattle.std.specs.Option.{option_copied};
ghost use Rattle.cic_rules.specs.Environments.{decl_at};
ghost use Rattle.cic_rules.specs.Eliminators.{is_in_prop as is_proposition, initial_of_type as initial_by, argument_name as the_argument_name, hypothesis_name as the_hypothesis_name, case_name as the_case_name, value_name as the_value_name};
ghost use Rattle.fresh_names.specs.Letters.{name_of_decl};
ghost use Rattle.inductive_check.specs.Labels.{with_type};

use crate::sorts::{is_prop, sort_at_end};
use base_core::{NoMem, Text};
use cic_rules::{CheckedInductive, Ctor, GlobalEnv, InductiveDecl};
use core_term::Term;
use fresh_names::{Names, free_name, head_constant, initial};
use std::alloc::Global;

/// Whether an inductive type is a proposition.
pub(crate) fn is_in_prop(d: &InductiveDecl) -> bool
    ensures { result ≡ is_proposition d.now }
{
    match sort_at_end(&d.arity) {
        Some(sort) => is_prop(sort),
        None => false,
    }
}

/// The declaration of the inductive type at a place, where the type that is being entered stands
/// behind the environment.
#[tactic(auto, using(crate::proofs::LabelLaws::own_decl, crate::proofs::LabelLaws::other_decl))]
fn decl_in<'a>(env: &'a GlobalEnv, i: &'a CheckedInductive, place: u32) -> Option<&'a InductiveDecl>
    requires { i.now.place ≡ length env.now }
    ensures { option_copied result ≡ decl_at (with_type env.now i.now) place }
{
    if place == i.place {
        return Some(&i.decl);
    }
    env.inductive(place)
}

/// What an argument `_` of this type is called: the first letter of the inductive type not in
/// `Prop` that heads the type, else `H`.
#[tactic(auto, using(crate::proofs::LabelLaws::initial_some, crate::proofs::LabelLaws::initial_none))]
fn initial_of_type(
    alloc: Global,
    env: &GlobalEnv,
    i: &CheckedInductive,
    ty: &Term,
) -> Result<Text, NoMem>
    requires { i.now.place ≡ length env.now }
    ensures { IfOk result (λ text. text ≡ initial_by (with_type env.now i.now) ty.now) }
{
    let Some(place) = head_constant(ty) else {
        return Text::copy(alloc, "H");
    };
    initial_of_place(alloc, env, i, place)
}

fn initial_of_place(
    alloc: Global,
    env: &GlobalEnv,
    i: &CheckedInductive,
    place: u32,
) -> Result<Text, NoMem>
    requires { i.now.place ≡ length env.now }
    ensures { IfOk result (λ text. text ≡ name_of_decl (decl_at (with_type env.now i.now) place)) }
{
    match decl_in(env, i, place) {
        None => Text::copy(alloc, "H"),
        Some(d) => {
            if is_in_prop(d) {
                return Text::copy(alloc, "H");
            }
            initial(alloc, &d.name, 72)
        }
    }
}

/// The name of a constructor's argument: its own, or the automatic one.
pub(crate) fn argument_name(
    alloc: Global,
    env: &GlobalEnv,
    i: &CheckedInductive,
    names: &Names,
    name: &Text,
    ty: &Term,
) -> Result<Text, NoMem>
    requires { i.now.place ≡ length env.now }
    ensures { IfOk result (λ own. own ≡ the_argument_name (with_type env.now i.now) names.now name.now ty.now) }
{
    if name.as_str() != "_" {
        return name.share();
    }
    let stem = initial_of_type(alloc, env, i, ty)?;
    let free = free_name(alloc, names, &stem)?;
    Ok(free)
}

/// The name of an argument's hypothesis.
pub(crate) fn hypothesis_name(alloc: Global, name: &Text) -> Result<Text, NoMem>
    ensures { IfOk result (λ text. text ≡ the_hypothesis_name name.now) }
{
    let mut text = String::from_str(alloc, "IH")?;
    text.push_str(name.as_str())?;
    Text::from_string(alloc, text)
}

/// The name of a constructor's case.
pub(crate) fn case_name(alloc: Global, ctor: &Ctor) -> Result<Text, NoMem>
    ensures { IfOk result (λ text. text ≡ the_case_name ctor.now) }
{
    let mut text = String::from_str(alloc, "f_")?;
    text.push_str(ctor.name.as_str())?;
    Text::from_string(alloc, text)
}

/// The name of the value.
pub(crate) fn value_name(alloc: Global, d: &InductiveDecl) -> Result<Text, NoMem>
    ensures { IfOk result (λ text. text ≡ the_value_name d.now) }
{
    initial(alloc, &d.name, 120)
}
