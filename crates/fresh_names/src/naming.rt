//! Automatic names of hypotheses.
ghost use Rattle.std.specs.Prelude.{◌≡◌, ◌<◌, ◌∷◌, [], ◌++◌, length, IfOk, OnOk, string_bytes};
ghost use Rattle.term_spine.specs.Spine.{head_of, end_of_products};
ghost use Rattle.cic_rules.specs.Environments.{decl_at};
ghost use Rattle.cic_rules.specs.Eliminators.{digits, first_free as first_free_name, free_name as the_free_name, initial as initial_letter, is_prop, one_letter, lower_letter, initial_of_type as initial_by, automatic as the_automatic_name};
ghost use Rattle.fresh_names.specs.Letters.{constant_of, name_of_decl};

use crate::names::Names;
use base_core::{NoMem, Text};
use cic_rules::GlobalEnv;
use core_term::{Node, Sort, Term};
use std::alloc::Global;

/// A number in decimal digits behind a text.
#[tactic(auto, using(crate::proofs::LabelLaws::digits_one))]
fn push_digits(text: &mut String, n: usize) -> Result<(), NoMem>
    ensures { OnOk result (string_bytes text.new ≡ string_bytes text.old ++ digits n) }
{
    if n < 10 {
        return push_letter(text, 48 + n as u8);
    }
    push_digits(text, n / 10)?;
    push_letter(text, 48 + (n % 10) as u8)
}

fn push_letter(text: &mut String, letter: u8) -> Result<(), NoMem>
    requires { letter < 128 }
    ensures { OnOk result (string_bytes text.new ≡ string_bytes text.old ++ letter ∷ []) }
{
    text.push(letter as char)?;
    Ok(())
}

/// A stem with a number behind it.
fn numbered(alloc: Global, stem: &Text, n: usize) -> Result<Text, NoMem>
    ensures { IfOk result (λ name. name ≡ stem.now ++ digits n) }
{
    let mut text = String::from_str(alloc, stem.as_str())?;
    push_digits(&mut text, n)?;
    Text::from_string(alloc, text)
}

/// The first of the stem with 0, 1 and so on behind it that is free.
#[tactic(auto, using(crate::proofs::LabelLaws::is_taken, crate::proofs::LabelLaws::is_free, crate::proofs::LabelLaws::is_last))]
fn first_free(alloc: Global, names: &Names, stem: &Text) -> Result<Text, NoMem>
    ensures { IfOk result (λ free. free ≡ first_free_name (length names.now) names.now stem.now 0) }
{
    let count = names.len();
    let mut free = numbered(alloc, stem, 0)?;
    for k in 0..count {
        if !names.has(&free) {
            return Ok(free);
        }
        free = numbered(alloc, stem, k + 1)?;
    }
    Ok(free)
}

/// The first of the stem and the stem with a number behind it that is free.
pub fn free_name(alloc: Global, names: &Names, stem: &Text) -> Result<Text, NoMem>
    ensures { IfOk result (λ free. free ≡ the_free_name names.now stem.now) }
{
    if !names.has(stem) {
        return stem.share();
    }
    let free = first_free(alloc, names, stem)?;
    Ok(free)
}

/// The first letter of a name in lower case, where it is an ASCII letter, else another.
pub fn initial(alloc: Global, name: &Text, other: u8) -> Result<Text, NoMem>
    requires { other < 128 }
    ensures { IfOk result (λ text. text ≡ initial_letter name.now other) }
{
    let letter = match name.as_str().as_bytes() {
        [] => other,
        [first, ..] => lower_letter(*first, other),
    };
    let mut text = String::new(alloc);
    push_letter(&mut text, letter)?;
    Text::from_string(alloc, text)
}

fn lower_letter(letter: u8, other: u8) -> u8
    requires { other < 128 }
    ensures letter { result ∷ [] ≡ one_letter (lower_letter letter) other }
    ensures ascii { result < 128 }
{
    if 65 <= letter && letter <= 90 {
        letter + 32
    } else if 97 <= letter && letter <= 122 {
        letter
    } else {
        other
    }
}

/// The global that heads a term.
pub fn head_constant(t: &Term) -> Option<u32>
    ensures { result ≡ constant_of (head_of t.now) }
{
    match t.node() {
        Node::App { function, .. } => head_constant(function),
        Node::Constant(c) => Some(*c),
        Node::Var(_) => None,
        Node::Sorted(_) => None,
        Node::Prod { .. } => None,
        Node::Lam { .. } => None,
        Node::LetIn { .. } => None,
    }
}

/// What a binder `_` of this type is called: the first letter of the inductive type not in `Prop` that heads
/// the type, else `H`.
#[tactic(auto, using(crate::proofs::LabelLaws::initial_some, crate::proofs::LabelLaws::initial_none))]
fn initial_of_type(alloc: Global, env: &GlobalEnv, ty: &Term) -> Result<Text, NoMem>
    ensures { IfOk result (λ text. text ≡ initial_by env.now ty.now) }
{
    let Some(place) = head_constant(ty) else {
        return Text::copy(alloc, "H");
    };
    initial_of_place(alloc, env, place)
}

fn initial_of_place(alloc: Global, env: &GlobalEnv, place: u32) -> Result<Text, NoMem>
    ensures { IfOk result (λ text. text ≡ name_of_decl (decl_at env.now place)) }
{
    match env.inductive(place) {
        None => Text::copy(alloc, "H"),
        Some(d) => {
            if ends_in_prop(&d.arity) {
                return Text::copy(alloc, "H");
            }
            initial(alloc, &d.name, 72)
        }
    }
}

/// Whether a type ends in `Prop`.
fn ends_in_prop(t: &Term) -> bool
    ensures { result ≡ is_prop (end_of_products t.now) }
{
    match t.node() {
        Node::Prod { codomain, .. } => ends_in_prop(codomain),
        Node::Sorted(Sort::PropSort) => true,
        Node::Sorted(Sort::SetSort) => false,
        Node::Sorted(Sort::TypeSort(_)) => false,
        Node::Var(_) => false,
        Node::Constant(_) => false,
        Node::Lam { .. } => false,
        Node::LetIn { .. } => false,
        Node::App { .. } => false,
    }
}

/// The automatic name of a binder of this name and type.
pub fn automatic(
    alloc: Global,
    env: &GlobalEnv,
    names: &Names,
    name: &Text,
    ty: &Term,
) -> Result<Text, NoMem>
    ensures { IfOk result (λ own. own ≡ the_automatic_name env.now names.now name.now ty.now) }
{
    if name.as_str() != "_" {
        return free_name(alloc, names, name);
    }
    let stem = initial_of_type(alloc, env, ty)?;
    free_name(alloc, names, &stem)
}
