//! What reduction asks of an inductive type, told once when it is entered.

ghost use Rattle.std.specs.Prelude.{◌≡◌, ◌≤◌, ◌++◌, IfOk, OnOk};
ghost use Rattle.core_term.specs.Tree.{depth_of};
ghost use Rattle.term_spine.specs.Globals.{mentions as is_mentioned};
ghost use Rattle.term_spine.specs.Spine.{count_products as products_of};
ghost use Rattle.cic_rules.specs.Shapes.{recursive_of, recursive_in, shape_of as shape, shape_if_any as any_shape};

use crate::decls::{Ctor, InductiveDecl};
use base_core::{List, NoMem};
use core_term::{Node, Term};
use std::alloc::Global;

/// The counts of a declaration, and which arguments of its constructors are recursive.
#[derive(Drop)]
pub struct FamilyShape {
    /// How many parameters there are.
    pub params: usize,
    /// How many arguments of an eliminator stand before the indices.
    pub fixed: usize,
    /// How many stand before the major premise.
    pub major: usize,
    /// For each argument of each constructor, whether it is recursive.
    pub recursive: List<List<bool>>,
}

/// The shape of the inductive type at a place, if there is one.
pub(crate) fn shape_if_any(
    alloc: Global,
    place: u32,
    decl: &Option<InductiveDecl>,
) -> Result<Option<FamilyShape>, NoMem>
    ensures { IfOk result (λ s. s ≡ any_shape place decl.now) }
{
    match decl {
        Some(decl) => Ok(Some(shape_of(alloc, place, decl)?)),
        None => Ok(None),
    }
}

fn shape_of(alloc: Global, place: u32, decl: &InductiveDecl) -> Result<FamilyShape, NoMem>
    ensures { IfOk result (λ s. s ≡ shape place decl.now) }
{
    let params = decl.params.as_slice().len();
    let fixed = params + 1 + decl.ctors.as_slice().len();
    let major = fixed + count_products(&decl.arity) as usize;
    let mut recursive = List::new(alloc);
    mark_ctors(alloc, place, decl.ctors.as_slice(), &mut recursive)?;
    Ok(FamilyShape {
        params,
        fixed,
        major,
        recursive,
    })
}

/// How many products stand in front.
fn count_products(t: &Term) -> u32
    ensures count { result ≡ products_of t.now }
    ensures few { result ≤ depth_of t.now }
    ensures shallow { result ≤ 1000 }
{
    let _depth = t.depth();
    match t.node() {
        Node::Prod { codomain, .. } => 1 + count_products(codomain),
        _ => 0,
    }
}

fn mark_ctors(
    alloc: Global,
    place: u32,
    ctors: &[Ctor],
    marks: &mut List<List<bool>>,
) -> Result<(), NoMem>
    ensures { OnOk result (marks.new ≡ marks.old ++ recursive_in place ctors.now) }
{
    for ctor in ctors {
        let mut arguments = List::new(alloc);
        mark_arguments(place, &ctor.ty, &mut arguments)?;
        marks.push(arguments)?;
    }
    Ok(())
}

fn mark_arguments(place: u32, ty: &Term, marks: &mut List<bool>) -> Result<(), NoMem>
    ensures { OnOk result (marks.new ≡ marks.old ++ recursive_of place ty.now) }
{
    match ty.node() {
        Node::Prod {
            domain,
            codomain,
            ..
        } => {
            marks.push(mentions(domain, place))?;
            mark_arguments(place, codomain, marks)
        }
        _ => Ok(()),
    }
}

/// Whether the global at a place stands in a term.
#[tactic(auto, using(crate::proofs::ShapeLaws::has_append))]
fn mentions(t: &Term, place: u32) -> bool
    ensures { result ≡ is_mentioned place t.now }
{
    match t.node() {
        Node::Var(_) => false,
        Node::Sorted(_) => false,
        Node::Constant(c) => *c == place,
        Node::Prod {
            domain,
            codomain,
            ..
        } => mentions(domain, place) || mentions(codomain, place),
        Node::Lam { domain, body, .. } => mentions(domain, place) || mentions(body, place),
        Node::LetIn {
            ty,
            value,
            body,
            ..
        } => mentions(ty, place) || mentions(value, place) || mentions(body, place),
        Node::App { function, argument } => {
            mentions(function, place) || mentions(argument, place)
        }
    }
}
