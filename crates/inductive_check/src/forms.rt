//! The form of a constructor's type: that it ends in the inductive type, and where the type may
//! stand in its arguments.
ghost use Rattle.std.specs.Prelude.{◌≡◌, ◌+◌, ◌^◌, ◌<◌, ◌≤◌, take, drop, IfOk};
ghost use Rattle.core_term.specs.Tree.{Var, depth_of, same_tree};
ghost use Rattle.term_spine.specs.Globals.{mentions as is_mentioned};
ghost use Rattle.term_spine.specs.Spine.{head_of, arguments_of, same_trees, count_products as products_of};
ghost use Rattle.cic_rules.specs.Inductive.{is_family as is_the_family, is_absent};
ghost use Rattle.inductive_check.specs.Forms.{params_under, applied_spine, family_spine, is_constructor_at, is_recursive_at, is_positive_argument, is_positive_at, are_positive_at};

use base_core::NoMem;
use cic_rules::Ctor;
use core_term::{Node, Term, TermStop};
use std::alloc::Global;
use term_spine::{Arguments, Spine, spine_of};

/// An inductive type as the form of its constructors sees it: where it stands, and how many
/// parameters and indices it has.
#[derive(Clone, Copy)]
pub(crate) struct Form {
    pub(crate) place: u32,
    pub(crate) params: usize,
    pub(crate) indices: usize,
}

/// How many products stand in front.
pub(crate) fn count_products(t: &Term) -> usize
    ensures count { result ≡ products_of t.now }
    ensures few { result ≤ depth_of t.now }
{
    let _depth = t.depth();
    match t.node() {
        Node::Prod { codomain, .. } => 1 + count_products(codomain),
        _ => 0,
    }
}

/// Whether the global at a place stands in a term.
#[tactic(auto, using(cic_rules::proofs::ShapeLaws::has_append))]
pub(crate) fn mentions(t: &Term, place: u32) -> bool
    ensures { result ≡ is_mentioned place t.now }
{
    match t.node() {
        Node::Var(_) => false,
        Node::Sorted(_) => false,
        Node::Constant(c) => *c == place,
        Node::Prod {
            domain,
            codomain,
            ..
        } => mentions(domain, place) || mentions(codomain, place),
        Node::Lam { domain, body, .. } => mentions(domain, place) || mentions(body, place),
        Node::LetIn {
            ty,
            value,
            body,
            ..
        } => mentions(ty, place) || mentions(value, place) || mentions(body, place),
        Node::App { function, argument } => {
            mentions(function, place) || mentions(argument, place)
        }
    }
}

/// The head and the arguments of a term.
pub(crate) fn spine(alloc: Global, t: &Term) -> Result<Spine, NoMem>
    ensures head { IfOk result (λ s. s.head ≡ head_of t.now) }
    ensures args { IfOk result (λ s. s.args ≡ arguments_of t.now) }
{
    let _size = t.size();
    let whole = t.share()?;
    match spine_of(alloc, whole, Arguments::empty()) {
        Ok(spine) => Ok(spine),
        Err(TermStop::NoMem) => Err(NoMem),
        Err(TermStop::TooLarge) => unreachable!(),
    }
}

fn is_family(head: &Term, place: u32) -> bool
    ensures { result ≡ is_the_family place head.now }
{
    match head.node() {
        Node::Constant(c) => *c == place,
        _ => false,
    }
}

fn is_variable(t: &Term, index: u64) -> bool
    ensures { result ≡ same_tree t.now (Var index) }
{
    match t.node() {
        Node::Var(i) => u64::from(*i) == index,
        _ => false,
    }
}

/// Whether these begin with the parameters, which are so many, below so many further binders.
fn begin_with_params(args: &Arguments, count: usize, binders: u64) -> Result<bool, NoMem>
    requires { count + binders < 2 ^ 64 }
    ensures { IfOk result (λ b. b ≡ same_trees (take count args.now) (params_under binders count)) }
{
    if count == 0 {
        return Ok(true);
    }
    match args.split()? {
        None => Ok(false),
        Some((first, rest)) => {
            if !is_variable(&first, (count - 1) as u64 + binders) {
                return Ok(false);
            }
            begin_with_params(&rest, count - 1, binders)
        }
    }
}

/// Whether the type does not stand in the arguments behind so many.
fn is_absent_behind(args: &Arguments, skip: usize, place: u32) -> Result<bool, NoMem>
    ensures { IfOk result (λ b. b ≡ is_absent place (drop skip args.now)) }
{
    match args.split()? {
        None => Ok(true),
        Some((first, rest)) => {
            if skip > 0 {
                return is_absent_behind(&rest, skip - 1, place);
            }
            if mentions(&first, place) {
                return Ok(false);
            }
            is_absent_behind(&rest, 0, place)
        }
    }
}

/// Whether a spine is the type applied to exactly its parameters and to indices without the type.
fn is_applied_spine(s: &Spine, form: Form, binders: u64) -> Result<bool, NoMem>
    requires { form.params + binders < 2 ^ 64 }
    ensures { IfOk result (λ b. b ≡ applied_spine form binders s.now.head s.now.args) }
{
    if !is_family(&s.head, form.place) {
        return Ok(false);
    }
    if !begin_with_params(&s.args, form.params, binders)? {
        return Ok(false);
    }
    is_absent_behind(&s.args, form.params, form.place)
}

/// The same of a term.
fn is_applied(alloc: Global, form: Form, t: &Term, binders: u64) -> Result<bool, NoMem>
    requires { form.params + binders < 2 ^ 64 }
    ensures { IfOk result (λ b. b ≡ applied_spine form binders (head_of t.now) (arguments_of t.now)) }
{
    let s = spine(alloc, t)?;
    is_applied_spine(&s, form, binders)
}

/// The same with as many indices as there should be.
fn is_family_term(alloc: Global, form: Form, t: &Term, binders: u64) -> Result<bool, NoMem>
    requires { form.params + form.indices + binders < 2 ^ 64 }
    ensures { IfOk result (λ b. b ≡ family_spine form binders (head_of t.now) (arguments_of t.now)) }
{
    let s = spine(alloc, t)?;
    if !is_applied_spine(&s, form, binders)? {
        return Ok(false);
    }
    Ok(s.args.len() as u64 == form.params as u64 + form.indices as u64)
}

/// Whether a type is that of a constructor: a row of products that ends in the type, applied to the
/// parameters and to as many indices as there should be. It stands below so many binders.
#[tactic(auto, using(crate::proofs::FormLaws::constructor_end))]
pub(crate) fn is_constructor(
    alloc: Global,
    form: Form,
    t: &Term,
    binders: u64,
) -> Result<bool, NoMem>
    requires room { form.params + form.indices + binders + depth_of t.now < 2 ^ 64 }
    ensures { IfOk result (λ b. b ≡ is_constructor_at form binders t.now) }
{
    match t.node() {
        Node::Prod { codomain, .. } => is_constructor(alloc, form, codomain, binders + 1),
        _ => is_family_term(alloc, form, t, binders),
    }
}

/// Whether the type stands in an argument's type only at its end, behind products whose domains do
/// not have it.
#[tactic(auto, using(crate::proofs::FormLaws::recursive_end))]
fn is_recursive(alloc: Global, form: Form, t: &Term, binders: u64) -> Result<bool, NoMem>
    requires room { form.params + binders + depth_of t.now < 2 ^ 64 }
    ensures { IfOk result (λ b. b ≡ is_recursive_at form binders t.now) }
{
    match t.node() {
        Node::Prod {
            domain,
            codomain,
            ..
        } => {
            if mentions(domain, form.place) {
                return Ok(false);
            }
            is_recursive(alloc, form, codomain, binders + 1)
        }
        _ => is_applied(alloc, form, t, binders),
    }
}

/// Whether an argument's type either does not have the type, or has it at its end alone.
fn is_positive_argument(alloc: Global, form: Form, a: &Term, binders: u64) -> Result<bool, NoMem>
    requires room { form.params + binders + depth_of a.now < 2 ^ 64 }
    ensures { IfOk result (λ b. b ≡ is_positive_argument form binders a.now) }
{
    if !mentions(a, form.place) {
        return Ok(true);
    }
    is_recursive(alloc, form, a, binders)
}

/// The same of each argument of a constructor.
#[tactic(auto, using(crate::proofs::FormLaws::positive_end))]
fn is_positive(alloc: Global, form: Form, t: &Term, binders: u64) -> Result<bool, NoMem>
    requires room { form.params + binders + depth_of t.now < 2 ^ 64 }
    ensures { IfOk result (λ b. b ≡ is_positive_at form binders t.now) }
{
    match t.node() {
        Node::Prod {
            domain,
            codomain,
            ..
        } => {
            if !is_positive_argument(alloc, form, domain, binders)? {
                return Ok(false);
            }
            is_positive(alloc, form, codomain, binders + 1)
        }
        _ => Ok(true),
    }
}

/// The same of each constructor.
pub(crate) fn are_positive(alloc: Global, form: Form, ctors: &[Ctor]) -> Result<bool, NoMem>
    requires { form.params + 1000 < 2 ^ 64 }
    ensures { IfOk result (λ b. b ≡ are_positive_at form ctors.now) }
{
    for ctor in ctors {
        let _depth = ctor.ty.depth();
        if !is_positive(alloc, form, &ctor.ty, 0)? {
            return Ok(false);
        }
    }
    Ok(true)
}
