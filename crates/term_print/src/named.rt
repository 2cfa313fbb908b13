//! Terms whose binders are named `_` exactly where their variables are not used: in one pass, so
//! that no binder walks over what is under it once more.
ghost use Rattle.std.specs.Prelude.{◌≡◌, IfOk, OnOk};
ghost use Rattle.core_term.specs.Tree.{Var};
ghost use Rattle.core_term.specs.Answers.{within_limits, Gives};
ghost use Rattle.term_print.specs.Named.{own_name, is_named, named, marked, marked_under, GivesUnder};

use crate::scope::stem_of;
use base_core::{NoMem, Text};
use core_term::{Node, Term, TermStop};
use std::alloc::Global;

/// Whether the binder of this name is used.
pub fn is_named(name: &Text) -> bool
    ensures { result ≡ is_named name.now }
{
    name.as_str() != "_"
}

/// The term, where each product and each function is named `_` exactly where its variable is not
/// used.
#[tactic(auto, using(crate::proofs::NamedLaws::named_small))]
pub fn named(alloc: Global, t: &Term) -> Result<Term, NoMem>
    ensures { IfOk result (λ u. u ≡ named t.now) }
{
    let _size = t.size();
    let mut open = Vec::new(alloc);
    match named_in(alloc, t, &mut open) {
        Ok(named) => Ok(named),
        Err(TermStop::NoMem) => Err(NoMem),
        Err(TermStop::TooLarge) => unreachable!(),
    }
}

/// The same of a part, which marks those of the open binders around it that it uses, the newest
/// last.
#[cycle(naming)]
fn named_in(alloc: Global, t: &Term, open: &mut Vec<bool>) -> Result<Term, TermStop>
    ensures term { Gives result (within_limits (named t.now)) }
    ensures marks { OnOk result (open.new.items ≡ marked t.now open.old.items) }
{
    match t.node() {
        Node::Var(i) => {
            mark(open, *i);
            Ok(t.share()?)
        }
        Node::Sorted(_) => Ok(t.share()?),
        Node::Constant(_) => Ok(t.share()?),
        Node::Prod {
            name,
            domain,
            codomain,
        } => {
            let a = named_in(alloc, domain, open)?;
            let (b, used) = named_under(alloc, codomain, open)?;
            let own = own_name(alloc, used, name)?;
            Term::prod(alloc, own, a, b)
        }
        Node::Lam { name, domain, body } => {
            let a = named_in(alloc, domain, open)?;
            let (b, used) = named_under(alloc, body, open)?;
            let own = own_name(alloc, used, name)?;
            Term::lam(alloc, own, a, b)
        }
        Node::LetIn {
            name,
            ty,
            value,
            body,
        } => {
            let a = named_in(alloc, ty, open)?;
            let v = named_in(alloc, value, open)?;
            let (b, _) = named_under(alloc, body, open)?;
            Term::let_in(alloc, name.share()?, a, v, b)
        }
        Node::App { function, argument } => {
            let f = named_in(alloc, function, open)?;
            let a = named_in(alloc, argument, open)?;
            Term::app(alloc, f, a)
        }
    }
}

/// What is under a binder, and whether it uses the binder's variable.
#[cycle(naming)]
fn named_under(alloc: Global, body: &Term, open: &mut Vec<bool>) -> Result<(Term, bool), TermStop>
    ensures term { GivesUnder result body.now }
    ensures marks { OnOk result (open.new.items ≡ marked_under body.now open.old.items) }
{
    open.push(false)?;
    let b = named_in(alloc, body, open)?;
    match open.pop() {
        Some(used) => Ok((b, used)),
        None => unreachable!(),
    }
}

/// Marks the binder of a variable, where it is open.
fn mark(open: &mut Vec<bool>, i: u32)
    ensures { open.new.items ≡ marked (Var i) open.old.items }
{
    let count = open.len();
    let back = i as usize;
    if back < count {
        open[count - 1 - back] = true;
    }
}

/// The name that a binder has where its variable is used, or not.
fn own_name(alloc: Global, used: bool, name: &Text) -> Result<Text, NoMem>
    ensures { IfOk result (λ own. own ≡ own_name used name.now) }
{
    if used {
        stem_of(alloc, name)
    } else {
        Text::copy(alloc, "_")
    }
}
