//! Which globals a term names.
ghost use Rattle.std.specs.Prelude.{◌≡◌, ◌++◌, IfOk, OnOk};
ghost use Rattle.term_spine.specs.Globals.{globals_of, places_in};

use base_core::{NoMem, NumberList};
use core_term::{Node, Term};
use std::alloc::Global;

/// The places of the globals of a term, ascending, each once.
pub fn globals(alloc: Global, t: &Term) -> Result<NumberList, NoMem>
    ensures { IfOk result (λ places. places ≡ places_in (globals_of t.now)) }
{
    let mut places = Vec::new(alloc);
    collect(t, &mut places)?;
    places.sort_unstable();
    places.dedup();
    Ok(NumberList::from_vec(places))
}

/// Adds the places in the order in which they stand in the term.
fn collect(t: &Term, places: &mut Vec<u32>) -> Result<(), NoMem>
    ensures { OnOk result (places.new.items ≡ places.old.items ++ globals_of t.now) }
{
    match t.node() {
        Node::Var(_) | Node::Sorted(_) => {}
        Node::Constant(c) => places.push(*c)?,
        Node::Prod {
            domain,
            codomain,
            ..
        } => {
            collect(domain, places)?;
            collect(codomain, places)?;
        }
        Node::Lam { domain, body, .. } => {
            collect(domain, places)?;
            collect(body, places)?;
        }
        Node::LetIn {
            ty,
            value,
            body,
            ..
        } => {
            collect(ty, places)?;
            collect(value, places)?;
            collect(body, places)?;
        }
        Node::App { function, argument } => {
            collect(function, places)?;
            collect(argument, places)?;
        }
    }
    Ok(())
}
