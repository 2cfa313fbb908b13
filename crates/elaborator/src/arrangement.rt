//! Arguments with names: in which order the arguments of an application stand.
ghost use Rattle.std.specs.Prelude.{◌≡◌, ◌++◌, ◌<◌, IfOk, IfSome, OnOk};
ghost use Rattle.base_core.specs.Answers.{Gives};
ghost use Rattle.coq_syntax.specs.Trees.{NoArgument};
ghost use Rattle.coq_syntax.specs.Nodes.{arguments_of, with_argument};
ghost use Rattle.core_term.specs.Tree.{depth_of};
ghost use Rattle.cic_rules.specs.Steps.{answer_of};
ghost use Rattle.elaborator.specs.Arrangement.{has_named, product_of, free_seats, take_seat, seated, positions, any_taken, filled, order_by, unseated, order};

use crate::names::{declared_type, refusal};
use crate::scope::Scope;
use base_core::refusal_codes::{ARGUMENT_MISSING, ARGUMENT_TWICE, NO_SUCH_ARGUMENT};
use base_core::{List, NoMem, Stop, Text};
use cic_rules::GlobalEnv;
use coq_syntax::{Argument, Node, SurfaceTerm, TokenPlace};
use core_term::{Node as TermNode, Term};
use std::alloc::Global;
use std::marker::Model;

/// Arguments by their numbers in the order in which they are written, from 0 on.
pub(crate) type Order = List<usize>;

/// The leading products of a type, each with the number of the argument that took it.
#[derive(Drop)]
struct Seats {
    items: Vec<Option<usize>>,
}

impl Model for Seats {
    ghost use Rattle.std.specs.Prelude.{ℕ, List, Option};

    ghost Value = { List (Option ℕ) };

    ghost view = { λ s. s.items.items };
}

impl Seats {
    /// A seat for each leading product, each still free.
    fn free(alloc: Global, ty: &Term) -> Result<Seats, NoMem>
        ensures { IfOk result (λ s. s ≡ free_seats ty.now) }
    {
        let mut items = Vec::new(alloc);
        push_seats(ty, &mut items)?;
        Ok(Seats { items })
    }

    /// An argument takes a seat; refused with 42 at its name where another has it.
    fn take(self, k: usize, place: TokenPlace, seat: usize) -> Result<Seats, Stop>
        ensures { Gives result (answer_of (take_seat self k place seat)) }
    {
        match self.items.as_slice().get(seat) {
            Some(Some(_)) => Err(refusal(ARGUMENT_TWICE, place)),
            Some(None) => {
                let mut items = self.items;
                items[seat] = Some(k);
                Ok(Seats { items })
            }
            None => Ok(self),
        }
    }
}

fn push_seats(ty: &Term, seats: &mut Vec<Option<usize>>) -> Result<(), NoMem>
    ensures { OnOk result (seats.new.items ≡ seats.old.items ++ free_seats ty.now) }
{
    match ty.node() {
        TermNode::Prod { codomain, .. } => {
            seats.push(None)?;
            push_seats(codomain, seats)
        }
        _ => Ok(()),
    }
}

/// Whether an argument with a name is among them.
pub(crate) fn has_named(arguments: &[Argument]) -> bool
    ensures { result ≡ has_named (arguments_of arguments.now) }
{
    for argument in arguments {
        match argument {
            Argument::Positional(_) => {}
            Argument::Given { .. } => return true,
        }
    }
    false
}

/// The first leading product of a name, in a type as it stands.
fn product_of(ty: &Term, name: &Text) -> Option<usize>
    ensures place { result ≡ product_of ty.now name.now }
    ensures within { IfSome result (λ i. i < depth_of ty.now) }
{
    let _depth = ty.depth();
    match ty.node() {
        TermNode::Prod {
            name: own,
            codomain,
            ..
        } => {
            if name == own {
                return Some(0);
            }
            match product_of(codomain, name) {
                Some(i) => Some(i + 1),
                None => None,
            }
        }
        _ => None,
    }
}

/// The seats, with the arguments that have names in theirs; refused with 41 and 42 from the left.
fn seated(ty: &Term, seats: Seats, arguments: &[Argument]) -> Result<Seats, Stop>
    ensures { Gives result (answer_of (seated ty.now seats 0 (arguments_of arguments.now))) }
{
    let mut seats = seats;
    for k in 0..arguments.len() {
        seats = seat(ty, seats, k, &arguments[k])?;
    }
    Ok(seats)
}

/// One argument takes its seat, if it has a name.
fn seat(ty: &Term, seats: Seats, k: usize, argument: &Argument) -> Result<Seats, Stop>
    ensures { Gives result (answer_of (seated ty.now seats k (with_argument argument.now NoArgument))) }
{
    match argument {
        Argument::Positional(_) => Ok(seats),
        Argument::Given { name, .. } => match product_of(ty, &name.text) {
            Some(seat) => seats.take(k, name.place, seat),
            None => Err(refusal(NO_SUCH_ARGUMENT, name.place)),
        },
    }
}

/// The arguments without a name.
fn positions(alloc: Global, arguments: &[Argument]) -> Result<Order, NoMem>
    ensures { IfOk result (λ ks. ks ≡ positions 0 (arguments_of arguments.now)) }
{
    let mut ks = Order::new(alloc);
    for k in 0..arguments.len() {
        match &arguments[k] {
            Argument::Positional(_) => ks.push(k)?,
            Argument::Given { .. } => {}
        }
    }
    Ok(ks)
}

fn any_taken(seats: &[Option<usize>]) -> bool
    ensures { result ≡ any_taken seats.now }
{
    for seat in seats {
        match seat {
            Some(_) => return true,
            None => {}
        }
    }
    false
}

/// The arguments in order, behind those that are done; refused with 43 at the head where a seat
/// stays free before one that is taken.
fn filled(
    head: TokenPlace,
    done: Order,
    seats: &[Option<usize>],
    ks: &[usize],
) -> Result<Order, Stop>
    ensures { Gives result (answer_of (filled head done seats.now ks.now)) }
{
    match seats.split_first() {
        None => Ok(followed(done, ks)?),
        Some((Some(k), seats)) => {
            let mut done = done;
            done.push(*k)?;
            filled(head, done, seats, ks)
        }
        Some((None, seats)) => match ks.split_first() {
            Some((k, ks)) => {
                let mut done = done;
                done.push(*k)?;
                filled(head, done, seats, ks)
            }
            None => {
                if any_taken(seats) {
                    Err(refusal(ARGUMENT_MISSING, head))
                } else {
                    Ok(done)
                }
            }
        },
    }
}

/// The first arguments, and the others behind them.
fn followed(done: Order, ks: &[usize]) -> Result<Order, NoMem>
    ensures { IfOk result (λ all. all ≡ done ++ ks.now) }
{
    let mut all = done;
    for k in ks {
        all.push(*k)?;
    }
    Ok(all)
}

/// The order of the arguments of a head that was declared with this type.
fn order_by(
    alloc: Global,
    head: TokenPlace,
    ty: &Term,
    arguments: &[Argument],
) -> Result<Order, Stop>
    ensures { Gives result (answer_of (order_by head ty.now (arguments_of arguments.now))) }
{
    let free = Seats::free(alloc, ty)?;
    let seats = seated(ty, free, arguments)?;
    let ks = positions(alloc, arguments)?;
    filled(
        head,
        Order::new(alloc),
        seats.items.as_slice(),
        ks.as_slice(),
    )
}

/// A head without products: the first argument with a name is refused with 41.
fn unseated(alloc: Global, arguments: &[Argument]) -> Result<Order, Stop>
    ensures { Gives result (answer_of (unseated (arguments_of arguments.now))) }
{
    for argument in arguments {
        match argument {
            Argument::Positional(_) => {}
            Argument::Given { name, .. } => return Err(refusal(NO_SUCH_ARGUMENT, name.place)),
        }
    }
    Ok(Order::new(alloc))
}

/// The order of arguments of which one at least has a name.
pub(crate) fn order(
    alloc: Global,
    env: &GlobalEnv,
    scope: &Scope,
    head: &SurfaceTerm,
    arguments: &[Argument],
) -> Result<Order, Stop>
    ensures { Gives result (answer_of (order env.now scope.now head.now (arguments_of arguments.now))) }
{
    match head.node() {
        Node::Name(word) => match declared_type(env, scope, &word.text)? {
            Some(ty) => order_by(alloc, word.place, &ty, arguments),
            None => unseated(alloc, arguments),
        },
        _ => unseated(alloc, arguments),
    }
}
