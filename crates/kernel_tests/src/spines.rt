//! Spines, instantiation and globals.
ghost use Rattle.std.specs.Prelude.{◌≡◌, [], ◌∷◌, IfOk};
ghost use Rattle.core_term.specs.Tree.{Var, App, Constant};

use crate::notation::{applied, term};
use core_term::Term;
use shared_map::SharedList;
use std::alloc::Global;
use std::test::Fail;
use term_spine::{Arguments, Spine, globals, instantiate, spine_of};

// A spine taken apart and put together is the term.
#[test]
fn apart(rt: HostRuntime) -> Result<(), Fail> {
    let alloc = rt.alloc();
    for count in [0, 1, 2, 999] {
        let whole = applied(alloc, count)?;
        let spine = spine_of(alloc, whole.share()?, Arguments::empty())?;
        assert_eq!(rt; spine.args.len(), count);
        let again = spine.whole(alloc)?;
        assert!(rt; again.equal(&whole));
    }
    Ok(())
}

// One turn puts the head before the arguments and takes it off again.
fn turn(alloc: Global, spine: Spine) -> Result<Spine, Fail> {
    let Spine { head, args } = spine;
    let args = args.with_first(alloc, head)?;
    match args.split()? {
        Some((head, args)) => Ok(spine_of(alloc, head, args)?),
        None => Err(Fail::from("no argument")),
    }
}

// With 990 arguments behind it a turn takes no longer.
#[test]
fn turns(rt: HostRuntime) -> Result<(), Fail> {
    let alloc = rt.alloc();
    let mut spine = spine_of(alloc, applied(alloc, 990)?, Arguments::empty())?;
    for _ in 0..100000 {
        spine = turn(alloc, spine)?;
    }
    assert_eq!(rt; spine.args.len(), 990);
    Ok(())
}

fn open_term(alloc: Global) -> Result<Term, Fail>
    ensures { IfOk result (λ t. t ≡ App (Var 0) (Var 1)) }
{
    let function = Term::var(alloc, 0)?;
    let argument = Term::var(alloc, 1)?;
    Ok(Term::app(alloc, function, argument)?)
}

fn one_value(alloc: Global) -> Result<SharedList<Term>, Fail>
    ensures { IfOk result (λ values. values ≡ Constant 3 ∷ []) }
{
    let value = Term::constant(alloc, 3)?;
    Ok(SharedList::empty().with_first(alloc, value)?)
}

// The variable behind the one that has a value comes down.
#[test]
fn instantiation(rt: HostRuntime) -> Result<(), Fail> {
    let alloc = rt.alloc();
    let answer = instantiate(alloc, &open_term(alloc)?, &one_value(alloc)?)?;
    let wanted = term(alloc, "d0@")?;
    assert!(rt; answer.equal(&wanted));
    Ok(())
}

// Each global once, ascending: also those of a let's type and value.
#[test]
fn places(rt: HostRuntime) -> Result<(), Fail> {
    let alloc = rt.alloc();
    let found = globals(alloc, &term(alloc, "fhjfc@@=")?)?;
    assert_eq!(rt; found.as_slice(), [2, 5, 7, 9].as_slice());
    Ok(())
}
