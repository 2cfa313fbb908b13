//! Fuel, contexts and environments.
use base_core::{NumberList, Text};
use cic_rules::{Context, Entry, EntryKind, Fuel, GlobalEnv, Hyp};
use core_term::{Sort, Term};
use std::alloc::Global;
use std::test::Fail;

#[test]
fn fuel(rt: HostRuntime) {
    let mut fuel = Fuel::new(3);
    assert!(rt; fuel.spend(2));
    assert!(rt; !fuel.spend(2));
    assert_eq!(rt; fuel.spent(), 3);
    let entered = fuel.enter();
    assert!(rt; entered);
    fuel.leave();
}

fn assume(alloc: Global, env: &GlobalEnv, name: &str) -> Result<GlobalEnv, Fail> {
    let name = Text::copy(alloc, name)?;
    if let Some(_) = env.place_of(&name) {
        return Err(Fail::from("the name is taken"));
    }
    let ty = Term::sort(alloc, Sort::PropSort)?;
    let entry = Entry {
        name,
        ty,
        kind: EntryKind::Assumed,
        used: NumberList::new(alloc),
    };
    match env.with_entry(alloc, entry) {
        Ok(env) => Ok(env),
        Err(_) => Err(Fail::from("no environment")),
    }
}

#[test]
fn environments(rt: HostRuntime) -> Result<(), Fail> {
    let alloc = rt.alloc();
    let one = assume(alloc, &GlobalEnv::empty(), "B")?;
    let two = assume(alloc, &one, "A")?;
    let name = Text::copy(alloc, "A")?;
    assert_eq!(rt; one.place_of(&name), None);
    assert_eq!(rt; two.place_of(&name), Some(1));
    assert!(rt; two.inductive(1).is_none());
    Ok(())
}

// x : Prop
fn context(alloc: Global) -> Result<Context, Fail> {
    let hyp = Hyp {
        name: Text::copy(alloc, "x")?,
        ty: Term::sort(alloc, Sort::PropSort)?,
        value: None,
    };
    match Context::empty().with(alloc, hyp) {
        Ok(ctx) => Ok(ctx),
        Err(_) => Err(Fail::from("no context")),
    }
}

#[test]
fn contexts(rt: HostRuntime) -> Result<(), Fail> {
    let alloc = rt.alloc();
    let old = context(alloc)?;
    if old.len() == 0 {
        return Err(Fail::from("an empty context"));
    }
    let new = old.rename(alloc, 0, Text::copy(alloc, "y")?)?;
    for (ctx, wanted) in [(old, "x"), (new, "y")] {
        let name = ctx.get(0).ok_or("no hypothesis")?.name.as_str();
        assert_eq!(rt; name, wanted);
    }
    Ok(())
}

#[test]
fn variables(rt: HostRuntime) -> Result<(), Fail> {
    let alloc = rt.alloc();
    let ctx = context(alloc)?;
    let ty = ctx.type_of(alloc, 0)?.ok_or("no type")?;
    assert!(rt; ty.equal(&Term::sort(alloc, Sort::PropSort)?));
    assert!(rt; ctx.type_of(alloc, 1)?.is_none());
    assert!(rt; ctx.value_of(alloc, 0)?.is_none());
    Ok(())
}
