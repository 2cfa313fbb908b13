//! Lifts, substitutions, limits and sorts.
use crate::notation::{applied, term};
use core_term::{Sort, Term, TermStop, product_sort, sort_le};
use std::alloc::Global;
use std::process::Abort;
use std::test::Fail;

// Variables and places in these tests stay below this.
const FAR: u32 = 4000000000;

fn lifted<A: Abort>(rt: &A, alloc: Global, t: &Term, by: u32, from: u32) -> Result<Term, TermStop> {
    assert!(rt; t.free_bound() <= 1000);
    assert!(rt; by <= FAR);
    let _depth = t.depth();
    t.lift(alloc, by, from)
}

fn put<A: Abort>(rt: &A, alloc: Global, t: &Term, value: &Term, at: u32) -> Result<Term, TermStop> {
    assert!(rt; at <= FAR);
    assert!(rt; t.free_bound() <= u64::from(FAR));
    assert!(rt; value.free_bound() <= u64::from(FAR));
    let _depths = (t.depth(), value.depth());
    t.subst(alloc, value, at)
}

#[test]
fn lifts(rt: HostRuntime) -> Result<(), Fail> {
    let alloc = rt.alloc();
    for (text, by, from, wanted) in [
        ("01@", 1, 0, "12@"),
        ("01@", 2, 1, "03@"),
        ("S01@!", 1, 0, "S02@!"),
        ("0S2@>", 1, 1, "0S3@>"),
        ("0a01@=", 3, 0, "3a04@="),
    ] {
        let answer = lifted(&rt, alloc, &term(alloc, text)?, by, from)?;
        let wanted = term(alloc, wanted)?;
        assert!(rt; answer.equal(&wanted));
    }
    Ok(())
}

#[test]
fn substitutions(rt: HostRuntime) -> Result<(), Fail> {
    let alloc = rt.alloc();
    for (text, value, at, wanted) in [
        ("01@", "a", 0, "a0@"),
        ("02@", "3", 1, "01@"),
        ("S12@!", "3", 0, "S41@!"),
        ("S12@0@>", "0b@", 0, "S1b@1@0@>"),
        ("00102@@=", "c", 0, "ccc01@@="),
    ] {
        let value = term(alloc, value)?;
        let answer = put(&rt, alloc, &term(alloc, text)?, &value, at)?;
        let wanted = term(alloc, wanted)?;
        assert!(rt; answer.equal(&wanted));
    }
    Ok(())
}

// A full tree of applications of the variable 1, so deep.
fn full(alloc: Global, depth: u32) -> Result<Term, TermStop> {
    let mut whole = Term::var(alloc, 1)?;
    for _ in 1..depth {
        let same = whole.share()?;
        whole = Term::app(alloc, same, whole)?;
    }
    Ok(whole)
}

#[test]
fn limits(rt: HostRuntime) -> Result<(), Fail> {
    let alloc = rt.alloc();
    let largest = full(alloc, 20)?;
    assert_eq!(rt; (largest.size(), largest.depth()), (1048575, 20));
    assert!(rt; full(alloc, 21).is_err());
    let deepest = applied(alloc, 999)?;
    assert_eq!(rt; (deepest.size(), deepest.depth()), (1999, 1000));
    assert!(rt; applied(alloc, 1000).is_err());
    // A substitution that would be too large is refused before anything is built.
    assert!(rt; put(&rt, alloc, &deepest, &largest, 0).is_err());
    Ok(())
}

#[test]
fn sorts(rt: HostRuntime) {
    for (a, b, below, product) in [
        (Sort::TypeSort(3), Sort::SetSort, false, Sort::TypeSort(3)),
        (Sort::TypeSort(3), Sort::PropSort, false, Sort::PropSort),
        (Sort::PropSort, Sort::SetSort, true, Sort::SetSort),
        (
            Sort::TypeSort(3),
            Sort::TypeSort(7),
            true,
            Sort::TypeSort(7),
        ),
    ] {
        assert_eq!(rt; sort_le(a, b), below);
        assert_eq!(rt; product_sort(a, b), product);
    }
}
