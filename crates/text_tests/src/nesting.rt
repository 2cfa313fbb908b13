//! What counts as nested: 200 rules may nest, and the next is refused at its first token.

use crate::reading;
use base_core::NoMem;
use std::alloc::Global;

// A part that stands so many times behind `Check`, what ends the command, and the answer.
const NESTED: [(&str, usize, &str, &str); 39] = [
    ("(", 200, "x", "11 at 206 to 207"),
    ("(", 199, "x", "10 at 206 to 207"),
    ("(", 200, "201", "11 at 206 to 209"),
    ("(", 199, "201", "12 at 205 to 208"),
    ("(", 200, ")", "10 at 206 to 207"),
    ("(", 200, "", "10 at 206 to 207"),
    ("(", 199, "f (x]", "11 at 208 to 209"),
    ("(", 199, "f (x := ]", "10 at 213 to 214"),
    ("(", 199, "f (x := a]", "11 at 213 to 214"),
    ("a -> ", 199, "b", "Check ->"),
    ("a -> ", 200, "b", "11 at 1006 to 1007"),
    ("a \\/ ", 199, "b", "Check \\/"),
    ("a \\/ ", 200, "b", "11 at 1006 to 1007"),
    ("a /\\ ", 199, "b", "Check /\\"),
    ("a /\\ ", 200, "b", "11 at 1006 to 1007"),
    ("a \\/ b /\\ ", 198, "c", "Check \\/"),
    ("a \\/ b /\\ ", 199, "c", "11 at 1996 to 1997"),
    ("~ ", 199, "b", "Check ~"),
    ("~ ", 200, "b", "11 at 406 to 407"),
    ("a = (", 200, "b", "11 at 1006 to 1007"),
    ("f (", 200, "x", "11 at 606 to 607"),
    ("f (x := ", 200, "a", "11 at 1606 to 1607"),
    ("forall x : ", 200, "A", "11 at 2206 to 2207"),
    ("forall (x : ", 200, "A", "11 at 2406 to 2407"),
    ("forall x : A, ", 199, "b", "Check forall"),
    ("forall x : A, ", 200, "b", "11 at 2803 to 2804"),
    ("fun x : ", 200, "A", "11 at 1606 to 1607"),
    ("fun x : A => ", 199, "b", "Check fun"),
    ("fun x : A => ", 200, "b", "11 at 2601 to 2602"),
    ("let x : ", 200, "A", "11 at 1606 to 1607"),
    ("let x := ", 200, "a", "11 at 1806 to 1807"),
    ("let x := a in ", 199, "b", "Check let"),
    ("let x := a in ", 200, "b", "11 at 2801 to 2802"),
    ("a \\/ fun x : A => ", 199, "b", "Check \\/"),
    ("a \\/ fun x : A => ", 200, "b", "11 at 3601 to 3602"),
    ("a /\\ forall x : A, ", 199, "b", "Check /\\"),
    ("~ let x := a in ", 199, "b", "Check ~"),
    ("a -> forall x : A, ", 99, "b", "Check ->"),
    ("a -> forall x : A, ", 100, "b", "11 at 1903 to 1904"),
];

fn answer(alloc: Global, part: &str, count: usize, back: &str) -> Result<String, NoMem> {
    let mut body = String::from_str(alloc, "Check ")?;
    for _turn in 0..count {
        body.push_str(part)?;
    }
    body.push_str(back)?;
    reading::command(alloc, body.as_str())
}

#[test]
fn each_nested_rule_counts(rt: HostRuntime) {
    for (part, count, back, wanted) in &NESTED {
        let found = answer(rt.alloc(), part, *count, back).expect(&rt, "memory");
        assert_eq!(rt; found.as_str(), *wanted);
    }
}
