//! What is told of sentences and trees without printing them.

use crate::reading::tokens_of;
use coq_syntax::{Node, is_command, node_count, number_value};
use std::alloc::Global;
use std::test::Fail;
use vernac_parser::parse_term;

const COMMANDS: [(&str, bool); 8] = [
    ("Check x", true),
    ("Abort", true),
    ("Qed x", true),
    ("intro x", false),
    ("abort", false),
    ("forall", false),
    ("(Check)", false),
    ("", false),
];

#[test]
fn the_first_word_tells_commands(rt: HostRuntime) {
    for (body, wanted) in &COMMANDS {
        let list = tokens_of(rt.alloc(), body).expect(&rt, "memory");
        assert_eq!(rt; is_command(&list), *wanted);
    }
}

// How many nodes a term has, and how many lists of names its binders have.
fn counts(alloc: Global, body: &str) -> Option<(u64, usize)> {
    let list = tokens_of(alloc, body).ok()?;
    let parsed = parse_term(alloc, &list, 0).ok()?;
    let rows = match parsed.tree.node() {
        Node::Forall { binders, .. } => binders.rows(),
        Node::Fun { binders, .. } => binders.rows(),
        _ => 0,
    };
    Some((node_count(&parsed.tree), rows))
}

const TERMS: [(&str, (u64, usize)); 9] = [
    ("a", (1, 0)),
    ("a -> b", (3, 0)),
    ("~ (a)", (3, 0)),
    ("f a b", (6, 0)),
    ("f (x := a)", (4, 0)),
    ("forall (x y : A) (z : B), C", (7, 2)),
    ("forall x y : A, C", (4, 1)),
    ("fun x : A => b", (4, 1)),
    ("let x : A := Type@{3} in c", (5, 0)),
];

#[test]
fn terms_are_walked(rt: HostRuntime) {
    for (body, wanted) in &TERMS {
        let found = counts(rt.alloc(), body).expect(&rt, "a term");
        assert_eq!(rt; found.0, wanted.0);
        assert_eq!(rt; found.1, wanted.1);
    }
}

#[test]
fn numbers_have_values(rt: HostRuntime) -> Result<(), Fail> {
    for (digits, value) in [("0", 0), ("007", 7), ("1000", 1000), ("99999999999", 1001)] {
        assert_eq!(rt; number_value(digits), value);
    }
    Ok(())
}
