//! Equality of terms, the names of binders aside.
ghost use Rattle.std.specs.Prelude.{◌≡◌};
ghost use Rattle.core_term.specs.Tree.{same_tree};

use crate::{Node, Term};

impl Term {
    /// Whether both are one term, names of binders aside. Terms of two sizes differ at once.
    pub fn equal(&self, other: &Term) -> bool
        ensures { result ≡ same_tree self.now other.now }
    {
        if self.size() != other.size() {
            return false;
        }
        match (self.node(), other.node()) {
            (Node::Var(i), Node::Var(j)) => i == j,
            (Node::Sorted(s), Node::Sorted(r)) => s == r,
            (Node::Constant(c), Node::Constant(d)) => c == d,
            (
                Node::Prod {
                    domain: a,
                    codomain: b,
                    ..
                },
                Node::Prod {
                    domain: c,
                    codomain: d,
                    ..
                },
            ) => a.equal(c) && b.equal(d),
            (
                Node::Lam {
                    domain: a,
                    body: b,
                    ..
                },
                Node::Lam {
                    domain: c,
                    body: d,
                    ..
                },
            ) => a.equal(c) && b.equal(d),
            (
                Node::LetIn {
                    ty: a,
                    value: t,
                    body: b,
                    ..
                },
                Node::LetIn {
                    ty: c,
                    value: u,
                    body: d,
                    ..
                },
            ) => a.equal(c) && t.equal(u) && b.equal(d),
            (
                Node::App {
                    function: f,
                    argument: a,
                },
                Node::App {
                    function: g,
                    argument: b,
                },
            ) => f.equal(g) && a.equal(b),
            _ => false,
        }
    }
}
