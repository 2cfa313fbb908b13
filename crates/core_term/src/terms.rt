//! Terms, and the making of each kind of node.
ghost use Rattle.std.specs.Prelude.{◌≡◌, ◌≤◌, ◌^◌, IfOk};
ghost use Rattle.core_term.specs.Sorts.{IsSort};
ghost use Rattle.core_term.specs.Tree.{Var, Sorted, Constant, Prod, Lam, LetIn, App, size_of, depth_of, free_bound, IsTerm, IsNumbered, IsLevelled};
ghost use Rattle.core_term.specs.Nodes.{tree_of, HasSort, Measures};
ghost use Rattle.core_term.specs.Answers.{within_limits, Gives};

use crate::{Measure, Sort, TermStop};
use base_core::{NoMem, TERM_DEPTH_LIMIT, TERM_SIZE_LIMIT, Text};
use std::alloc::Global;
use std::marker::Model;
use std::rc::Rc;

/// A term with de Bruijn indices, which contracts see as a tree. Its subterms are shared.
#[derive(Drop)]
#[cycle(term)]
pub struct Term {
    inner: Rc<Cell>,
}

#[derive(Drop)]
#[cycle(term)]
struct Cell {
    measure: Measure,
    node: Node,
}

/// The top of a term. A name is shared by all copies of its binder.
#[derive(Drop)]
#[cycle(term)]
pub enum Node {
    Var(u32),
    Sorted(Sort),
    /// A global, by its place in the environment.
    Constant(u32),
    Prod {
        name: Text,
        domain: Term,
        codomain: Term,
    },
    Lam {
        name: Text,
        domain: Term,
        body: Term,
    },
    LetIn {
        name: Text,
        ty: Term,
        value: Term,
        body: Term,
    },
    App {
        function: Term,
        argument: Term,
    },
}

impl Model for Term {
    ghost use Rattle.core_term.specs.Tree.{Tree, depth_of};
    ghost use Rattle.core_term.specs.TreeCode.{tree_code};

    ghost Value = { Tree };

    ghost coded = { tree_code };

    ghost use Rattle.core_term.specs.Nodes.{tree_of, IsKept};
    ghost use Rattle.std.proofs.Common.{arith};

    ghost view = { λ t. tree_of t.inner.value.node };

    ghost invariant = { λ t. IsKept t.inner.value };

    ghost size = { depth_of };

    ghost size_decreases = { λ a h. Prim.grind (arith) };
}

impl Term {
    /// The term of this node, of which it takes the parts.
    pub fn of_node(alloc: Global, node: Node) -> Result<Term, TermStop>
        requires { HasSort node }
        ensures { Gives result (within_limits (tree_of node)) }
    {
        let measure = node.measure();
        if measure.size > TERM_SIZE_LIMIT || measure.depth > TERM_DEPTH_LIMIT {
            return Err(TermStop::TooLarge);
        }
        let inner = Rc::new(alloc, Cell { measure, node })?;
        Ok(Term { inner })
    }

    pub fn var(alloc: Global, i: u32) -> Result<Term, TermStop>
        ensures { Gives result (within_limits (Var i)) }
    {
        Term::of_node(alloc, Node::Var(i))
    }

    /// A level is from 1 to 1000.
    pub fn sort(alloc: Global, s: Sort) -> Result<Term, TermStop>
        requires { IsSort s }
        ensures { Gives result (within_limits (Sorted s)) }
    {
        Term::of_node(alloc, Node::Sorted(s))
    }

    pub fn constant(alloc: Global, c: u32) -> Result<Term, TermStop>
        ensures { Gives result (within_limits (Constant c)) }
    {
        Term::of_node(alloc, Node::Constant(c))
    }

    /// The product over `a`, whose codomain `b` has one more variable.
    pub fn prod(alloc: Global, name: Text, a: Term, b: Term) -> Result<Term, TermStop>
        ensures { Gives result (within_limits (Prod name a b)) }
    {
        Term::of_node(
            alloc,
            Node::Prod {
                name,
                domain: a,
                codomain: b,
            },
        )
    }

    /// The function over `a`, whose body `b` has one more variable.
    pub fn lam(alloc: Global, name: Text, a: Term, b: Term) -> Result<Term, TermStop>
        ensures { Gives result (within_limits (Lam name a b)) }
    {
        Term::of_node(
            alloc,
            Node::Lam {
                name,
                domain: a,
                body: b,
            },
        )
    }

    /// A definition of type `a` and value `t` for the body `b`, which has one more variable.
    pub fn let_in(alloc: Global, name: Text, a: Term, t: Term, b: Term) -> Result<Term, TermStop>
        ensures { Gives result (within_limits (LetIn name a t b)) }
    {
        Term::of_node(
            alloc,
            Node::LetIn {
                name,
                ty: a,
                value: t,
                body: b,
            },
        )
    }

    /// The function `f` applied to `a`.
    pub fn app(alloc: Global, f: Term, a: Term) -> Result<Term, TermStop>
        ensures { Gives result (within_limits (App f a)) }
    {
        Term::of_node(
            alloc,
            Node::App {
                function: f,
                argument: a,
            },
        )
    }

    /// What the term keeps of itself, in one step.
    pub fn measure(&self) -> Measure
        ensures measured { Measures result self.now }
        ensures term { IsTerm self.now }
    {
        self.inner.measure
    }

    /// How many nodes the term has as a tree, in one step.
    pub fn size(&self) -> u32
        ensures counted { result ≡ size_of self.now }
        ensures term { IsTerm self.now }
    {
        self.inner.measure.size
    }

    /// How many nodes stand on the longest way down, in one step.
    pub fn depth(&self) -> u32
        ensures counted { result ≡ depth_of self.now }
        ensures term { IsTerm self.now }
    {
        self.inner.measure.depth
    }

    /// The least number above each free variable, so 0 for a closed term, in one step.
    pub fn free_bound(&self) -> u64
        ensures bound { result ≡ free_bound self.now }
        ensures last { result ≤ 2 ^ 32 }
        ensures term { IsTerm self.now }
    {
        self.inner.measure.bound
    }

    pub fn node(&self) -> &Node
        ensures top { tree_of result.now ≡ self.now }
        ensures term { IsTerm self.now }
    {
        &self.inner.node
    }

    /// The same term once more, in one step.
    pub fn share(&self) -> Result<Term, NoMem>
        ensures { IfOk result (λ t. t ≡ self.now) }
    {
        let inner = self.inner.clone()?;
        Ok(Term { inner })
    }
}

impl Node {
    fn measure(&self) -> Measure
        requires { HasSort self.now }
        ensures measured { Measures result (tree_of self.now) }
        ensures numbered { IsNumbered (tree_of self.now) }
        ensures levelled { IsLevelled (tree_of self.now) }
    {
        match self {
            Node::Var(i) => Measure::leaf(u64::from(*i) + 1),
            Node::Sorted(_) | Node::Constant(_) => Measure::leaf(0),
            Node::Prod {
                domain,
                codomain,
                ..
            } => domain.measure().with(codomain.measure().under_binder()),
            Node::Lam { domain, body, .. } => domain.measure().with(body.measure().under_binder()),
            Node::LetIn {
                ty,
                value,
                body,
                ..
            } => ty
                .measure()
                .beside(value.measure())
                .with(body.measure().under_binder()),
            Node::App { function, argument } => function.measure().with(argument.measure()),
        }
    }
}
