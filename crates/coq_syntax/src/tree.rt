//! Trees of terms, as they are written.
ghost use Rattle.std.specs.Prelude.{◌≡◌};
ghost use Rattle.coq_syntax.specs.Nodes.{tree_of};

use crate::{BoundName, TokenPlace, Word};
use std::marker::Model;

/// A term as it is written, with the places of its tokens.
#[derive(Drop)]
#[cycle(tree)]
pub struct SurfaceTerm {
    node: Node,
}

/// The top of a term, one variant for each row of the grammar of terms.
#[derive(Drop)]
#[cycle(tree)]
pub enum Node {
    Forall {
        keyword: TokenPlace,
        binders: Binders,
        comma: TokenPlace,
        body: Box<SurfaceTerm>,
    },
    Fun {
        keyword: TokenPlace,
        binders: Binders,
        arrow: TokenPlace,
        body: Box<SurfaceTerm>,
    },
    Let {
        keyword: TokenPlace,
        name: BoundName,
        annotation: Annotation,
        assign: TokenPlace,
        value: Box<SurfaceTerm>,
        joint: TokenPlace,
        body: Box<SurfaceTerm>,
    },
    Arrow {
        left: Box<SurfaceTerm>,
        sign: TokenPlace,
        right: Box<SurfaceTerm>,
    },
    Or {
        left: Box<SurfaceTerm>,
        sign: TokenPlace,
        right: Box<SurfaceTerm>,
    },
    And {
        left: Box<SurfaceTerm>,
        sign: TokenPlace,
        right: Box<SurfaceTerm>,
    },
    Not {
        sign: TokenPlace,
        operand: Box<SurfaceTerm>,
    },
    Equal {
        left: Box<SurfaceTerm>,
        sign: TokenPlace,
        right: Box<SurfaceTerm>,
    },
    Apply {
        head: Box<SurfaceTerm>,
        arguments: Vec<Argument>,
    },
    Name(Word),
    PropSort(TokenPlace),
    SetSort(TokenPlace),
    TypeSort(TokenPlace),
    /// `Type@{1}`.
    TypeAt {
        keyword: TokenPlace,
        at: TokenPlace,
        opening: TokenPlace,
        level: Word,
        closing: TokenPlace,
    },
    Numeral(Word),
    Parenthesized {
        opening: TokenPlace,
        inner: Box<SurfaceTerm>,
        closing: TokenPlace,
    },
}

/// The binders of a `forall` or a `fun`.
#[derive(Drop)]
#[cycle(tree)]
pub enum Binders {
    /// `x y : T`.
    Names {
        names: Vec<BoundName>,
        colon: TokenPlace,
        ty: Box<SurfaceTerm>,
    },
    Groups(GroupList),
}

/// Groups of binders, in order.
pub type GroupList = Vec<Group>;

/// `(x y : T)`.
#[derive(Drop)]
#[cycle(tree)]
pub struct Group {
    pub opening: TokenPlace,
    pub names: Vec<BoundName>,
    pub colon: TokenPlace,
    pub ty: Box<SurfaceTerm>,
    pub closing: TokenPlace,
}

/// A type behind a `:`, where one is written.
#[derive(Drop)]
#[cycle(tree)]
pub enum Annotation {
    Untyped,
    Typed {
        colon: TokenPlace,
        ty: Box<SurfaceTerm>,
    },
}

#[derive(Drop)]
#[cycle(tree)]
pub enum Argument {
    Positional(Box<SurfaceTerm>),
    /// `(x := t)`.
    Given {
        opening: TokenPlace,
        name: Word,
        assign: TokenPlace,
        value: Box<SurfaceTerm>,
        closing: TokenPlace,
    },
}

impl Model for SurfaceTerm {
    ghost use Rattle.coq_syntax.specs.Trees.{Term, size_of};
    ghost use Rattle.coq_syntax.specs.TreeCode.{term_code};

    ghost Value = { Term };

    ghost coded = { term_code };

    ghost use Rattle.coq_syntax.specs.Nodes.{tree_of};

    ghost view = { λ t. tree_of t.node };

    ghost size = { size_of };

    ghost use Rattle.coq_syntax.specs.NodeSizes.{deep_within};

    ghost size_decreases = { λ a h. deep_within a.node };
}

impl SurfaceTerm {
    pub fn new(node: Node) -> SurfaceTerm
        ensures { result ≡ tree_of node }
    {
        SurfaceTerm { node }
    }

    pub fn node(&self) -> &Node
        ensures { tree_of result.now ≡ self.now }
    {
        &self.node
    }
}
