//! Trees of proof moves.
ghost use Rattle.std.specs.Prelude.{◌≡◌};
ghost use Rattle.coq_syntax.specs.Forms.{move_of};

use crate::{BoundName, SurfaceTerm, TokenPlace, Word};
use std::marker::Model;

/// `| x y` in a pattern.
#[derive(Debug, Drop)]
pub struct PatternCase {
    pub bar: TokenPlace,
    pub names: Vec<BoundName>,
}

/// `as [x y | z]`.
#[derive(Debug, Drop)]
pub struct Pattern {
    pub keyword: TokenPlace,
    pub opening: TokenPlace,
    pub first: Vec<BoundName>,
    pub others: Vec<PatternCase>,
    pub closing: TokenPlace,
}

/// The arrow of a rewriting, where one is written.
#[derive(Clone, Copy, Debug, PartialEq, Eq)]
pub enum Direction {
    Unmarked,
    Forward(TokenPlace),
    Backward(TokenPlace),
}

/// A proof move as it is written, with the places of its tokens.
#[derive(Drop)]
pub struct MoveTree {
    form: MoveForm,
}

/// The parts of a proof move, one variant for each row of the grammar of moves.
#[derive(Drop)]
pub enum MoveForm {
    Intro {
        keyword: TokenPlace,
        name: Option<Word>,
    },
    Intros {
        keyword: TokenPlace,
        names: Vec<Word>,
    },
    Exact {
        keyword: TokenPlace,
        term: SurfaceTerm,
    },
    Apply {
        keyword: TokenPlace,
        term: SurfaceTerm,
    },
    Assumption(TokenPlace),
    Split(TokenPlace),
    Left(TokenPlace),
    Right(TokenPlace),
    Reflexivity(TokenPlace),
    Admit(TokenPlace),
    Simpl(TokenPlace),
    Unfold {
        keyword: TokenPlace,
        name: Word,
    },
    Destruct {
        keyword: TokenPlace,
        name: Word,
        pattern: Option<Pattern>,
    },
    Induction {
        keyword: TokenPlace,
        name: Word,
        pattern: Option<Pattern>,
    },
    Rewrite {
        keyword: TokenPlace,
        direction: Direction,
        term: SurfaceTerm,
    },
}

impl Model for MoveTree {
    ghost use Rattle.coq_syntax.specs.MoveTrees.{Move};
    ghost use Rattle.std.specs.Coded.{codes};
    ghost use Rattle.coq_syntax.specs.TreeCode.{term_code};

    ghost Value = { Move };

    ghost coded = { Prim.hlevel (codes, term_code) };

    ghost use Rattle.coq_syntax.specs.Forms.{move_of};

    ghost view = { λ m. move_of m.form };
}

impl MoveTree {
    pub fn new(form: MoveForm) -> MoveTree
        ensures { result ≡ move_of form }
    {
        MoveTree { form }
    }

    pub fn form(&self) -> &MoveForm
        ensures { move_of result.now ≡ self.now }
    {
        &self.form
    }
}
