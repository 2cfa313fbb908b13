//! Trees of commands.
ghost use Rattle.std.specs.Prelude.{◌≡◌};
ghost use Rattle.coq_syntax.specs.Forms.{command_of};

use crate::{Annotation, GroupList, SurfaceTerm, TokenPlace, Word};
use std::marker::Model;

#[derive(Clone, Copy, Debug, PartialEq, Eq)]
pub enum AssumptionWord {
    Axiom,
    Parameter,
}

#[derive(Clone, Copy, Debug, PartialEq, Eq)]
pub enum StatementWord {
    Theorem,
    Lemma,
}

/// A constructor of an inductive type. The first may stand without a bar.
#[derive(Drop)]
pub struct Constructor {
    pub bar: Option<TokenPlace>,
    pub name: Word,
    pub groups: GroupList,
    pub annotation: Annotation,
}

/// A command as it is written, with the places of its tokens.
#[derive(Drop)]
pub struct Command {
    form: CommandForm,
}

/// The parts of a command, one variant for each row of the grammar of commands.
#[derive(Drop)]
pub enum CommandForm {
    Assume {
        word: AssumptionWord,
        keyword: TokenPlace,
        name: Word,
        colon: TokenPlace,
        ty: SurfaceTerm,
    },
    Define {
        keyword: TokenPlace,
        name: Word,
        groups: GroupList,
        annotation: Annotation,
        assign: TokenPlace,
        body: SurfaceTerm,
    },
    State {
        word: StatementWord,
        keyword: TokenPlace,
        name: Word,
        groups: GroupList,
        colon: TokenPlace,
        ty: SurfaceTerm,
    },
    Inductive {
        keyword: TokenPlace,
        name: Word,
        groups: GroupList,
        colon: TokenPlace,
        arity: SurfaceTerm,
        assign: TokenPlace,
        constructors: Vec<Constructor>,
    },
    Check {
        keyword: TokenPlace,
        term: SurfaceTerm,
    },
    Proof(TokenPlace),
    Qed(TokenPlace),
    Defined(TokenPlace),
    Admitted(TokenPlace),
    Aborted(TokenPlace),
}

impl Model for Command {
    ghost use Rattle.coq_syntax.specs.CommandTrees as command;
    ghost use Rattle.std.specs.Coded.{codes};
    ghost use Rattle.coq_syntax.specs.TreeCode.{term_code, groups_code, annotation_code};

    ghost Value = { command.Command };

    ghost coded = { Prim.hlevel (codes, term_code, groups_code, annotation_code) };

    ghost use Rattle.coq_syntax.specs.Forms.{command_of};

    ghost view = { λ c. command_of c.form };
}

impl Command {
    pub fn new(form: CommandForm) -> Command
        ensures { result ≡ command_of form }
    {
        Command { form }
    }

    pub fn form(&self) -> &CommandForm
        ensures { command_of result.now ≡ self.now }
    {
        &self.form
    }
}
