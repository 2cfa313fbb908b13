//! A tree as the row of its root and of its direct parts: a leaf by its text, any other term by its operator or word.

use base_core::NoMem;
use coq_syntax::{
    Annotation, Argument, AssumptionWord, Binders, BoundName, Command, CommandForm, Constructor,
    Direction, Group, MoveForm, MoveTree, Node, Pattern, StatementWord, SurfaceTerm, Word,
};
use std::alloc::Global;

/// The row of a term.
fn row(term: &SurfaceTerm) -> &str {
    match term.node() {
        Node::Forall { .. } => "forall",
        Node::Fun { .. } => "fun",
        Node::Let { .. } => "let",
        Node::Arrow { .. } => "->",
        Node::Or { .. } => "\\/",
        Node::And { .. } => "/\\",
        Node::Not { .. } => "~",
        Node::Equal { .. } => "=",
        Node::Apply { .. } => "apply",
        Node::Name(word) => word.text.as_str(),
        Node::PropSort(_) => "Prop",
        Node::SetSort(_) => "Set",
        Node::TypeSort(_) => "Type",
        Node::TypeAt { .. } => "Type@",
        Node::Numeral(word) => word.text.as_str(),
        Node::Parenthesized { .. } => "()",
    }
}

fn add(shown: &mut String, word: &str) -> Result<(), NoMem> {
    shown.push(' ')?;
    shown.push_str(word)?;
    Ok(())
}

fn add_term(shown: &mut String, term: Option<&SurfaceTerm>) -> Result<(), NoMem> {
    match term {
        Some(term) => add(shown, row(term)),
        None => Ok(()),
    }
}

fn add_name(shown: &mut String, name: &BoundName) -> Result<(), NoMem> {
    match name {
        BoundName::Named(word) => add(shown, word.text.as_str()),
        BoundName::Unnamed(_) => add(shown, "_"),
    }
}

fn add_names(shown: &mut String, names: &[BoundName]) -> Result<(), NoMem> {
    for name in names {
        add_name(shown, name)?;
    }
    Ok(())
}

fn add_words(shown: &mut String, words: &[Word]) -> Result<(), NoMem> {
    for word in words {
        add(shown, word.text.as_str())?;
    }
    Ok(())
}

fn add_group(shown: &mut String, group: &Group) -> Result<(), NoMem> {
    add(shown, "(")?;
    add_names(shown, group.names.as_slice())?;
    add(shown, row(&group.ty))?;
    add(shown, ")")
}

fn add_groups(shown: &mut String, groups: &[Group]) -> Result<(), NoMem> {
    for group in groups {
        add_group(shown, group)?;
    }
    Ok(())
}

fn add_binders(shown: &mut String, binders: &Binders) -> Result<(), NoMem> {
    match binders {
        Binders::Names { names, ty, .. } => {
            add_names(shown, names.as_slice())?;
            add(shown, row(ty))
        }
        Binders::Groups(groups) => add_groups(shown, groups.as_slice()),
    }
}

fn add_annotation(shown: &mut String, annotation: &Annotation) -> Result<(), NoMem> {
    match annotation {
        Annotation::Untyped => Ok(()),
        Annotation::Typed { ty, .. } => {
            add(shown, ":")?;
            add(shown, row(ty))
        }
    }
}

fn add_argument(shown: &mut String, argument: &Argument) -> Result<(), NoMem> {
    match argument {
        Argument::Positional(term) => add(shown, row(term)),
        Argument::Given { name, value, .. } => {
            add(shown, name.text.as_str())?;
            add(shown, ":=")?;
            add(shown, row(value))
        }
    }
}

fn add_arguments(shown: &mut String, arguments: &[Argument]) -> Result<(), NoMem> {
    for argument in arguments {
        add_argument(shown, argument)?;
    }
    Ok(())
}

/// What stands in a term before its last two terms.
fn add_front(shown: &mut String, node: &Node) -> Result<(), NoMem> {
    match node {
        Node::Forall { binders, .. } => add_binders(shown, binders),
        Node::Fun { binders, .. } => add_binders(shown, binders),
        Node::Let {
            name,
            annotation,
            ..
        } => {
            add_name(shown, name)?;
            add_annotation(shown, annotation)
        }
        Node::TypeAt { level, .. } => add(shown, level.text.as_str()),
        _ => Ok(()),
    }
}

/// The last two terms of a term: operands, a value and a body, or the last alone.
fn operands(node: &Node) -> (Option<&SurfaceTerm>, Option<&SurfaceTerm>) {
    match node {
        Node::Forall { body, .. } => (None, Some(body)),
        Node::Fun { body, .. } => (None, Some(body)),
        Node::Let { value, body, .. } => (Some(value), Some(body)),
        Node::Arrow { left, right, .. } => (Some(left), Some(right)),
        Node::Or { left, right, .. } => (Some(left), Some(right)),
        Node::And { left, right, .. } => (Some(left), Some(right)),
        Node::Equal { left, right, .. } => (Some(left), Some(right)),
        Node::Not { operand, .. } => (None, Some(operand)),
        Node::Parenthesized { inner, .. } => (None, Some(inner)),
        Node::Apply { head, .. } => (None, Some(head)),
        _ => (None, None),
    }
}

fn arguments(node: &Node) -> &[Argument] {
    match node {
        Node::Apply { arguments, .. } => arguments.as_slice(),
        _ => &[],
    }
}

pub fn term(alloc: Global, term: &SurfaceTerm) -> Result<String, NoMem> {
    let mut shown = String::from_str(alloc, row(term))?;
    add_front(&mut shown, term.node())?;
    let (first, last) = operands(term.node());
    add_term(&mut shown, first)?;
    add_term(&mut shown, last)?;
    add_arguments(&mut shown, arguments(term.node()))?;
    Ok(shown)
}

fn command_word(form: &CommandForm) -> &'static str {
    match form {
        CommandForm::Assume { word, .. } => match *word {
            AssumptionWord::Axiom => "Axiom",
            AssumptionWord::Parameter => "Parameter",
        },
        CommandForm::Define { .. } => "Definition",
        CommandForm::State { word, .. } => match *word {
            StatementWord::Theorem => "Theorem",
            StatementWord::Lemma => "Lemma",
        },
        CommandForm::Inductive { .. } => "Inductive",
        CommandForm::Check { .. } => "Check",
        CommandForm::Proof(_) => "Proof",
        CommandForm::Qed(_) => "Qed",
        CommandForm::Defined(_) => "Defined",
        CommandForm::Admitted(_) => "Admitted",
        CommandForm::Aborted(_) => "Abort",
    }
}

fn add_constructor(shown: &mut String, constructor: &Constructor) -> Result<(), NoMem> {
    if constructor.bar.is_some() {
        add(shown, "|")?;
    }
    add(shown, constructor.name.text.as_str())?;
    add_groups(shown, constructor.groups.as_slice())?;
    add_annotation(shown, &constructor.annotation)
}

fn add_constructors(shown: &mut String, constructors: &[Constructor]) -> Result<(), NoMem> {
    add(shown, ":=")?;
    for constructor in constructors {
        add_constructor(shown, constructor)?;
    }
    Ok(())
}

/// A name, its groups and what stands behind the colon.
fn add_statement(
    shown: &mut String,
    name: &Word,
    groups: &[Group],
    ty: &SurfaceTerm,
) -> Result<(), NoMem> {
    add(shown, name.text.as_str())?;
    add_groups(shown, groups)?;
    add(shown, ":")?;
    add(shown, row(ty))
}

fn add_definition(
    shown: &mut String,
    name: &Word,
    groups: &[Group],
    annotation: &Annotation,
    body: &SurfaceTerm,
) -> Result<(), NoMem> {
    add(shown, name.text.as_str())?;
    add_groups(shown, groups)?;
    add_annotation(shown, annotation)?;
    add(shown, ":=")?;
    add(shown, row(body))
}

fn add_command(shown: &mut String, form: &CommandForm) -> Result<(), NoMem> {
    match form {
        CommandForm::Assume { name, ty, .. } => add_statement(shown, name, &[], ty),
        CommandForm::Define {
            name,
            groups,
            annotation,
            body,
            ..
        } => add_definition(shown, name, groups.as_slice(), annotation, body),
        CommandForm::State {
            name,
            groups,
            ty,
            ..
        } => add_statement(shown, name, groups.as_slice(), ty),
        CommandForm::Inductive {
            name,
            groups,
            arity,
            constructors,
            ..
        } => {
            add_statement(shown, name, groups.as_slice(), arity)?;
            add_constructors(shown, constructors.as_slice())
        }
        CommandForm::Check { term, .. } => add(shown, row(term)),
        _ => Ok(()),
    }
}

pub fn command(alloc: Global, command: &Command) -> Result<String, NoMem> {
    let mut shown = String::from_str(alloc, command_word(command.form()))?;
    add_command(&mut shown, command.form())?;
    Ok(shown)
}

fn move_word(form: &MoveForm) -> &'static str {
    match form {
        MoveForm::Intro { .. } => "intro",
        MoveForm::Intros { .. } => "intros",
        MoveForm::Exact { .. } => "exact",
        MoveForm::Apply { .. } => "apply",
        MoveForm::Assumption(_) => "assumption",
        MoveForm::Split(_) => "split",
        MoveForm::Left(_) => "left",
        MoveForm::Right(_) => "right",
        MoveForm::Reflexivity(_) => "reflexivity",
        MoveForm::Admit(_) => "admit",
        MoveForm::Simpl(_) => "simpl",
        MoveForm::Unfold { .. } => "unfold",
        MoveForm::Destruct { .. } => "destruct",
        MoveForm::Induction { .. } => "induction",
        MoveForm::Rewrite { .. } => "rewrite",
    }
}

fn add_pattern(shown: &mut String, pattern: &Pattern) -> Result<(), NoMem> {
    add(shown, "as [")?;
    add_names(shown, pattern.first.as_slice())?;
    for case in &pattern.others {
        add(shown, "|")?;
        add_names(shown, case.names.as_slice())?;
    }
    add(shown, "]")
}

fn add_subject(shown: &mut String, name: &Word, pattern: &Option<Pattern>) -> Result<(), NoMem> {
    add(shown, name.text.as_str())?;
    match pattern {
        Some(pattern) => add_pattern(shown, pattern),
        None => Ok(()),
    }
}

fn add_direction(shown: &mut String, direction: Direction) -> Result<(), NoMem> {
    match direction {
        Direction::Unmarked => Ok(()),
        Direction::Forward(_) => add(shown, "->"),
        Direction::Backward(_) => add(shown, "<-"),
    }
}

fn add_move(shown: &mut String, form: &MoveForm) -> Result<(), NoMem> {
    match form {
        MoveForm::Intro {
            name: Some(name),
            ..
        } => add(shown, name.text.as_str()),
        MoveForm::Intros { names, .. } => add_words(shown, names.as_slice()),
        MoveForm::Exact { term, .. } => add(shown, row(term)),
        MoveForm::Apply { term, .. } => add(shown, row(term)),
        MoveForm::Unfold { name, .. } => add(shown, name.text.as_str()),
        MoveForm::Destruct { name, pattern, .. } => add_subject(shown, name, pattern),
        MoveForm::Induction { name, pattern, .. } => add_subject(shown, name, pattern),
        MoveForm::Rewrite {
            direction,
            term,
            ..
        } => {
            add_direction(shown, *direction)?;
            add(shown, row(term))
        }
        _ => Ok(()),
    }
}

pub fn proof_move(alloc: Global, tree: &MoveTree) -> Result<String, NoMem> {
    let mut shown = String::from_str(alloc, move_word(tree.form()))?;
    add_move(&mut shown, tree.form())?;
    Ok(shown)
}
