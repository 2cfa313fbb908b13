//! A walk over a term as it is written, through its binders, groups, annotations and arguments.

ghost use Rattle.std.specs.Prelude.{◌≡◌};
ghost use Rattle.coq_syntax.specs.Nodes.{binders_of, groups_of, annotation_of, arguments_of};
ghost use Rattle.coq_syntax.specs.Trees.{size_of, size_of_binders, size_of_groups, size_of_annotation, size_of_arguments};
ghost use Rattle.coq_syntax.specs.Counts.{capped, argument_term};

use crate::{Annotation, Argument, Binders, Group, Node, SurfaceTerm};

#[cycle(walk)]
fn groups_count(groups: &[Group]) -> u64
    ensures { result ≡ capped (size_of_groups (groups_of groups.now)) }
{
    let mut count = 0;
    for group in groups {
        count = node_count(&group.ty)
            .saturating_add(1)
            .saturating_add(count);
    }
    count
}

#[cycle(walk)]
fn binders_count(binders: &Binders) -> u64
    ensures { result ≡ capped (size_of_binders (binders_of binders.now)) }
{
    match binders {
        Binders::Names { ty, .. } => node_count(ty).saturating_add(1),
        Binders::Groups(groups) => groups_count(groups.as_slice()).saturating_add(1),
    }
}

#[cycle(walk)]
fn annotation_count(annotation: &Annotation) -> u64
    ensures { result ≡ capped (size_of_annotation (annotation_of annotation.now)) }
{
    match annotation {
        Annotation::Untyped => 0,
        Annotation::Typed { ty, .. } => node_count(ty).saturating_add(1),
    }
}

/// The term of an argument, with a name or without.
fn argument_term(argument: &Argument) -> &SurfaceTerm
    ensures { result.now ≡ argument_term argument.now }
{
    match argument {
        Argument::Positional(term) => term,
        Argument::Given { value, .. } => value,
    }
}

#[cycle(walk)]
fn arguments_count(arguments: &[Argument]) -> u64
    ensures { result ≡ capped (size_of_arguments (arguments_of arguments.now)) }
{
    let mut count = 0;
    for argument in arguments {
        count = node_count(argument_term(argument))
            .saturating_add(1)
            .saturating_add(count);
    }
    count
}

/// How many nodes a term has with those of its parts, or the greatest number of 64 bits.
#[cycle(walk)]
pub fn node_count(term: &SurfaceTerm) -> u64
    ensures { result ≡ capped (size_of term.now) }
{
    match term.node() {
        Node::Forall { binders, body, .. } => {
            binders_count(binders)
                .saturating_add(node_count(body))
                .saturating_add(1)
        }
        Node::Fun { binders, body, .. } => {
            binders_count(binders)
                .saturating_add(node_count(body))
                .saturating_add(1)
        }
        Node::Let {
            annotation,
            value,
            body,
            ..
        } => annotation_count(annotation)
            .saturating_add(node_count(value))
            .saturating_add(node_count(body))
            .saturating_add(1),
        Node::Arrow { left, right, .. } => {
            node_count(left)
                .saturating_add(node_count(right))
                .saturating_add(1)
        }
        Node::Or { left, right, .. } => {
            node_count(left)
                .saturating_add(node_count(right))
                .saturating_add(1)
        }
        Node::And { left, right, .. } => {
            node_count(left)
                .saturating_add(node_count(right))
                .saturating_add(1)
        }
        Node::Not { operand, .. } => node_count(operand).saturating_add(1),
        Node::Equal { left, right, .. } => {
            node_count(left)
                .saturating_add(node_count(right))
                .saturating_add(1)
        }
        Node::Apply { head, arguments } => node_count(head)
            .saturating_add(arguments_count(arguments.as_slice()))
            .saturating_add(1),
        Node::Parenthesized { inner, .. } => node_count(inner).saturating_add(1),
        Node::Name(_) => 1,
        Node::PropSort(_) => 1,
        Node::SetSort(_) => 1,
        Node::TypeSort(_) => 1,
        Node::TypeAt { .. } => 1,
        Node::Numeral(_) => 1,
    }
}
