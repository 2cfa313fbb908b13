//! Sorts of an inductive type: the one at its end, which its arguments' may be, and those that its
//! eliminators may go into.
ghost use Rattle.std.specs.Prelude.{◌≡◌, ◌∷◌, ◌++◌, [], ◌&&◌, Bool, not, if◌then◌else◌, IfOk};
ghost use Rattle.core_term.specs.declared.sorts.Sort.TheVariants.{PropSort as Proposition};
ghost use Rattle.term_spine.specs.Spine.{end_of_products};
ghost use Rattle.cic_rules.specs.Environments.{without as without_place};
ghost use Rattle.cic_rules.specs.Inductive.{sort_at_end, is_prop_sort, row_fits, rows_fit, are_props as all_props, permitted as permitted_sorts, ALL_SORTS};
ghost use Rattle.inductive_check.specs.Rows.{fits, row_domains, rows_used};

use base_core::{NoMem, NumberList};
use cic_rules::{RowSorts, SortList, union};
use core_term::{Node, Sort, Term, sort_le};
use std::alloc::Global;

/// The sort in which an arity ends.
pub(crate) fn sort_at_end(arity: &Term) -> Option<Sort>
    ensures { result ≡ sort_at_end (end_of_products arity.now) }
{
    match arity.node() {
        Node::Prod { codomain, .. } => sort_at_end(codomain),
        Node::Sorted(sort) => Some(*sort),
        Node::Var(_) => None,
        Node::Constant(_) => None,
        Node::Lam { .. } => None,
        Node::LetIn { .. } => None,
        Node::App { .. } => None,
    }
}

pub(crate) fn is_prop(sort: Sort) -> bool
    ensures { result ≡ is_prop_sort sort }
{
    match sort {
        Sort::PropSort => true,
        Sort::SetSort => false,
        Sort::TypeSort(_) => false,
    }
}

/// Whether an argument of this sort may stand in a type of that one.
fn fits(sort: Sort, argument: Sort) -> bool
    ensures { result ≡ fits sort argument }
{
    is_prop(sort) || sort_le(argument, sort)
}

#[tactic(auto, using(crate::proofs::RowLaws::row_next, crate::proofs::RowLaws::row_none))]
fn row_fits(sort: Sort, row: &[Sort]) -> bool
    ensures { result ≡ row_fits sort row.now }
{
    match row {
        [] => true,
        [first, rest @ ..] => fits(sort, *first) && row_fits(sort, rest),
    }
}

/// Whether the arguments of all constructors may stand in a type of this sort.
pub(crate) fn rows_fit(sort: Sort, rows: &[RowSorts]) -> bool
    ensures { result ≡ rows_fit sort (row_domains rows.now) }
{
    for row in rows {
        if !row_fits(sort, row.domains.as_slice()) {
            return false;
        }
    }
    true
}

fn are_props(row: &[Sort]) -> bool
    ensures { result ≡ all_props row.now }
{
    match row {
        [] => true,
        [first, rest @ ..] => is_prop(*first) && are_props(rest),
    }
}

/// Whether a type of this sort may be eliminated into propositions alone.
fn is_confined(sort: Sort, rows: &[RowSorts]) -> bool
    ensures { permitted_sorts sort (row_domains rows.now) ≡ (if result then Proposition ∷ [] else ALL_SORTS) }
{
    match sort {
        Sort::PropSort => match rows {
            [] => false,
            [row] => !are_props(row.domains.as_slice()),
            [_, _, ..] => true,
        },
        Sort::SetSort => false,
        Sort::TypeSort(_) => false,
    }
}

/// The sorts that the eliminators of a type of this sort may go into.
pub(crate) fn permitted(alloc: Global, sort: Sort, rows: &[RowSorts]) -> Result<SortList, NoMem>
    ensures { IfOk result (λ sorts. sorts ≡ permitted_sorts sort (row_domains rows.now)) }
{
    let is_confined = is_confined(sort, rows);
    let mut sorts = Vec::new(alloc);
    sorts.push(Sort::PropSort)?;
    if !is_confined {
        sorts.push(Sort::SetSort)?;
        sorts.push(Sort::TypeSort(1))?;
    }
    Ok(SortList::from_vec(sorts))
}

/// The names used by all rows.
pub(crate) fn rows_used(alloc: Global, rows: &[RowSorts]) -> Result<NumberList, NoMem>
    ensures { IfOk result (λ used. used ≡ rows_used rows.now) }
{
    let mut used = NumberList::new(alloc);
    let mut at = rows.len();
    while at > 0 {
        at -= 1;
        used = union(alloc, &rows[at].used, &used)?;
    }
    Ok(used)
}

/// The places without one of them.
pub(crate) fn without(alloc: Global, place: u32, used: &NumberList) -> Result<NumberList, NoMem>
    ensures { IfOk result (λ others. others ≡ without_place place used.now) }
{
    let used = used.as_slice();
    let mut others = NumberList::new(alloc);
    for other in used {
        if *other != place {
            others.push(*other)?;
        }
    }
    Ok(others)
}
