//! The sorts of a type's leading domains.
ghost use Rattle.std.specs.Prelude.{◌≡◌, ◌∷◌, length, IfOk};
ghost use Rattle.core_term.specs.Tree.{Prod};
ghost use Rattle.cic_rules.specs.Fuel.{left, IsSpentOf};
ghost use Rattle.cic_rules.specs.Judges.{MayJudge, IsTermIn, Meets, row_with};
ghost use Rattle.cic_rules.specs.Inductive.{with_domain};
ghost use Rattle.cic_rules.specs.Calls.{leaf_row_with, product_row_with};
ghost use Rattle.cic_rules.specs.Scopes.{AreNames, UsesOnly};

use crate::context::Context;
use crate::env::GlobalEnv;
use crate::families::{RowSorts, SortList};
use crate::fuel::Fuel;
use crate::judge::{InferredSort, Judge};
use crate::judgements::sort_of;
use crate::unions::union;
use base_core::{Limit, NoMem, Stop, Text};
use core_term::{Node, Sort, Term, product_sort};
use std::alloc::Global;

/// The sort of a type, as `sort_of` finds it and for as many units, with the sorts that it finds of
/// the leading domains and of what stands behind each.
#[cycle(row)]
pub fn row_of<J: Judge>(
    judge: &J,
    alloc: Global,
    env: &GlobalEnv,
    ctx: &Context,
    t: &Term,
    fuel: &mut Fuel,
) -> Result<RowSorts, Stop>
    requires { MayJudge env.now ctx.now }
    ensures answer { Meets result (left fuel.new) (row_with env.now ctx.now t.now fuel.old) }
    ensures term { IfOk result (λ r. IsTermIn env.now ctx.now t.now) }
    ensures names { IfOk result (λ r. AreNames (length env.now) r.used) }
    ensures uses { IfOk result (λ r. UsesOnly r.used t.now) }
    ensures kept { IsSpentOf fuel.old fuel.new }
{
    match t.node() {
        Node::Prod {
            name,
            domain,
            codomain,
        } => {
            if !fuel.enter() {
                return Err(Stop::Out(Limit::DepthLimit));
            }
            let row = product_row(judge, alloc, env, ctx, name, domain, codomain, fuel);
            fuel.leave();
            row
        }
        _ => leaf_row(judge, alloc, env, ctx, t, fuel),
    }
}

/// The row of a type that is no product.
fn leaf_row<J: Judge>(
    judge: &J,
    alloc: Global,
    env: &GlobalEnv,
    ctx: &Context,
    t: &Term,
    fuel: &mut Fuel,
) -> Result<RowSorts, Stop>
    requires { MayJudge env.now ctx.now }
    ensures answer { Meets result (left fuel.new) (leaf_row_with env.now ctx.now t.now fuel.old) }
    ensures term { IfOk result (λ r. IsTermIn env.now ctx.now t.now) }
    ensures names { IfOk result (λ r. AreNames (length env.now) r.used) }
    ensures uses { IfOk result (λ r. UsesOnly r.used t.now) }
    ensures kept { IsSpentOf fuel.old fuel.new }
{
    let found = sort_of(judge, alloc, env, ctx, t, fuel)?;
    Ok(RowSorts {
        sort: found.sort,
        domains: SortList::new(alloc),
        tails: SortList::new(alloc),
        used: found.used,
    })
}

/// The same of a product, inside a judgement that was begun for it.
#[cycle(row)]
fn product_row<J: Judge>(
    judge: &J,
    alloc: Global,
    env: &GlobalEnv,
    ctx: &Context,
    name: &Text,
    a: &Term,
    b: &Term,
    fuel: &mut Fuel,
) -> Result<RowSorts, Stop>
    requires { MayJudge env.now ctx.now }
    ensures answer { Meets result (left fuel.new) (product_row_with env.now ctx.now name.now a.now b.now fuel.old) }
    ensures term { IfOk result (λ r. IsTermIn env.now ctx.now (Prod name.now a.now b.now)) }
    ensures names { IfOk result (λ r. AreNames (length env.now) r.used) }
    ensures uses { IfOk result (λ r. UsesOnly r.used (Prod name.now a.now b.now)) }
    ensures kept { IsSpentOf fuel.old fuel.new }
{
    if !fuel.spend(1) {
        return Err(Stop::Out(Limit::StepLimit));
    }
    let first = sort_of(judge, alloc, env, ctx, a, fuel)?;
    let inner = ctx.with_plain(alloc, name, a)?;
    let rest = row_of(judge, alloc, env, &inner, b, fuel)?;
    let row = joined(alloc, first, rest)?;
    Ok(row)
}

/// A row with one more domain in front.
fn joined(alloc: Global, first: InferredSort, rest: RowSorts) -> Result<RowSorts, NoMem>
    ensures { IfOk result (λ r. r ≡ with_domain first rest) }
{
    let domains = with_first(alloc, first.sort, &rest.domains)?;
    let tails = with_first(alloc, rest.sort, &rest.tails)?;
    let used = union(alloc, &first.used, &rest.used)?;
    Ok(RowSorts {
        sort: product_sort(first.sort, rest.sort),
        domains,
        tails,
        used,
    })
}

/// The sorts behind one more. A row is no longer than a term is deep, so that the copy costs little.
fn with_first(alloc: Global, first: Sort, rest: &SortList) -> Result<SortList, NoMem>
    ensures { IfOk result (λ all. all ≡ first ∷ rest.now) }
{
    let mut all = Vec::new(alloc);
    all.push(first)?;
    all.extend_from_slice(rest.as_slice())?;
    Ok(SortList::from_vec(all))
}
