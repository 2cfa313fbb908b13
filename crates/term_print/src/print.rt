//! The text of a term of a context.
ghost use Rattle.std.specs.Prelude.{◌≡◌, [], ◌∷◌, ◌++◌, IfOk, OnOk, codes};
ghost use Rattle.term_spine.specs.Globals.{globals_of, places_in};
ghost use Rattle.term_print.specs.Pages.{added, large, text_or_large};
ghost use Rattle.term_print.specs.Pieces.{at_most};
ghost use Rattle.term_print.specs.Show.{show, hyp_names, global_names, names_around, whole_text, printed};

use crate::named::named;
use crate::operations::global_name;
use crate::page::Page;
use crate::scope::Scope;
use crate::write::write_at;
use base_core::{NoMem, PRINTED_NODES_LIMIT, Text};
use cic_rules::{Context, GlobalEnv};
use core_term::Term;
use std::alloc::Global;
use term_spine::globals;

/// The text of a term of a context, with the operators of the prelude and with binders renamed
/// where their names are taken. One that has too many nodes, or whose text would be too long, is
/// `<large>`, and of it no more is built than the limit allows.
pub fn print_term(alloc: Global, env: &GlobalEnv, ctx: &Context, t: &Term) -> Result<Text, NoMem>
    ensures { IfOk result (λ text. text ≡ printed env.now ctx.now t.now) }
{
    if t.size() > PRINTED_NODES_LIMIT {
        return Text::copy(alloc, "<large>");
    }
    print_small(alloc, env, ctx, t)
}

/// The same of a term that has not too many nodes.
#[tactic(auto, using(crate::proofs::NamedLaws::shown_named))]
fn print_small(alloc: Global, env: &GlobalEnv, ctx: &Context, t: &Term) -> Result<Text, NoMem>
    ensures { IfOk result (λ text. text ≡ text_or_large (added (Some []) (whole_text env.now ctx.now t.now))) }
{
    let scope = names_around(alloc, env, ctx, t)?;
    let named = named(alloc, t)?;
    let mut page = Page::new(alloc);
    write_at(&mut page, alloc, env, 200, &named, &scope)?;
    page.into_text(alloc)
}

/// The names that no binder of the term may have.
fn names_around(alloc: Global, env: &GlobalEnv, ctx: &Context, t: &Term) -> Result<Scope, NoMem>
    ensures { IfOk result (λ scope. scope ≡ names_around env.now ctx.now t.now) }
{
    let hypotheses = names_of_hypotheses(alloc, ctx)?;
    let places = globals(alloc, t)?;
    with_globals(alloc, env, hypotheses, places.as_slice())
}

#[tactic(auto, using(crate::proofs::NameLaws::next_hypothesis, crate::proofs::NameLaws::last_hypothesis))]
fn names_of_hypotheses(alloc: Global, ctx: &Context) -> Result<Scope, NoMem>
    ensures { IfOk result (λ scope. scope ≡ hyp_names ctx.now) }
{
    let mut scope = Scope::empty();
    for i in 0..ctx.len() {
        let Some(hyp) = ctx.get(i) else {
            unreachable!()
        };
        scope = scope.with_last(alloc, hyp.name.share()?)?;
    }
    Ok(scope)
}

fn with_globals(
    alloc: Global,
    env: &GlobalEnv,
    scope: Scope,
    places: &[u32],
) -> Result<Scope, NoMem>
    ensures { IfOk result (λ all. all ≡ scope ++ global_names env.now places.now) }
{
    let mut scope = scope;
    for place in places {
        scope = scope.with_last(alloc, global_name(alloc, env, *place)?)?;
    }
    Ok(scope)
}
