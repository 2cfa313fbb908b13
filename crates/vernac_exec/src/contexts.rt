//! Contexts that are built from others, hypothesis by hypothesis.
ghost use Rattle.std.specs.Prelude.{◌≡◌, ◌∷◌, length, IfOk};
ghost use Rattle.cic_rules.specs.Contexts.{IsHypAt, AreParams};
ghost use Rattle.cic_rules.specs.Eliminators.{argument_name};
ghost use Rattle.vernac_exec.specs.Commands.{named_hyp, named_hyps};

use base_core::{NoMem, Text};
use cic_rules::{Context, GlobalEnv, Hyp};
use core_term::Term;
use fresh_names::{Names, automatic};
use std::alloc::Global;

/// The context with one more hypothesis of a longer one, under this name.
pub(crate) fn extend(
    alloc: Global,
    older: &Context,
    name: Text,
    hyp: &Hyp,
) -> Result<Context, NoMem>
    requires { IsHypAt (length older.now) hyp.now }
    ensures { IfOk result (λ ctx. ctx ≡ named_hyp hyp.now name ∷ older.now) }
{
    let hyp = hyp.renamed(name)?;
    match older.with(alloc, hyp) {
        Ok(ctx) => Ok(ctx),
        Err(_) => Err(NoMem),
    }
}

/// The name of a hypothesis of this type behind these names: its own, or the automatic one.
fn argument_name(
    alloc: Global,
    env: &GlobalEnv,
    names: &Names,
    name: &Text,
    ty: &Term,
) -> Result<Text, NoMem>
    ensures { IfOk result (λ own. own ≡ argument_name env.now names.now name.now ty.now) }
{
    if name.as_str() != "_" {
        return name.share();
    }
    let own = automatic(alloc, env, names, name, ty)?;
    Ok(own)
}

/// The hypotheses that a proof begins with: each `_` has its automatic name.
#[tactic(auto, using(crate::proofs::HypLists::named_plain))]
pub(crate) fn named_hyps(alloc: Global, env: &GlobalEnv, inner: &Context) -> Result<Context, NoMem>
    requires { AreParams inner.now }
    ensures hyps { IfOk result (λ hyps. hyps ≡ named_hyps env.now inner.now) }
    ensures plain { IfOk result AreParams }
{
    let mut hyps = Context::empty();
    let mut names = Names::empty();
    let mut at = inner.len();
    while at > 0 {
        at -= 1;
        let Some(hyp) = inner.get(at) else {
            unreachable!()
        };
        let name = argument_name(alloc, env, &names, &hyp.name, &hyp.ty)?;
        names = names.with_shown(alloc, &name)?;
        hyps = extend(alloc, &hyps, name, hyp)?;
    }
    Ok(hyps)
}
