//! The kernel as a judge.
ghost use Rattle.std.specs.Prelude.{length, IfOk};
ghost use Rattle.cic_rules.specs.Fuel.{left, IsSpentOf};
ghost use Rattle.cic_rules.specs.Judges.{MayJudge, IsTermIn, IsInferredIn, Meets, infer_with, check_with, declare_with};
ghost use Rattle.cic_rules.specs.Scopes.{AreNames, UsesOnly};
ghost use Rattle.cic_rules.specs.WellFormed.{WfEnv};
ghost use Rattle.cic_soundness.specs.Laws.{IsKnown};

use crate::{declarations, inference};
use base_core::{NoMem, NumberList, Stop};
use cic_rules::{Answer, Context, Decl, Declares, Fuel, GlobalEnv, Inferred, Judge, Mode};
use core_term::Term;
use std::alloc::Global;

/// The judge that the program trusts: its answers are those of the written rules, in units and in
/// nesting too.
#[derive(Clone, Copy, Debug)]
pub struct Kernel {}

impl Judge for Kernel {
    fn whnf(
        &self,
        alloc: Global,
        env: &GlobalEnv,
        ctx: &Context,
        t: &Term,
        fuel: &mut Fuel,
    ) -> Result<Term, Stop> {
        conversion::whnf(alloc, env, ctx, t, true, fuel)
    }

    fn conv(
        &self,
        alloc: Global,
        env: &GlobalEnv,
        ctx: &Context,
        t: &Term,
        u: &Term,
        mode: Mode,
        fuel: &mut Fuel,
    ) -> Result<Answer, NoMem> {
        conversion::conv(alloc, env, ctx, t, u, mode, fuel)
    }

    fn infer(
        &self,
        alloc: Global,
        env: &GlobalEnv,
        ctx: &Context,
        t: &Term,
        fuel: &mut Fuel,
    ) -> Result<Inferred, Stop> {
        infer(alloc, env, ctx, t, fuel)
    }
}

impl Declares for Kernel {
    fn declare(
        &self,
        alloc: Global,
        env: &GlobalEnv,
        decl: &Decl,
        fuel: &mut Fuel,
    ) -> Result<GlobalEnv, Stop> {
        declare(alloc, env, decl, fuel)
    }
}

/// The type of a term, with the places of the globals that were used to find it, ascending. It is
/// refused as `Judge::infer` tells. The type is derivable by the written rules, in each context that is
/// well formed over these names and others.
#[tactic(auto, using(crate::proofs::SoundLaws::type_known))]
pub fn infer(
    alloc: Global,
    env: &GlobalEnv,
    ctx: &Context,
    t: &Term,
    fuel: &mut Fuel,
) -> Result<Inferred, Stop>
    requires judged { MayJudge env.now ctx.now }
    ensures answer { Meets result (left fuel.new) (infer_with env.now ctx.now t.now fuel.old) }
    ensures judged { IfOk result (IsInferredIn env.now ctx.now t.now) }
    ensures sound { IfOk result (λ i. IsKnown env.now ctx.now t.now i.ty i.used) }
    ensures kept { IsSpentOf fuel.old fuel.new }
{
    inference::infer(alloc, env, ctx, t, fuel)
}

/// The environment with what is declared. It is refused as `Declares::declare` tells. A well formed
/// environment stays well formed.
#[tactic(auto, using(crate::proofs::SoundLaws::declared_known))]
pub fn declare(
    alloc: Global,
    env: &GlobalEnv,
    decl: &Decl,
    fuel: &mut Fuel,
) -> Result<GlobalEnv, Stop>
    ensures answer { Meets result (left fuel.new) (declare_with env.now decl.now fuel.old) }
    ensures sound { IfOk result (λ made. WfEnv env.now → WfEnv made) }
    ensures kept { IsSpentOf fuel.old fuel.new }
{
    declarations::declare(alloc, env, decl, fuel)
}

/// Checks a term against a type, with the refusals of `infer` and with 22 where its type is another:
/// the places of the globals that were used, ascending. That the term has the type is derivable by the
/// written rules, as for `infer`.
#[tactic(auto, using(crate::proofs::SoundLaws::check_known))]
pub fn check(
    alloc: Global,
    env: &GlobalEnv,
    ctx: &Context,
    t: &Term,
    wanted: &Term,
    fuel: &mut Fuel,
) -> Result<NumberList, Stop>
    requires judged { MayJudge env.now ctx.now }
    requires wanted { IsTermIn env.now ctx.now wanted.now }
    ensures answer { Meets result (left fuel.new) (check_with env.now ctx.now t.now wanted.now fuel.old) }
    ensures term { IfOk result (λ used. IsTermIn env.now ctx.now t.now) }
    ensures names { IfOk result (λ used. AreNames (length env.now) used) }
    ensures uses { IfOk result (λ used. UsesOnly used t.now) }
    ensures sound { IfOk result (λ used. IsKnown env.now ctx.now t.now wanted.now used) }
    ensures kept { IsSpentOf fuel.old fuel.new }
{
    cic_rules::check(&Kernel {}, alloc, env, ctx, t, wanted, fuel)
}
