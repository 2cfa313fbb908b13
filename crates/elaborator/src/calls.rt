//! Elaboration in a context, as commands and proof moves ask for it.
ghost use Rattle.std.specs.Prelude.{◌≡◌, IfOk};
ghost use Rattle.coq_syntax.specs.Nodes.{groups_of};
ghost use Rattle.cic_rules.specs.Fuel.{left, IsSpentOf};
ghost use Rattle.cic_rules.specs.Judges.{MayJudge, IsTermIn, Meets};
ghost use Rattle.elaborator.specs.Elab.{elab_with, groups_with};

use crate::elaborate::{elab_in, groups_in};
use crate::scope::Scope;
use base_core::Stop;
use cic_rules::{Context, Fuel, GlobalEnv, Judge};
use coq_syntax::{Group, SurfaceTerm};
use core_term::Term;
use std::alloc::Global;

/// The term of a tree. Refused at a token of the tree with 40 where a name means nothing, or a global
/// of the prelude that an operator or a numeral means is not there; with 41 where no argument has the
/// name that is given, 42 where one is given twice, and 43 at the head where one is missing; with 13
/// at the number of a `Type@{n}` that is no level, which no parser's tree has. The refusals of `infer`,
/// in `a = b` and in a `let` without a type, stand at the whole sentence. The term is in scope.
///
/// Names are found in a time that is logarithmic in the number of hypotheses; an index of them is made
/// once for each call. A group's type that is not closed is copied for each further name.
pub fn elab<J: Judge>(
    judge: &J,
    alloc: Global,
    env: &GlobalEnv,
    ctx: &Context,
    s: &SurfaceTerm,
    fuel: &mut Fuel,
) -> Result<Term, Stop>
    requires judged { MayJudge env.now ctx.now }
    ensures answer { Meets result (left fuel.new) (elab_with env.now ctx.now s.now fuel.old) }
    ensures inside { IfOk result (λ t. IsTermIn env.now ctx.now t) }
    ensures kept { IsSpentOf fuel.old fuel.new }
{
    let scope = Scope::of(alloc, ctx)?;
    elab_in(judge, alloc, env, &scope, s, fuel)
}

/// The context with the hypotheses of groups, where the type and the value of a statement stand; `close`
/// makes products or functions of them. Refused as `elab`.
pub fn open_groups<J: Judge>(
    judge: &J,
    alloc: Global,
    env: &GlobalEnv,
    ctx: &Context,
    groups: &[Group],
    fuel: &mut Fuel,
) -> Result<Context, Stop>
    requires judged { MayJudge env.now ctx.now }
    ensures answer { Meets result (left fuel.new) (groups_with env.now ctx.now (groups_of groups.now) fuel.old) }
    ensures judged { IfOk result (λ inner. MayJudge env.now inner) }
    ensures kept { IsSpentOf fuel.old fuel.new }
{
    let scope = Scope::of(alloc, ctx)?;
    let inner = groups_in(judge, alloc, env, &scope, groups, fuel)?;
    Ok(inner.context().share()?)
}
