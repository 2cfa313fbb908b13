//! The arguments of a term by which a goal is rewritten.
ghost use Rattle.std.specs.Prelude.{◌≡◌, ◌+◌, ◌-◌, ◌≤◌, length, IfOk};
ghost use Rattle.term_spine.specs.Spine.{count_products};
ghost use Rattle.cic_rules.specs.Fuel.{left, IsSpentOf};
ghost use Rattle.cic_rules.specs.Judges.{MayJudge, Meets};
ghost use Rattle.cic_rules.specs.Scopes.{IsScoped};
ghost use Rattle.matching.specs.Scopes.{AreValues};
ghost use Rattle.proof_state.specs.Scopes.{IsSketchIn};
ghost use Rattle.move_rewrite.specs.Calls.{arguments_with};

use base_core::Stop;
use cic_rules::{Context, Fuel, GlobalEnv, Judge};
use core_term::{Node, Term};
use matching::Values;
use move_basic::argument;
use proof_state::{Goal, Sketch};
use std::alloc::Global;

/// A function of this type, of whose products so many are left, with an argument for each.
pub(crate) fn with_arguments<J: Judge>(
    judge: &J,
    alloc: Global,
    env: &GlobalEnv,
    ctx: &Context,
    values: &Values,
    count: u32,
    ty: &Term,
    function: Sketch<Goal>,
    fuel: &mut Fuel,
) -> Result<Sketch<Goal>, Stop>
    requires judged { MayJudge env.now ctx.now }
    requires found { AreValues (length ctx.now - 0) (length env.now) values.now }
    requires few { length values.now ≤ 1000 }
    requires place { count ≤ length values.now }
    requires all { count ≡ count_products ty.now }
    requires ty { IsScoped (length ctx.now + (length values.now - count)) (length env.now) ty.now }
    requires function { IsSketchIn env.now ctx.now function }
    ensures answer { let run = arguments_with env.now ctx.now values.now count ty.now function in
        Meets result (left fuel.new) (run fuel.old) }
    ensures sketch { IfOk result (IsSketchIn env.now ctx.now) }
    ensures kept { IsSpentOf fuel.old fuel.new }
{
    match ty.node() {
        Node::Prod {
            domain,
            codomain,
            ..
        } => {
            let used = 0 < codomain.occurrences(0);
            match argument(judge, alloc, env, ctx, values, count, domain, used, fuel) {
                Ok(x) => {
                    let applied = Sketch::app(alloc, function, x)?;
                    with_arguments(
                        judge,
                        alloc,
                        env,
                        ctx,
                        values,
                        count - 1,
                        codomain,
                        applied,
                        fuel,
                    )
                }
                Err(stop) => Err(stop),
            }
        }
        Node::Var(_) => Ok(function),
        Node::Sorted(_) => Ok(function),
        Node::Constant(_) => Ok(function),
        Node::Lam { .. } => Ok(function),
        Node::LetIn { .. } => Ok(function),
        Node::App { .. } => Ok(function),
    }
}
