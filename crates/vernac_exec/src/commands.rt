//! The commands where no proof is under way, each as its run says: names first, then elaboration from
//! left to right, then the kernel.
ghost use Rattle.std.specs.Prelude.{◌≡◌, IfOk};
ghost use Rattle.cic_rules.specs.Contexts.{AreParams};
ghost use Rattle.cic_rules.specs.Fuel.{IsSpentOf};
ghost use Rattle.cic_rules.specs.Judges.{MayJudge, IsTermIn};
ghost use Rattle.vernac_exec.specs.Commands.{judgement_text};
ghost use Rattle.vernac_exec.specs.Standing.{IsDeedIn};
ghost use Rattle.vernac_exec.specs.Calls.{Does, assume_with, elab_over_with, annotation_with, define_with, check_with, begin_with, stated_with, obey_with};

use crate::contexts::named_hyps;
use crate::deed::Deed;
use crate::entering::{close_over, declare_as, refusal};
use crate::families::{induct, open_params};
use crate::state::Theorem;
use base_core::refusal_codes::{NAME_TAKEN, NO_PROOF};
use base_core::{NoMem, Stop, Text};
use cic_rules::{Context, Decl, Declares, Fuel, GlobalEnv, Judge};
use coq_syntax::{Annotation, Command, CommandForm, Group, SurfaceTerm};
use core_term::Term;
use elaborator::{Binding, elab, open_groups};
use proof_state::ProofState;
use prover_iface::ItemKind;
use std::alloc::Global;
use term_print::print_term;

/// `Axiom` or `Parameter`.
fn assume<D: Declares>(
    judge: &D,
    alloc: Global,
    env: &GlobalEnv,
    name: &Text,
    ty: &SurfaceTerm,
    fuel: &mut Fuel,
) -> Result<Deed, Stop>
    ensures answer { Does result fuel.old fuel.new (assume_with env.now name.now ty.now) }
    ensures deed { IfOk result (IsDeedIn env.now) }
    ensures kept { IsSpentOf fuel.old fuel.new }
{
    if env.place_of(name).is_some() {
        return Err(refusal(NAME_TAKEN));
    }
    let ctx = Context::empty();
    let ty = elab(judge, alloc, env, &ctx, ty, fuel)?;
    let name = name.share()?;
    let decl = Decl::Assume { name, ty };
    declare_as(judge, alloc, env, ItemKind::Axiom, &decl, fuel)
}

/// A term under groups, as a product or a function over them.
fn elab_over<J: Judge>(
    judge: &J,
    alloc: Global,
    env: &GlobalEnv,
    kind: Binding,
    inner: &Context,
    s: &SurfaceTerm,
    fuel: &mut Fuel,
) -> Result<Term, Stop>
    requires { MayJudge env.now inner.now }
    ensures answer { Does result fuel.old fuel.new (elab_over_with env.now kind inner.now s.now) }
    ensures kept { IsSpentOf fuel.old fuel.new }
{
    let t = elab(judge, alloc, env, inner, s, fuel)?;
    close_over(alloc, kind, inner, t)
}

/// The type over the groups, where one is written.
fn elab_annotation<J: Judge>(
    judge: &J,
    alloc: Global,
    env: &GlobalEnv,
    inner: &Context,
    annotation: &Annotation,
    fuel: &mut Fuel,
) -> Result<Option<Term>, Stop>
    requires { MayJudge env.now inner.now }
    ensures answer { Does result fuel.old fuel.new (annotation_with env.now inner.now annotation.now) }
    ensures kept { IsSpentOf fuel.old fuel.new }
{
    match annotation {
        Annotation::Untyped => Ok(None),
        Annotation::Typed { ty, .. } => {
            let ty = elab_over(judge, alloc, env, Binding::Product, inner, ty, fuel)?;
            Ok(Some(ty))
        }
    }
}

/// `Definition`.
fn define<D: Declares>(
    judge: &D,
    alloc: Global,
    env: &GlobalEnv,
    name: &Text,
    groups: &[Group],
    annotation: &Annotation,
    value: &SurfaceTerm,
    fuel: &mut Fuel,
) -> Result<Deed, Stop>
    ensures answer { Does result fuel.old fuel.new (define_with env.now name.now groups.now annotation.now value.now) }
    ensures deed { IfOk result (IsDeedIn env.now) }
    ensures kept { IsSpentOf fuel.old fuel.new }
{
    if env.place_of(name).is_some() {
        return Err(refusal(NAME_TAKEN));
    }
    let ctx = Context::empty();
    let inner = open_groups(judge, alloc, env, &ctx, groups, fuel)?;
    let ty = elab_annotation(judge, alloc, env, &inner, annotation, fuel)?;
    let body = elab_over(judge, alloc, env, Binding::Function, &inner, value, fuel)?;
    let name = name.share()?;
    let decl = Decl::Define {
        name,
        ty,
        body,
        opaque: false,
    };
    declare_as(judge, alloc, env, ItemKind::Definition, &decl, fuel)
}

/// `Check`, in a context.
pub(crate) fn check<J: Judge>(
    judge: &J,
    alloc: Global,
    env: &GlobalEnv,
    ctx: &Context,
    s: &SurfaceTerm,
    fuel: &mut Fuel,
) -> Result<Deed, Stop>
    requires { MayJudge env.now ctx.now }
    ensures answer { Does result fuel.old fuel.new (check_with env.now ctx.now s.now) }
    ensures deed { IfOk result (IsDeedIn env.now) }
    ensures kept { IsSpentOf fuel.old fuel.new }
{
    let t = elab(judge, alloc, env, ctx, s, fuel)?;
    let found = judge.infer(alloc, env, ctx, &t, fuel)?;
    let text = judgement_text(alloc, env, ctx, &t, &found.ty)?;
    Ok(Deed::Answers(text))
}

/// A term and its type.
fn judgement_text(
    alloc: Global,
    env: &GlobalEnv,
    ctx: &Context,
    t: &Term,
    ty: &Term,
) -> Result<Text, NoMem>
    ensures { IfOk result (λ text. text ≡ judgement_text env.now ctx.now t.now ty.now) }
{
    let term = print_term(alloc, env, ctx, t)?;
    let ty = print_term(alloc, env, ctx, ty)?;
    let mut text = String::from_str(alloc, term.as_str())?;
    text.push_str(" : ")?;
    text.push_str(ty.as_str())?;
    Text::from_string(alloc, text)
}

/// A theorem whose statement is elaborated over these hypotheses.
#[tactic(auto, using(crate::proofs::HypLists::statement_free, crate::proofs::HypLists::begins_in))]
fn stated<D: Declares>(
    judge: &D,
    alloc: Global,
    env: &GlobalEnv,
    name: &Text,
    inner: &Context,
    statement: Term,
    fuel: &mut Fuel,
) -> Result<Deed, Stop>
    requires judged { MayJudge env.now inner.now }
    requires plain { AreParams inner.now }
    requires statement { IsTermIn env.now inner.now statement }
    ensures answer { Does result fuel.old fuel.new (stated_with env.now name.now inner.now statement) }
    ensures deed { IfOk result (IsDeedIn env.now) }
    ensures kept { IsSpentOf fuel.old fuel.new }
{
    let ty = close_over(alloc, Binding::Product, inner, statement.share()?)?;
    let decl = Decl::Admit {
        name: name.share()?,
        ty: ty.share()?,
    };
    let admitted = judge.declare(alloc, env, &decl, fuel)?;
    let hyps = named_hyps(alloc, env, inner)?;
    let proof = ProofState::start(alloc, &hyps, &statement)?;
    let theorem = Theorem {
        name: name.share()?,
        ty,
        admitted,
    };
    Ok(Deed::Begins { theorem, proof })
}

/// `Theorem` or `Lemma`.
fn begin_proof<D: Declares>(
    judge: &D,
    alloc: Global,
    env: &GlobalEnv,
    name: &Text,
    groups: &[Group],
    ty: &SurfaceTerm,
    fuel: &mut Fuel,
) -> Result<Deed, Stop>
    ensures answer { Does result fuel.old fuel.new (begin_with env.now name.now groups.now ty.now) }
    ensures deed { IfOk result (IsDeedIn env.now) }
    ensures kept { IsSpentOf fuel.old fuel.new }
{
    if env.place_of(name).is_some() {
        return Err(refusal(NAME_TAKEN));
    }
    let inner = open_params(judge, alloc, env, groups, fuel)?;
    let statement = elab(judge, alloc, env, &inner, ty, fuel)?;
    stated(judge, alloc, env, name, &inner, statement, fuel)
}

/// A command where no proof is under way.
#[tactic(auto, unfolding(crate::specs::Commands::obey))]
pub(crate) fn obey<D: Declares>(
    judge: &D,
    alloc: Global,
    env: &GlobalEnv,
    command: &Command,
    fuel: &mut Fuel,
) -> Result<Deed, Stop>
    ensures answer { Does result fuel.old fuel.new (obey_with env.now command.now) }
    ensures deed { IfOk result (IsDeedIn env.now) }
    ensures kept { IsSpentOf fuel.old fuel.new }
{
    match command.form() {
        CommandForm::Assume { name, ty, .. } => assume(judge, alloc, env, &name.text, ty, fuel),
        CommandForm::Define {
            name,
            groups,
            annotation,
            body,
            ..
        } => define(
            judge,
            alloc,
            env,
            &name.text,
            groups.as_slice(),
            annotation,
            body,
            fuel,
        ),
        CommandForm::State {
            name,
            groups,
            ty,
            ..
        } => begin_proof(judge, alloc, env, &name.text, groups.as_slice(), ty, fuel),
        CommandForm::Inductive {
            name,
            groups,
            arity,
            constructors,
            ..
        } => induct(
            judge,
            alloc,
            env,
            &name.text,
            groups.as_slice(),
            arity,
            constructors.as_slice(),
            fuel,
        ),
        CommandForm::Check { term, .. } => {
            let ctx = Context::empty();
            check(judge, alloc, env, &ctx, term, fuel)
        }
        CommandForm::Proof(_) => Err(refusal(NO_PROOF)),
        CommandForm::Qed(_) => Err(refusal(NO_PROOF)),
        CommandForm::Defined(_) => Err(refusal(NO_PROOF)),
        CommandForm::Admitted(_) => Err(refusal(NO_PROOF)),
        CommandForm::Aborted(_) => Err(refusal(NO_PROOF)),
    }
}
