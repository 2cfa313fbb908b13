//! The case of each constructor.
ghost use Rattle.std.specs.Prelude.{◌≡◌, ◌+◌, ◌≤◌, ◌<◌, ◌∷◌, false, length, IfOk};
ghost use Rattle.base_core.specs.Answers.{Gives};
ghost use Rattle.core_term.specs.Tree.{Var, Prod};
ghost use Rattle.cic_rules.specs.Eliminators.{automatic as the_automatic_name, hypothesis_name as the_hypothesis_name};
ghost use Rattle.cic_rules.specs.Environments.{AreScopedCtors};
ghost use Rattle.cic_rules.specs.Judges.{MayJudge, IsTermIn};
ghost use Rattle.cic_rules.specs.Scopes.{IsScoped};
ghost use Rattle.cic_rules.specs.Steps.{answer_of};
ghost use Rattle.move_elim.specs.Branches.{next_name as name_next, behind_argument as names_behind};
ghost use Rattle.move_elim.specs.Cases.{name_of_hypothesis as the_name, past_argument as walk_past, past_hypothesis as walk_behind, hypothesis as the_hypothesis, last_goal as the_last_goal, behind_hypothesis as the_rest_behind, case_from as the_case_from, case_of as the_case, with_cases as the_cases};
ghost use Rattle.move_elim.specs.Scopes.{IsWalkIn, AreCasesIn};
ghost use Rattle.move_elim.specs.Sites.{placed as placed_term, with_binder as binder_site};

use crate::branches::{GivenNames, behind_argument, behind_next, next_name, with_given};
use crate::claims::Claim;
use crate::instances::{claim_at, hypothesis};
use crate::introduction::{enter, introduced, plain_hyp};
use crate::sites::{Site, own_site, placed};
use crate::subjects::Subject;
use crate::terms::{at_params, eta_body, instantiated, lifted};
use base_core::{List, NoMem, Stop, Text};
use cic_rules::{Context, Ctor, GlobalEnv};
use core_term::{Node, Term};
use fresh_names::{Names, automatic, free_name};
use proof_state::{Goal, Sketch};
use std::alloc::Global;

/// Where the walk over a constructor's type stands.
#[derive(Drop)]
pub struct Walk {
    pub site: Site,
    pub ctx: Context,
    /// The constructor applied to what was met so far.
    pub built: Term,
    /// The names that are not free.
    pub names: Names,
}

/// `IH` and the argument's name.
fn hypothesis_name(alloc: Global, name: &Text) -> Result<Text, NoMem>
    ensures { IfOk result (λ text. text ≡ the_hypothesis_name name.now) }
{
    let mut text = String::from_str(alloc, "IH")?;
    text.push_str(name.as_str())?;
    Text::from_string(alloc, text)
}

/// The name of a recursive argument's hypothesis: that and free where none is given, and none outside an
/// induction.
pub(crate) fn name_of_hypothesis(
    alloc: Global,
    induction: bool,
    names: &Names,
    given: &[Option<Text>],
    argument: &Text,
) -> Result<Text, NoMem>
    ensures { IfOk result (λ name. name ≡ the_name induction names.now given.now argument.now) }
{
    if !induction {
        return Text::copy(alloc, "_");
    }
    let stem = hypothesis_name(alloc, argument)?;
    let free = free_name(alloc, names, &stem)?;
    next_name(given, free)
}

/// The name of an argument of this type: an automatic one where none is given.
fn name_of_argument(
    alloc: Global,
    env: &GlobalEnv,
    names: &Names,
    given: &[Option<Text>],
    name: &Text,
    ty: &Term,
) -> Result<Text, NoMem>
    ensures { IfOk result (λ own. own ≡ name_next given.now (the_automatic_name env.now names.now name.now ty.now)) }
{
    let own = automatic(alloc, env, names, name, ty)?;
    next_name(given, own)
}

/// Behind one more argument of this name and type, to which the constructor is applied.
#[tactic(auto, using(crate::proofs::WalkLaws::built_few, crate::proofs::WalkLaws::hyp_scoped))]
fn past_argument(
    alloc: Global,
    env: &GlobalEnv,
    w: &Walk,
    name: &Text,
    ty: &Term,
) -> Result<Walk, Stop>
    requires judged { MayJudge env.now w.now.ctx }
    requires depth { w.now.site.depth ≡ length w.now.ctx }
    requires built { IsTermIn env.now w.now.ctx w.now.built }
    requires ty { IsTermIn env.now w.now.ctx ty.now }
    ensures { Gives result (answer_of (walk_past w.now name.now ty.now)) }
{
    let _count = w.ctx.len();
    let hyp = plain_hyp(name, ty)?;
    let ctx = enter(alloc, env, &w.ctx, &hyp)?;
    let built = eta_body(alloc, &w.built)?;
    let site = w.site.with_variable(alloc)?;
    let names = w.names.with_shown(alloc, name)?;
    Ok(Walk {
        site,
        ctx,
        built,
        names,
    })
}

/// Behind one more hypothesis of this name and type.
#[tactic(auto, using(crate::proofs::WalkLaws::built_few, crate::proofs::WalkLaws::hyp_scoped))]
fn past_hypothesis(
    alloc: Global,
    env: &GlobalEnv,
    w: &Walk,
    name: &Text,
    ty: &Term,
) -> Result<Walk, Stop>
    requires judged { MayJudge env.now w.now.ctx }
    requires depth { w.now.site.depth ≡ length w.now.ctx }
    requires built { IsTermIn env.now w.now.ctx w.now.built }
    requires ty { IsTermIn env.now w.now.ctx ty.now }
    ensures { Gives result (answer_of (walk_behind w.now name.now ty.now)) }
{
    let _count = w.ctx.len();
    let hyp = plain_hyp(name, ty)?;
    let ctx = enter(alloc, env, &w.ctx, &hyp)?;
    let built = lifted(alloc, &w.built, 1, 0)?;
    let site = w.site.with_binder()?;
    let names = w.names.with_shown(alloc, name)?;
    Ok(Walk {
        site,
        ctx,
        built,
        names,
    })
}

/// The claim at the constructor, whose type ends here.
#[tactic(auto, using(crate::proofs::WalkLaws::site_in_walk, crate::proofs::WalkLaws::goal_scoped))]
fn last_goal(
    alloc: Global,
    env: &GlobalEnv,
    c: &Claim,
    w: &Walk,
    t: &Term,
) -> Result<Sketch<Goal>, Stop>
    requires walk { IsWalkIn env.now c.now w.now t.now }
    requires few { length c.now.indices ≤ 1000 }
    ensures { Gives result (answer_of (the_last_goal false env.now c.now w.now t.now)) }
{
    let _count = w.ctx.len();
    let built = w.built.share()?;
    let goal = claim_at(alloc, env.len(), c, &w.site, t, built)?;
    introduced(alloc, env, c.moved, &w.ctx, &goal)
}

/// What the hypothesis of an argument says, right behind it.
#[tactic(auto, using(crate::proofs::WalkLaws::claim_at_argument, crate::proofs::WalkLaws::site_of_argument, crate::proofs::WalkLaws::room_of_argument))]
fn hypothesis_of(
    alloc: Global,
    env: &GlobalEnv,
    c: &Claim,
    w: &Walk,
    name: &Text,
    domain: &Term,
    codomain: &Term,
) -> Result<Term, Stop>
    requires walk { IsWalkIn env.now c.now w.now (Prod name.now domain.now codomain.now) }
    requires few { length c.now.indices ≤ 1000 }
    ensures { Gives result (answer_of (the_hypothesis c.now (binder_site w.now.site) (Var 0) domain.now)) }
{
    let _count = w.ctx.len();
    let _depth = domain.depth();
    let site = w.site.with_binder()?;
    let newest = Term::var(alloc, 0)?;
    hypothesis(alloc, env.len(), c, &site, newest, domain)
}

/// A case from an argument on, by which of the arguments are recursive.
#[cycle(from_argument)]
fn case_from(
    alloc: Global,
    env: &GlobalEnv,
    c: &Claim,
    induction: bool,
    w: &Walk,
    given: &[Option<Text>],
    flags: &[bool],
    t: &Term,
) -> Result<Sketch<Goal>, Stop>
    requires walk { IsWalkIn env.now c.now w.now t.now }
    requires few { length c.now.indices ≤ 1000 }
    ensures { Gives result (answer_of (the_case_from induction env.now c.now w.now given.now flags.now t.now)) }
{
    match flags.split_first() {
        None => last_goal(alloc, env, c, w, t),
        Some((recursive, later)) => match t.node() {
            Node::Prod {
                name,
                domain,
                codomain,
            } => under_argument(
                alloc, env, c, induction, w, given, *recursive, later, name, domain, codomain,
            ),
            Node::Var(_) => last_goal(alloc, env, c, w, t),
            Node::Sorted(_) => last_goal(alloc, env, c, w, t),
            Node::Constant(_) => last_goal(alloc, env, c, w, t),
            Node::Lam { .. } => last_goal(alloc, env, c, w, t),
            Node::LetIn { .. } => last_goal(alloc, env, c, w, t),
            Node::App { .. } => last_goal(alloc, env, c, w, t),
        },
    }
}

/// The same of one whose type is a product.
#[cycle(from_argument)]
#[tactic(auto, using(crate::proofs::WalkLaws::domain_placed, crate::proofs::WalkLaws::built_in))]
fn under_argument(
    alloc: Global,
    env: &GlobalEnv,
    c: &Claim,
    induction: bool,
    w: &Walk,
    given: &[Option<Text>],
    recursive: bool,
    later: &[bool],
    name: &Text,
    domain: &Term,
    codomain: &Term,
) -> Result<Sketch<Goal>, Stop>
    requires walk { IsWalkIn env.now c.now w.now (Prod name.now domain.now codomain.now) }
    requires few { length c.now.indices ≤ 1000 }
    ensures { let t = Prod name.now domain.now codomain.now in
        Gives result (answer_of (the_case_from induction env.now c.now w.now given.now (recursive ∷ later.now) t)) }
{
    let _count = w.ctx.len();
    let ty = placed(alloc, domain, &w.site, env.len())?;
    let own = name_of_argument(alloc, env, &w.names, given, name, &ty)?;
    let inner = past_argument(alloc, env, w, &own, &ty)?;
    match behind_hypothesis(
        alloc, env, c, induction, w, &inner, given, recursive, later, name, &own, domain, codomain,
    ) {
        Ok(sketch) => Ok(Sketch::lam(alloc, own, ty, sketch)?),
        Err(stop) => Err(stop),
    }
}

/// What stands behind an argument of this name: first its hypothesis, where it is recursive.
#[cycle(from_argument)]
#[tactic(auto, using(crate::proofs::WalkLaws::inner_walk, crate::proofs::WalkLaws::says_scoped))]
fn behind_hypothesis(
    alloc: Global,
    env: &GlobalEnv,
    c: &Claim,
    induction: bool,
    w: &Walk,
    inner: &Walk,
    given: &[Option<Text>],
    recursive: bool,
    later: &[bool],
    name: &Text,
    own: &Text,
    domain: &Term,
    codomain: &Term,
) -> Result<Sketch<Goal>, Stop>
    requires walk { IsWalkIn env.now c.now w.now (Prod name.now domain.now codomain.now) }
    requires few { length c.now.indices ≤ 1000 }
    requires inner { Ok inner.now ≡ answer_of (walk_past w.now own.now (placed_term w.now.site domain.now)) }
    ensures { let names = names_behind induction recursive given.now in
        let behind = the_rest_behind induction env.now c.now recursive w.now inner.now given.now own.now domain.now in
        Gives result (answer_of (behind (λ last. the_case_from induction env.now c.now last names later.now codomain.now))) }
{
    let names = behind_argument(induction, recursive, given);
    if !recursive {
        return case_from(alloc, env, c, induction, inner, names, later, codomain);
    }
    let ty = hypothesis_of(alloc, env, c, w, name, domain, codomain)?;
    let own = name_of_hypothesis(alloc, induction, &inner.names, behind_next(given), own)?;
    let last = past_hypothesis(alloc, env, inner, &own, &ty)?;
    match case_from(alloc, env, c, induction, &last, names, later, codomain) {
        Ok(sketch) => Ok(Sketch::lam(alloc, own, ty, sketch)?),
        Err(stop) => Err(stop),
    }
}

/// The case of the constructor with an index, with the names of its branch; other names stay.
#[tactic(auto, using(crate::proofs::CaseLaws::type_numbered))]
fn case_of(
    alloc: Global,
    env: &GlobalEnv,
    c: &Claim,
    induction: bool,
    x: &Subject,
    hidden: &Context,
    names: &Names,
    index: u32,
    ctor: &Ctor,
    flags: &[bool],
    given: &[Option<Text>],
) -> Result<Sketch<Goal>, Stop>
    requires cases { AreCasesIn env.now hidden.now c.now x.now }
    requires ctor { IsScoped (length x.now.params) (length env.now) ctor.now.ty }
    requires place { x.now.place + 1 + index < length env.now }
    ensures { let case = the_case induction env.now c.now x.now hidden.now names.now index ctor.now flags.now given.now in
        Gives result (answer_of case) }
{
    let _count = hidden.len();
    let _globals = env.len();
    let _depth = ctor.ty.depth();
    let ty = instantiated(alloc, &ctor.ty, &x.params)?;
    let built = at_params(alloc, x.place + 1 + index, &x.params)?;
    let site = own_site(alloc, c.below)?;
    let ctx = hidden.share()?;
    let names = with_given(alloc, names, given)?;
    let walk = Walk {
        site,
        ctx,
        built,
        names,
    };
    case_from(alloc, env, c, induction, &walk, given, flags, &ty)
}

/// A function applied to the cases from a constructor on.
pub(crate) fn with_cases(
    alloc: Global,
    env: &GlobalEnv,
    c: &Claim,
    induction: bool,
    x: &Subject,
    hidden: &Context,
    names: &Names,
    index: u32,
    ctors: &[Ctor],
    flags: &[List<bool>],
    branches: &[GivenNames],
    function: Sketch<Goal>,
) -> Result<Sketch<Goal>, Stop>
    requires cases { AreCasesIn env.now hidden.now c.now x.now }
    requires ctors { AreScopedCtors (length x.now.params) (length env.now) ctors.now }
    requires places { x.now.place + 1 + index + length ctors.now ≤ length env.now }
    ensures { let cases = the_cases induction env.now c.now x.now hidden.now names.now index in
        Gives result (answer_of (cases ctors.now flags.now branches.now function)) }
{
    let _globals = env.len();
    let Some((ctor, later)) = ctors.split_first() else {
        return Ok(function);
    };
    let Some((flag, others)) = flags.split_first() else {
        return Ok(function);
    };
    let Some((given, more)) = branches.split_first() else {
        return Ok(function);
    };
    let case = case_of(
        alloc,
        env,
        c,
        induction,
        x,
        hidden,
        names,
        index,
        ctor,
        flag.as_slice(),
        given.as_slice(),
    )?;
    let applied = Sketch::app(alloc, function, case)?;
    with_cases(
        alloc,
        env,
        c,
        induction,
        x,
        hidden,
        names,
        index + 1,
        later,
        others,
        more,
        applied,
    )
}
