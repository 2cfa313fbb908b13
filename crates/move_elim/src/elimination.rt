//! `destruct` and `induction`: a goal by the constructors of a hypothesis' inductive type.
ghost use Rattle.std.specs.Prelude.{◌≡◌, ◌+◌, ◌++◌, ◌∷◌, ◌&&◌, ◌<◌, ◌≤◌, Some, length, IfOk, OnOk};
ghost use Rattle.base_core.specs.Answers.{Gives};
ghost use Rattle.coq_syntax.specs.Forms.{pattern_of};
ghost use Rattle.core_term.specs.Tree.{Var};
ghost use Rattle.cic_rules.specs.declared.decls.InductiveDecl.{InductiveDecl as Declared};
ghost use Rattle.cic_rules.specs.Eliminators.{is_in_prop as is_proposition};
ghost use Rattle.cic_rules.specs.Environments.{decl_at, IsScopedDecl};
ghost use Rattle.cic_rules.specs.Judges.{MayJudge, IsTermIn};
ghost use Rattle.cic_rules.specs.Scopes.{AreBefore};
ghost use Rattle.cic_rules.specs.Shapes.{recursive_in};
ghost use Rattle.cic_rules.specs.Steps.{answer_of};
ghost use Rattle.proof_state.specs.Partial.{Ready};
ghost use Rattle.move_elim.specs.Branches.{any_clash as some_clash};
ghost use Rattle.move_elim.specs.Generalised.{depends as depends_on};
ghost use Rattle.move_elim.specs.Elimination.{hidden as the_hidden, names_without as the_names, plain_places, with_variables as applied_to_variables, tested as the_tests, term_by as the_term_by, term_with as the_term, moved_with as the_moved, elimination as the_elimination};
ghost use Rattle.move_elim.specs.Scopes.{IsSubjectIn, IsSmallSubject, IsClaimIn};

use crate::branches::{GivenNames, any_clash, branches_of, have_too_many};
use crate::cases::with_cases;
use crate::claims::{Claim, claim_of, copied, eliminator_into, is_in_prop, push_all};
use crate::generalised::{depends, generalised_with};
use crate::motives::motive_of;
use crate::refusals::refusal;
use crate::subjects::{Subject, is_plain};
use crate::terms::{apply, at_params};
use base_core::refusal_codes::{
    GOAL_DEPENDS, NAME_USED, NOT_INDUCTIVE, NOT_PERMITTED, PATTERN_MISFIT,
};
use base_core::{List, NoMem, NumberList, Stop, Text};
use cic_rules::{Context, GlobalEnv, InductiveDecl};
use coq_syntax::Pattern;
use core_term::{Sort, Term, TermStop};
use fresh_names::Names;
use proof_state::{Goal, Sketch};
use std::alloc::Global;

/// The context with hypotheses taken away: they keep their places under the name `_`.
#[tactic(auto, using(crate::proofs::ContextLoops::before_renamed))]
fn hidden(alloc: Global, ctx: &Context, places: &[u32]) -> Result<Context, NoMem>
    requires { AreBefore (length ctx.now) places.now }
    ensures { IfOk result (λ c. c ≡ the_hidden ctx.now places.now) }
{
    match places.split_first() {
        None => ctx.share(),
        Some((i, later)) => {
            let name = Text::copy(alloc, "_")?;
            let ctx = ctx.rename(alloc, *i, name)?;
            hidden(alloc, &ctx, later)
        }
    }
}

/// The names of the hypotheses that stay or come back: all but that of one.
fn names_without(alloc: Global, ctx: &Context, i: u32) -> Result<Names, NoMem>
    requires { i < length ctx.now }
    ensures { IfOk result (λ names. names ≡ the_names ctx.now i) }
{
    let name = Text::copy(alloc, "_")?;
    let ctx = ctx.rename(alloc, i, name)?;
    let names = Names::of(alloc, &ctx)?;
    Ok(names)
}

/// Adds the places of those hypotheses that have no definition.
fn push_plain(ctx: &Context, places: &[u32], found: &mut NumberList) -> Result<(), NoMem>
    ensures { OnOk result (found.new ≡ found.old ++ plain_places ctx.now places.now) }
{
    match places.split_first() {
        None => Ok(()),
        Some((i, later)) => {
            if is_plain(ctx, *i) {
                found.push(*i)?;
            }
            push_plain(ctx, later, found)
        }
    }
}

/// A variable, which is there.
fn variable(alloc: Global, i: u32) -> Result<Sketch<Goal>, NoMem>
    ensures { IfOk result (λ s. s ≡ Ready (Var i)) }
{
    match Term::var(alloc, i) {
        Ok(t) => Ok(Sketch::ready(t)),
        Err(TermStop::NoMem) => Err(NoMem),
        Err(TermStop::TooLarge) => unreachable!(),
    }
}

/// A function applied to variables.
fn with_variables(
    alloc: Global,
    function: Sketch<Goal>,
    places: &[u32],
) -> Result<Sketch<Goal>, NoMem>
    ensures { IfOk result (λ s. s ≡ applied_to_variables function places.now) }
{
    match places.split_first() {
        None => Ok(function),
        Some((i, later)) => {
            let variable = variable(alloc, *i)?;
            let applied = Sketch::app(alloc, function, variable)?;
            with_variables(alloc, applied, later)
        }
    }
}

/// Whether the type is a proposition, and the goal or a generalised hypothesis mentions the proof.
fn depends_on_proof(ctx: &Context, goal: &Term, d: &InductiveDecl, i: u32) -> bool
    ensures { result ≡ (is_proposition d.now && depends_on ctx.now goal.now i) }
{
    is_in_prop(d) && depends(ctx, goal, i)
}

/// Whether a name of a branch is that of a hypothesis that stays or comes back, or is given twice.
fn is_name_used(
    alloc: Global,
    ctx: &Context,
    i: u32,
    branches: &[GivenNames],
) -> Result<bool, NoMem>
    requires { i < length ctx.now }
    ensures { IfOk result (λ is. is ≡ some_clash (the_names ctx.now i) branches.now) }
{
    let names = names_without(alloc, ctx, i)?;
    let is_used = any_clash(alloc, &names, branches)?;
    Ok(is_used)
}

/// What is asked of the goal and of the names in the branches, in this order. It gives the eliminator.
fn tested(
    alloc: Global,
    env: &GlobalEnv,
    ctx: &Context,
    goal: &Term,
    d: &InductiveDecl,
    x: &Subject,
    flags: &[List<bool>],
    induction: bool,
    sort: Sort,
    branches: &[GivenNames],
) -> Result<u32, Stop>
    requires variable { x.now.variable < length ctx.now }
    requires flags { flags.now ≡ recursive_in x.now.place d.now.ctors }
    ensures { let tests = the_tests induction env.now ctx.now goal.now d.now x.now sort branches.now in
        Gives result (answer_of tests) }
{
    let count = d.ctors.as_slice().len();
    let Some(eliminator) = eliminator_into(env, x.place, count, sort) else {
        return Err(refusal(NOT_PERMITTED));
    };
    if depends_on_proof(ctx, goal, d, x.variable) {
        return Err(refusal(GOAL_DEPENDS));
    }
    if branches.len() != count {
        return Err(refusal(PATTERN_MISFIT));
    }
    if have_too_many(induction, flags, branches) {
        return Err(refusal(PATTERN_MISFIT));
    }
    if is_name_used(alloc, ctx, x.variable, branches)? {
        return Err(refusal(NAME_USED));
    }
    Ok(eliminator)
}

/// The context of the goals: the subject and what is generalised with it are taken away.
#[tactic(auto, using(crate::proofs::ContextLoops::before_renamed))]
fn without_moved(alloc: Global, ctx: &Context, x: &Subject, moved: &[u32]) -> Result<Context, NoMem>
    requires variable { x.now.variable < length ctx.now }
    requires moved { AreBefore (length ctx.now) moved.now }
    ensures { IfOk result (λ c. c ≡ the_hidden ctx.now (x.now.variable ∷ moved.now)) }
{
    let name = Text::copy(alloc, "_")?;
    let ctx = ctx.rename(alloc, x.variable, name)?;
    hidden(alloc, &ctx, moved)
}

/// The hypotheses that the whole is applied to: the indices, the subject, and what is generalised with it.
fn last_arguments(
    alloc: Global,
    ctx: &Context,
    x: &Subject,
    moved: &[u32],
) -> Result<NumberList, NoMem>
    ensures { IfOk result (λ is. is ≡ x.now.indices ++ (x.now.variable ∷ plain_places ctx.now moved.now)) }
{
    let mut places = copied(alloc, x.indices.as_slice())?;
    places.push(x.variable)?;
    push_plain(ctx, moved, &mut places)?;
    Ok(places)
}

/// The whole term for a claim.
#[tactic(auto, using(crate::proofs::TermParts::ctors_scoped))]
fn term_by(
    alloc: Global,
    env: &GlobalEnv,
    ctx: &Context,
    d: &InductiveDecl,
    x: &Subject,
    flags: &[List<bool>],
    induction: bool,
    eliminator: u32,
    branches: &[GivenNames],
    moved: &[u32],
    c: &Claim,
) -> Result<Sketch<Goal>, Stop>
    requires judged { MayJudge env.now ctx.now }
    requires subject { IsSubjectIn env.now ctx.now d.now x.now }
    requires small { IsSmallSubject x.now }
    requires decl { IsScopedDecl (length env.now) d.now }
    requires flags { flags.now ≡ recursive_in x.now.place d.now.ctors }
    requires places { x.now.place + 1 + length d.now.ctors ≤ length env.now }
    requires moved { AreBefore (length ctx.now) moved.now }
    requires claim { IsClaimIn (length env.now) c.now }
    requires below { c.now.below ≡ length ctx.now }
    requires few { length c.now.indices ≤ 1000 }
    ensures { let term = the_term_by induction env.now ctx.now d.now x.now eliminator branches.now moved.now c.now in
        Gives result (answer_of term) }
{
    let body = c.body.share()?;
    let motive = motive_of(alloc, env, ctx, d, x, body)?;
    let function = at_params(alloc, eliminator, &x.params)?;
    let head = apply(alloc, function, motive)?;
    let hidden = without_moved(alloc, ctx, x, moved)?;
    let names = names_without(alloc, ctx, x.variable)?;
    let places = last_arguments(alloc, ctx, x, moved)?;
    let ctors = d.ctors.as_slice();
    let sketch = with_cases(
        alloc,
        env,
        c,
        induction,
        x,
        &hidden,
        &names,
        0,
        ctors,
        flags,
        branches,
        Sketch::ready(head),
    )?;
    Ok(with_variables(alloc, sketch, places.as_slice())?)
}

/// The same for the hypotheses at some places.
#[tactic(auto, using(crate::proofs::TermParts::claim_scoped, crate::proofs::TermParts::claim_below, crate::proofs::TermParts::claim_few))]
fn term_with(
    alloc: Global,
    env: &GlobalEnv,
    ctx: &Context,
    goal: &Term,
    d: &InductiveDecl,
    x: &Subject,
    flags: &[List<bool>],
    induction: bool,
    eliminator: u32,
    branches: &[GivenNames],
    moved: &[u32],
) -> Result<Sketch<Goal>, Stop>
    requires judged { MayJudge env.now ctx.now }
    requires goal { IsTermIn env.now ctx.now goal.now }
    requires subject { IsSubjectIn env.now ctx.now d.now x.now }
    requires small { IsSmallSubject x.now }
    requires decl { IsScopedDecl (length env.now) d.now }
    requires flags { flags.now ≡ recursive_in x.now.place d.now.ctors }
    requires places { x.now.place + 1 + length d.now.ctors ≤ length env.now }
    requires moved { AreBefore (length ctx.now) moved.now }
    ensures { let term = the_term induction env.now ctx.now goal.now d.now x.now eliminator branches.now moved.now in
        Gives result (answer_of term) }
{
    let claim = claim_of(alloc, env, ctx, goal, d, x, moved)?;
    term_by(
        alloc, env, ctx, d, x, flags, induction, eliminator, branches, moved, &claim,
    )
}

/// The subject, and the hypotheses that are its indices.
fn with_indices(alloc: Global, x: &Subject) -> Result<NumberList, NoMem>
    ensures { IfOk result (λ taken. taken ≡ x.now.variable ∷ x.now.indices) }
{
    let mut taken = NumberList::new(alloc);
    taken.push(x.variable)?;
    push_all(x.indices.as_slice(), &mut taken)?;
    Ok(taken)
}

/// The hypotheses that are generalised with a subject.
fn moved_with(alloc: Global, ctx: &Context, x: &Subject) -> Result<NumberList, NoMem>
    ensures { IfOk result (λ is. is ≡ the_moved ctx.now x.now) }
{
    let taken = with_indices(alloc, x)?;
    let marked = generalised_with(alloc, taken.as_slice(), ctx)?;
    Ok(marked.places)
}

/// A goal of this sort by the constructors of an inductive type.
#[tactic(auto, using(crate::proofs::TermParts::places_of_ctors, crate::proofs::TermParts::moved_are_before))]
fn by_constructors(
    alloc: Global,
    env: &GlobalEnv,
    ctx: &Context,
    goal: &Term,
    d: &InductiveDecl,
    x: &Subject,
    flags: &[List<bool>],
    induction: bool,
    pattern: &Option<Pattern>,
    sort: Sort,
) -> Result<Sketch<Goal>, Stop>
    requires judged { MayJudge env.now ctx.now }
    requires goal { IsTermIn env.now ctx.now goal.now }
    requires subject { IsSubjectIn env.now ctx.now d.now x.now }
    requires small { IsSmallSubject x.now }
    requires decl { IsScopedDecl (length env.now) d.now }
    requires there { Some d.now ≡ decl_at env.now x.now.place }
    requires flags { flags.now ≡ recursive_in x.now.place d.now.ctors }
    ensures { let whole = the_elimination induction env.now ctx.now goal.now x.now (pattern_of pattern.now) sort in
        Gives result (answer_of whole) }
{
    let branches = branches_of(alloc, d.ctors.as_slice(), pattern)?;
    let eliminator = tested(
        alloc,
        env,
        ctx,
        goal,
        d,
        x,
        flags,
        induction,
        sort,
        branches.as_slice(),
    )?;
    let moved = moved_with(alloc, ctx, x)?;
    term_with(
        alloc,
        env,
        ctx,
        goal,
        d,
        x,
        flags,
        induction,
        eliminator,
        branches.as_slice(),
        moved.as_slice(),
    )
}

/// A goal of this sort by the constructors of a subject's type.
pub(crate) fn elimination(
    alloc: Global,
    env: &GlobalEnv,
    ctx: &Context,
    goal: &Term,
    x: &Subject,
    induction: bool,
    pattern: &Option<Pattern>,
    sort: Sort,
) -> Result<Sketch<Goal>, Stop>
    requires judged { MayJudge env.now ctx.now }
    requires goal { IsTermIn env.now ctx.now goal.now }
    requires subject { (d : Declared) → decl_at env.now x.now.place ≡ Some d → IsSubjectIn env.now ctx.now d x.now }
    requires small { IsSmallSubject x.now }
    ensures { let whole = the_elimination induction env.now ctx.now goal.now x.now (pattern_of pattern.now) sort in
        Gives result (answer_of whole) }
{
    let Some(d) = env.inductive(x.place) else {
        return Err(refusal(NOT_INDUCTIVE));
    };
    let Some(shape) = env.shape(x.place) else {
        unreachable!()
    };
    let flags = shape.recursive.as_slice();
    by_constructors(alloc, env, ctx, goal, d, x, flags, induction, pattern, sort)
}
