//! Proofs under way: goals in any order, goals that are given up, old states and the whole term.
ghost use Rattle.std.specs.Prelude.{List, Some, IfOk};
ghost use Rattle.cic_rules.specs.declared.context.Hyp.{Hyp};
ghost use Rattle.proof_state.specs.Steps.{Fits, MayFill};
ghost use Rattle.proof_state.specs.Proof.{Unsolved};
ghost use Rattle.proof_state.specs.IsProof.{IsGoal};

use base_core::{Limit, Stop, Text};
use cic_rules::Context;
use core_term::{Node, Sort, Term};
use proof_state::{Filling, Goal, ProofState, Refined, Sketch};
use std::alloc::Global;
use std::process::Abort;
use std::test::Fail;

/// What is done with a goal.
#[derive(Clone, Copy)]
enum How {
    /// A global solves it.
    Global(u32),
    /// The same goal takes its place.
    Same,
    /// A function and its argument, a goal each.
    Apply,
    /// A function of a proposition, whose body is a goal.
    Function,
    GiveUp,
}

/// A step at the goal of a number.
type Step = (u32, How);

struct Case {
    /// What is done from the goal 0 on.
    steps: &'static [Step],
    /// How many goals were ever made.
    goals: usize,
    given_up: &'static [u32],
    /// The whole term, if no goal is left: a letter is a global, `P` the sort of propositions, and behind its parts
    /// stand `@` for an application and `!` for a function.
    whole: &'static str,
}

const CASES: [Case; 6] = [
    // Nothing is done.
    Case {
        steps: &[],
        goals: 1,
        given_up: &[],
        whole: "",
    },
    // One step.
    Case {
        steps: &[(0, How::Global(0))],
        goals: 1,
        given_up: &[],
        whole: "a",
    },
    // The argument before the function.
    Case {
        steps: &[(0, How::Apply), (2, How::Global(1)), (1, How::Global(0))],
        goals: 3,
        given_up: &[],
        whole: "ab@",
    },
    // Goals of a goal that was made first, after those of one that was made later.
    Case {
        steps: &[
            (0, How::Apply),
            (2, How::Apply),
            (1, How::Function),
            (4, How::Global(2)),
            (5, How::Global(0)),
            (3, How::Same),
            (6, How::Global(1)),
        ],
        goals: 7,
        given_up: &[],
        whole: "Pa!bc@@",
    },
    // Goals are given up in another order than they were made, and a goal of one that was solved.
    Case {
        steps: &[
            (0, How::Apply),
            (2, How::GiveUp),
            (1, How::Apply),
            (4, How::GiveUp),
            (3, How::GiveUp),
        ],
        goals: 5,
        given_up: &[2, 4, 3],
        whole: "",
    },
    // One goal is given up, and all others are solved.
    Case {
        steps: &[(0, How::Apply), (1, How::GiveUp), (2, How::Global(0))],
        goals: 3,
        given_up: &[1],
        whole: "",
    },
];

/// How many steps the long proof has.
const MANY: u32 = 100_000;

/// How many functions may stand in one another around a global.
const DEEPEST: u32 = 999;

fn first(alloc: Global) -> Result<ProofState, Fail> {
    let statement = Term::sort(alloc, Sort::PropSort)?;
    let proof = ProofState::start(alloc, &Context::empty(), &statement)?;
    Ok(proof)
}

fn global(alloc: Global, place: u32) -> Result<Sketch<Goal>, Fail>
    ensures { IfOk result (λ s. (ctx : List Hyp) → Fits ctx s) }
{
    let term = Term::constant(alloc, place)?;
    Ok(Sketch::ready(term))
}

fn same(goal: &Goal) -> Result<Sketch<Goal>, Fail>
    requires { IsGoal goal.now }
    ensures { IfOk result (λ s. Fits goal.now.ctx s) }
{
    let goal = goal.share()?;
    Ok(Sketch::hole(goal))
}

fn apply(alloc: Global, goal: &Goal) -> Result<Sketch<Goal>, Fail>
    requires { IsGoal goal.now }
    ensures { IfOk result (λ s. Fits goal.now.ctx s) }
{
    let function = same(goal)?;
    let argument = same(goal)?;
    let sketch = Sketch::app(alloc, function, argument)?;
    Ok(sketch)
}

fn function(alloc: Global, goal: &Goal) -> Result<Sketch<Goal>, Fail>
    ensures { IfOk result (λ s. Fits goal.now.ctx s) }
{
    let name = Text::copy(alloc, "x")?;
    let domain = Term::sort(alloc, Sort::PropSort)?;
    let ty = Term::sort(alloc, Sort::PropSort)?;
    let Ok(ctx) = goal.ctx.with_plain(alloc, &name, &domain) else {
        return Err(Fail::from("no room"));
    };
    let body = Sketch::hole(Goal { ctx, ty });
    let sketch = Sketch::lam(alloc, name, domain, body)?;
    Ok(sketch)
}

fn state_of(refined: Result<Refined, Stop>) -> Result<ProofState, Fail> {
    match refined {
        Ok(refined) => Ok(refined.proof),
        Err(_) => Err(Fail::from("a step ended")),
    }
}

fn filling(alloc: Global, goal: &Goal, how: How) -> Result<Filling, Fail>
    requires { IsGoal goal.now }
    ensures { IfOk result (λ by. MayFill (Some (Unsolved goal.now)) by) }
{
    let sketch = match how {
        How::Global(place) => global(alloc, place)?,
        How::Same => same(goal)?,
        How::Apply => apply(alloc, goal)?,
        How::Function => function(alloc, goal)?,
        How::GiveUp => return Ok(Filling::Admit),
    };
    Ok(Filling::Give(sketch))
}

#[tactic(auto, using(proof_state::proofs::Keeps::may_be_filled))]
fn take_step(alloc: Global, proof: &ProofState, n: u32, how: How) -> Result<ProofState, Fail> {
    let Some(goal) = proof.unsolved(n) else {
        return Err(Fail::from("no goal"));
    };
    let by = filling(alloc, goal, how)?;
    state_of(proof.refine(alloc, n, by))
}

/// The state after some steps from another one.
fn play(alloc: Global, from: &ProofState, steps: &[Step]) -> Result<ProofState, Fail> {
    let mut proof = from.share()?;
    for step in steps {
        proof = take_step(alloc, &proof, step.0, step.1)?;
    }
    Ok(proof)
}

fn spell(term: &Term, text: &mut Vec<u8>) -> Result<(), Fail> {
    match term.node() {
        Node::Constant(place) => text.push(b'a' + (*place % 26) as u8)?,
        Node::Sorted(_) => text.push(b'P')?,
        Node::Lam { domain, body, .. } => {
            spell(domain, text)?;
            spell(body, text)?;
            text.push(b'!')?;
        }
        Node::App { function, argument } => {
            spell(function, text)?;
            spell(argument, text)?;
            text.push(b'@')?;
        }
        _ => text.push(b'?')?,
    }
    Ok(())
}

/// The whole term of a proof without goals, as a text.
fn whole(alloc: Global, proof: &ProofState) -> Result<Vec<u8>, Fail> {
    let mut text = Vec::new(alloc);
    if proof.is_whole() {
        let Ok(term) = proof.close(alloc) else {
            return Err(Fail::from("not closed"));
        };
        spell(&term, &mut text)?;
    }
    Ok(text)
}

fn try_given_up(rt: &impl Abort, proof: &ProofState, wanted: &[u32]) {
    let given_up = proof.given_up();
    assert_eq!(rt; given_up.len(), wanted.len());
    for (at, n) in wanted.iter().enumerate() {
        assert_eq!(rt; given_up.get(at).copied(), Some(*n));
    }
}

fn try_end(rt: &impl Abort, alloc: Global, case: &Case) -> Result<(), Fail> {
    let proof = play(alloc, &first(alloc)?, case.steps)?;
    assert_eq!(rt; proof.goal_count(), case.goals);
    try_given_up(rt, &proof, case.given_up);
    let text = whole(alloc, &proof)?;
    assert_eq!(rt; text.as_slice(), case.whole.as_bytes());
    Ok(())
}

/// The state in the middle, taken to the end once more after the last step.
fn try_old(rt: &impl Abort, alloc: Global, case: &Case) -> Result<(), Fail> {
    let (early, late) = case.steps.split_at(case.steps.len() / 2);
    let old = play(alloc, &first(alloc)?, early)?;
    let end = play(alloc, &old, late)?;
    let again = play(alloc, &old, late)?;
    assert_eq!(rt; again.goal_count(), end.goal_count());
    let text = whole(alloc, &again)?;
    assert_eq!(rt; text.as_slice(), case.whole.as_bytes());
    Ok(())
}

fn try_case(rt: &impl Abort, alloc: Global, case: &Case) -> Result<(), Fail> {
    try_end(rt, alloc, case)?;
    try_old(rt, alloc, case)
}

fn many_steps(alloc: Global) -> Result<ProofState, Fail> {
    let mut proof = first(alloc)?;
    for n in 0..MANY {
        proof = take_step(alloc, &proof, n, How::Same)?;
    }
    take_step(alloc, &proof, MANY, How::Global(0))
}

/// So many functions in one another.
fn functions(alloc: Global, count: u32) -> Result<ProofState, Fail> {
    let mut proof = first(alloc)?;
    for n in 0..count {
        proof = take_step(alloc, &proof, n, How::Function)?;
    }
    take_step(alloc, &proof, count, How::Global(0))
}

/// Whether the whole term of a proof without goals is too large.
fn is_too_large(alloc: Global, proof: &ProofState) -> bool {
    if proof.is_whole() {
        return matches!(proof.close(alloc), Err(Stop::Out(Limit::SizeLimit)));
    }
    false
}

#[test]
fn terms_at_the_limit_of_depth(rt: HostRuntime) -> Result<(), Fail> {
    let alloc = rt.alloc();
    let deepest = whole(alloc, &functions(alloc, DEEPEST)?)?;
    assert_eq!(&rt; deepest.len(), 1999);
    assert_eq!(&rt; is_too_large(alloc, &functions(alloc, DEEPEST + 1)?), true);
    Ok(())
}

#[test]
fn many_goals_one_after_another(rt: HostRuntime) -> Result<(), Fail> {
    let alloc = rt.alloc();
    let proof = many_steps(alloc)?;
    let text = whole(alloc, &proof)?;
    assert_eq!(&rt; text.as_slice(), "a".as_bytes());
    Ok(())
}

#[test]
fn goals_in_any_order(rt: HostRuntime) -> Result<(), Fail> {
    for case in &CASES {
        try_case(&rt, rt.alloc(), case)?;
    }
    Ok(())
}
