//! Bullets and braces: the goals in focus, those that wait, those given up, and the refusals.
use base_core::{NoMem, NumberList};
use bullet_focus::{Focus, Focused, GoalStack};
use std::alloc::Global;
use std::process::Abort;

/// A step of a proof. `Solve` puts other goals in place of the first one in focus, if there is one.
enum Step {
    Solve(&'static [u32]),
    Bullet(u8, u32),
    Open,
    Close,
}

struct Case {
    /// What is done from the goal 0 on.
    steps: &'static [Step],
    focused: &'static [u32],
    /// The goals that wait, the innermost level first.
    waiting: &'static [&'static [u32]],
    /// What is given up, and what is refused, over all steps.
    admitted: &'static [u32],
    refusals: &'static [u32],
}

const CASES: [Case; 14] = [
    // A brace that wasn't opened, and a bullet where no goal is in focus.
    Case {
        steps: &[Step::Close, Step::Solve(&[]), Step::Bullet(b'-', 1)],
        focused: &[],
        waiting: &[],
        admitted: &[],
        refusals: &[52, 50],
    },
    // Two goals by bullets, and a bullet too many.
    Case {
        steps: &[
            Step::Solve(&[1, 2]),
            Step::Bullet(b'-', 1),
            Step::Solve(&[]),
            Step::Bullet(b'-', 1),
            Step::Solve(&[]),
            Step::Bullet(b'-', 1),
        ],
        focused: &[],
        waiting: &[&[]],
        admitted: &[],
        refusals: &[59],
    },
    // A wrong bullet where the goals wait, which the right one then takes up.
    Case {
        steps: &[
            Step::Solve(&[1, 2]),
            Step::Bullet(b'-', 1),
            Step::Solve(&[]),
            Step::Bullet(b'+', 1),
            Step::Bullet(b'-', 1),
            Step::Solve(&[]),
            Step::Bullet(b'+', 1),
        ],
        focused: &[],
        waiting: &[&[]],
        admitted: &[],
        refusals: &[50, 50],
    },
    // Goals of three levels given up at once, the innermost level first.
    Case {
        steps: &[
            Step::Solve(&[1, 2]),
            Step::Bullet(b'-', 1),
            Step::Solve(&[3, 4]),
            Step::Bullet(b'+', 1),
            Step::Solve(&[5, 6]),
            Step::Bullet(b'*', 1),
            Step::Solve(&[7, 8]),
            Step::Bullet(b'-', 1),
        ],
        focused: &[2],
        waiting: &[&[]],
        admitted: &[7, 8, 6, 4],
        refusals: &[51],
    },
    // The same, where the level itself has no goal left: 51 and then 59.
    Case {
        steps: &[
            Step::Bullet(b'-', 1),
            Step::Solve(&[1, 2, 3]),
            Step::Bullet(b'+', 1),
            Step::Bullet(b'-', 1),
        ],
        focused: &[],
        waiting: &[&[]],
        admitted: &[1, 2, 3],
        refusals: &[51, 59],
    },
    // Each of several goals given up by the next bullet.
    Case {
        steps: &[
            Step::Solve(&[1, 2, 3]),
            Step::Bullet(b'-', 1),
            Step::Bullet(b'-', 1),
            Step::Bullet(b'-', 1),
        ],
        focused: &[3],
        waiting: &[&[]],
        admitted: &[1, 2],
        refusals: &[51, 51],
    },
    // Three kinds of marks, and repeated ones, are levels of their own.
    Case {
        steps: &[
            Step::Solve(&[1, 2]),
            Step::Bullet(b'-', 1),
            Step::Solve(&[3, 4]),
            Step::Bullet(b'-', 2),
            Step::Solve(&[5, 6]),
            Step::Bullet(b'+', 1),
            Step::Solve(&[7, 8]),
            Step::Bullet(b'*', 3),
        ],
        focused: &[7],
        waiting: &[&[8], &[6], &[4], &[2]],
        admitted: &[],
        refusals: &[],
    },
    // The repeated mark takes up its own level.
    Case {
        steps: &[
            Step::Solve(&[1, 2]),
            Step::Bullet(b'-', 1),
            Step::Solve(&[3, 4]),
            Step::Bullet(b'-', 2),
            Step::Solve(&[]),
            Step::Bullet(b'-', 2),
        ],
        focused: &[4],
        waiting: &[&[], &[2]],
        admitted: &[],
        refusals: &[],
    },
    // A bullet above a brace begins a level, though one below the brace has its mark.
    Case {
        steps: &[
            Step::Solve(&[1, 2]),
            Step::Bullet(b'-', 1),
            Step::Open,
            Step::Solve(&[3, 4]),
            Step::Bullet(b'-', 1),
        ],
        focused: &[3],
        waiting: &[&[4], &[], &[2]],
        admitted: &[],
        refusals: &[],
    },
    // Above a brace the bullets below it can't be taken up.
    Case {
        steps: &[
            Step::Solve(&[1, 2]),
            Step::Bullet(b'-', 1),
            Step::Open,
            Step::Solve(&[]),
            Step::Bullet(b'-', 1),
        ],
        focused: &[],
        waiting: &[&[], &[2]],
        admitted: &[],
        refusals: &[50],
    },
    // A brace takes the first goal, and gives the others back.
    Case {
        steps: &[
            Step::Solve(&[1, 2, 3]),
            Step::Open,
            Step::Solve(&[]),
            Step::Open,
            Step::Close,
        ],
        focused: &[2, 3],
        waiting: &[],
        admitted: &[],
        refusals: &[56],
    },
    // A brace closed over goals: those of the levels above it in order, told once.
    Case {
        steps: &[
            Step::Solve(&[1, 2]),
            Step::Open,
            Step::Solve(&[3, 4]),
            Step::Bullet(b'-', 1),
            Step::Solve(&[5, 6]),
            Step::Bullet(b'+', 1),
            Step::Close,
        ],
        focused: &[2],
        waiting: &[],
        admitted: &[5, 6, 4],
        refusals: &[51],
    },
    // Braces in one another.
    Case {
        steps: &[
            Step::Solve(&[1, 2]),
            Step::Open,
            Step::Solve(&[3, 4]),
            Step::Open,
            Step::Solve(&[5, 6]),
            Step::Close,
            Step::Close,
        ],
        focused: &[2],
        waiting: &[],
        admitted: &[5, 6, 4],
        refusals: &[51, 51],
    },
    // A proof move's goals stand in the place of the first, before the others.
    Case {
        steps: &[
            Step::Solve(&[1, 2, 3]),
            Step::Solve(&[4, 5]),
            Step::Solve(&[]),
            Step::Solve(&[6, 7, 8, 9]),
        ],
        focused: &[6, 7, 8, 9, 2, 3],
        waiting: &[],
        admitted: &[],
        refusals: &[],
    },
];

/// How many goals the long proof has.
const MANY: u32 = 3_000;

/// What steps have told so far.
#[derive(Drop)]
struct Told {
    admitted: NumberList,
    refusals: NumberList,
}

fn nothing_told(alloc: Global) -> Told {
    Told {
        admitted: NumberList::new(alloc),
        refusals: NumberList::new(alloc),
    }
}

fn put_all(all: &mut NumberList, more: &[u32]) -> Result<(), NoMem> {
    for number in more {
        all.push(*number)?;
    }
    Ok(())
}

fn solve(alloc: Global, focus: &Focus, goals: &[u32]) -> Result<Focus, NoMem> {
    if focus.focused().len() == 0 {
        return focus.share();
    }
    let goals = NumberList::copy(alloc, goals)?;
    focus.replace_first(alloc, &goals)
}

fn note(after: Focused, told: &mut Told) -> Result<Focus, NoMem> {
    put_all(&mut told.admitted, after.admitted.as_slice())?;
    put_all(&mut told.refusals, after.refusals.as_slice())?;
    Ok(after.focus)
}

fn take_step(alloc: Global, focus: &Focus, step: &Step, told: &mut Told) -> Result<Focus, NoMem> {
    match step {
        Step::Solve(goals) => solve(alloc, focus, goals),
        Step::Bullet(mark, count) => note(focus.bullet(alloc, *mark, *count)?, told),
        Step::Open => note(focus.brace_open(alloc)?, told),
        Step::Close => note(focus.brace_close(alloc)?, told),
    }
}

/// The state after some steps from another one.
fn play(alloc: Global, from: &Focus, steps: &[Step], told: &mut Told) -> Result<Focus, NoMem> {
    let mut focus = from.share()?;
    for step in steps {
        focus = take_step(alloc, &focus, step, told)?;
    }
    Ok(focus)
}

fn play_all(alloc: Global, steps: &[Step], told: &mut Told) -> Result<Focus, NoMem> {
    let first = Focus::begin(alloc, 0)?;
    play(alloc, &first, steps, told)
}

fn try_goals(rt: &impl Abort, goals: &GoalStack, wanted: &[u32]) {
    assert_eq!(rt; goals.len(), wanted.len());
    for (at, goal) in wanted.iter().enumerate() {
        assert_eq!(rt; goals.get(at).copied(), Some(*goal));
    }
}

fn try_waiting(rt: &impl Abort, focus: &Focus, wanted: &[&[u32]]) {
    assert_eq!(rt; focus.levels(), wanted.len());
    for (level, goals) in wanted.iter().enumerate() {
        if level < focus.levels() {
            try_goals(rt, focus.waiting(level), goals);
        }
    }
}

fn try_told(rt: &impl Abort, told: &Told, case: &Case) {
    assert_eq!(rt; told.admitted.as_slice(), case.admitted);
    assert_eq!(rt; told.refusals.as_slice(), case.refusals);
}

fn try_end(rt: &impl Abort, alloc: Global, case: &Case) -> Result<(), NoMem> {
    let mut told = nothing_told(alloc);
    let focus = play_all(alloc, case.steps, &mut told)?;
    try_goals(rt, focus.focused(), case.focused);
    try_waiting(rt, &focus, case.waiting);
    try_told(rt, &told, case);
    Ok(())
}

/// The state in the middle, read after the last step, is that of a proof that ends there.
fn try_old(rt: &impl Abort, alloc: Global, case: &Case) -> Result<(), NoMem> {
    let mut told = nothing_told(alloc);
    let (early, late) = case.steps.split_at(case.steps.len() / 2);
    let old = play_all(alloc, early, &mut told)?;
    let _end = play(alloc, &old, late, &mut told)?;
    let fresh = play_all(alloc, early, &mut told)?;
    try_same(rt, &old, &fresh);
    Ok(())
}

fn try_same(rt: &impl Abort, first: &Focus, second: &Focus) {
    try_same_goals(rt, first.focused(), second.focused());
    assert_eq!(rt; first.levels(), second.levels());
    for level in 0..first.levels() {
        if level < second.levels() {
            try_same_goals(rt, first.waiting(level), second.waiting(level));
        }
    }
}

fn try_same_goals(rt: &impl Abort, first: &GoalStack, second: &GoalStack) {
    assert_eq!(rt; first.len(), second.len());
    for at in 0..first.len() {
        assert_eq!(rt; first.get(at).copied(), second.get(at).copied());
    }
}

fn try_case(rt: &impl Abort, alloc: Global, case: &Case) -> Result<(), NoMem> {
    try_end(rt, alloc, case)?;
    try_old(rt, alloc, case)
}

fn many_goals(alloc: Global) -> Result<NumberList, NoMem> {
    let mut goals = NumberList::new(alloc);
    for goal in 0..MANY {
        goals.push(goal)?;
    }
    Ok(goals)
}

/// Each of many goals is solved in two steps.
fn solve_many(alloc: Global, focus: &Focus) -> Result<Focus, NoMem> {
    let mut focus = focus.share()?;
    for _ in 0..MANY {
        focus = solve(alloc, &focus, &[7])?;
        focus = solve(alloc, &focus, &[])?;
    }
    Ok(focus)
}

fn many_in_brace(alloc: Global, goals: &[u32], told: &mut Told) -> Result<Focus, NoMem> {
    let first = Focus::begin(alloc, 0)?;
    let focus = note(first.brace_open(alloc)?, told)?;
    solve(alloc, &focus, goals)
}

fn try_solved(rt: &impl Abort, alloc: Global, many: &Focus) -> Result<(), NoMem> {
    let solved = solve_many(alloc, many)?;
    assert_eq!(rt; solved.focused().len(), 0);
    Ok(())
}

fn given_up(alloc: Global, many: &Focus) -> Result<NumberList, NoMem> {
    let closed = many.brace_close(alloc)?;
    Ok(closed.admitted)
}

/// Many goals in a brace: solved one after another, and, in the state before that, given up all at once.
fn try_many(rt: &impl Abort, alloc: Global, goals: &[u32], told: &mut Told) -> Result<(), NoMem> {
    let many = many_in_brace(alloc, goals, told)?;
    try_solved(rt, alloc, &many)?;
    let all = given_up(alloc, &many)?;
    assert_eq!(rt; all.as_slice(), goals);
    Ok(())
}

#[test]
fn many_goals_in_a_brace(rt: HostRuntime) -> Result<(), NoMem> {
    let goals = many_goals(rt.alloc())?;
    let mut told = nothing_told(rt.alloc());
    try_many(&rt, rt.alloc(), goals.as_slice(), &mut told)
}

#[test]
fn bullets_and_braces(rt: HostRuntime) -> Result<(), NoMem> {
    for case in &CASES {
        try_case(&rt, rt.alloc(), case)?;
    }
    Ok(())
}
