//! The goals in focus and the levels around them, and the steps between such states.
ghost use Rattle.std.specs.Prelude.{◌≡◌, ◌+◌, ◌<◌, ◌≤◌, [], ◌∷◌, length, drop, slice_get, IfOk};
ghost use Rattle.bullet_focus.specs.Levels.{waiting_at};
ghost use Rattle.bullet_focus.specs.Steps.{begun, replaced, after_bullet, after_brace_open, after_brace_close, given_up, unsolved, kept, level_begun, resumed, closed};

use crate::levels::{Level, Opener, find};
use crate::stack::{GoalStack, Stack, append, first_alone, with_all_first};
use base_core::refusal_codes::{
    GOAL_UNSOLVED, NO_BRACE, NO_GOAL, NO_GOAL_FOR_BULLET, WRONG_BULLET,
};
use base_core::{NoMem, NumberList};
use std::alloc::Global;
use std::marker::Model;

/// The goals in focus, and the levels that were begun and not ended.
#[derive(Drop)]
pub struct Focus {
    goals: GoalStack,
    levels: Stack<Level>,
}

impl Model for Focus {
    ghost use Rattle.bullet_focus.specs.FocusState.{FocusState};

    ghost Value = { FocusState };

    ghost view = { λ f. record { goals = f.goals; levels = f.levels } };
}

/// What a bullet or a brace leads to.
#[derive(Drop)]
pub struct Focused {
    pub focus: Focus,
    /// The goals that are given up, in order.
    pub admitted: NumberList,
    /// The refusals by their numbers, in order.
    pub refusals: NumberList,
}

impl Focus {
    /// One goal, in focus.
    pub fn begin(alloc: Global, goal: u32) -> Result<Focus, NoMem>
        ensures { IfOk result (λ f. f ≡ begun goal) }
    {
        let goals = Stack::empty().with_first(alloc, goal)?;
        Ok(Focus {
            goals,
            levels: Stack::empty(),
        })
    }

    /// The same state once more, by a count.
    pub fn share(&self) -> Result<Focus, NoMem>
        ensures { IfOk result (λ f. f ≡ self.now) }
    {
        let goals = self.goals.share()?;
        let levels = self.levels.share()?;
        Ok(Focus { goals, levels })
    }

    /// The goals in focus; proof moves act on the first.
    pub fn focused(&self) -> &GoalStack
        ensures { result.now ≡ self.now.goals }
    {
        &self.goals
    }

    /// How many levels there are.
    pub fn levels(&self) -> usize
        ensures { result ≡ length self.now.levels }
    {
        self.levels.len()
    }

    /// The goals that wait in a level: 0 is the innermost.
    pub fn waiting(&self, level: usize) -> &GoalStack
        requires { level < length self.now.levels }
        ensures { result.now ≡ waiting_at self.now.levels level }
    {
        let Some(found) = self.levels.get(level) else {
            unreachable!()
        };
        &found.waiting
    }

    /// The state with other goals in place of the first one in focus.
    pub fn replace_first(&self, alloc: Global, goals: &NumberList) -> Result<Focus, NoMem>
        requires { 0 < length self.now.goals }
        ensures { IfOk result (λ f. f ≡ replaced goals.now self.now) }
    {
        let others = self.goals.behind(0)?;
        let goals = with_all_first(alloc, goals.as_slice(), others)?;
        let levels = self.levels.share()?;
        Ok(Focus { goals, levels })
    }

    /// A bullet: its character, and how many of it stand together. It takes up a goal that waits in the level
    /// of this bullet, or begins one.
    pub fn bullet(&self, alloc: Global, mark: u8, count: u32) -> Result<Focused, NoMem>
        ensures { IfOk result (λ r. r ≡ after_bullet mark count self.now) }
    {
        let opener = Opener::Bullet { mark, count };
        match find(&self.levels, opener) {
            Some(place) => self.resume(alloc, opener, place),
            None => self.begin_level(alloc, opener, WRONG_BULLET),
        }
    }

    /// `{`: the first goal alone, until the brace is closed.
    pub fn brace_open(&self, alloc: Global) -> Result<Focused, NoMem>
        ensures { IfOk result (λ r. r ≡ after_brace_open self.now) }
    {
        self.begin_level(alloc, Opener::Brace, NO_GOAL)
    }

    /// `}`: the goals that waited when the last brace was opened.
    pub fn brace_close(&self, alloc: Global) -> Result<Focused, NoMem>
        ensures { IfOk result (λ r. r ≡ after_brace_close self.now) }
    {
        match find(&self.levels, Opener::Brace) {
            Some(place) => self.close(alloc, place),
            None => self.refuse(alloc, NO_BRACE),
        }
    }

    fn refuse(&self, alloc: Global, code: u16) -> Result<Focused, NoMem>
        ensures { IfOk result (λ r. r ≡ kept code self.now) }
    {
        let focus = self.share()?;
        let mut refusals = NumberList::new(alloc);
        refusals.push(u32::from(code))?;
        Ok(Focused {
            focus,
            admitted: NumberList::new(alloc),
            refusals,
        })
    }

    fn begin_level(&self, alloc: Global, opener: Opener, code: u16) -> Result<Focused, NoMem>
        ensures { IfOk result (λ r. r ≡ level_begun code opener self.now) }
    {
        if self.goals.len() == 0 {
            return self.refuse(alloc, code);
        }
        let goals = first_alone(alloc, &self.goals)?;
        let waiting = self.goals.behind(0)?;
        let levels = self.levels.with_first(alloc, Level { opener, waiting })?;
        Ok(Focused {
            focus: Focus { goals, levels },
            admitted: NumberList::new(alloc),
            refusals: NumberList::new(alloc),
        })
    }

    fn resume(&self, alloc: Global, opener: Opener, place: usize) -> Result<Focused, NoMem>
        requires { place < length self.now.levels }
        ensures { IfOk result (λ r. r ≡ resumed opener place self.now) }
    {
        let admitted = given_up(alloc, &self.goals, &self.levels, place)?;
        let mut refusals = unsolved(alloc, &admitted)?;
        let waiting = self.waiting(place);
        let goals = first_alone(alloc, waiting)?;
        let waiting = if waiting.len() == 0 {
            refusals.push(u32::from(NO_GOAL_FOR_BULLET))?;
            Stack::empty()
        } else {
            waiting.behind(0)?
        };
        let outer = self.levels.behind(place)?;
        let levels = outer.with_first(alloc, Level { opener, waiting })?;
        Ok(Focused {
            focus: Focus { goals, levels },
            admitted,
            refusals,
        })
    }

    fn close(&self, alloc: Global, place: usize) -> Result<Focused, NoMem>
        requires { place < length self.now.levels }
        ensures { IfOk result (λ r. r ≡ closed place self.now) }
    {
        let admitted = given_up(alloc, &self.goals, &self.levels, place)?;
        let refusals = unsolved(alloc, &admitted)?;
        let goals = self.waiting(place).share()?;
        let levels = self.levels.behind(place)?;
        Ok(Focused {
            focus: Focus { goals, levels },
            admitted,
            refusals,
        })
    }
}

/// The goals in focus, and then those that wait in the innermost `count` levels.
fn given_up(
    alloc: Global,
    goals: &GoalStack,
    levels: &Stack<Level>,
    count: usize,
) -> Result<NumberList, NoMem>
    requires { count ≤ length levels.now }
    ensures { IfOk result (λ all. all ≡ given_up goals.now levels.now count) }
{
    let mut all = NumberList::new(alloc);
    append(&mut all, goals)?;
    for at in 0..count {
        let Some(level) = levels.get(at) else {
            unreachable!()
        };
        append(&mut all, &level.waiting)?;
    }
    Ok(all)
}

/// The refusal of goals that are given up.
fn unsolved(alloc: Global, goals: &NumberList) -> Result<NumberList, NoMem>
    ensures { IfOk result (λ refusals. refusals ≡ unsolved goals.now) }
{
    let mut refusals = NumberList::new(alloc);
    if goals.len() > 0 {
        refusals.push(u32::from(GOAL_UNSOLVED))?;
    }
    Ok(refusals)
}
