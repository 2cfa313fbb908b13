//! Levels: what each was begun by, and the goals that wait in it.
ghost use Rattle.std.specs.Prelude.{◌≡◌, ◌<◌, length, IfSome};
ghost use Rattle.bullet_focus.specs.Levels.{place_of, is_brace, same_opener};

use crate::stack::{GoalStack, Stack};

/// What a level is begun by. A bullet is its character, as `-`, and how many of it there are.
#[derive(Clone, Copy)]
pub enum Opener {
    Bullet { mark: u8, count: u32 },
    Brace,
}

/// A level, with the goals that wait until those before them are done.
#[derive(Drop)]
pub struct Level {
    pub opener: Opener,
    pub waiting: GoalStack,
}

/// Whether two levels are begun alike.
fn is_same(first: Opener, second: Opener) -> bool
    ensures { result ≡ same_opener first second }
{
    match first {
        Opener::Brace => is_brace(second),
        Opener::Bullet { mark, count } => match second {
            Opener::Brace => false,
            Opener::Bullet {
                mark: other_mark,
                count: other_count,
            } => mark == other_mark && count == other_count,
        },
    }
}

fn is_brace(opener: Opener) -> bool
    ensures { result ≡ is_brace opener }
{
    match opener {
        Opener::Brace => true,
        Opener::Bullet { .. } => false,
    }
}

/// The place of the level that is begun so, counted from the innermost. Levels outside the last brace aren't seen.
/// It walks the levels down to that place; bullets without a brace between them all differ.
pub(crate) fn find(levels: &Stack<Level>, opener: Opener) -> Option<usize>
    ensures place { result ≡ place_of opener levels.now }
    ensures within { IfSome result (λ place. place < length levels.now) }
{
    for at in 0..levels.len() {
        let Some(level) = levels.get(at) else {
            unreachable!()
        };
        if is_same(opener, level.opener) {
            return Some(at);
        }
        if is_brace(level.opener) {
            return None;
        }
    }
    None
}
