//! What a sentence is read as: by its kind, and where that is plain by its tokens.
ghost use Rattle.std.specs.Prelude.{◌≡◌, ◌^◌, ◌<◌, length, IfOk};
ghost use Rattle.base_core.specs.Answers.{Gives};
ghost use Rattle.base_core.specs.Fit.{IsFit, IsBulletText};
ghost use Rattle.vernac_exec.specs.Readings.{is_end, is_end_of, bullet, read_tokens, reading};

use crate::entering::refusal;
use base_core::refusal_codes::UNFINISHED;
use base_core::{Kind, Stop};
use coq_syntax::{Command, CommandForm, MoveTree, TokenList, is_command, tokens};
use move_parser::parse_move;
use std::alloc::Global;
use vernac_parser::parse_command;

/// What a sentence is read as.
#[derive(Drop)]
pub enum Reading {
    Command(Command),
    Move(MoveTree),
    /// A bullet: its character, and how many of it there are.
    Bullet { mark: u8, count: u32 },
    OpenBrace,
    CloseBrace,
}

impl Reading {
    /// Whether it is `Qed` or `Defined`.
    pub(crate) fn is_end(&self) -> bool
        ensures { result ≡ is_end self.now }
    {
        match self {
            Reading::Command(command) => {
                matches!(
                    command.form(),
                    CommandForm::Qed(_) | CommandForm::Defined(_)
                )
            }
            _ => false,
        }
    }
}

/// Whether a sentence is one that was read as `Qed` or `Defined`.
pub(crate) fn is_end_of(reading: &Result<Reading, Stop>) -> bool
    ensures { result ≡ is_end_of reading.now }
{
    match reading {
        Ok(reading) => reading.is_end(),
        Err(_) => false,
    }
}

/// The command or the proof move that the tokens are.
fn read_tokens(alloc: Global, tokens: &TokenList) -> Result<Reading, Stop>
    ensures { Gives result (read_tokens tokens.now) }
{
    if is_command(tokens) {
        let command = parse_command(alloc, tokens)?;
        return Ok(Reading::Command(command));
    }
    let step = parse_move(alloc, tokens)?;
    Ok(Reading::Move(step))
}

/// A bullet by its text.
fn bullet(text: &str) -> Reading
    requires fit { IsBulletText text.now }
    requires short { length text.now < 2 ^ 32 }
    ensures { result ≡ bullet text.now }
{
    Reading::Bullet {
        mark: text.as_bytes()[0],
        count: text.len() as u32,
    }
}

/// What a sentence is read as.
#[tactic(auto, unfolding(crate::specs::Readings::reading))]
pub(crate) fn read(alloc: Global, kind: Kind, text: &str) -> Result<Reading, Stop>
    requires fit { IsFit kind text.now }
    requires short { length text.now < 2 ^ 32 }
    ensures { Gives result (reading kind text.now) }
{
    match kind {
        Kind::Unfinished => Err(refusal(UNFINISHED)),
        Kind::Bullet => Ok(bullet(text)),
        Kind::BraceOpen => Ok(Reading::OpenBrace),
        Kind::BraceClose => Ok(Reading::CloseBrace),
        Kind::Plain => {
            let tokens = tokens(alloc, text)?;
            read_tokens(alloc, &tokens)
        }
    }
}
