//! The words that commands begin with.

ghost use Rattle.std.specs.Prelude.{◌≡◌};
ghost use Rattle.coq_syntax.specs.CommandWords as spec;

use crate::{Token, TokenKind, TokenList};

/// The word of a command.
#[derive(Clone, Copy, Debug, PartialEq, Eq)]
pub enum CommandWord {
    Axiom,
    Parameter,
    Definition,
    Theorem,
    Lemma,
    Inductive,
    Check,
    Proof,
    Qed,
    Defined,
    Admitted,
    Abort,
}

#[tactic(auto, unfolding(crate::specs::CommandWords::word_of_text))]
fn word_of_text(text: &str) -> Option<CommandWord>
    ensures { result ≡ spec.word_of_text text.now }
{
    match text {
        "Axiom" => Some(CommandWord::Axiom),
        "Parameter" => Some(CommandWord::Parameter),
        "Definition" => Some(CommandWord::Definition),
        "Theorem" => Some(CommandWord::Theorem),
        "Lemma" => Some(CommandWord::Lemma),
        "Inductive" => Some(CommandWord::Inductive),
        "Check" => Some(CommandWord::Check),
        "Proof" => Some(CommandWord::Proof),
        "Qed" => Some(CommandWord::Qed),
        "Defined" => Some(CommandWord::Defined),
        "Admitted" => Some(CommandWord::Admitted),
        "Abort" => Some(CommandWord::Abort),
        _ => None,
    }
}

/// The command's word with which these tokens begin.
pub fn command_word(tokens: &[Token]) -> Option<CommandWord>
    ensures { result ≡ spec.word_at tokens.now }
{
    match tokens {
        [first, ..] if first.kind == TokenKind::Identifier => word_of_text(first.text.as_str()),
        _ => None,
    }
}

/// Whether a sentence with these tokens is read as a command; else it is read as a proof move.
pub fn is_command(tokens: &TokenList) -> bool
    ensures { result ≡ spec.is_command tokens.now.items }
{
    command_word(tokens.as_slice()).is_some()
}
