//! The moves without a term.

ghost use Rattle.std.specs.Prelude.{◌∷◌};
ghost use Rattle.coq_syntax.specs.Forms.{move_of};
ghost use Rattle.coq_syntax.specs.Moves.{IsMoveOf, move_fault};
ghost use Rattle.coq_syntax.specs.Spelled as spelled;
ghost use Rattle.move_parser.specs.MoveWords.{plain_text};
ghost use Rattle.move_parser.specs.Parts.{IsPart};

use crate::cursor::{Cursor, Halt};
use crate::move_word::PlainWord;
use coq_syntax::{MoveForm, Token, TokenPlace};
use std::alloc::Global;

/// The move that such a word begins, whose place this is, with these tokens behind it.
pub fn plain<'a>(
    alloc: Global,
    word: PlainWord,
    keyword: TokenPlace,
    rest: &'a [Token],
) -> Result<MoveForm, Halt<'a>>
    ensures { IsPart IsMoveOf move_fault move_of (spelled.keyword (plain_text word) keyword ∷ rest.now) result }
{
    let mut cursor = Cursor::new(rest);
    match word {
        PlainWord::Intro => {
            let name = cursor.last_optional(alloc)?;
            Ok(MoveForm::Intro { keyword, name })
        }
        PlainWord::Intros => {
            let names = cursor.last_identifiers(alloc)?;
            Ok(MoveForm::Intros { keyword, names })
        }
        PlainWord::Unfold => {
            let name = cursor.last_identifier(alloc)?;
            Ok(MoveForm::Unfold { keyword, name })
        }
        PlainWord::Destruct => {
            let (name, pattern) = cursor.subject(alloc)?;
            Ok(MoveForm::Destruct {
                keyword,
                name,
                pattern,
            })
        }
        PlainWord::Induction => {
            let (name, pattern) = cursor.subject(alloc)?;
            Ok(MoveForm::Induction {
                keyword,
                name,
                pattern,
            })
        }
        PlainWord::Assumption => {
            cursor.end()?;
            Ok(MoveForm::Assumption(keyword))
        }
        PlainWord::Split => {
            cursor.end()?;
            Ok(MoveForm::Split(keyword))
        }
        PlainWord::Left => {
            cursor.end()?;
            Ok(MoveForm::Left(keyword))
        }
        PlainWord::Right => {
            cursor.end()?;
            Ok(MoveForm::Right(keyword))
        }
        PlainWord::Reflexivity => {
            cursor.end()?;
            Ok(MoveForm::Reflexivity(keyword))
        }
        PlainWord::Admit => {
            cursor.end()?;
            Ok(MoveForm::Admit(keyword))
        }
        PlainWord::Simpl => {
            cursor.end()?;
            Ok(MoveForm::Simpl(keyword))
        }
    }
}
